//! The commands that take no link, by both top calls. The hashes of what is minted were computed by a script of its own.
use crate::serve::outside::{Input, Outside, ends_plainly};
use crate::serve::trial::{Row, all_answer_plainly, both_answer};
use std::random::RandomSource;
use std::test::Fail;
use trial_kit::LINE_1;

const SEED: &str = "0000000000000000000000000000000000000000000000000000000000000000";

const TWO_SEEDS: &str = "0202020202020202020202020202020202020202020202020202020202020202";

/// The first key of the generator of 32 zero bytes, with its SHA-1 before it.
const MINTED: &str =
    "c27d85cec2a31b5c03e13af0dbac44b20e0a9112 76b8e0ada0f13d90405d6ae55386bd28bdd219b8a08ded1aa836efcc8b770dc7 0000000000000000000000000000000000000000\n";

/// The key of the seed of 32 bytes 02, with its SHA-1 before it, and the first X that gives eight zero bits.
const MINTED_TWO: &str =
    "a3f8d018d15eae79bd519fbef98c5e3cfb23369e f6a12ca8ffc30a66ca140ccc7276336115819361186d3f535dd99f8eaaca8fce 00000000000000000000000000000000000000c5\n";

/// A contact without a proof, and the minted one with its own, among lines that count for nothing.
const TWO_CONTACTS: &str =
    "# two contacts\n0000000000000000000000000000000000000001 127.0.0.1:6001\n\nc27d85cec2a31b5c03e13af0dbac44b20e0a9112 127.0.0.1:6002 76b8e0ada0f13d90405d6ae55386bd28bdd219b8a08ded1aa836efcc8b770dc7 0000000000000000000000000000000000000000\n#\n";

/// The identifier of forty zero digits.
const ZEROS: &str = "0000000000000000000000000000000000000000";

const MINTS: &[Row] = &[
    (
        &["mint", "--c1", "0", "--c2", "0", "--seed", SEED],
        "xyz",
        0,
        MINTED,
    ),
    (&["mint"], "xyz", 0, MINTED),
    (
        &["mint", "--c2", "8", "--tries", "198", "--seed", TWO_SEEDS],
        "",
        0,
        MINTED_TWO,
    ),
];

#[test]
fn an_identifier_is_minted_from_a_seed(rt: HostRuntime) -> Result<(), Fail> {
    both_answer(&rt, MINTS)
}

/// The hash of the identifier that the first key has begins with 51a297d0, and 197 values before the first good one
/// don't do.
const NOTHING_MINTED: &[Row] = &[
    (
        &["mint", "--c1", "32", "--tries", "1", "--seed", SEED],
        "xyz",
        10,
        "unminted\n",
    ),
    (
        &["mint", "--c2", "8", "--tries", "197", "--seed", TWO_SEEDS],
        "",
        10,
        "unminted\n",
    ),
];

#[test]
fn nothing_is_minted_where_there_is_nothing(rt: HostRuntime) -> Result<(), Fail> {
    both_answer(&rt, NOTHING_MINTED)
}

const CHECKS: &[Row] = &[
    (&["check"], TWO_CONTACTS, 0, "pass\npass\npassed 2 of 2\n"),
    (
        &["check", "--c1", "0", "--c2", "0"],
        TWO_CONTACTS,
        0,
        "fail\npass\npassed 1 of 2\n",
    ),
    (
        &["check", "--c1", "2"],
        TWO_CONTACTS,
        0,
        "fail\nfail\npassed 0 of 2\n",
    ),
    (&["check"], "", 0, "passed 0 of 0\n"),
];

#[test]
fn contacts_are_checked_in_order(rt: HostRuntime) -> Result<(), Fail> {
    both_answer(&rt, CHECKS)
}

const BAD_LINE: &[Row] = &[(
    &["check"],
    "0000000000000000000000000000000000000001 127.0.0.1:6001\nxyz\n",
    3,
    "bad line 2\n",
)];

#[test]
fn a_bad_line_of_checked_contacts_is_named(rt: HostRuntime) -> Result<(), Fail> {
    both_answer(&rt, BAD_LINE)
}

const TOO_LONG: &Outside = &Outside {
    input: Input::Marks(1_048_577),
    reads: (4096, &[]),
    writes: (4096, &[]),
};

#[test]
fn too_long_a_list_of_contacts_is_named(rt: HostRuntime) -> Result<(), Fail> {
    ends_plainly(&rt, &["check"], TOO_LONG, 11, b"too long\n")
}

const UNREAD: &Outside = &Outside {
    input: Input::Text(LINE_1),
    reads: (10, &[2]),
    writes: (4096, &[]),
};

#[test]
fn a_failed_read_of_contacts_ends_the_check(rt: HostRuntime) -> Result<(), Fail> {
    ends_plainly(&rt, &["check"], UNREAD, 6, b"source fault\n")
}

/// A `check` of so many bytes, of whose reads this one would fail, ends so.
fn check_ends<R: AllocGlobal + RandomSource>(
    rt: &R,
    size: usize,
    failing: u64,
    status: u8,
    text: &[u8],
) -> Result<(), Fail> {
    let outside = Outside {
        input: Input::Marks(size),
        reads: (5000, &[failing]),
        writes: (4096, &[]),
    };
    ends_plainly(rt, &["check"], &outside, status, text)
}

/// How long an input is, and the number of the read that finds its end.
const ENDS: &[(usize, u64)] = &[
    (0, 0),
    (1, 1),
    (4095, 1),
    (4096, 1),
    (4097, 2),
    (8192, 2),
    (8193, 3),
];

/// The read that finds the end is made, and none after it.
#[test]
fn after_the_end_nothing_is_read(rt: HostRuntime) -> Result<(), Fail> {
    for (size, end) in ENDS {
        check_ends(&rt, *size, *end, 6, b"source fault\n")?;
        check_ends(&rt, *size, end.saturating_add(1), 0, b"passed 0 of 0\n")?;
    }
    Ok(())
}

/// Three bytes a call, and the third call fails.
const UNWRITTEN: &Outside = &Outside {
    input: Input::Text(""),
    reads: (4096, &[]),
    writes: (3, &[2]),
};

#[test]
fn a_failed_write_leaves_a_front_of_what_is_minted(rt: HostRuntime) -> Result<(), Fail> {
    ends_plainly(&rt, &["mint"], UNWRITTEN, 5, b"c27d85")
}

/// No words, a command that takes a link, and words that are not of the plain form.
const NO_LINK: &[Row] = &[
    (&[], LINE_1, 2, "usage\n"),
    (&["lookup", "--target", ZEROS], LINE_1, 2, "usage\n"),
    (&["serve"], "", 2, "usage\n"),
];

const NOT_PLAIN: &[Row] = &[
    (&["sim", "--nodes", "20001"], "", 2, "usage\n"),
    (&["check", "--target", ZEROS], LINE_1, 2, "usage\n"),
    (&["mint", "--tries", "0"], "", 2, "usage\n"),
];

#[test]
fn words_that_ask_for_nothing_plain(rt: HostRuntime) -> Result<(), Fail> {
    all_answer_plainly(&rt, NO_LINK)?;
    both_answer(&rt, NOT_PLAIN)
}
