//! The lines of an input, by the commands that read them. What a line says was written by hand.
use crate::serve::trial::{Coming, Row, Trial, Wanted, both_answer, plays};
use std::test::Fail;

/// The identifier of nineteen zero bytes and af, and the node of the seed of 32 bytes 02 with its
/// proof, with digits of both cases; among a comment and an empty line, with returns before the
/// ends of lines, and no end of the last line.
const MIXED: &str =
    "# two contacts\r\n\n\r\n00000000000000000000000000000000000000aF 127.0.0.1:6001\nA3f8d018d15eae79bd519fbef98c5e3cfb23369E 0.255.10.9:0 f6A12ca8ffc30a66ca140ccc7276336115819361186d3f535dd99f8eaaca8fcE 00000000000000000000000000000000000000C5\r";

const FORMS: &[Row] = &[(
    &["check", "--c1", "0", "--c2", "8"],
    MIXED,
    0,
    "fail\npass\npassed 1 of 2\n",
)];

#[test]
fn each_form_of_a_line_is_read(rt: HostRuntime) -> Result<(), Fail> {
    both_answer(&rt, FORMS)
}

/// Inputs with a bad line, and what is said of it.
const BAD: &[Row] = &[
    (&["check"], "xyz", 3, "bad line 1\n"),
    (&["check"], "#\n\nxyz\n#\nxyz", 3, "bad line 3\n"),
    (&["check"], " #", 3, "bad line 1\n"),
    (
        &["check"],
        "0000000000000000000000000000000000000001 127.0.0.1:6001\nxyz\n",
        3,
        "bad line 2\n",
    ),
    (
        &["check"],
        "0000000000000000000000000000000000000001  127.0.0.1:6001",
        3,
        "bad line 1\n",
    ),
    (
        &["check"],
        "0000000000000000000000000000000000000001 127.0.0.1:6001 ",
        3,
        "bad line 1\n",
    ),
    (
        &["check"],
        "0000000000000000000000000000000000000001 127.0.0.1:6001\r\r",
        3,
        "bad line 1\n",
    ),
    (
        &["check"],
        "000000000000000000000000000000000000001 127.0.0.1:6001",
        3,
        "bad line 1\n",
    ),
    (
        &["check"],
        "000000000000000000000000000000000000000g 127.0.0.1:6001",
        3,
        "bad line 1\n",
    ),
    (
        &["check"],
        "0000000000000000000000000000000000000001 127.0.0.256:6001",
        3,
        "bad line 1\n",
    ),
    (
        &["check"],
        "0000000000000000000000000000000000000001 127.0.00.1:6001",
        3,
        "bad line 1\n",
    ),
    (
        &["check"],
        "0000000000000000000000000000000000000001 127.0.0.1:06001",
        3,
        "bad line 1\n",
    ),
    (
        &["check"],
        "0000000000000000000000000000000000000001 127.0.0.1:+6001",
        3,
        "bad line 1\n",
    ),
    (
        &["check"],
        "0000000000000000000000000000000000000001 127.0.0.1:65536",
        3,
        "bad line 1\n",
    ),
    (
        &["check"],
        "0000000000000000000000000000000000000001 127.0.0.1",
        3,
        "bad line 1\n",
    ),
    (
        &["check"],
        "0000000000000000000000000000000000000001 127.0.0.1:1 0000",
        3,
        "bad line 1\n",
    ),
];

#[test]
fn lines_of_another_form_are_bad(rt: HostRuntime) -> Result<(), Fail> {
    both_answer(&rt, BAD)
}

/// The node of ones serves for one receive call.
const ONE: &[&str] = &[
    "serve",
    "--receives",
    "1",
    "--own",
    "ffffffffffffffffffffffffffffffffffffffff",
];

const TWO: &str =
    "00000000000000000000000000000000000000aF 127.0.0.1:6001\r\n0000000000000000000000000000000000000002 0.255.10.9:65535\r";

/// A query for the identifier of zeros.
const FIND: &[u8] =
    b"d1:ad2:id20:abcdefghij01234567896:target20:\0\0\0\0\0\0\0\0\0\0\0\0\0\0\0\0\0\0\0\0e1:q9:find_node1:t2:aa1:y1:qe";

/// Its reply names both contacts of the input, nearest first.
const FOUND: &[u8] =
    b"d1:rd2:id20:\xff\xff\xff\xff\xff\xff\xff\xff\xff\xff\xff\xff\xff\xff\xff\xff\xff\xff\xff\xff5:nodes52:\0\0\0\0\0\0\0\0\0\0\0\0\0\0\0\0\0\0\0\x02\0\xff\x0a\x09\xff\xff\0\0\0\0\0\0\0\0\0\0\0\0\0\0\0\0\0\0\0\xaf\x7f\0\0\x01\x17\x71e1:t2:aa1:y1:re";

const ASKED: &Trial = &Trial {
    words: ONE,
    input: TWO,
    coming: Coming::Datagrams(&[(10, 7000, FIND)]),
    failing_sends: &[],
    failing_receives: &[],
    status: 0,
    text: "received 1 replied 1\n",
    told: Wanted::Sends(&[FOUND]),
};

#[test]
fn each_part_of_a_line_is_read(rt: HostRuntime) -> Result<(), Fail> {
    plays(&rt, ASKED)
}
