//! Lookups whose input can't be read, or whose output can't be written.
use crate::serve::outside::{Input, Outside, ends};
use kad_base::Family;
use std::random::RandomSource;
use std::sync::Wait;
use std::test::Fail;
use std::thread::Threads;
use trial_kit::{LINE_1, Reply};

/// A lookup of zeros by the node of ones, on one path.
const ONE_PATH: &[&str] = &[
    "lookup",
    "--target",
    "0000000000000000000000000000000000000000",
    "--own",
    "ffffffffffffffffffffffffffffffffffffffff",
    "--paths",
    "1",
];

const FOUND_1: &str =
    "0000000000000000000000000000000000000001 127.0.0.1:6001\nfound 1 asked 1 failed 0 turned 0\n";

/// Contact 1 answers.
const ANSWERED: &[Reply] = &[Reply {
    family: Family::Four,
    to: 1,
    at: 10,
    port: 6001,
    id: 1,
    node: None,
}];

const UNREAD: &Outside = &Outside {
    input: Input::Text(LINE_1),
    reads: (100, &[0]),
    writes: (4096, &[]),
};

#[test]
fn a_failed_read_ends_the_command(rt: HostRuntime) -> Result<(), Fail> {
    ends(&rt, ONE_PATH, UNREAD, ANSWERED, 6, b"source fault\n", 0)
}

/// A byte a call, and the fourth call fails.
const UNWRITTEN: &Outside = &Outside {
    input: Input::Text(LINE_1),
    reads: (4096, &[]),
    writes: (1, &[3]),
};

#[test]
fn a_failed_write_leaves_a_front(rt: HostRuntime) -> Result<(), Fail> {
    ends(&rt, ONE_PATH, UNWRITTEN, ANSWERED, 5, b"000", 1)
}

const TOO_LONG: &Outside = &Outside {
    input: Input::Marks(1_048_577),
    reads: (4096, &[]),
    writes: (4096, &[]),
};

#[test]
fn too_long_an_input_is_named(rt: HostRuntime) -> Result<(), Fail> {
    ends(&rt, ONE_PATH, TOO_LONG, ANSWERED, 11, b"too long\n", 0)
}

/// The source gives a byte a call, and this call fails.
fn fails_to_read<R: AllocGlobal + RandomSource + Threads + Wait + Sync>(
    rt: &R,
    n: u64,
) -> Result<(), Fail> {
    let outside = Outside {
        input: Input::Text(LINE_1),
        reads: (1, &[n]),
        writes: (4096, &[]),
    };
    ends(rt, ONE_PATH, &outside, ANSWERED, 6, b"source fault\n", 0)
}

/// The last read finds the end.
#[test]
fn each_failed_read_ends_the_command(rt: HostRuntime) -> Result<(), Fail> {
    for n in 0..=56 {
        fails_to_read(&rt, n)?;
    }
    Ok(())
}

/// The source gives a byte a call, the sink takes one, and this call of the sink fails.
fn fails_to_write<R: AllocGlobal + RandomSource + Threads + Wait + Sync>(
    rt: &R,
    n: u64,
    wanted: &[u8],
) -> Result<(), Fail> {
    let outside = Outside {
        input: Input::Text(LINE_1),
        reads: (1, &[]),
        writes: (1, &[n]),
    };
    ends(rt, ONE_PATH, &outside, ANSWERED, 5, wanted, 1)
}

#[test]
fn each_failed_write_leaves_what_was_written_before(rt: HostRuntime) -> Result<(), Fail> {
    let output = FOUND_1.as_bytes();
    for n in 0..output.len() {
        fails_to_write(&rt, n as u64, &output[..n])?;
    }
    Ok(())
}
