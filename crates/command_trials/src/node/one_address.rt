//! Lookups in which one address stands under many identifiers: `--per-address` says how many of them a path asks.
use crate::node::ONE_PATH;
use crate::node::trial::Outside::Answers;
use crate::node::trial::{SILENT, Trial, plays};
use run_kit::shows;
use std::random::RandomSource;
use std::sync::Wait;
use std::test::Fail;
use std::thread::Threads;
use trial_kit::{LINE_1, link_with};

/// The answer of contact 1 to the first query of the generator of 32 zero bytes, which names the identifiers from 2 to 9, all
/// at 10.0.0.9, port 7000, where nobody answers.
const NAMES_A_VICTIM: &[u8] = b"d1:rd2:id20:\0\0\0\0\0\0\0\0\0\0\0\0\0\0\0\0\0\0\0\x015:nodes208:\
\0\0\0\0\0\0\0\0\0\0\0\0\0\0\0\0\0\0\0\x02\x0a\0\0\x09\x1b\x58\
\0\0\0\0\0\0\0\0\0\0\0\0\0\0\0\0\0\0\0\x03\x0a\0\0\x09\x1b\x58\
\0\0\0\0\0\0\0\0\0\0\0\0\0\0\0\0\0\0\0\x04\x0a\0\0\x09\x1b\x58\
\0\0\0\0\0\0\0\0\0\0\0\0\0\0\0\0\0\0\0\x05\x0a\0\0\x09\x1b\x58\
\0\0\0\0\0\0\0\0\0\0\0\0\0\0\0\0\0\0\0\x06\x0a\0\0\x09\x1b\x58\
\0\0\0\0\0\0\0\0\0\0\0\0\0\0\0\0\0\0\0\x07\x0a\0\0\x09\x1b\x58\
\0\0\0\0\0\0\0\0\0\0\0\0\0\0\0\0\0\0\0\x08\x0a\0\0\x09\x1b\x58\
\0\0\0\0\0\0\0\0\0\0\0\0\0\0\0\0\0\0\0\x09\x0a\0\0\x09\x1b\x58e1:t4:\xa0\x8d\xed\x1a1:y1:re";

/// A lookup of zeros by the node of ones on one path, which takes so many contacts of an address.
fn words<'a>(limit: &'a str) -> [&'a str; 9] {
    [
        "lookup",
        "--target",
        "0000000000000000000000000000000000000000",
        "--own",
        "ffffffffffffffffffffffffffffffffffffffff",
        "--paths",
        "1",
        "--per-address",
        limit,
    ]
}

/// Contact 1 begins and names the victim, and the lookup ends well with this text.
fn finds_one<R: AllocGlobal + RandomSource + Threads + Wait + Sync>(
    rt: &R,
    words: &[&str],
    text: &str,
) -> Result<(), Fail> {
    let link = link_with(rt.alloc(), NAMES_A_VICTIM, 10, 1, &[])?;
    shows(rt, words, LINE_1, link, 0, text)
}

/// Limits, and what contact 1 finds alone.
const LIMITS: &[(&str, &str)] = &[
    (
        "1",
        "0000000000000000000000000000000000000001 127.0.0.1:6001\nfound 1 asked 2 failed 1 turned 7\n",
    ),
    (
        "2",
        "0000000000000000000000000000000000000001 127.0.0.1:6001\nfound 1 asked 3 failed 2 turned 6\n",
    ),
    (
        "7",
        "0000000000000000000000000000000000000001 127.0.0.1:6001\nfound 1 asked 8 failed 7 turned 1\n",
    ),
    (
        "8",
        "0000000000000000000000000000000000000001 127.0.0.1:6001\nfound 1 asked 9 failed 8 turned 0\n",
    ),
    (
        "255",
        "0000000000000000000000000000000000000001 127.0.0.1:6001\nfound 1 asked 9 failed 8 turned 0\n",
    ),
    (
        "0",
        "0000000000000000000000000000000000000001 127.0.0.1:6001\nfound 1 asked 9 failed 8 turned 0\n",
    ),
];

/// Contact 1 is asked, and then the victim as often as the limit says.
#[test]
fn a_victim_gets_no_more_queries_than_the_limit(rt: HostRuntime) -> Result<(), Fail> {
    for (limit, text) in LIMITS {
        finds_one(&rt, &words(limit), text)?;
    }
    Ok(())
}

#[test]
fn without_the_word_it_is_asked_under_each_identifier(rt: HostRuntime) -> Result<(), Fail> {
    finds_one(
        &rt,
        ONE_PATH,
        "0000000000000000000000000000000000000001 127.0.0.1:6001\nfound 1 asked 9 failed 8 turned 0\n",
    )
}

/// Contacts 1, 2 and 3 have one address, and only the first two begin.
#[test]
fn the_first_nodes_of_an_address_begin(rt: HostRuntime) -> Result<(), Fail> {
    const TRIAL: &Trial<'static> = &Trial {
        words: &[
            "lookup",
            "--target",
            "0000000000000000000000000000000000000000",
            "--own",
            "ffffffffffffffffffffffffffffffffffffffff",
            "--paths",
            "1",
            "--per-address",
            "2",
        ],
        input: "0000000000000000000000000000000000000001 127.0.0.1:6001\n0000000000000000000000000000000000000002 127.0.0.1:6002\n0000000000000000000000000000000000000003 127.0.0.1:6003\n",
        outside: &[Answers(10, 1), Answers(10, 2), Answers(10, 3)],
        text: "0000000000000000000000000000000000000001 127.0.0.1:6001\n0000000000000000000000000000000000000002 127.0.0.1:6002\nfound 2 asked 2 failed 0 turned 0\n",
        ..SILENT
    };
    plays(&rt, TRIAL)
}
