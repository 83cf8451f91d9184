//! Lookups of a group, whose members share a key: the tags are HMAC-SHA-1 under keys of 32 bytes 00 and 01, as Python's
//! `hmac` makes them.
use crate::node::trial::Outside::From;
use crate::node::trial::{SILENT, Trial, all_play};
use crate::node::{ANSWER_1, FOUND_1, NOBODY, ONE_PATH};
use std::test::Fail;
use trial_kit::LINE_1;

/// A lookup of zeros by the node of ones, on one path in the group whose key is 32 zero bytes.
const GROUPED: &[&str] = &[
    "lookup",
    "--target",
    "0000000000000000000000000000000000000000",
    "--own",
    "ffffffffffffffffffffffffffffffffffffffff",
    "--paths",
    "1",
    "--group",
    "0000000000000000000000000000000000000000000000000000000000000000",
];

/// A search for peers of the key of zeros there.
const GROUPED_PEERS: &[&str] = &[
    "peers",
    "--key",
    "0000000000000000000000000000000000000000",
    "--own",
    "ffffffffffffffffffffffffffffffffffffffff",
    "--paths",
    "1",
    "--group",
    "0000000000000000000000000000000000000000000000000000000000000000",
];

/// The answer of contact 1 with the tag of the group.
const TAGGED: &[u8] =
    b"d1:rd2:id20:\0\0\0\0\0\0\0\0\0\0\0\0\0\0\0\0\0\0\0\x01e2:sg20:6T\x1bC\x1cM, N\xf3@\xf9\x1f\xaa{\x16v\x93/p1:t4:\xa0\x8d\xed\x1a1:y1:re";

/// The same with the tag of another group.
const OF_ANOTHER: &[u8] =
    b"d1:rd2:id20:\0\0\0\0\0\0\0\0\0\0\0\0\0\0\0\0\0\0\0\x01e2:sg20:\xb4R=\xe2\xaf\xccr\xdd\x1a\xf3\x0b\x8cQo\x87\xda\x989\xffC1:t4:\xa0\x8d\xed\x1a1:y1:re";

/// Contact 1 answers with a token and one peer, and the tag of the group.
const PEER: &[u8] =
    b"d1:rd2:id20:\0\0\0\0\0\0\0\0\0\0\0\0\0\0\0\0\0\0\0\x015:token8:aoeusnth6:valuesl6:\x7f\0\0\x01\x1a\xe1ee2:sg20:\xf25`\x87\x02\xfb2O\x8c\x9e\xcfv[\xe4\x9d\x1a`\xdcxA1:t4:\xa0\x8d\xed\x1a1:y1:re";

/// The same with the tag of another group.
const PEER_OF_ANOTHER: &[u8] =
    b"d1:rd2:id20:\0\0\0\0\0\0\0\0\0\0\0\0\0\0\0\0\0\0\0\x015:token8:aoeusnth6:valuesl6:\x7f\0\0\x01\x1a\xe1ee2:sg20:\xdfN\xf2\xd7\xb1\x9e\x22\x94RF\x92\x05\xd0<\xa5\x91\x11x\xb9\xe71:t4:\xa0\x8d\xed\x1a1:y1:re";

const NO_PEER: &str = "peers 0 found 0 asked 1 failed 1 turned 0 announced 0\n";

const ONE_PEER: &str = "127.0.0.1:6881\npeers 1 found 1 asked 1 failed 0 turned 0 announced 0\n";

/// Contact 1 answers with the tag of the group.
const MEMBER: Trial<'static> = Trial {
    words: GROUPED,
    input: LINE_1,
    outside: &[From(10, 6001, TAGGED)],
    text: FOUND_1,
    ..SILENT
};

#[test]
fn a_member_finds_members_alone(rt: HostRuntime) -> Result<(), Fail> {
    const TRIALS: &[Trial<'static>] = &[
        MEMBER,
        Trial {
            outside: &[From(10, 6001, ANSWER_1)],
            text: NOBODY,
            ..MEMBER
        },
        Trial {
            outside: &[From(10, 6001, OF_ANOTHER)],
            text: NOBODY,
            ..MEMBER
        },
    ];
    all_play(&rt, TRIALS)
}

#[test]
fn a_lookup_of_no_group_passes_tags_over(rt: HostRuntime) -> Result<(), Fail> {
    const TRIALS: &[Trial<'static>] = &[
        Trial {
            words: ONE_PATH,
            ..MEMBER
        },
        Trial {
            words: ONE_PATH,
            outside: &[From(10, 6001, OF_ANOTHER)],
            ..MEMBER
        },
    ];
    all_play(&rt, TRIALS)
}

#[test]
fn peers_are_taken_from_members_alone(rt: HostRuntime) -> Result<(), Fail> {
    const TRIALS: &[Trial<'static>] = &[
        Trial {
            words: GROUPED_PEERS,
            outside: &[From(10, 6001, PEER)],
            text: ONE_PEER,
            ..MEMBER
        },
        Trial {
            words: GROUPED_PEERS,
            outside: &[From(10, 6001, PEER_OF_ANOTHER)],
            text: NO_PEER,
            ..MEMBER
        },
    ];
    all_play(&rt, TRIALS)
}
