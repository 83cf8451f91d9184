//! Each job of a node goes by its own answers, and by nobody else's. The bytes were written from BEP 5 and BEP 44 by a script of
//! their own, under the words that the generator of 32 zero bytes gives from the sixth on.
use crate::node::ANSWER_1;
use crate::node::jobs::{ANNOUNCE, GETTING, HELLO, ONE_PEER, PEERS, PUTTING};
use crate::node::nodes::SECOND;
use crate::node::trial::Outside::From;
use crate::node::trial::Wanted::Sends;
use crate::node::trial::{Trial, all_play, plays};
use std::test::Fail;

/// Contact 1 answers the second query with another token and the peer 10.0.0.9:1.
const SECOND_PEER: &[u8] =
    b"d1:rd2:id20:\0\0\0\0\0\0\0\0\0\0\0\0\0\0\0\0\0\0\0\x015:token3:abc6:valuesl6:\x0a\0\0\x09\0\x01ee1:t4:\xa86\xef\xcc1:y1:re";

/// Two jobs announce two ports of one key, and contact 1 gives each a token and a peer of its own.
#[test]
fn each_job_uses_its_own_token(rt: HostRuntime) -> Result<(), Fail> {
    const TRIAL: &Trial<'static> = &Trial {
        input: "0000000000000000000000000000000000000001 127.0.0.1:6001\nannounce 0000000000000000000000000000000000000000 6882\nannounce 0000000000000000000000000000000000000000 6883\n",
        outside: &[From(10, 6001, SECOND_PEER), From(10, 6001, ONE_PEER)],
        text: "\
announce 0000000000000000000000000000000000000000 6882\n\
127.0.0.1:6881\n\
peers 1 found 1 asked 1 failed 0 turned 0 announced 1\n\
announce 0000000000000000000000000000000000000000 6883\n\
10.0.0.9:1\n\
peers 1 found 1 asked 1 failed 0 turned 0 announced 1\n\
received 2 replied 0\n",
        told: Sends(
            4,
            &[
                (
                    2,
                    6001,
                    b"d1:ad2:id20:\xff\xff\xff\xff\xff\xff\xff\xff\xff\xff\xff\xff\xff\xff\xff\xff\xff\xff\xff\xff9:info_hash20:\0\0\0\0\0\0\0\0\0\0\0\0\0\0\0\0\0\0\0\x004:porti6882e5:token8:aoeusnthe1:q13:announce_peer1:t4:\x8bw\x0d\xc71:y1:qe",
                ),
                (
                    3,
                    6001,
                    b"d1:ad2:id20:\xff\xff\xff\xff\xff\xff\xff\xff\xff\xff\xff\xff\xff\xff\xff\xff\xff\xff\xff\xff9:info_hash20:\0\0\0\0\0\0\0\0\0\0\0\0\0\0\0\0\0\0\0\x004:porti6883e5:token3:abce1:q13:announce_peer1:t4:\xdaAY|1:y1:qe",
                ),
            ],
        ),
        ..PEERS
    };
    plays(&rt, TRIAL)
}

/// The first job got no token, and that of the second job, of the same contact and key, is none of its own.
#[test]
fn a_token_of_another_job_is_not_used(rt: HostRuntime) -> Result<(), Fail> {
    const TRIALS: &[Trial<'static>] = &[
        Trial {
            input: "0000000000000000000000000000000000000001 127.0.0.1:6001\nannounce 0000000000000000000000000000000000000000 6882\npeers 0000000000000000000000000000000000000000\n",
            outside: &[From(10, 6001, ANSWER_1), From(10, 6001, SECOND_PEER)],
            text: "\
announce 0000000000000000000000000000000000000000 6882\n\
peers 0 found 1 asked 1 failed 0 turned 0 announced 0\n\
peers 0000000000000000000000000000000000000000\n\
10.0.0.9:1\n\
peers 1 found 1 asked 1 failed 0 turned 0 announced 0\n\
received 2 replied 0\n",
            told: Sends(2, &[]),
            ..PEERS
        },
        Trial {
            input: "0000000000000000000000000000000000000001 127.0.0.1:6001\nput 353a68656c6c6f\nget e28910ea0adb94dd45ced75fbff3e135c01bc437\n",
            outside: &[From(10, 6001, ANSWER_1), From(10, 6001, SECOND_PEER)],
            text: "\
put e28910ea0adb94dd45ced75fbff3e135c01bc437\n\
key e28910ea0adb94dd45ced75fbff3e135c01bc437\n\
found 1 asked 1 failed 0 turned 0 stored 0\n\
get e28910ea0adb94dd45ced75fbff3e135c01bc437\n\
none\n\
found 1 asked 1 failed 0 turned 0\n\
received 2 replied 0\n",
            told: Sends(2, &[]),
            ..PEERS
        },
    ];
    all_play(&rt, TRIALS)
}

/// A value under the id of a query for peers is none that the other job got; nor is one that a job got which puts it.
#[test]
fn a_value_that_comes_to_another_job_is_not_printed(rt: HostRuntime) -> Result<(), Fail> {
    const TRIALS: &[Trial<'static>] = &[
        Trial {
            input: "0000000000000000000000000000000000000001 127.0.0.1:6001\npeers 0000000000000000000000000000000000000000\nget e28910ea0adb94dd45ced75fbff3e135c01bc437\n",
            outside: &[From(10, 6001, HELLO), From(10, 6001, SECOND)],
            text: "\
peers 0000000000000000000000000000000000000000\n\
peers 0 found 1 asked 1 failed 0 turned 0 announced 0\n\
get e28910ea0adb94dd45ced75fbff3e135c01bc437\n\
none\n\
found 1 asked 1 failed 0 turned 0\n\
received 2 replied 0\n",
            told: Sends(2, &[]),
            ..PEERS
        },
        Trial {
            input: "0000000000000000000000000000000000000001 127.0.0.1:6001\nput 353a68656c6c6f\nget e28910ea0adb94dd45ced75fbff3e135c01bc437\n",
            outside: &[From(10, 6001, HELLO), From(10, 6001, SECOND)],
            text: "\
put e28910ea0adb94dd45ced75fbff3e135c01bc437\n\
key e28910ea0adb94dd45ced75fbff3e135c01bc437\n\
found 1 asked 1 failed 0 turned 0 stored 1\n\
get e28910ea0adb94dd45ced75fbff3e135c01bc437\n\
none\n\
found 1 asked 1 failed 0 turned 0\n\
received 2 replied 0\n",
            told: Sends(3, &[]),
            ..PEERS
        },
    ];
    all_play(&rt, TRIALS)
}

/// Peers under the id of a query for nodes or for an item are none of the other job.
#[test]
fn peers_that_come_to_another_job_are_not_printed(rt: HostRuntime) -> Result<(), Fail> {
    const TRIALS: &[Trial<'static>] = &[
        Trial {
            input: "0000000000000000000000000000000000000001 127.0.0.1:6001\nfind 0000000000000000000000000000000000000000\npeers 0000000000000000000000000000000000000000\n",
            outside: &[From(10, 6001, ONE_PEER), From(10, 6001, SECOND)],
            text: "\
find 0000000000000000000000000000000000000000\n\
0000000000000000000000000000000000000001 127.0.0.1:6001\n\
found 1 asked 1 failed 0 turned 0\n\
peers 0000000000000000000000000000000000000000\n\
peers 0 found 1 asked 1 failed 0 turned 0 announced 0\n\
received 2 replied 0\n",
            told: Sends(2, &[]),
            ..PEERS
        },
        Trial {
            input: "0000000000000000000000000000000000000001 127.0.0.1:6001\nget e28910ea0adb94dd45ced75fbff3e135c01bc437\nannounce 0000000000000000000000000000000000000000 6882\n",
            outside: &[From(10, 6001, ONE_PEER), From(10, 6001, SECOND)],
            text: "\
get e28910ea0adb94dd45ced75fbff3e135c01bc437\n\
none\n\
found 1 asked 1 failed 0 turned 0\n\
announce 0000000000000000000000000000000000000000 6882\n\
peers 0 found 1 asked 1 failed 0 turned 0 announced 0\n\
received 2 replied 0\n",
            told: Sends(2, &[]),
            ..PEERS
        },
    ];
    all_play(&rt, TRIALS)
}

/// The node of ones, which is to find one contact.
const ONE_TO_FIND: &[&str] = &[
    "node",
    "--own",
    "ffffffffffffffffffffffffffffffffffffffff",
    "--paths",
    "1",
    "--k",
    "1",
];

/// Contact 2 answers the first query with a token and names contact 1.
pub const NAMING_1: &[u8] =
    b"d1:rd2:id20:\0\0\0\0\0\0\0\0\0\0\0\0\0\0\0\0\0\0\0\x025:nodes26:\0\0\0\0\0\0\0\0\0\0\0\0\0\0\0\0\0\0\0\x01\x7f\0\0\x01\x17q5:token3:abce1:t4:\xa0\x8d\xed\x1a1:y1:re";

/// Contact 1 answers the second with its own.
pub const SECOND_TOKEN: &[u8] =
    b"d1:rd2:id20:\0\0\0\0\0\0\0\0\0\0\0\0\0\0\0\0\0\0\0\x015:token8:aoeusnthe1:t4:\xa86\xef\xcc1:y1:re";

/// Contact 2 gave a token, and contact 1 is closer: of one contact to find only contact 1 is told.
#[test]
fn a_contact_that_is_not_found_is_told_nothing(rt: HostRuntime) -> Result<(), Fail> {
    const TRIAL: &Trial<'static> = &Trial {
        words: ONE_TO_FIND,
        input: "0000000000000000000000000000000000000002 127.0.0.1:6002\nannounce 0000000000000000000000000000000000000000 6882\n",
        outside: &[From(10, 6002, NAMING_1), From(20, 6001, SECOND_TOKEN)],
        text: "announce 0000000000000000000000000000000000000000 6882\npeers 0 found 1 asked 2 failed 0 turned 0 announced 1\nreceived 2 replied 0\n",
        told: Sends(
            3,
            &[(
                2,
                6001,
                b"d1:ad2:id20:\xff\xff\xff\xff\xff\xff\xff\xff\xff\xff\xff\xff\xff\xff\xff\xff\xff\xff\xff\xff9:info_hash20:\0\0\0\0\0\0\0\0\0\0\0\0\0\0\0\0\0\0\0\x004:porti6882e5:token8:aoeusnthe1:q13:announce_peer1:t4:\x8bw\x0d\xc71:y1:qe",
            )],
        ),
        ..PEERS
    };
    plays(&rt, TRIAL)
}

/// Contact 1 answers the first query in the name of identifier 7, with a token, the peer and the item.
const POSING: &[u8] =
    b"d1:rd2:id20:\0\0\0\0\0\0\0\0\0\0\0\0\0\0\0\0\0\0\0\x075:token8:aoeusnth1:v5:hello6:valuesl6:\x7f\0\0\x01\x1a\xe1ee1:t4:\xa0\x8d\xed\x1a1:y1:re";

#[test]
fn an_answer_in_another_name_gives_a_job_nothing(rt: HostRuntime) -> Result<(), Fail> {
    const TRIALS: &[Trial<'static>] = &[
        Trial {
            outside: &[From(10, 6001, POSING)],
            text: "announce 0000000000000000000000000000000000000000 6882\npeers 0 found 0 asked 1 failed 1 turned 0 announced 0\nreceived 1 replied 0\n",
            told: Sends(1, &[]),
            ..ANNOUNCE
        },
        Trial {
            outside: &[From(10, 6001, POSING)],
            text: "get e28910ea0adb94dd45ced75fbff3e135c01bc437\nnone\nfound 0 asked 1 failed 1 turned 0\nreceived 1 replied 0\n",
            told: Sends(1, &[]),
            ..GETTING
        },
        Trial {
            outside: &[From(10, 6001, POSING)],
            text: "put e28910ea0adb94dd45ced75fbff3e135c01bc437\nkey e28910ea0adb94dd45ced75fbff3e135c01bc437\nfound 0 asked 1 failed 1 turned 0 stored 0\nreceived 1 replied 0\n",
            told: Sends(1, &[]),
            ..PUTTING
        },
    ];
    all_play(&rt, TRIALS)
}
