//! What a node tells others once all its lookups are over: announcements (BEP 5) and items (BEP 44), and what it answers
//! meanwhile. The bytes were written from these and BEP 43 by a script of their own, under the words that the generator of 32
//! zero bytes gives from the sixth on; so was the tag, from RFC 2104.
use crate::node::job_answers::{NAMING_1, SECOND_TOKEN};
use crate::node::jobs::{ANNOUNCE, ANNOUNCED, CONTACT_2, GET_PEERS, ONE_PEER, PEERS};
use crate::node::nodes::{PING, PONG, SECOND};
use crate::node::trial::Outside::From;
use crate::node::trial::Wanted::{Events, Sends};
use crate::node::trial::{SILENT, Told, Trial, all_play, plays};
use crate::node::{CONTACT_1, STRANGER};
use std::test::Fail;

/// The node of ones for eleven receive calls.
const ELEVEN: &[&str] = &[
    "node",
    "--own",
    "ffffffffffffffffffffffffffffffffffffffff",
    "--paths",
    "1",
    "--receives",
    "11",
];

/// Contacts 1 and 2; an item, whose key contact 2 is the nearer to, and an announcement, to whose key contact 1 is.
const PUT_AND_ANNOUNCE: &str =
    "0000000000000000000000000000000000000001 127.0.0.1:6001\n0000000000000000000000000000000000000002 127.0.0.1:6002\nput 353a68656c6c6f\nannounce 0000000000000000000000000000000000000000 6882\n";

/// The queries of the item, to contact 2 and to contact 1, and those for peers, to contact 1 and to contact 2.
const GET_OF_2: &[u8] =
    b"d1:ad2:id20:\xff\xff\xff\xff\xff\xff\xff\xff\xff\xff\xff\xff\xff\xff\xff\xff\xff\xff\xff\xff6:target20:\xe2\x89\x10\xea\x0a\xdb\x94\xddE\xce\xd7_\xbf\xf3\xe15\xc0\x1b\xc47e1:q3:get1:t4:\xa0\x8d\xed\x1a1:y1:qe";

const GET_OF_1: &[u8] =
    b"d1:ad2:id20:\xff\xff\xff\xff\xff\xff\xff\xff\xff\xff\xff\xff\xff\xff\xff\xff\xff\xff\xff\xff6:target20:\xe2\x89\x10\xea\x0a\xdb\x94\xddE\xce\xd7_\xbf\xf3\xe15\xc0\x1b\xc47e1:q3:get1:t4:\xa86\xef\xcc1:y1:qe";

const GET_PEERS_OF_1: &[u8] =
    b"d1:ad2:id20:\xff\xff\xff\xff\xff\xff\xff\xff\xff\xff\xff\xff\xff\xff\xff\xff\xff\xff\xff\xff9:info_hash20:\0\0\0\0\0\0\0\0\0\0\0\0\0\0\0\0\0\0\0\0e1:q9:get_peers1:t4:\x8bw\x0d\xc71:y1:qe";

const GET_PEERS_OF_2: &[u8] =
    b"d1:ad2:id20:\xff\xff\xff\xff\xff\xff\xff\xff\xff\xff\xff\xff\xff\xff\xff\xff\xff\xff\xff\xff9:info_hash20:\0\0\0\0\0\0\0\0\0\0\0\0\0\0\0\0\0\0\0\0e1:q9:get_peers1:t4:\xdaAY|1:y1:qe";

/// The answers to them, each with a token of its own.
const TOKEN_OF_2: &[u8] =
    b"d1:rd2:id20:\0\0\0\0\0\0\0\0\0\0\0\0\0\0\0\0\0\0\0\x025:token9:item of 2e1:t4:\xa0\x8d\xed\x1a1:y1:re";

const TOKEN_OF_1: &[u8] =
    b"d1:rd2:id20:\0\0\0\0\0\0\0\0\0\0\0\0\0\0\0\0\0\0\0\x015:token9:item of 1e1:t4:\xa86\xef\xcc1:y1:re";

const PEER_OF_1: &[u8] =
    b"d1:rd2:id20:\0\0\0\0\0\0\0\0\0\0\0\0\0\0\0\0\0\0\0\x015:token9:peer of 16:valuesl6:\x7f\0\0\x01\x1a\xe1ee1:t4:\x8bw\x0d\xc71:y1:re";

const PEER_OF_2: &[u8] =
    b"d1:rd2:id20:\0\0\0\0\0\0\0\0\0\0\0\0\0\0\0\0\0\0\0\x025:token9:peer of 26:valuesl6:\x0a\0\0\x09\0\x016:\x7f\0\0\x01\x1a\xe1ee1:t4:\xdaAY|1:y1:re";

/// The four queries that follow, under the tenth word to the thirteenth.
const PUT_TO_2: &[u8] =
    b"d1:ad2:id20:\xff\xff\xff\xff\xff\xff\xff\xff\xff\xff\xff\xff\xff\xff\xff\xff\xff\xff\xff\xff5:token9:item of 21:v5:helloe1:q3:put1:t4:QWH\x8d1:y1:qe";

const PUT_TO_1: &[u8] =
    b"d1:ad2:id20:\xff\xff\xff\xff\xff\xff\xff\xff\xff\xff\xff\xff\xff\xff\xff\xff\xff\xff\xff\xff5:token9:item of 11:v5:helloe1:q3:put1:t4:w$\xe0?1:y1:qe";

const ANNOUNCED_TO_1: &[u8] =
    b"d1:ad2:id20:\xff\xff\xff\xff\xff\xff\xff\xff\xff\xff\xff\xff\xff\xff\xff\xff\xff\xff\xff\xff9:info_hash20:\0\0\0\0\0\0\0\0\0\0\0\0\0\0\0\0\0\0\0\x004:porti6882e5:token9:peer of 1e1:q13:announce_peer1:t4:\xb8\xd8J71:y1:qe";

const ANNOUNCED_TO_2: &[u8] =
    b"d1:ad2:id20:\xff\xff\xff\xff\xff\xff\xff\xff\xff\xff\xff\xff\xff\xff\xff\xff\xff\xff\xff\xff9:info_hash20:\0\0\0\0\0\0\0\0\0\0\0\0\0\0\0\0\0\0\0\x004:porti6882e5:token9:peer of 2e1:q13:announce_peer1:t4:jC\xb8\xf41:y1:qe";

/// Both jobs, the second of which is over twenty milliseconds after the first.
const FOLLOWED: Trial<'static> = Trial {
    words: ELEVEN,
    input: PUT_AND_ANNOUNCE,
    outside: &[
        From(10, 6002, TOKEN_OF_2),
        From(10, 6001, TOKEN_OF_1),
        From(20, 6001, PEER_OF_1),
        From(30, 6002, PEER_OF_2),
        From(30, 7000, PING),
        From(31, 7000, PING),
    ],
    text: "\
put e28910ea0adb94dd45ced75fbff3e135c01bc437\n\
key e28910ea0adb94dd45ced75fbff3e135c01bc437\n\
found 2 asked 2 failed 0 turned 0 stored 2\n\
announce 0000000000000000000000000000000000000000 6882\n\
10.0.0.9:1\n\
127.0.0.1:6881\n\
peers 2 found 2 asked 2 failed 0 turned 0 announced 2\n\
received 6 replied 2\n",
    ..SILENT
};

/// Nothing follows before the last lookup is over. Then four queries go out, job by job and in the order of each result, and a
/// receive behind each doesn't wait; what comes in one, a stranger's ping, is answered before the next query goes out. And then
/// the node waits for a minute.
#[test]
fn what_follows_goes_out_behind_the_last_lookup(rt: HostRuntime) -> Result<(), Fail> {
    const TRIAL: &Trial<'static> = &Trial {
        told: Events(&[
            Told::Now { at: 0 },
            Told::Sent {
                to: CONTACT_2,
                bytes: GET_OF_2,
            },
            Told::Sent {
                to: CONTACT_1,
                bytes: GET_OF_1,
            },
            Told::Sent {
                to: CONTACT_1,
                bytes: GET_PEERS_OF_1,
            },
            Told::Sent {
                to: CONTACT_2,
                bytes: GET_PEERS_OF_2,
            },
            Told::Got {
                from: CONTACT_2,
                bytes: TOKEN_OF_2,
                until: 2000,
                at: 10,
            },
            Told::Got {
                from: CONTACT_1,
                bytes: TOKEN_OF_1,
                until: 10,
                at: 10,
            },
            Told::Quiet { until: 10, at: 10 },
            Told::Got {
                from: CONTACT_1,
                bytes: PEER_OF_1,
                until: 2000,
                at: 20,
            },
            Told::Quiet { until: 20, at: 20 },
            Told::Got {
                from: CONTACT_2,
                bytes: PEER_OF_2,
                until: 2000,
                at: 30,
            },
            Told::Sent {
                to: CONTACT_2,
                bytes: PUT_TO_2,
            },
            Told::Got {
                from: STRANGER,
                bytes: PING,
                until: 30,
                at: 30,
            },
            Told::Sent {
                to: STRANGER,
                bytes: PONG,
            },
            Told::Sent {
                to: CONTACT_1,
                bytes: PUT_TO_1,
            },
            Told::Quiet { until: 30, at: 30 },
            Told::Sent {
                to: CONTACT_1,
                bytes: ANNOUNCED_TO_1,
            },
            Told::Quiet { until: 30, at: 30 },
            Told::Sent {
                to: CONTACT_2,
                bytes: ANNOUNCED_TO_2,
            },
            Told::Quiet { until: 30, at: 30 },
            Told::Got {
                from: STRANGER,
                bytes: PING,
                until: 60_030,
                at: 31,
            },
            Told::Sent {
                to: STRANGER,
                bytes: PONG,
            },
        ]),
        ..FOLLOWED
    };
    plays(&rt, TRIAL)
}

/// The second query that follows is refused: it isn't counted, its word is gone, and the others go out.
#[test]
fn a_refused_query_that_follows_is_not_counted(rt: HostRuntime) -> Result<(), Fail> {
    const TRIALS: &[Trial<'static>] = &[
        Trial {
            refused: &[6],
            text: "\
put e28910ea0adb94dd45ced75fbff3e135c01bc437\n\
key e28910ea0adb94dd45ced75fbff3e135c01bc437\n\
found 2 asked 2 failed 0 turned 0 stored 1\n\
announce 0000000000000000000000000000000000000000 6882\n\
10.0.0.9:1\n\
127.0.0.1:6881\n\
peers 2 found 2 asked 2 failed 0 turned 0 announced 2\n\
received 6 replied 2\n",
            told: Sends(
                9,
                &[
                    (4, 6002, PUT_TO_2),
                    (5, 7000, PONG),
                    (6, 6001, ANNOUNCED_TO_1),
                    (7, 6002, ANNOUNCED_TO_2),
                ],
            ),
            ..FOLLOWED
        },
        Trial {
            refused: &[7, 8],
            text: "\
put e28910ea0adb94dd45ced75fbff3e135c01bc437\n\
key e28910ea0adb94dd45ced75fbff3e135c01bc437\n\
found 2 asked 2 failed 0 turned 0 stored 2\n\
announce 0000000000000000000000000000000000000000 6882\n\
10.0.0.9:1\n\
127.0.0.1:6881\n\
peers 2 found 2 asked 2 failed 0 turned 0 announced 0\n\
received 6 replied 2\n",
            told: Sends(8, &[(4, 6002, PUT_TO_2), (6, 6001, PUT_TO_1)]),
            ..FOLLOWED
        },
    ];
    all_play(&rt, TRIALS)
}

/// A receive behind a refused announcement too waits for nothing, and what it gives is answered.
#[test]
fn a_receive_follows_a_refused_query_too(rt: HostRuntime) -> Result<(), Fail> {
    const TRIAL: &Trial<'static> = &Trial {
        outside: &[From(10, 6001, ONE_PEER), From(10, 7000, PING)],
        refused: &[1],
        text: "announce 0000000000000000000000000000000000000000 6882\n127.0.0.1:6881\npeers 1 found 1 asked 1 failed 0 turned 0 announced 0\nreceived 2 replied 1\n",
        told: Events(&[
            Told::Now { at: 0 },
            Told::Sent {
                to: CONTACT_1,
                bytes: GET_PEERS,
            },
            Told::Got {
                from: CONTACT_1,
                bytes: ONE_PEER,
                until: 2000,
                at: 10,
            },
            Told::Unsent {
                to: CONTACT_1,
                bytes: ANNOUNCED,
            },
            Told::Got {
                from: STRANGER,
                bytes: PING,
                until: 10,
                at: 10,
            },
            Told::Sent {
                to: STRANGER,
                bytes: PONG,
            },
        ]),
        ..ANNOUNCE
    };
    plays(&rt, TRIAL)
}

/// The receive behind the first query that follows, and that behind the last.
#[test]
fn a_failed_receive_behind_what_follows_ends_the_node(rt: HostRuntime) -> Result<(), Fail> {
    const TRIALS: &[Trial<'static>] = &[
        Trial {
            broken: &[6],
            status: 4,
            text: "link fault\n",
            told: Sends(5, &[(4, 6002, PUT_TO_2)]),
            ..FOLLOWED
        },
        Trial {
            broken: &[9],
            status: 4,
            text: "link fault\n",
            told: Sends(9, &[(8, 6002, ANNOUNCED_TO_2)]),
            ..FOLLOWED
        },
    ];
    all_play(&rt, TRIALS)
}

/// The node of ones for one receive call.
const ONE_CALL: &[&str] = &[
    "node",
    "--own",
    "ffffffffffffffffffffffffffffffffffffffff",
    "--paths",
    "1",
    "--receives",
    "1",
];

/// The same for ten, of which the lookups and what follows them need all.
const TEN: &[&str] = &[
    "node",
    "--own",
    "ffffffffffffffffffffffffffffffffffffffff",
    "--paths",
    "1",
    "--receives",
    "10",
];

/// However few receives are wanted, all queries that follow go out, and their receives count: with ten in all none waits for
/// the second ping.
#[test]
fn few_receives_cut_nothing_off_that_follows(rt: HostRuntime) -> Result<(), Fail> {
    const TRIALS: &[Trial<'static>] = &[
        Trial {
            words: TEN,
            text: "\
put e28910ea0adb94dd45ced75fbff3e135c01bc437\n\
key e28910ea0adb94dd45ced75fbff3e135c01bc437\n\
found 2 asked 2 failed 0 turned 0 stored 2\n\
announce 0000000000000000000000000000000000000000 6882\n\
10.0.0.9:1\n\
127.0.0.1:6881\n\
peers 2 found 2 asked 2 failed 0 turned 0 announced 2\n\
received 5 replied 1\n",
            told: Sends(9, &[(8, 6002, ANNOUNCED_TO_2)]),
            ..FOLLOWED
        },
        Trial {
            words: ONE_CALL,
            text: "\
put e28910ea0adb94dd45ced75fbff3e135c01bc437\n\
key e28910ea0adb94dd45ced75fbff3e135c01bc437\n\
found 2 asked 2 failed 0 turned 0 stored 2\n\
announce 0000000000000000000000000000000000000000 6882\n\
10.0.0.9:1\n\
127.0.0.1:6881\n\
peers 2 found 2 asked 2 failed 0 turned 0 announced 2\n\
received 5 replied 1\n",
            told: Sends(9, &[(8, 6002, ANNOUNCED_TO_2)]),
            ..FOLLOWED
        },
    ];
    all_play(&rt, TRIALS)
}

/// The node of ones for a minute and five receive calls, whose queries wait for a minute too.
const MINUTE: &[&str] = &[
    "node",
    "--own",
    "ffffffffffffffffffffffffffffffffffffffff",
    "--paths",
    "1",
    "--timeout",
    "60000",
    "--receives",
    "5",
    "--minutes",
    "1",
];

/// Contact 2 answers the first query with a token and names contact 1, and that answers behind the minute: both are told all
/// the same, and then the node stops at once, with one call left.
#[test]
fn the_end_by_time_cuts_nothing_off_that_follows(rt: HostRuntime) -> Result<(), Fail> {
    const TRIAL: &Trial<'static> = &Trial {
        words: MINUTE,
        input: "0000000000000000000000000000000000000002 127.0.0.1:6002\nannounce 0000000000000000000000000000000000000000 6882\n",
        outside: &[
            From(50_000, 6002, NAMING_1),
            From(70_000, 6001, SECOND_TOKEN),
            From(70_001, 7000, PING),
        ],
        text: "announce 0000000000000000000000000000000000000000 6882\npeers 0 found 2 asked 2 failed 0 turned 0 announced 2\nreceived 2 replied 0\n",
        told: Sends(
            4,
            &[
                (
                    2,
                    6001,
                    b"d1:ad2:id20:\xff\xff\xff\xff\xff\xff\xff\xff\xff\xff\xff\xff\xff\xff\xff\xff\xff\xff\xff\xff9:info_hash20:\0\0\0\0\0\0\0\0\0\0\0\0\0\0\0\0\0\0\0\x004:porti6882e5:token8:aoeusnthe1:q13:announce_peer1:t4:\x8bw\x0d\xc71:y1:qe",
                ),
                (
                    3,
                    6002,
                    b"d1:ad2:id20:\xff\xff\xff\xff\xff\xff\xff\xff\xff\xff\xff\xff\xff\xff\xff\xff\xff\xff\xff\xff9:info_hash20:\0\0\0\0\0\0\0\0\0\0\0\0\0\0\0\0\0\0\0\x004:porti6882e5:token3:abce1:q13:announce_peer1:t4:\xdaAY|1:y1:qe",
                ),
            ],
        ),
        ..PEERS
    };
    plays(&rt, TRIAL)
}

/// Contact 1 answers what it was told, twice. Nobody waits for that: it is for no lookup, and owed nothing.
#[test]
fn an_answer_to_what_follows_is_for_no_job(rt: HostRuntime) -> Result<(), Fail> {
    const TRIAL: &Trial<'static> = &Trial {
        words: ELEVEN,
        outside: &[
            From(10, 6001, ONE_PEER),
            From(10, 6001, SECOND),
            From(12, 6001, SECOND),
        ],
        text: "announce 0000000000000000000000000000000000000000 6882\n127.0.0.1:6881\npeers 1 found 1 asked 1 failed 0 turned 0 announced 1\nreceived 3 replied 0\n",
        ..ANNOUNCE
    };
    plays(&rt, TRIAL)
}

/// The node of ones in the group whose key is 32 zero bytes.
const GROUPED: &[&str] = &[
    "node",
    "--own",
    "ffffffffffffffffffffffffffffffffffffffff",
    "--paths",
    "1",
    "--group",
    "0000000000000000000000000000000000000000000000000000000000000000",
];

/// The answer of contact 1 with the tag of the group.
const TAGGED: &[u8] =
    b"d1:rd2:id20:\0\0\0\0\0\0\0\0\0\0\0\0\0\0\0\0\0\0\0\x015:token8:aoeusnth6:valuesl6:\x7f\0\0\x01\x1a\xe1ee2:sg20:\xf25`\x87\x02\xfb2O\x8c\x9e\xcfv[\xe4\x9d\x1a`\xdcxA1:t4:\xa0\x8d\xed\x1a1:y1:re";

/// An answer without a tag gives neither peers nor a token. What follows is a query, and so has no tag.
#[test]
fn a_member_announces_to_members(rt: HostRuntime) -> Result<(), Fail> {
    const TRIALS: &[Trial<'static>] = &[
        Trial {
            words: GROUPED,
            outside: &[From(10, 6001, TAGGED)],
            ..ANNOUNCE
        },
        Trial {
            words: GROUPED,
            text: "announce 0000000000000000000000000000000000000000 6882\npeers 0 found 0 asked 1 failed 1 turned 0 announced 0\nreceived 1 replied 0\n",
            told: Sends(1, &[]),
            ..ANNOUNCE
        },
    ];
    all_play(&rt, TRIALS)
}
