//! A node whose input has lines of all kinds: what it asks, prints and tells, each kind by itself and sixteen at once. The bytes
//! were written from BEP 5, BEP 43 and BEP 44 by a script of their own, under the words that the generator of 32 zero bytes
//! gives from the sixth on; so were the SHA-1s.
use crate::node::CONTACT_1;
use crate::node::nodes::NODE;
use crate::node::trial::Outside::{self, From, Often};
use crate::node::trial::Wanted::{Events, Sends};
use crate::node::trial::{SILENT, Told, Trial, all_play, plays};
use kad_base::{Addr, Ip};
use std::test::Fail;

/// The address of contact 2.
pub const CONTACT_2: Addr = Addr {
    ip: Ip::V4([127, 0, 0, 1]),
    port: 6002,
};

// ---- each kind by itself

/// The query for the peers of the key 0, under the sixth word, without `ro`.
pub const GET_PEERS: &[u8] =
    b"d1:ad2:id20:\xff\xff\xff\xff\xff\xff\xff\xff\xff\xff\xff\xff\xff\xff\xff\xff\xff\xff\xff\xff9:info_hash20:\0\0\0\0\0\0\0\0\0\0\0\0\0\0\0\0\0\0\0\0e1:q9:get_peers1:t4:\xa0\x8d\xed\x1a1:y1:qe";

/// Contact 1 answers it with the token `aoeusnth` and the peer 127.0.0.1:6881.
pub const ONE_PEER: &[u8] =
    b"d1:rd2:id20:\0\0\0\0\0\0\0\0\0\0\0\0\0\0\0\0\0\0\0\x015:token8:aoeusnth6:valuesl6:\x7f\0\0\x01\x1a\xe1ee1:t4:\xa0\x8d\xed\x1a1:y1:re";

/// The announcement of port 6882 to contact 1, under the seventh word, without `ro`.
pub const ANNOUNCED: &[u8] =
    b"d1:ad2:id20:\xff\xff\xff\xff\xff\xff\xff\xff\xff\xff\xff\xff\xff\xff\xff\xff\xff\xff\xff\xff9:info_hash20:\0\0\0\0\0\0\0\0\0\0\0\0\0\0\0\0\0\0\0\x004:porti6882e5:token8:aoeusnthe1:q13:announce_peer1:t4:\xa86\xef\xcc1:y1:qe";

/// The same of the port that the datagram comes from.
const IMPLIED: &[u8] =
    b"d1:ad2:id20:\xff\xff\xff\xff\xff\xff\xff\xff\xff\xff\xff\xff\xff\xff\xff\xff\xff\xff\xff\xff12:implied_porti1e9:info_hash20:\0\0\0\0\0\0\0\0\0\0\0\0\0\0\0\0\0\0\0\x004:porti1e5:token8:aoeusnthe1:q13:announce_peer1:t4:\xa86\xef\xcc1:y1:qe";

/// The query for the item `5:hello`, under the sixth word.
const GET: &[u8] =
    b"d1:ad2:id20:\xff\xff\xff\xff\xff\xff\xff\xff\xff\xff\xff\xff\xff\xff\xff\xff\xff\xff\xff\xff6:target20:\xe2\x89\x10\xea\x0a\xdb\x94\xddE\xce\xd7_\xbf\xf3\xe15\xc0\x1b\xc47e1:q3:get1:t4:\xa0\x8d\xed\x1a1:y1:qe";

/// Contact 1 answers it with the item, and with the token `aoeusnth`.
pub const HELLO: &[u8] =
    b"d1:rd2:id20:\0\0\0\0\0\0\0\0\0\0\0\0\0\0\0\0\0\0\0\x015:token8:aoeusnth1:v5:helloe1:t4:\xa0\x8d\xed\x1a1:y1:re";

/// The item for contact 1, under the seventh word, without `ro`.
const PUT: &[u8] =
    b"d1:ad2:id20:\xff\xff\xff\xff\xff\xff\xff\xff\xff\xff\xff\xff\xff\xff\xff\xff\xff\xff\xff\xff5:token8:aoeusnth1:v5:helloe1:q3:put1:t4:\xa86\xef\xcc1:y1:qe";

/// A node that looks for the peers of the key 0 at contact 1, and hears of one.
pub const PEERS: Trial<'static> = Trial {
    words: NODE,
    input: "0000000000000000000000000000000000000001 127.0.0.1:6001\npeers 0000000000000000000000000000000000000000\n",
    outside: &[From(10, 6001, ONE_PEER)],
    text: "peers 0000000000000000000000000000000000000000\n127.0.0.1:6881\npeers 1 found 1 asked 1 failed 0 turned 0 announced 0\nreceived 1 replied 0\n",
    told: Sends(1, &[(0, 6001, GET_PEERS)]),
    ..SILENT
};

#[test]
fn a_node_prints_peers(rt: HostRuntime) -> Result<(), Fail> {
    const TRIAL: &Trial<'static> = &PEERS;
    plays(&rt, TRIAL)
}

/// The same where a port is announced.
pub const ANNOUNCE: Trial<'static> = Trial {
    input: "0000000000000000000000000000000000000001 127.0.0.1:6001\nannounce 0000000000000000000000000000000000000000 6882\n",
    text: "announce 0000000000000000000000000000000000000000 6882\n127.0.0.1:6881\npeers 1 found 1 asked 1 failed 0 turned 0 announced 1\nreceived 1 replied 0\n",
    told: Sends(2, &[(0, 6001, GET_PEERS), (1, 6001, ANNOUNCED)]),
    ..PEERS
};

/// The announcement goes out when the lookup is over, and a receive behind it waits for nothing.
#[test]
fn a_node_announces_a_port_with_the_token(rt: HostRuntime) -> Result<(), Fail> {
    const TRIAL: &Trial<'static> = &Trial {
        told: Events(&[
            Told::Now { at: 0 },
            Told::Sent {
                to: CONTACT_1,
                bytes: GET_PEERS,
            },
            Told::Got {
                from: CONTACT_1,
                bytes: ONE_PEER,
                until: 2000,
                at: 10,
            },
            Told::Sent {
                to: CONTACT_1,
                bytes: ANNOUNCED,
            },
            Told::Quiet { until: 10, at: 10 },
        ]),
        ..ANNOUNCE
    };
    plays(&rt, TRIAL)
}

#[test]
fn port_0_of_a_line_is_the_one_that_the_datagram_comes_from(rt: HostRuntime) -> Result<(), Fail> {
    const TRIAL: &Trial<'static> = &Trial {
        input: "0000000000000000000000000000000000000001 127.0.0.1:6001\nannounce 0000000000000000000000000000000000000000 0\n",
        text: "announce 0000000000000000000000000000000000000000 0\n127.0.0.1:6881\npeers 1 found 1 asked 1 failed 0 turned 0 announced 1\nreceived 1 replied 0\n",
        told: Sends(2, &[(1, 6001, IMPLIED)]),
        ..ANNOUNCE
    };
    plays(&rt, TRIAL)
}

/// A node that gets an item from contact 1.
pub const GETTING: Trial<'static> = Trial {
    input: "0000000000000000000000000000000000000001 127.0.0.1:6001\nget e28910ea0adb94dd45ced75fbff3e135c01bc437\n",
    outside: &[From(10, 6001, HELLO)],
    text: "get e28910ea0adb94dd45ced75fbff3e135c01bc437\nvalue 353a68656c6c6f\nfound 1 asked 1 failed 0 turned 0\nreceived 1 replied 0\n",
    told: Sends(1, &[(0, 6001, GET)]),
    ..PEERS
};

#[test]
fn a_node_prints_an_item(rt: HostRuntime) -> Result<(), Fail> {
    const TRIAL: &Trial<'static> = &GETTING;
    plays(&rt, TRIAL)
}

/// The item `5:jello`, which has another key.
const JELLO: &[u8] =
    b"d1:rd2:id20:\0\0\0\0\0\0\0\0\0\0\0\0\0\0\0\0\0\0\0\x015:token8:aoeusnth1:v5:jelloe1:t4:\xa0\x8d\xed\x1a1:y1:re";

#[test]
fn a_node_prints_no_item_of_another_key(rt: HostRuntime) -> Result<(), Fail> {
    const TRIAL: &Trial<'static> = &Trial {
        outside: &[From(10, 6001, JELLO)],
        text: "get e28910ea0adb94dd45ced75fbff3e135c01bc437\nnone\nfound 1 asked 1 failed 0 turned 0\nreceived 1 replied 0\n",
        ..GETTING
    };
    plays(&rt, TRIAL)
}

/// A node that gives an item to contact 1.
pub const PUTTING: Trial<'static> = Trial {
    input: "0000000000000000000000000000000000000001 127.0.0.1:6001\nput 353a68656c6c6f\n",
    text: "put e28910ea0adb94dd45ced75fbff3e135c01bc437\nkey e28910ea0adb94dd45ced75fbff3e135c01bc437\nfound 1 asked 1 failed 0 turned 0 stored 1\nreceived 1 replied 0\n",
    told: Sends(2, &[(0, 6001, GET), (1, 6001, PUT)]),
    ..GETTING
};

#[test]
fn a_node_puts_an_item_with_the_token(rt: HostRuntime) -> Result<(), Fail> {
    const TRIAL: &Trial<'static> = &PUTTING;
    plays(&rt, TRIAL)
}

/// Who doesn't answer gives neither peers nor a token, and is told nothing.
#[test]
fn silence_fails_jobs_of_all_kinds(rt: HostRuntime) -> Result<(), Fail> {
    const TRIAL: &Trial<'static> = &Trial {
        input: "0000000000000000000000000000000000000001 127.0.0.1:6001\npeers 0000000000000000000000000000000000000000\nannounce 0000000000000000000000000000000000000000 6882\nget e28910ea0adb94dd45ced75fbff3e135c01bc437\nput 353a68656c6c6f\n",
        outside: &[],
        text: "\
peers 0000000000000000000000000000000000000000\n\
peers 0 found 0 asked 1 failed 1 turned 0 announced 0\n\
announce 0000000000000000000000000000000000000000 6882\n\
peers 0 found 0 asked 1 failed 1 turned 0 announced 0\n\
get e28910ea0adb94dd45ced75fbff3e135c01bc437\n\
none\n\
found 0 asked 1 failed 1 turned 0\n\
put e28910ea0adb94dd45ced75fbff3e135c01bc437\n\
key e28910ea0adb94dd45ced75fbff3e135c01bc437\n\
found 0 asked 1 failed 1 turned 0 stored 0\n\
received 0 replied 0\n",
        told: Sends(4, &[]),
        ..PEERS
    };
    plays(&rt, TRIAL)
}

// ---- sixteen at once

/// Contact 1 and sixteen lines of all kinds.
const SIXTEEN: &str = "\
0000000000000000000000000000000000000001 127.0.0.1:6001\n\
find 0000000000000000000000000000000000000000\n\
peers 0000000000000000000000000000000000000000\n\
announce 0000000000000000000000000000000000000000 6882\n\
get e28910ea0adb94dd45ced75fbff3e135c01bc437\n\
put 353a68656c6c6f\n\
find 0000000000000000000000000000000000000004\n\
peers 0000000000000000000000000000000000000004\n\
announce 0000000000000000000000000000000000000004 0\n\
get 0287748cb511199ac884bfdf7c36722cc4dc5be2\n\
put 353a6a656c6c6f\n\
find 0000000000000000000000000000000000000008\n\
peers 0000000000000000000000000000000000000008\n\
announce 0000000000000000000000000000000000000008 65535\n\
get 593b743b207e10ff55ec63e71a46c07909d0880a\n\
put 6c65\n\
announce 0000000000000000000000000000000000000000 1\n";

/// Contact 1 answers each: a job that may ask for it is given a token of its own.
const SIXTEEN_ANSWERS: &[Outside<'static>] = &[
    From(
        10,
        6001,
        b"d1:rd2:id20:\0\0\0\0\0\0\0\0\0\0\0\0\0\0\0\0\0\0\0\x01e1:t4:\xa0\x8d\xed\x1a1:y1:re",
    ),
    From(
        10,
        6001,
        b"d1:rd2:id20:\0\0\0\0\0\0\0\0\0\0\0\0\0\0\0\0\0\0\0\x016:valuesl6:\x0a\0\0\x09\0\x016:\x7f\0\0\x01\x1a\xe1ee1:t4:\xa86\xef\xcc1:y1:re",
    ),
    From(
        10,
        6001,
        b"d1:rd2:id20:\0\0\0\0\0\0\0\0\0\0\0\0\0\0\0\0\0\0\0\x015:token2:t26:valuesl6:\x7f\0\0\x01\x1a\xe1ee1:t4:\x8bw\x0d\xc71:y1:re",
    ),
    From(
        10,
        6001,
        b"d1:rd2:id20:\0\0\0\0\0\0\0\0\0\0\0\0\0\0\0\0\0\0\0\x015:token2:t31:v5:jelloe1:t4:\xdaAY|1:y1:re",
    ),
    From(
        10,
        6001,
        b"d1:rd2:id20:\0\0\0\0\0\0\0\0\0\0\0\0\0\0\0\0\0\0\0\x015:token2:t4e1:t4:QWH\x8d1:y1:re",
    ),
    From(
        10,
        6001,
        b"d1:rd2:id20:\0\0\0\0\0\0\0\0\0\0\0\0\0\0\0\0\0\0\0\x01e1:t4:w$\xe0?1:y1:re",
    ),
    From(
        10,
        6001,
        b"d1:rd2:id20:\0\0\0\0\0\0\0\0\0\0\0\0\0\0\0\0\0\0\0\x015:token2:t6e1:t4:\xb8\xd8J71:y1:re",
    ),
    From(
        10,
        6001,
        b"d1:rd2:id20:\0\0\0\0\0\0\0\0\0\0\0\0\0\0\0\0\0\0\0\x015:token2:t7e1:t4:jC\xb8\xf41:y1:re",
    ),
    From(
        10,
        6001,
        b"d1:rd2:id20:\0\0\0\0\0\0\0\0\0\0\0\0\0\0\0\0\0\0\0\x011:v5:jelloe1:t4:\x15\x18\xa1\x1c1:y1:re",
    ),
    From(
        10,
        6001,
        b"d1:rd2:id20:\0\0\0\0\0\0\0\0\0\0\0\0\0\0\0\0\0\0\0\x015:token2:t91:v5:jelloe1:t4:\xc3\x87\xb6i1:y1:re",
    ),
    From(
        10,
        6001,
        b"d1:rd2:id20:\0\0\0\0\0\0\0\0\0\0\0\0\0\0\0\0\0\0\0\x01e1:t4:\xb2\xeee\x861:y1:re",
    ),
    From(
        10,
        6001,
        b"d1:rd2:id20:\0\0\0\0\0\0\0\0\0\0\0\0\0\0\0\0\0\0\0\x016:valuesl6:\x7f\0\0\x01\x1a\xe1ee1:t4:\x9f\x07\xe7\xbe1:y1:re",
    ),
    From(
        10,
        6001,
        b"d1:rd2:id20:\0\0\0\0\0\0\0\0\0\0\0\0\0\0\0\0\0\0\0\x015:token3:t126:valuesl6:\x0a\0\0\x09\0\x01ee1:t4:UQ8z1:y1:re",
    ),
    From(
        10,
        6001,
        b"d1:rd2:id20:\0\0\0\0\0\0\0\0\0\0\0\0\0\0\0\0\0\0\0\x015:token3:t13e1:t4:\x98\xba\x97|1:y1:re",
    ),
    From(
        10,
        6001,
        b"d1:rd2:id20:\0\0\0\0\0\0\0\0\0\0\0\0\0\0\0\0\0\0\0\x015:token3:t14e1:t4:s-\x08\x0d1:y1:re",
    ),
    From(
        10,
        6001,
        b"d1:rd2:id20:\0\0\0\0\0\0\0\0\0\0\0\0\0\0\0\0\0\0\0\x015:token3:t156:valuesl6:\x7f\0\0\x01\x1a\xe1ee1:t4:\xcb\x0f)\xa01:y1:re",
    ),
];

/// What each job found.
const SIXTEEN_FOUND: &str = "\
find 0000000000000000000000000000000000000000\n\
0000000000000000000000000000000000000001 127.0.0.1:6001\n\
found 1 asked 1 failed 0 turned 0\n\
peers 0000000000000000000000000000000000000000\n\
10.0.0.9:1\n\
127.0.0.1:6881\n\
peers 2 found 1 asked 1 failed 0 turned 0 announced 0\n\
announce 0000000000000000000000000000000000000000 6882\n\
127.0.0.1:6881\n\
peers 1 found 1 asked 1 failed 0 turned 0 announced 1\n\
get e28910ea0adb94dd45ced75fbff3e135c01bc437\n\
none\n\
found 1 asked 1 failed 0 turned 0\n\
put e28910ea0adb94dd45ced75fbff3e135c01bc437\n\
key e28910ea0adb94dd45ced75fbff3e135c01bc437\n\
found 1 asked 1 failed 0 turned 0 stored 1\n\
find 0000000000000000000000000000000000000004\n\
0000000000000000000000000000000000000001 127.0.0.1:6001\n\
found 1 asked 1 failed 0 turned 0\n\
peers 0000000000000000000000000000000000000004\n\
peers 0 found 1 asked 1 failed 0 turned 0 announced 0\n\
announce 0000000000000000000000000000000000000004 0\n\
peers 0 found 1 asked 1 failed 0 turned 0 announced 1\n\
get 0287748cb511199ac884bfdf7c36722cc4dc5be2\n\
value 353a6a656c6c6f\n\
found 1 asked 1 failed 0 turned 0\n\
put 0287748cb511199ac884bfdf7c36722cc4dc5be2\n\
key 0287748cb511199ac884bfdf7c36722cc4dc5be2\n\
found 1 asked 1 failed 0 turned 0 stored 1\n\
find 0000000000000000000000000000000000000008\n\
0000000000000000000000000000000000000001 127.0.0.1:6001\n\
found 1 asked 1 failed 0 turned 0\n\
peers 0000000000000000000000000000000000000008\n\
127.0.0.1:6881\n\
peers 1 found 1 asked 1 failed 0 turned 0 announced 0\n\
announce 0000000000000000000000000000000000000008 65535\n\
10.0.0.9:1\n\
peers 1 found 1 asked 1 failed 0 turned 0 announced 1\n\
get 593b743b207e10ff55ec63e71a46c07909d0880a\n\
none\n\
found 1 asked 1 failed 0 turned 0\n\
put 593b743b207e10ff55ec63e71a46c07909d0880a\n\
key 593b743b207e10ff55ec63e71a46c07909d0880a\n\
found 1 asked 1 failed 0 turned 0 stored 1\n\
announce 0000000000000000000000000000000000000000 1\n\
127.0.0.1:6881\n\
peers 1 found 1 asked 1 failed 0 turned 0 announced 1\n\
received 16 replied 0\n";

/// Seven jobs tell contact 1 something behind the last answer, in their order and each by its own token.
#[test]
fn sixteen_jobs_of_all_kinds_go_at_once(rt: HostRuntime) -> Result<(), Fail> {
    const TRIAL: &Trial<'static> = &Trial {
        input: SIXTEEN,
        outside: SIXTEEN_ANSWERS,
        text: SIXTEEN_FOUND,
        told: Sends(
            23,
            &[
                (
                    0,
                    6001,
                    b"d1:ad2:id20:\xff\xff\xff\xff\xff\xff\xff\xff\xff\xff\xff\xff\xff\xff\xff\xff\xff\xff\xff\xff6:target20:\0\0\0\0\0\0\0\0\0\0\0\0\0\0\0\0\0\0\0\0e1:q9:find_node1:t4:\xa0\x8d\xed\x1a1:y1:qe",
                ),
                (
                    1,
                    6001,
                    b"d1:ad2:id20:\xff\xff\xff\xff\xff\xff\xff\xff\xff\xff\xff\xff\xff\xff\xff\xff\xff\xff\xff\xff9:info_hash20:\0\0\0\0\0\0\0\0\0\0\0\0\0\0\0\0\0\0\0\0e1:q9:get_peers1:t4:\xa86\xef\xcc1:y1:qe",
                ),
                (
                    2,
                    6001,
                    b"d1:ad2:id20:\xff\xff\xff\xff\xff\xff\xff\xff\xff\xff\xff\xff\xff\xff\xff\xff\xff\xff\xff\xff9:info_hash20:\0\0\0\0\0\0\0\0\0\0\0\0\0\0\0\0\0\0\0\0e1:q9:get_peers1:t4:\x8bw\x0d\xc71:y1:qe",
                ),
                (
                    3,
                    6001,
                    b"d1:ad2:id20:\xff\xff\xff\xff\xff\xff\xff\xff\xff\xff\xff\xff\xff\xff\xff\xff\xff\xff\xff\xff6:target20:\xe2\x89\x10\xea\x0a\xdb\x94\xddE\xce\xd7_\xbf\xf3\xe15\xc0\x1b\xc47e1:q3:get1:t4:\xdaAY|1:y1:qe",
                ),
                (
                    4,
                    6001,
                    b"d1:ad2:id20:\xff\xff\xff\xff\xff\xff\xff\xff\xff\xff\xff\xff\xff\xff\xff\xff\xff\xff\xff\xff6:target20:\xe2\x89\x10\xea\x0a\xdb\x94\xddE\xce\xd7_\xbf\xf3\xe15\xc0\x1b\xc47e1:q3:get1:t4:QWH\x8d1:y1:qe",
                ),
                (
                    16,
                    6001,
                    b"d1:ad2:id20:\xff\xff\xff\xff\xff\xff\xff\xff\xff\xff\xff\xff\xff\xff\xff\xff\xff\xff\xff\xff9:info_hash20:\0\0\0\0\0\0\0\0\0\0\0\0\0\0\0\0\0\0\0\x004:porti6882e5:token2:t2e1:q13:announce_peer1:t4:H\xe3ei1:y1:qe",
                ),
                (
                    17,
                    6001,
                    b"d1:ad2:id20:\xff\xff\xff\xff\xff\xff\xff\xff\xff\xff\xff\xff\xff\xff\xff\xff\xff\xff\xff\xff5:token2:t41:v5:helloe1:q3:put1:t4:\x12\xc6S>1:y1:qe",
                ),
                (
                    18,
                    6001,
                    b"d1:ad2:id20:\xff\xff\xff\xff\xff\xff\xff\xff\xff\xff\xff\xff\xff\xff\xff\xff\xff\xff\xff\xff12:implied_porti1e9:info_hash20:\0\0\0\0\0\0\0\0\0\0\0\0\0\0\0\0\0\0\0\x044:porti1e5:token2:t7e1:q13:announce_peer1:t4:2\xeez\xed1:y1:qe",
                ),
                (
                    19,
                    6001,
                    b"d1:ad2:id20:\xff\xff\xff\xff\xff\xff\xff\xff\xff\xff\xff\xff\xff\xff\xff\xff\xff\xff\xff\xff5:token2:t91:v5:jelloe1:q3:put1:t4:)\xb7!v1:y1:qe",
                ),
                (
                    20,
                    6001,
                    b"d1:ad2:id20:\xff\xff\xff\xff\xff\xff\xff\xff\xff\xff\xff\xff\xff\xff\xff\xff\xff\xff\xff\xff9:info_hash20:\0\0\0\0\0\0\0\0\0\0\0\0\0\0\0\0\0\0\0\x084:porti65535e5:token3:t12e1:q13:announce_peer1:t4:\x9c\xe6NC1:y1:qe",
                ),
                (
                    21,
                    6001,
                    b"d1:ad2:id20:\xff\xff\xff\xff\xff\xff\xff\xff\xff\xff\xff\xff\xff\xff\xff\xff\xff\xff\xff\xff5:token3:t141:vlee1:q3:put1:t4:\xd5q3\xb01:y1:qe",
                ),
                (
                    22,
                    6001,
                    b"d1:ad2:id20:\xff\xff\xff\xff\xff\xff\xff\xff\xff\xff\xff\xff\xff\xff\xff\xff\xff\xff\xff\xff9:info_hash20:\0\0\0\0\0\0\0\0\0\0\0\0\0\0\0\0\0\0\0\x004:porti1e5:token3:t15e1:q13:announce_peer1:t4:t\xd89\xd51:y1:qe",
                ),
            ],
        ),
        ..PEERS
    };
    plays(&rt, TRIAL)
}

/// The seventeenth line stands on the eighteenth place, behind one of a contact.
const SEVENTEEN: &str = "\
0000000000000000000000000000000000000001 127.0.0.1:6001\n\
find 0000000000000000000000000000000000000000\n\
peers 0000000000000000000000000000000000000000\n\
announce 0000000000000000000000000000000000000000 6882\n\
get e28910ea0adb94dd45ced75fbff3e135c01bc437\n\
put 353a68656c6c6f\n\
find 0000000000000000000000000000000000000004\n\
peers 0000000000000000000000000000000000000004\n\
announce 0000000000000000000000000000000000000004 0\n\
get 0287748cb511199ac884bfdf7c36722cc4dc5be2\n\
put 353a6a656c6c6f\n\
find 0000000000000000000000000000000000000008\n\
peers 0000000000000000000000000000000000000008\n\
announce 0000000000000000000000000000000000000008 65535\n\
get 593b743b207e10ff55ec63e71a46c07909d0880a\n\
put 6c65\n\
announce 0000000000000000000000000000000000000000 1\n\
get e28910ea0adb94dd45ced75fbff3e135c01bc437\n";

/// A node that hears nobody and refuses a line.
pub const BAD_LINE: Trial<'static> = Trial {
    outside: &[],
    status: 3,
    text: "bad line 1\n",
    told: Sends(0, &[]),
    ..PEERS
};

#[test]
fn a_seventeenth_job_is_a_bad_line(rt: HostRuntime) -> Result<(), Fail> {
    const TRIAL: &Trial<'static> = &Trial {
        input: SEVENTEEN,
        text: "bad line 18\n",
        ..BAD_LINE
    };
    plays(&rt, TRIAL)
}

// ---- how it ends otherwise

/// Each job needs somebody to ask.
#[test]
fn a_job_of_any_kind_needs_a_contact(rt: HostRuntime) -> Result<(), Fail> {
    const NOBODY: Trial<'static> = Trial {
        status: 8,
        text: "no seeds\n",
        ..BAD_LINE
    };
    const TRIALS: &[Trial<'static>] = &[
        Trial {
            input: "peers 0000000000000000000000000000000000000000\n",
            ..NOBODY
        },
        Trial {
            input: "announce 0000000000000000000000000000000000000000 6882\n",
            ..NOBODY
        },
        Trial {
            input: "get e28910ea0adb94dd45ced75fbff3e135c01bc437\n",
            ..NOBODY
        },
        Trial {
            input: "put 353a68656c6c6f\n",
            ..NOBODY
        },
    ];
    all_play(&rt, TRIALS)
}

/// While a query is open the millionth datagram for no lookup ends the node, and nothing follows.
#[test]
fn the_millionth_stranger_ends_jobs(rt: HostRuntime) -> Result<(), Fail> {
    const TRIAL: &Trial<'static> = &Trial {
        input: "0000000000000000000000000000000000000001 127.0.0.1:6001\nannounce 0000000000000000000000000000000000000000 6882\nput 353a68656c6c6f\n",
        outside: &[From(1, 6001, ONE_PEER), Often(1, 6001, b"x", 1_000_000)],
        status: 7,
        text: "strays\n",
        told: Sends(2, &[]),
        ..PEERS
    };
    plays(&rt, TRIAL)
}
