//! A node that is given the proof of its own identifier: what it asks and tells brings it, and one that is none is refused. The
//! identifier, key and X were computed by a script of its own from the seed of 32 zero bytes, for puzzles of 0 and 8 bits, and the
//! bytes were written from BEP 5, BEP 44 and the place of the key `sk` in the arguments, in order, by another.
use crate::node::jobs::{ANNOUNCE, PUTTING};
use crate::node::nodes::NODE;
use crate::node::trial::Wanted::Sends;
use crate::node::trial::{SILENT, Trial, all_play, plays};
use std::test::Fail;

/// A node whose identifier is that of its proof.
const VOUCHED: &[&str] = &[
    "node",
    "--proof",
    "76b8e0ada0f13d90405d6ae55386bd28bdd219b8a08ded1aa836efcc8b770dc7,0000000000000000000000000000000000000024",
    "--c2",
    "8",
    "--paths",
    "1",
];

/// The same without puzzles.
const PLAIN: &[&str] = &[
    "node",
    "--proof",
    "76b8e0ada0f13d90405d6ae55386bd28bdd219b8a08ded1aa836efcc8b770dc7,0000000000000000000000000000000000000024",
    "--paths",
    "1",
];

/// The query for the nodes closest to 0, under the sixth word.
const FIND: &[u8] =
    b"d1:ad2:id20:\xc2}\x85\xce\xc2\xa3\x1b\\\x03\xe1:\xf0\xdb\xacD\xb2\x0e\x0a\x91\x122:sk52:v\xb8\xe0\xad\xa0\xf1=\x90@]j\xe5S\x86\xbd(\xbd\xd2\x19\xb8\xa0\x8d\xed\x1a\xa86\xef\xcc\x8bw\x0d\xc7\0\0\0\0\0\0\0\0\0\0\0\0\0\0\0\0\0\0\0$6:target20:\0\0\0\0\0\0\0\0\0\0\0\0\0\0\0\0\0\0\0\0e1:q9:find_node1:t4:\xa0\x8d\xed\x1a1:y1:qe";

/// The query for the peers of the key 0, under the sixth word.
const GET_PEERS: &[u8] =
    b"d1:ad2:id20:\xc2}\x85\xce\xc2\xa3\x1b\\\x03\xe1:\xf0\xdb\xacD\xb2\x0e\x0a\x91\x129:info_hash20:\0\0\0\0\0\0\0\0\0\0\0\0\0\0\0\0\0\0\0\02:sk52:v\xb8\xe0\xad\xa0\xf1=\x90@]j\xe5S\x86\xbd(\xbd\xd2\x19\xb8\xa0\x8d\xed\x1a\xa86\xef\xcc\x8bw\x0d\xc7\0\0\0\0\0\0\0\0\0\0\0\0\0\0\0\0\0\0\0$e1:q9:get_peers1:t4:\xa0\x8d\xed\x1a1:y1:qe";

/// The announcement of port 6882 under the seventh word.
const ANNOUNCED: &[u8] =
    b"d1:ad2:id20:\xc2}\x85\xce\xc2\xa3\x1b\\\x03\xe1:\xf0\xdb\xacD\xb2\x0e\x0a\x91\x129:info_hash20:\0\0\0\0\0\0\0\0\0\0\0\0\0\0\0\0\0\0\0\04:porti6882e2:sk52:v\xb8\xe0\xad\xa0\xf1=\x90@]j\xe5S\x86\xbd(\xbd\xd2\x19\xb8\xa0\x8d\xed\x1a\xa86\xef\xcc\x8bw\x0d\xc7\0\0\0\0\0\0\0\0\0\0\0\0\0\0\0\0\0\0\0$5:token8:aoeusnthe1:q13:announce_peer1:t4:\xa86\xef\xcc1:y1:qe";

/// The query for the item `5:hello`, under the sixth word.
const GET: &[u8] =
    b"d1:ad2:id20:\xc2}\x85\xce\xc2\xa3\x1b\\\x03\xe1:\xf0\xdb\xacD\xb2\x0e\x0a\x91\x122:sk52:v\xb8\xe0\xad\xa0\xf1=\x90@]j\xe5S\x86\xbd(\xbd\xd2\x19\xb8\xa0\x8d\xed\x1a\xa86\xef\xcc\x8bw\x0d\xc7\0\0\0\0\0\0\0\0\0\0\0\0\0\0\0\0\0\0\0$6:target20:\xe2\x89\x10\xea\x0a\xdb\x94\xddE\xce\xd7_\xbf\xf3\xe15\xc0\x1b\xc47e1:q3:get1:t4:\xa0\x8d\xed\x1a1:y1:qe";

/// The item under the seventh word.
const PUT: &[u8] =
    b"d1:ad2:id20:\xc2}\x85\xce\xc2\xa3\x1b\\\x03\xe1:\xf0\xdb\xacD\xb2\x0e\x0a\x91\x122:sk52:v\xb8\xe0\xad\xa0\xf1=\x90@]j\xe5S\x86\xbd(\xbd\xd2\x19\xb8\xa0\x8d\xed\x1a\xa86\xef\xcc\x8bw\x0d\xc7\0\0\0\0\0\0\0\0\0\0\0\0\0\0\0\0\0\0\0$5:token8:aoeusnth1:v5:helloe1:q3:put1:t4:\xa86\xef\xcc1:y1:qe";

/// What is looked for, announced and put.
#[test]
fn a_node_brings_its_proof_along(rt: HostRuntime) -> Result<(), Fail> {
    const TRIALS: &[Trial<'static>] = &[
        Trial {
            words: PLAIN,
            input: "0000000000000000000000000000000000000001 127.0.0.1:6001\nfind 0000000000000000000000000000000000000000\n",
            text: "find 0000000000000000000000000000000000000000\nfound 0 asked 1 failed 1 turned 0\nreceived 0 replied 0\n",
            told: Sends(1, &[(0, 6001, FIND)]),
            ..SILENT
        },
        Trial {
            words: PLAIN,
            told: Sends(2, &[(0, 6001, GET_PEERS), (1, 6001, ANNOUNCED)]),
            ..ANNOUNCE
        },
        Trial {
            words: PLAIN,
            told: Sends(2, &[(0, 6001, GET), (1, 6001, PUT)]),
            ..PUTTING
        },
    ];
    all_play(&rt, TRIALS)
}

/// Under puzzles that the proof solves it goes on, and finds nobody to begin with.
#[test]
fn a_proof_that_solves_the_puzzles_is_taken(rt: HostRuntime) -> Result<(), Fail> {
    const TRIAL: &Trial<'static> = &Trial {
        words: VOUCHED,
        input: "find 0000000000000000000000000000000000000000\n",
        status: 8,
        text: "no seeds\n",
        told: Sends(0, &[]),
        ..SILENT
    };
    plays(&rt, TRIAL)
}

/// Nothing is asked of anybody.
const REFUSED: Trial<'static> = Trial {
    words: NODE,
    input: "0000000000000000000000000000000000000001 127.0.0.1:6001\nfind 0000000000000000000000000000000000000000\n",
    status: 15,
    text: "bad proof\n",
    told: Sends(0, &[]),
    ..SILENT
};

/// The proof is of another identifier, the key is one bit wrong, and the puzzles ask for more than it solves.
#[test]
fn a_proof_that_does_not_pass_is_refused_before_anything_is_sent(
    rt: HostRuntime,
) -> Result<(), Fail> {
    const TRIALS: &[Trial<'static>] = &[
        Trial {
            words: &[
                "node",
                "--own",
                "ffffffffffffffffffffffffffffffffffffffff",
                "--proof",
                "76b8e0ada0f13d90405d6ae55386bd28bdd219b8a08ded1aa836efcc8b770dc7,0000000000000000000000000000000000000024",
            ],
            ..REFUSED
        },
        Trial {
            words: &[
                "node",
                "--own",
                "c27d85cec2a31b5c03e13af0dbac44b20e0a9112",
                "--proof",
                "77b8e0ada0f13d90405d6ae55386bd28bdd219b8a08ded1aa836efcc8b770dc7,0000000000000000000000000000000000000024",
            ],
            ..REFUSED
        },
        Trial {
            words: &[
                "node",
                "--proof",
                "76b8e0ada0f13d90405d6ae55386bd28bdd219b8a08ded1aa836efcc8b770dc7,0000000000000000000000000000000000000024",
                "--c2",
                "10",
            ],
            ..REFUSED
        },
    ];
    all_play(&rt, TRIALS)
}
