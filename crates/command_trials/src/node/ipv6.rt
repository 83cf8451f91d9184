//! Lookups in the network of IPv6 (BEP 32). Contact n is identifier n at the address of fifteen zero bytes and n, and at
//! port 6000 + n.
use crate::node::trial::Outside::{self, FromSix, Says};
use crate::node::trial::Wanted::{Anything, Sends};
use crate::node::trial::{SILENT, Trial, all_play, plays};
use crate::node::{self, ANSWER_1, NOBODY};
use kad_base::Family;
use std::test::Fail;
use trial_kit::{LINE_1, Reply};

/// A lookup of zeros by the node of ones, on one path in the network of IPv6.
const ONE_PATH: &[&str] = &[
    "lookup",
    "--target",
    "0000000000000000000000000000000000000000",
    "--own",
    "ffffffffffffffffffffffffffffffffffffffff",
    "--paths",
    "1",
    "--family",
    "6",
];

/// A search for peers of the key of zeros by the node of ones, on one path in the network of IPv6.
const PEERS: &[&str] = &[
    "peers",
    "--key",
    "0000000000000000000000000000000000000000",
    "--own",
    "ffffffffffffffffffffffffffffffffffffffff",
    "--paths",
    "1",
    "--family",
    "6",
];

const LINE6_1: &str =
    "0000000000000000000000000000000000000001 [0000:0000:0000:0000:0000:0000:0000:0001]:6001\n";

const FOUND6_1: &str =
    "0000000000000000000000000000000000000001 [0000:0000:0000:0000:0000:0000:0000:0001]:6001\nfound 1 asked 1 failed 0 turned 0\n";

/// Contact 1 answers with contact 2 in `nodes6`.
const NAMING_2: &[u8] =
    b"d1:rd2:id20:\0\0\0\0\0\0\0\0\0\0\0\0\0\0\0\0\0\0\0\x016:nodes638:\0\0\0\0\0\0\0\0\0\0\0\0\0\0\0\0\0\0\0\x02\0\0\0\0\0\0\0\0\0\0\0\0\0\0\0\x02\x17\x72e1:t4:\xa0\x8d\xed\x1a1:y1:re";

/// The same without the last byte of the record.
const CUT_SHORT: &[u8] =
    b"d1:rd2:id20:\0\0\0\0\0\0\0\0\0\0\0\0\0\0\0\0\0\0\0\x016:nodes637:\0\0\0\0\0\0\0\0\0\0\0\0\0\0\0\0\0\0\0\x02\0\0\0\0\0\0\0\0\0\0\0\0\0\0\0\x02\x17e1:t4:\xa0\x8d\xed\x1a1:y1:re";

/// Contact 1 answers with a contact of IPv4 in `nodes`.
const NAMING_IN_NODES: &[u8] =
    b"d1:rd2:id20:\0\0\0\0\0\0\0\0\0\0\0\0\0\0\0\0\0\0\0\x015:nodes26:\0\0\0\0\0\0\0\0\0\0\0\0\0\0\0\0\0\0\0\x02\x7f\0\0\x01\x17\x72e1:t4:\xa0\x8d\xed\x1a1:y1:re";

/// Contact 1 answers with a token, and a peer of each network, that of IPv6 first.
const NAMING_PEERS: &[u8] =
    b"d1:rd2:id20:\0\0\0\0\0\0\0\0\0\0\0\0\0\0\0\0\0\0\0\x015:token8:aoeusnth6:valuesl18:\0\0\0\0\0\0\0\0\0\0\0\0\0\0\0\x09\x1a\xe16:\x7f\0\0\x01\x1a\xe1ee1:t4:\xa0\x8d\xed\x1a1:y1:re";

const BOTH_PEERS: &str =
    "127.0.0.1:6881\n[0000:0000:0000:0000:0000:0000:0000:0009]:6881\npeers 2 found 1 asked 1 failed 0 turned 0 announced 0\n";

/// Contact 2 answers at moment 20, and names nobody.
const BY_2: Outside<'static> = Says(Reply {
    family: Family::Six,
    to: 2,
    at: 20,
    port: 6002,
    id: 2,
    node: None,
});

/// The query to contact 1, which asks for contacts of IPv6.
const QUERY: &[u8; 113] =
    b"d1:ad2:id20:\xff\xff\xff\xff\xff\xff\xff\xff\xff\xff\xff\xff\xff\xff\xff\xff\xff\xff\xff\xff6:target20:\0\0\0\0\0\0\0\0\0\0\0\0\0\0\0\0\0\0\0\04:wantl2:n6ee1:q9:find_node2:roi1e1:t4:\xa0\x8d\xed\x1a1:y1:qe";

/// Contact 1 begins and names contact 2.
const FOUND: Trial<'static> = Trial {
    words: ONE_PATH,
    input: LINE6_1,
    outside: &[FromSix(10, 1, NAMING_2), BY_2],
    text: "0000000000000000000000000000000000000001 [0000:0000:0000:0000:0000:0000:0000:0001]:6001\n0000000000000000000000000000000000000002 [0000:0000:0000:0000:0000:0000:0000:0002]:6002\nfound 2 asked 2 failed 0 turned 0\n",
    told: Sends(2, &[(0, 6001, QUERY)]),
    ..SILENT
};

#[test]
fn a_lookup_over_ipv6_asks_for_its_contacts(rt: HostRuntime) -> Result<(), Fail> {
    const TRIAL: &Trial<'static> = &FOUND;
    plays(&rt, TRIAL)
}

#[test]
fn of_answers_the_part_of_the_network_is_read(rt: HostRuntime) -> Result<(), Fail> {
    const TRIALS: &[Trial<'static>] = &[
        Trial {
            outside: &[FromSix(10, 1, CUT_SHORT), BY_2],
            text: NOBODY,
            told: Anything,
            ..FOUND
        },
        Trial {
            outside: &[FromSix(10, 1, NAMING_IN_NODES), BY_2],
            text: FOUND6_1,
            told: Anything,
            ..FOUND
        },
        Trial {
            outside: &[FromSix(10, 1, ANSWER_1), BY_2],
            text: FOUND6_1,
            told: Anything,
            ..FOUND
        },
    ];
    all_play(&rt, TRIALS)
}

#[test]
fn peers_of_both_networks_are_printed_in_order(rt: HostRuntime) -> Result<(), Fail> {
    const TRIAL: &Trial<'static> = &Trial {
        words: PEERS,
        outside: &[FromSix(10, 1, NAMING_PEERS), BY_2],
        text: BOTH_PEERS,
        told: Anything,
        ..FOUND
    };
    plays(&rt, TRIAL)
}

/// Lines of the other network are good lines, and give nobody to begin with.
#[test]
fn a_line_of_the_other_network_is_no_seed(rt: HostRuntime) -> Result<(), Fail> {
    const TRIALS: &[Trial<'static>] = &[
        Trial {
            input: LINE_1,
            outside: &[FromSix(10, 1, ANSWER_1), BY_2],
            status: 8,
            text: "no seeds\n",
            told: Anything,
            ..FOUND
        },
        Trial {
            words: node::ONE_PATH,
            outside: &[FromSix(10, 1, ANSWER_1), BY_2],
            status: 8,
            text: "no seeds\n",
            told: Anything,
            ..FOUND
        },
    ];
    all_play(&rt, TRIALS)
}
