//! Follow-ups of a lookup whose one seed of two is hostile: it names live contacts that are nearer to the target than all
//! others. By default they have all places; spread over the paths, those of the other path have places too. The bytes of
//! answers and follow-ups were written by hand from BEP 5 and BEP 44: the token of contact n is `t` and its number, and the
//! transaction ids are the words from the sixth on of ChaCha20's key stream for a key of zeros (RFC 8439, A.1).
use crate::node::TWO_LINES;
use crate::node::trial::Outside::{self, From};
use crate::node::trial::Wanted::Sends;
use crate::node::trial::{SILENT, Trial, all_play, plays};
use std::test::Fail;

/// A search for peers of the key of zeros by the node of ones, on two paths that look for two contacts; the port 6882 is
/// announced.
const PEERS: &[&str] = &[
    "peers",
    "--key",
    "0000000000000000000000000000000000000000",
    "--own",
    "ffffffffffffffffffffffffffffffffffffffff",
    "--paths",
    "2",
    "--k",
    "2",
    "--announce",
    "6882",
];

/// The same with a word that says which contacts are told.
const PEERS_WITHOUT_SPREAD: &[&str] = &[
    "peers",
    "--key",
    "0000000000000000000000000000000000000000",
    "--own",
    "ffffffffffffffffffffffffffffffffffffffff",
    "--paths",
    "2",
    "--k",
    "2",
    "--announce",
    "6882",
    "--spread",
    "no",
];

const PEERS_SPREAD: &[&str] = &[
    "peers",
    "--key",
    "0000000000000000000000000000000000000000",
    "--own",
    "ffffffffffffffffffffffffffffffffffffffff",
    "--paths",
    "2",
    "--k",
    "2",
    "--announce",
    "6882",
    "--spread",
    "yes",
];

/// The item `5:hello` is stored by the node of ones, on two paths that look for two contacts.
const STORE_WITHOUT_SPREAD: &[&str] = &[
    "put",
    "--value",
    "353a68656c6c6f",
    "--own",
    "ffffffffffffffffffffffffffffffffffffffff",
    "--paths",
    "2",
    "--k",
    "2",
    "--spread",
    "no",
];

const STORE_SPREAD: &[&str] = &[
    "put",
    "--value",
    "353a68656c6c6f",
    "--own",
    "ffffffffffffffffffffffffffffffffffffffff",
    "--paths",
    "2",
    "--k",
    "2",
    "--spread",
    "yes",
];

/// The lines of contacts 5 and 6.
const LINES_5_AND_6: &str =
    "0000000000000000000000000000000000000005 127.0.0.1:6005\n0000000000000000000000000000000000000006 127.0.0.1:6006\n";

/// Contact 5 answers the first query and names contacts 4 and 7.
const BY_5: &[u8] =
    b"d1:rd2:id20:\0\0\0\0\0\0\0\0\0\0\0\0\0\0\0\0\0\0\0\x055:nodes52:\0\0\0\0\0\0\0\0\0\0\0\0\0\0\0\0\0\0\0\x04\x7f\0\0\x01\x17t\0\0\0\0\0\0\0\0\0\0\0\0\0\0\0\0\0\0\0\x07\x7f\0\0\x01\x17w5:token2:t5e1:t4:\xa0\x8d\xed\x1a1:y1:re";

/// Contact 6 answers the second and names contacts 1 and 2.
const BY_6: &[u8] =
    b"d1:rd2:id20:\0\0\0\0\0\0\0\0\0\0\0\0\0\0\0\0\0\0\0\x065:nodes52:\0\0\0\0\0\0\0\0\0\0\0\0\0\0\0\0\0\0\0\x01\x7f\0\0\x01\x17q\0\0\0\0\0\0\0\0\0\0\0\0\0\0\0\0\0\0\0\x02\x7f\0\0\x01\x17r5:token2:t6e1:t4:\xa86\xef\xcc1:y1:re";

/// Contacts 1, 2 and 7 answer the fourth, the fifth and the sixth, and name nobody.
const BY_1: &[u8] =
    b"d1:rd2:id20:\0\0\0\0\0\0\0\0\0\0\0\0\0\0\0\0\0\0\0\x015:nodes0:5:token2:t1e1:t4:\xdaAY|1:y1:re";

const BY_2: &[u8] =
    b"d1:rd2:id20:\0\0\0\0\0\0\0\0\0\0\0\0\0\0\0\0\0\0\0\x025:nodes0:5:token2:t2e1:t4:QWH\x8d1:y1:re";

const BY_7: &[u8] =
    b"d1:rd2:id20:\0\0\0\0\0\0\0\0\0\0\0\0\0\0\0\0\0\0\0\x075:nodes0:5:token2:t7e1:t4:w$\xe0?1:y1:re";

/// Contact 5 begins the first path and names 4, who is silent, and 7. Contact 6 begins the second, and names 1 and 2. All
/// others answer.
const OF_A_SEARCH: &[Outside<'static>] = &[
    From(10, 6005, BY_5),
    From(10, 6006, BY_6),
    From(20, 6001, BY_1),
    From(20, 6002, BY_2),
    From(2020, 6007, BY_7),
];

/// The announcements to contacts 1 and 2 after six queries.
const ANNOUNCED_1: &[u8] =
    b"d1:ad2:id20:\xff\xff\xff\xff\xff\xff\xff\xff\xff\xff\xff\xff\xff\xff\xff\xff\xff\xff\xff\xff9:info_hash20:\0\0\0\0\0\0\0\0\0\0\0\0\0\0\0\0\0\0\0\04:porti6882e5:token2:t1e1:q13:announce_peer2:roi1e1:t4:\xb8\xd8J71:y1:qe";

const ANNOUNCED_2: &[u8] =
    b"d1:ad2:id20:\xff\xff\xff\xff\xff\xff\xff\xff\xff\xff\xff\xff\xff\xff\xff\xff\xff\xff\xff\xff9:info_hash20:\0\0\0\0\0\0\0\0\0\0\0\0\0\0\0\0\0\0\0\04:porti6882e5:token2:t2e1:q13:announce_peer2:roi1e1:t4:jC\xb8\xf41:y1:qe";

/// The announcements to contacts 5, 7, 1 and 2 after six queries.
const SPREAD_5: &[u8] =
    b"d1:ad2:id20:\xff\xff\xff\xff\xff\xff\xff\xff\xff\xff\xff\xff\xff\xff\xff\xff\xff\xff\xff\xff9:info_hash20:\0\0\0\0\0\0\0\0\0\0\0\0\0\0\0\0\0\0\0\04:porti6882e5:token2:t5e1:q13:announce_peer2:roi1e1:t4:\xb8\xd8J71:y1:qe";

const SPREAD_7: &[u8] =
    b"d1:ad2:id20:\xff\xff\xff\xff\xff\xff\xff\xff\xff\xff\xff\xff\xff\xff\xff\xff\xff\xff\xff\xff9:info_hash20:\0\0\0\0\0\0\0\0\0\0\0\0\0\0\0\0\0\0\0\04:porti6882e5:token2:t7e1:q13:announce_peer2:roi1e1:t4:jC\xb8\xf41:y1:qe";

const SPREAD_1: &[u8] =
    b"d1:ad2:id20:\xff\xff\xff\xff\xff\xff\xff\xff\xff\xff\xff\xff\xff\xff\xff\xff\xff\xff\xff\xff9:info_hash20:\0\0\0\0\0\0\0\0\0\0\0\0\0\0\0\0\0\0\0\04:porti6882e5:token2:t1e1:q13:announce_peer2:roi1e1:t4:\x15\x18\xa1\x1c1:y1:qe";

const SPREAD_2: &[u8] =
    b"d1:ad2:id20:\xff\xff\xff\xff\xff\xff\xff\xff\xff\xff\xff\xff\xff\xff\xff\xff\xff\xff\xff\xff9:info_hash20:\0\0\0\0\0\0\0\0\0\0\0\0\0\0\0\0\0\0\0\04:porti6882e5:token2:t2e1:q13:announce_peer2:roi1e1:t4:\xc3\x87\xb6i1:y1:qe";

/// The search announces to the two contacts that contact 6 named.
const SEARCH: Trial<'static> = Trial {
    words: PEERS,
    input: LINES_5_AND_6,
    outside: OF_A_SEARCH,
    text: "peers 0 found 2 asked 6 failed 1 turned 0 announced 2\n",
    told: Sends(8, &[(6, 6001, ANNOUNCED_1), (7, 6002, ANNOUNCED_2)]),
    ..SILENT
};

#[test]
fn a_hostile_path_takes_all_announcements(rt: HostRuntime) -> Result<(), Fail> {
    const TRIALS: &[Trial<'static>] = &[
        SEARCH,
        Trial {
            words: PEERS_WITHOUT_SPREAD,
            ..SEARCH
        },
    ];
    all_play(&rt, TRIALS)
}

/// The first path's come first, nearest first; who is lost has no place.
#[test]
fn spread_announcements_go_to_each_path(rt: HostRuntime) -> Result<(), Fail> {
    const TRIAL: &Trial<'static> = &Trial {
        words: PEERS_SPREAD,
        text: "peers 0 found 2 asked 6 failed 1 turned 0 announced 4\n",
        told: Sends(
            10,
            &[
                (6, 6005, SPREAD_5),
                (7, 6007, SPREAD_7),
                (8, 6001, SPREAD_1),
                (9, 6002, SPREAD_2),
            ],
        ),
        ..SEARCH
    };
    plays(&rt, TRIAL)
}

/// Contact 2 answers the first query of a put and names nobody.
const PUT_BY_2: &[u8] =
    b"d1:rd2:id20:\0\0\0\0\0\0\0\0\0\0\0\0\0\0\0\0\0\0\0\x025:nodes0:5:token2:t2e1:t4:\xa0\x8d\xed\x1a1:y1:re";

/// Contact 1 answers the second and names contacts 6 and 7.
const PUT_BY_1: &[u8] =
    b"d1:rd2:id20:\0\0\0\0\0\0\0\0\0\0\0\0\0\0\0\0\0\0\0\x015:nodes52:\0\0\0\0\0\0\0\0\0\0\0\0\0\0\0\0\0\0\0\x06\x7f\0\0\x01\x17v\0\0\0\0\0\0\0\0\0\0\0\0\0\0\0\0\0\0\0\x07\x7f\0\0\x01\x17w5:token2:t1e1:t4:\xa86\xef\xcc1:y1:re";

/// Contacts 7 and 6 answer the third and the fourth, and name nobody.
const PUT_BY_7: &[u8] =
    b"d1:rd2:id20:\0\0\0\0\0\0\0\0\0\0\0\0\0\0\0\0\0\0\0\x075:nodes0:5:token2:t7e1:t4:\x8bw\x0d\xc71:y1:re";

const PUT_BY_6: &[u8] =
    b"d1:rd2:id20:\0\0\0\0\0\0\0\0\0\0\0\0\0\0\0\0\0\0\0\x065:nodes0:5:token2:t6e1:t4:\xdaAY|1:y1:re";

/// Contact 2 begins the first path and names nobody; contact 1 begins the second, and names 6 and 7. All answer.
const OF_A_PUT: &[Outside<'static>] = &[
    From(10, 6002, PUT_BY_2),
    From(10, 6001, PUT_BY_1),
    From(20, 6007, PUT_BY_7),
    From(20, 6006, PUT_BY_6),
];

/// The item for contacts 7 and 6 after four queries.
const GIVEN_7: &[u8] =
    b"d1:ad2:id20:\xff\xff\xff\xff\xff\xff\xff\xff\xff\xff\xff\xff\xff\xff\xff\xff\xff\xff\xff\xff5:token2:t71:v5:helloe1:q3:put2:roi1e1:t4:QWH\x8d1:y1:qe";

const GIVEN_6: &[u8] =
    b"d1:ad2:id20:\xff\xff\xff\xff\xff\xff\xff\xff\xff\xff\xff\xff\xff\xff\xff\xff\xff\xff\xff\xff5:token2:t61:v5:helloe1:q3:put2:roi1e1:t4:w$\xe0?1:y1:qe";

/// The item for contacts 2, 7 and 6 after four queries.
const SPREAD_PUT_2: &[u8] =
    b"d1:ad2:id20:\xff\xff\xff\xff\xff\xff\xff\xff\xff\xff\xff\xff\xff\xff\xff\xff\xff\xff\xff\xff5:token2:t21:v5:helloe1:q3:put2:roi1e1:t4:QWH\x8d1:y1:qe";

const SPREAD_PUT_7: &[u8] =
    b"d1:ad2:id20:\xff\xff\xff\xff\xff\xff\xff\xff\xff\xff\xff\xff\xff\xff\xff\xff\xff\xff\xff\xff5:token2:t71:v5:helloe1:q3:put2:roi1e1:t4:w$\xe0?1:y1:qe";

const SPREAD_PUT_6: &[u8] =
    b"d1:ad2:id20:\xff\xff\xff\xff\xff\xff\xff\xff\xff\xff\xff\xff\xff\xff\xff\xff\xff\xff\xff\xff5:token2:t61:v5:helloe1:q3:put2:roi1e1:t4:\xb8\xd8J71:y1:qe";

/// The item is put to the two contacts that contact 1 named.
const PUTS: Trial<'static> = Trial {
    words: STORE_WITHOUT_SPREAD,
    input: TWO_LINES,
    outside: OF_A_PUT,
    text: "key e28910ea0adb94dd45ced75fbff3e135c01bc437\nfound 2 asked 4 failed 0 turned 0 stored 2\n",
    told: Sends(6, &[(4, 6007, GIVEN_7), (5, 6006, GIVEN_6)]),
    ..SILENT
};

#[test]
fn a_hostile_path_takes_all_puts(rt: HostRuntime) -> Result<(), Fail> {
    const TRIAL: &Trial<'static> = &PUTS;
    plays(&rt, TRIAL)
}

#[test]
fn spread_puts_go_to_each_path(rt: HostRuntime) -> Result<(), Fail> {
    const TRIAL: &Trial<'static> = &Trial {
        words: STORE_SPREAD,
        text: "key e28910ea0adb94dd45ced75fbff3e135c01bc437\nfound 2 asked 4 failed 0 turned 0 stored 3\n",
        told: Sends(
            7,
            &[
                (4, 6002, SPREAD_PUT_2),
                (5, 6007, SPREAD_PUT_7),
                (6, 6006, SPREAD_PUT_6),
            ],
        ),
        ..PUTS
    };
    plays(&rt, TRIAL)
}

/// The put to contact 2 is refused.
#[test]
fn a_refused_spread_put_is_not_counted(rt: HostRuntime) -> Result<(), Fail> {
    const TRIAL: &Trial<'static> = &Trial {
        words: STORE_SPREAD,
        refused: &[4],
        told: Sends(6, &[(4, 6007, SPREAD_PUT_7), (5, 6006, SPREAD_PUT_6)]),
        ..PUTS
    };
    plays(&rt, TRIAL)
}
