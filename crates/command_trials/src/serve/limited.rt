//! Nodes that hold no more of one address than `--per-address` says. Who asks has the identifiers of BEP 5's examples, and asks
//! from two ports of 127.0.0.1.
use crate::serve::trial::{Coming, Trial, Wanted, all_play};
use std::test::Fail;

const FIRST: &[u8] = b"d1:ad2:id20:abcdefghij0123456789e1:q4:ping1:t2:aa1:y1:qe";

const SECOND: &[u8] = b"d1:ad2:id20:mnopqrstuvwxyz123456e1:q4:ping1:t2:aa1:y1:qe";

const PONG: &[u8] =
    b"d1:rd2:id20:\xff\xff\xff\xff\xff\xff\xff\xff\xff\xff\xff\xff\xff\xff\xff\xff\xff\xff\xff\xffe1:t2:aa1:y1:re";

/// The table has who asked first, and who asked again is answered alone.
const WITH_FIRST: &str =
    "received 3 replied 3\ntable ffffffffffffffffffffffffffffffffffffffff 8 1\nrow -\nlive 6162636465666768696a30313233343536373839 127.0.0.1:7000 0\nsibling 6162636465666768696a30313233343536373839 127.0.0.1:7000\nend\n";

/// It has both; the first was seen last.
const WITH_BOTH: &str =
    "received 3 replied 3\ntable ffffffffffffffffffffffffffffffffffffffff 8 1\nrow -\nlive 6d6e6f707172737475767778797a313233343536 127.0.0.1:7001 0\nlive 6162636465666768696a30313233343536373839 127.0.0.1:7000 0\nsibling 6d6e6f707172737475767778797a313233343536 127.0.0.1:7001\nsibling 6162636465666768696a30313233343536373839 127.0.0.1:7000\nend\n";

/// Both ask, and the first once more.
const ASKED: Trial = Trial {
    words: &[],
    input: "",
    coming: Coming::Datagrams(&[(10, 7000, FIRST), (20, 7001, SECOND), (30, 7000, FIRST)]),
    failing_sends: &[],
    failing_receives: &[],
    status: 0,
    text: WITH_BOTH,
    told: Wanted::Sends(&[PONG, PONG, PONG]),
};

const LIMITED: &[Trial] = &[
    Trial {
        words: &[
            "serve",
            "--receives",
            "4",
            "--table",
            "yes",
            "--per-address",
            "1",
            "--own",
            "ffffffffffffffffffffffffffffffffffffffff",
        ],
        text: WITH_FIRST,
        ..ASKED
    },
    Trial {
        words: &[
            "serve",
            "--receives",
            "4",
            "--table",
            "yes",
            "--per-address",
            "2",
            "--own",
            "ffffffffffffffffffffffffffffffffffffffff",
        ],
        ..ASKED
    },
    Trial {
        words: &[
            "serve",
            "--receives",
            "4",
            "--table",
            "yes",
            "--own",
            "ffffffffffffffffffffffffffffffffffffffff",
        ],
        ..ASKED
    },
    Trial {
        words: &[
            "node",
            "--receives",
            "4",
            "--table",
            "yes",
            "--per-address",
            "1",
            "--own",
            "ffffffffffffffffffffffffffffffffffffffff",
        ],
        text: WITH_FIRST,
        ..ASKED
    },
];

#[test]
fn an_address_has_no_more_nodes_in_a_table_than_the_limit(rt: HostRuntime) -> Result<(), Fail> {
    all_play(&rt, LIMITED)
}

/// Both stand in the input, and nobody asks.
const TOLD: &[Trial] = &[Trial {
    words: &[
        "serve",
        "--receives",
        "1",
        "--table",
        "yes",
        "--per-address",
        "1",
        "--own",
        "ffffffffffffffffffffffffffffffffffffffff",
    ],
    input: "6162636465666768696a30313233343536373839 127.0.0.1:7000\n6d6e6f707172737475767778797a313233343536 127.0.0.1:7001\n",
    coming: Coming::Datagrams(&[]),
    text: "received 0 replied 0\ntable ffffffffffffffffffffffffffffffffffffffff 8 1\nrow -\nlive 6162636465666768696a30313233343536373839 127.0.0.1:7000 0\nsibling 6162636465666768696a30313233343536373839 127.0.0.1:7000\nend\n",
    told: Wanted::Sends(&[]),
    ..ASKED
}];

#[test]
fn the_first_of_an_address_in_the_input_is_in_the_table(rt: HostRuntime) -> Result<(), Fail> {
    all_play(&rt, TOLD)
}
