//! When a node that looks for identifiers stops by time, and the table that it prints.
use crate::node::STRANGER;
use crate::node::nodes::{NAMING_3, OF_3_ALONE, ONE_FIND, PING, PONG};
use crate::node::trial::Outside::From;
use crate::node::trial::Wanted::{Events, Sends};
use crate::node::trial::{SILENT, Told, Trial, plays};
use std::test::Fail;

/// The node of ones, for a minute and five receive calls, whose queries wait for a minute too.
const MINUTE: &[&str] = &[
    "node",
    "--own",
    "ffffffffffffffffffffffffffffffffffffffff",
    "--paths",
    "1",
    "--timeout",
    "60000",
    "--receives",
    "5",
    "--minutes",
    "1",
];

/// The node of ones, which prints its table.
const TABLE: &[&str] = &[
    "node",
    "--own",
    "ffffffffffffffffffffffffffffffffffffffff",
    "--paths",
    "1",
    "--table",
    "yes",
];

/// Contacts 1 and 3 were found.
const BOTH: &str =
    "find 0000000000000000000000000000000000000000\n0000000000000000000000000000000000000001 127.0.0.1:6001\n0000000000000000000000000000000000000003 127.0.0.1:6003\nfound 2 asked 2 failed 0 turned 0\nreceived 2 replied 0\n";

/// The first call waits to the end, a minute after moment 0, and so does the second, which begins at moment 10.
#[test]
fn a_node_stops_at_the_end_of_its_minute(rt: HostRuntime) -> Result<(), Fail> {
    const TRIAL: &Trial<'static> = &Trial {
        words: MINUTE,
        input: "",
        outside: &[From(10, 7000, PING), From(60_001, 7000, PING)],
        text: "received 1 replied 1\n",
        told: Events(&[
            Told::Now { at: 0 },
            Told::Got {
                from: STRANGER,
                bytes: PING,
                until: 60_000,
                at: 10,
            },
            Told::Sent {
                to: STRANGER,
                bytes: PONG,
            },
            Told::Quiet {
                until: 60_000,
                at: 60_000,
            },
        ]),
        ..SILENT
    };
    plays(&rt, TRIAL)
}

/// A query that comes at the end is answered, and none behind it.
#[test]
fn the_last_datagram_is_that_of_the_end(rt: HostRuntime) -> Result<(), Fail> {
    const TRIAL: &Trial<'static> = &Trial {
        words: MINUTE,
        input: "",
        outside: &[From(60_000, 7000, PING), From(60_000, 7000, PING)],
        text: "received 1 replied 1\n",
        ..SILENT
    };
    plays(&rt, TRIAL)
}

/// Contact 3 is asked at moment 50,000 and answers behind the end: the lookup goes on to its own, and then the node stops
/// at once, with three calls left.
#[test]
fn a_lookup_outlasts_the_end(rt: HostRuntime) -> Result<(), Fail> {
    const TRIAL: &Trial<'static> = &Trial {
        words: MINUTE,
        input: ONE_FIND,
        outside: &[
            From(50_000, 6001, NAMING_3),
            From(70_000, 6003, OF_3_ALONE),
            From(70_000, 7000, PING),
        ],
        text: BOTH,
        told: Sends(2, &[]),
        ..SILENT
    };
    plays(&rt, TRIAL)
}

/// Contact 3, which the input doesn't name, answered, so it is in the table: last in its row, and the first sibling, since
/// it is nearer to the ones.
#[test]
fn the_table_has_who_answered_a_lookup(rt: HostRuntime) -> Result<(), Fail> {
    const TRIAL: &Trial<'static> = &Trial {
        words: TABLE,
        input: ONE_FIND,
        outside: &[From(10, 6001, NAMING_3), From(20, 6003, OF_3_ALONE)],
        text: "\
find 0000000000000000000000000000000000000000\n\
0000000000000000000000000000000000000001 127.0.0.1:6001\n\
0000000000000000000000000000000000000003 127.0.0.1:6003\n\
found 2 asked 2 failed 0 turned 0\n\
received 2 replied 0\n\
table ffffffffffffffffffffffffffffffffffffffff 8 1\n\
row -\n\
live 0000000000000000000000000000000000000001 127.0.0.1:6001 0\n\
live 0000000000000000000000000000000000000003 127.0.0.1:6003 0\n\
sibling 0000000000000000000000000000000000000003 127.0.0.1:6003\n\
sibling 0000000000000000000000000000000000000001 127.0.0.1:6001\n\
end\n",
        ..SILENT
    };
    plays(&rt, TRIAL)
}
