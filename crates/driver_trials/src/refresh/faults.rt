//! Receives that fail.

use crate::refresh::play::{
    ANSWER_1, ANSWERED, Coming, ONE, PING_1, PING_2, SILENT, Told, Trial, plays,
};
use std::test::Fail;
use table_refresh::RefreshFault;

/// Contact 1, and another row.
const ROWS: &[u8] =
    b"table ffffffffffffffffffffffffffffffffffffffff 8 1\nrow 0\nlive 0000000000000000000000000000000000000001 127.0.0.1:6001 1\nrow 1\nlive fe00000000000000000000000000000000000000 127.0.0.1:6003 0\nend\n";

/// The same where contact 1 has answered.
const FIRST_ANSWERED: &[u8] =
    b"table ffffffffffffffffffffffffffffffffffffffff 8 1\nrow 0\nlive 0000000000000000000000000000000000000001 127.0.0.1:6001 0\nrow 1\nlive fe00000000000000000000000000000000000000 127.0.0.1:6003 0\nsibling 0000000000000000000000000000000000000001 127.0.0.1:6001\nend\n";

/// Contact 1 after one failure.
const FAILED: &[u8] =
    b"table ffffffffffffffffffffffffffffffffffffffff 8 1\nrow -\nlive 0000000000000000000000000000000000000001 127.0.0.1:6001 1\nsibling 0000000000000000000000000000000000000001 127.0.0.1:6001\nend\n";

const FIRST: &Trial = &Trial {
    failing_receives: &[0],
    ended: Err(RefreshFault::LinkFault),
    left: ONE,
    told: &[Told::Now(0), Told::Sent(6001, PING_1)],
    ..SILENT
};

#[test]
fn the_first_receive_fails(rt: HostRuntime) -> Result<(), Fail> {
    plays(rt.alloc(), FIRST)
}

const SECOND: &Trial = &Trial {
    failing_receives: &[1],
    ended: Err(RefreshFault::LinkFault),
    left: FAILED,
    told: &[
        Told::Now(0),
        Told::Sent(6001, PING_1),
        Told::Quiet(2000, 2000),
        Told::Sent(6001, PING_2),
    ],
    ..SILENT
};

#[test]
fn a_failure_before_it_stands(rt: HostRuntime) -> Result<(), Fail> {
    plays(rt.alloc(), SECOND)
}

const AFTER_AN_ANSWER: &Trial = &Trial {
    table: ROWS,
    coming: Coming::Datagrams(&[(10, 6001, ANSWER_1)]),
    failing_receives: &[1],
    ended: Err(RefreshFault::LinkFault),
    left: FIRST_ANSWERED,
    told: &[
        Told::Now(0),
        Told::Sent(6001, PING_1),
        Told::Got(6001, ANSWER_1, 2000, 10),
        Told::Sent(6003, PING_2),
    ],
    ..ANSWERED
};

#[test]
fn an_answer_before_it_stands(rt: HostRuntime) -> Result<(), Fail> {
    plays(rt.alloc(), AFTER_AN_ANSWER)
}

const THIRD: &Trial = &Trial {
    failing_receives: &[2],
    ..SILENT
};

#[test]
fn a_receive_that_is_not_made_does_not_fail(rt: HostRuntime) -> Result<(), Fail> {
    plays(rt.alloc(), THIRD)
}
