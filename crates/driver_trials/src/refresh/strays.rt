//! Datagrams that reply to no ping.
use crate::refresh::play::{
    ANSWER_1, ANSWER_2, ANSWERED, Coming, NOBODY, PING_1, PING_2, REPLY_1, SILENT, Told, Trial,
    all_play, ends, plays,
};
use std::test::Fail;
use table_refresh::RefreshFault;
use trial_kit::{Reply, Strangers, local};

/// A query of contact 1 under the transaction id of the first ping.
const QUERY: &[u8] =
    b"d1:ad2:id20:\0\0\0\0\0\0\0\0\0\0\0\0\0\0\0\0\0\0\0\x01e1:q4:ping1:t4:\xa0\x8d\xed\x1a1:y1:qe";

/// The answer of contact 1 under three of the four bytes.
const SHORT_ID: &[u8] =
    b"d1:rd2:id20:\0\0\0\0\0\0\0\0\0\0\0\0\0\0\0\0\0\0\0\x01e1:t3:\xa0\x8d\xed1:y1:re";

const STRAYS: &Trial = &Trial {
    coming: Coming::Datagrams(&[
        (10, 6001, b""),
        (20, 6001, ANSWER_2),
        (30, 6001, QUERY),
        (40, 6001, SHORT_ID),
        (50, 6002, ANSWER_1),
        (60, 6001, ANSWER_1),
    ]),
    told: &[
        Told::Now(0),
        Told::Sent(6001, PING_1),
        Told::Got(6001, b"", 2000, 10),
        Told::Got(6001, ANSWER_2, 2000, 20),
        Told::Got(6001, QUERY, 2000, 30),
        Told::Got(6001, SHORT_ID, 2000, 40),
        Told::Got(6002, ANSWER_1, 2000, 50),
        Told::Got(6001, ANSWER_1, 2000, 60),
    ],
    ..ANSWERED
};

#[test]
fn strays_end_no_try(rt: HostRuntime) -> Result<(), Fail> {
    plays(rt.alloc(), STRAYS)
}

const ELSEWHERE: &Trial = &Trial {
    coming: Coming::Replies(&[Reply {
        port: 6002,
        ..REPLY_1
    }]),
    told: &[
        Told::Now(0),
        Told::Sent(6001, PING_1),
        Told::Got(6002, ANSWER_1, 2000, 10),
        Told::Quiet(2000, 2000),
        Told::Sent(6001, PING_2),
        Told::Quiet(4000, 4000),
    ],
    ..SILENT
};

#[test]
fn an_answer_from_another_port_is_none(rt: HostRuntime) -> Result<(), Fail> {
    plays(rt.alloc(), ELSEWHERE)
}

/// The answer at its deadline is heard; the stray at it ends the try, and the answer to the first ping comes while the second
/// waits.
const AT_THE_DEADLINE: &[Trial] = &[
    Trial {
        coming: Coming::Datagrams(&[(2000, 6001, ANSWER_1)]),
        told: &[
            Told::Now(0),
            Told::Sent(6001, PING_1),
            Told::Got(6001, ANSWER_1, 2000, 2000),
        ],
        ..ANSWERED
    },
    Trial {
        coming: Coming::Datagrams(&[(2000, 6001, b""), (2000, 6001, ANSWER_1)]),
        left: NOBODY,
        told: &[
            Told::Now(0),
            Told::Sent(6001, PING_1),
            Told::Got(6001, b"", 2000, 2000),
            Told::Sent(6001, PING_2),
            Told::Got(6001, ANSWER_1, 4000, 2000),
            Told::Quiet(4000, 4000),
        ],
        ..ANSWERED
    },
];

#[test]
fn the_deadline_is_the_last_moment(rt: HostRuntime) -> Result<(), Fail> {
    all_play(rt.alloc(), AT_THE_DEADLINE)
}

/// What a link tells isn't compared here.
const STRANGERS: &Trial = &Trial {
    ended: Err(RefreshFault::Strays),
    ..ANSWERED
};

#[test]
fn the_millionth_stray_ends_a_refresh(rt: HostRuntime) -> Result<(), Fail> {
    let mut link = Strangers { from: local(6001) };
    ends(rt.alloc(), STRANGERS, &mut link)
}
