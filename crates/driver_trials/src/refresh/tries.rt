//! The one or two tries of a head.

use crate::refresh::play::{
    ANSWER_1, ANSWER_2, ANSWERED, Coming, NOBODY, ONE, PING_1, PING_2, REPLY_1, REPLY_2, SILENT,
    Told, Trial, all_play, plays,
};
use std::test::Fail;
use trial_kit::Reply;

/// Contact 1, which failed once, and nobody else.
const FAILED: &[u8] =
    b"table ffffffffffffffffffffffffffffffffffffffff 8 1\nrow -\nlive 0000000000000000000000000000000000000001 127.0.0.1:6001 1\nsibling 0000000000000000000000000000000000000001 127.0.0.1:6001\nend\n";

/// Contact 1, and contact 2 as a spare, where a row has room for one.
const WITH_SPARE: &[u8] =
    b"table ffffffffffffffffffffffffffffffffffffffff 1 1\nrow 0\nlive 0000000000000000000000000000000000000001 127.0.0.1:6001 0\nspare 0000000000000000000000000000000000000002 127.0.0.1:6002\nrow 1\nsibling 0000000000000000000000000000000000000002 127.0.0.1:6002\nsibling 0000000000000000000000000000000000000001 127.0.0.1:6001\nend\n";

/// Contact 2 in the place of contact 1.
const SPARE_LIVES: &[u8] =
    b"table ffffffffffffffffffffffffffffffffffffffff 1 1\nrow 0\nlive 0000000000000000000000000000000000000002 127.0.0.1:6002 0\nrow 1\nsibling 0000000000000000000000000000000000000002 127.0.0.1:6002\nend\n";

/// An error message to the first ping.
const ERROR: &[u8] = b"d1:eli202e12:Server Errore1:t4:\xa0\x8d\xed\x1a1:y1:ee";

/// The answer to the first ping in the name of contact 2.
const ANOTHER: &[u8] =
    b"d1:rd2:id20:\0\0\0\0\0\0\0\0\0\0\0\0\0\0\0\0\0\0\0\x02e1:t4:\xa0\x8d\xed\x1a1:y1:re";

const HEARD: &Trial = &ANSWERED;

#[test]
fn who_answers_stays(rt: HostRuntime) -> Result<(), Fail> {
    plays(rt.alloc(), HEARD)
}

const UNHEARD: &Trial = &SILENT;

#[test]
fn who_is_silent_is_pinged_twice_and_goes(rt: HostRuntime) -> Result<(), Fail> {
    plays(rt.alloc(), UNHEARD)
}

const SECOND: &Trial = &Trial {
    coming: Coming::Datagrams(&[(2500, 6001, ANSWER_2)]),
    told: &[
        Told::Now(0),
        Told::Sent(6001, PING_1),
        Told::Quiet(2000, 2000),
        Told::Sent(6001, PING_2),
        Told::Got(6001, ANSWER_2, 4000, 2500),
    ],
    ..ANSWERED
};

#[test]
fn an_answer_to_the_second_ping_is_enough(rt: HostRuntime) -> Result<(), Fail> {
    plays(rt.alloc(), SECOND)
}

/// The answer to the first ping comes while the second waits.
const LATE: &Trial = &Trial {
    coming: Coming::Datagrams(&[(2500, 6001, ANSWER_1)]),
    told: &[
        Told::Now(0),
        Told::Sent(6001, PING_1),
        Told::Quiet(2000, 2000),
        Told::Sent(6001, PING_2),
        Told::Got(6001, ANSWER_1, 4000, 2500),
        Told::Quiet(4000, 4000),
    ],
    ..SILENT
};

#[test]
fn a_late_answer_is_none(rt: HostRuntime) -> Result<(), Fail> {
    plays(rt.alloc(), LATE)
}

const FAILED_BEFORE: &Trial = &Trial {
    table: FAILED,
    told: &[
        Told::Now(0),
        Told::Sent(6001, PING_1),
        Told::Quiet(2000, 2000),
    ],
    ..SILENT
};

#[test]
fn who_failed_before_is_pinged_once(rt: HostRuntime) -> Result<(), Fail> {
    plays(rt.alloc(), FAILED_BEFORE)
}

const MADE_GOOD: &Trial = &Trial {
    table: FAILED,
    coming: Coming::Replies(&[REPLY_1]),
    ..ANSWERED
};

#[test]
fn an_answer_makes_good_an_earlier_failure(rt: HostRuntime) -> Result<(), Fail> {
    plays(rt.alloc(), MADE_GOOD)
}

const SPARED: &Trial = &Trial {
    table: WITH_SPARE,
    coming: Coming::Replies(&[REPLY_2]),
    left: SPARE_LIVES,
    ..SILENT
};

#[test]
fn a_spare_takes_the_place_of_who_is_silent(rt: HostRuntime) -> Result<(), Fail> {
    plays(rt.alloc(), SPARED)
}

const WAITING: &Trial = &Trial {
    table: WITH_SPARE,
    coming: Coming::Replies(&[REPLY_1]),
    left: WITH_SPARE,
    ..ANSWERED
};

#[test]
fn a_spare_waits_while_the_head_answers(rt: HostRuntime) -> Result<(), Fail> {
    plays(rt.alloc(), WAITING)
}

const IN_ANOTHER_NAME: &Trial = &Trial {
    table: FAILED,
    coming: Coming::Replies(&[Reply { id: 2, ..REPLY_1 }]),
    left: NOBODY,
    told: &[
        Told::Now(0),
        Told::Sent(6001, PING_1),
        Told::Got(6001, ANOTHER, 2000, 10),
    ],
    ..ANSWERED
};

#[test]
fn an_answer_in_another_name_is_a_failure(rt: HostRuntime) -> Result<(), Fail> {
    plays(rt.alloc(), IN_ANOTHER_NAME)
}

/// The second try begins at once.
const REFUSED: &Trial = &Trial {
    coming: Coming::Datagrams(&[(10, 6001, ERROR)]),
    told: &[
        Told::Now(0),
        Told::Sent(6001, PING_1),
        Told::Got(6001, ERROR, 2000, 10),
        Told::Sent(6001, PING_2),
        Told::Quiet(2010, 2010),
    ],
    ..SILENT
};

#[test]
fn an_error_message_is_a_failure(rt: HostRuntime) -> Result<(), Fail> {
    plays(rt.alloc(), REFUSED)
}

const UNSENT: &Trial = &Trial {
    failing_sends: &[0, 1],
    told: &[
        Told::Now(0),
        Told::Unsent(6001, PING_1),
        Told::Unsent(6001, PING_2),
    ],
    ..SILENT
};

#[test]
fn two_refused_sends_are_two_tries(rt: HostRuntime) -> Result<(), Fail> {
    plays(rt.alloc(), UNSENT)
}

const SENT_AGAIN: &Trial = &Trial {
    coming: Coming::Replies(&[REPLY_1]),
    failing_sends: &[0],
    told: &[
        Told::Now(0),
        Told::Unsent(6001, PING_1),
        Told::Sent(6001, PING_2),
        Told::Got(6001, ANSWER_2, 2000, 10),
    ],
    ..ANSWERED
};

#[test]
fn a_refused_send_is_tried_again(rt: HostRuntime) -> Result<(), Fail> {
    plays(rt.alloc(), SENT_AGAIN)
}

/// The words at places 6 and 7.
const WORDS: &[Trial] = &[
    Trial {
        coming: Coming::Replies(&[REPLY_1]),
        next: Some(3_438_229_160),
        ..ANSWERED
    },
    Trial {
        next: Some(3_339_548_555),
        ..SILENT
    },
];

#[test]
fn each_ping_takes_one_word(rt: HostRuntime) -> Result<(), Fail> {
    all_play(rt.alloc(), WORDS)
}
