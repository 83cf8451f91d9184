//! Replies as other nodes send them, by their bytes. Their transaction id is that of the first
//! query, as `QUERY` has it.
use crate::node::trial::Outside::{Answers, From};
use crate::node::trial::{SILENT, Trial, all_play, plays};
use crate::node::{BOTH, FOUND_1, NOBODY, ONE_PATH};
use std::test::Fail;
use trial_kit::LINE_1;

/// The error message of BEP 5's own example.
const AN_ERROR: &[u8] = b"d1:eli201e23:A Generic Error Ocurrede1:t4:\xa0\x8d\xed\x1a1:y1:ee";

/// One byte more than a compact record.
const NODES_OF_27_BYTES: &[u8] =
    b"d1:rd2:id20:\0\0\0\0\0\0\0\0\0\0\0\0\0\0\0\0\0\0\0\x015:nodes27:\0\0\0\0\0\0\0\0\0\0\0\0\0\0\0\0\0\0\0\x02\x7f\0\0\x01\x17\x72\0e1:t4:\xa0\x8d\xed\x1a1:y1:re";

/// Contact 1 says who asked (BEP 42), its port and its client beside what BEP 5 asks for, and names
/// contact 2.
pub(crate) const A_USUAL_ANSWER: &[u8] =
    b"d2:ip6:\x7f\0\0\x01\x1a\xe11:rd2:id20:\0\0\0\0\0\0\0\0\0\0\0\0\0\0\0\0\0\0\0\x015:nodes26:\0\0\0\0\0\0\0\0\0\0\0\0\0\0\0\0\0\0\0\x02\x7f\0\0\x01\x17\x721:pi6881ee1:t4:\xa0\x8d\xed\x1a1:v4:LT011:y1:re";

/// Contact 1 sends the error message, and an answer later.
const LOST: Trial<'static> = Trial {
    words: ONE_PATH,
    input: LINE_1,
    outside: &[From(10, 6001, AN_ERROR), Answers(20, 1)],
    text: NOBODY,
    ..SILENT
};

/// Contact 1 would be found by its later answer, if the error message were a stray.
#[test]
fn an_error_message_loses_the_contact(rt: HostRuntime) -> Result<(), Fail> {
    const TRIAL: &Trial<'static> = &LOST;
    plays(&rt, TRIAL)
}

#[test]
fn an_answer_with_a_broken_record_is_no_answer(rt: HostRuntime) -> Result<(), Fail> {
    const TRIAL: &Trial<'static> = &Trial {
        outside: &[From(10, 6001, NODES_OF_27_BYTES)],
        ..LOST
    };
    plays(&rt, TRIAL)
}

/// Contact 1 is found by its later answer, which a message that loses it would prevent.
#[test]
fn an_answer_with_a_broken_record_is_a_stray(rt: HostRuntime) -> Result<(), Fail> {
    const TRIAL: &Trial<'static> = &Trial {
        outside: &[From(10, 6001, NODES_OF_27_BYTES), Answers(20, 1)],
        text: FOUND_1,
        ..LOST
    };
    plays(&rt, TRIAL)
}

#[test]
fn an_answer_with_more_keys_is_heard(rt: HostRuntime) -> Result<(), Fail> {
    const TRIAL: &Trial<'static> = &Trial {
        outside: &[From(10, 6001, A_USUAL_ANSWER), Answers(20, 2)],
        text: BOTH,
        ..LOST
    };
    plays(&rt, TRIAL)
}

/// Datagrams that would be contact 1's answer to the first query, if they weren't refused: a key
/// twice; a byte after the end; a number of twenty digits; lists to a depth of 17.
/// Contact 1 is found by its later answer.
const STRAYS: &[Trial<'static>] = &[
    Trial {
        outside: &[
            From(
                10,
                6001,
                b"d1:rd2:id20:\0\0\0\0\0\0\0\0\0\0\0\0\0\0\0\0\0\0\0\x012:id20:\0\0\0\0\0\0\0\0\0\0\0\0\0\0\0\0\0\0\0\x01e1:t4:\xa0\x8d\xed\x1a1:y1:re",
            ),
            Answers(20, 1),
        ],
        text: FOUND_1,
        ..LOST
    },
    Trial {
        outside: &[
            From(
                10,
                6001,
                b"d1:rd2:id20:\0\0\0\0\0\0\0\0\0\0\0\0\0\0\0\0\0\0\0\x01e1:t4:\xa0\x8d\xed\x1a1:y1:rex",
            ),
            Answers(20, 1),
        ],
        text: FOUND_1,
        ..LOST
    },
    Trial {
        outside: &[
            From(
                10,
                6001,
                b"d1:rd2:id20:\0\0\0\0\0\0\0\0\0\0\0\0\0\0\0\0\0\0\0\x011:ni99999999999999999999ee1:t4:\xa0\x8d\xed\x1a1:y1:re",
            ),
            Answers(20, 1),
        ],
        text: FOUND_1,
        ..LOST
    },
    Trial {
        outside: &[
            From(
                10,
                6001,
                b"d1:rd2:id20:\0\0\0\0\0\0\0\0\0\0\0\0\0\0\0\0\0\0\0\x011:nllllllllllllllllleeeeeeeeeeeeeeeeee1:t4:\xa0\x8d\xed\x1a1:y1:re",
            ),
            Answers(20, 1),
        ],
        text: FOUND_1,
        ..LOST
    },
];

#[test]
fn a_datagram_that_is_refused_is_a_stray(rt: HostRuntime) -> Result<(), Fail> {
    all_play(&rt, STRAYS)
}
