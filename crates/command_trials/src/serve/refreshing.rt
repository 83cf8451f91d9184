//! Whole commands `refresh`. The pings' transaction ids are the sixth and the seventh word of the generator of 32 zero bytes:
//! a08ded1a and a836efcc of the keystream of ChaCha20 under a key of zeros. Texts and bytes were written by hand.
use crate::serve::outside::{Input, Outside, ends};
use crate::serve::trial::{
    Coming, Row, Told, Trial, Wanted, all_answer_plainly, all_play, answers, plays,
};
use kad_base::Family;
use std::random::RandomSource;
use std::sync::Wait;
use std::test::Fail;
use std::thread::Threads;
use trial_kit::{Reply, Strangers, local};

/// A table of contact 1 alone, of the node of twenty bytes ff.
const ONE: &str =
    "table ffffffffffffffffffffffffffffffffffffffff 8 1\nrow -\nlive 0000000000000000000000000000000000000001 127.0.0.1:6001 0\nsibling 0000000000000000000000000000000000000001 127.0.0.1:6001\nend\n";

/// The same without its last line.
const CUT: &str =
    "table ffffffffffffffffffffffffffffffffffffffff 8 1\nrow -\nlive 0000000000000000000000000000000000000001 127.0.0.1:6001 0\nsibling 0000000000000000000000000000000000000001 127.0.0.1:6001\n";

/// Contact 1 lives twice in it.
const TWICE: &str =
    "table ffffffffffffffffffffffffffffffffffffffff 8 1\nrow -\nlive 0000000000000000000000000000000000000001 127.0.0.1:6001 0\nlive 0000000000000000000000000000000000000001 127.0.0.1:6001 0\nsibling 0000000000000000000000000000000000000001 127.0.0.1:6001\nend\n";

/// Contacts 1 and 2 in one row.
const TWO: &str =
    "table ffffffffffffffffffffffffffffffffffffffff 8 1\nrow -\nlive 0000000000000000000000000000000000000001 127.0.0.1:6001 0\nlive 0000000000000000000000000000000000000002 127.0.0.1:6002 1\nend\n";

/// The same, where contact 1 was seen last. It is a sibling now.
const FIRST_SEEN: &str =
    "table ffffffffffffffffffffffffffffffffffffffff 8 1\nrow -\nlive 0000000000000000000000000000000000000002 127.0.0.1:6002 1\nlive 0000000000000000000000000000000000000001 127.0.0.1:6001 0\nsibling 0000000000000000000000000000000000000001 127.0.0.1:6001\nend\n";

/// The same where contact 2 was seen after it.
const BOTH_SEEN: &str =
    "table ffffffffffffffffffffffffffffffffffffffff 8 1\nrow -\nlive 0000000000000000000000000000000000000001 127.0.0.1:6001 0\nlive 0000000000000000000000000000000000000002 127.0.0.1:6002 0\nsibling 0000000000000000000000000000000000000002 127.0.0.1:6002\nsibling 0000000000000000000000000000000000000001 127.0.0.1:6001\nend\n";

/// Nobody is left.
const NOBODY: &str = "table ffffffffffffffffffffffffffffffffffffffff 8 1\nrow -\nend\n";

const PING_1: &[u8] =
    b"d1:ad2:id20:\xff\xff\xff\xff\xff\xff\xff\xff\xff\xff\xff\xff\xff\xff\xff\xff\xff\xff\xff\xffe1:q4:ping2:roi1e1:t4:\xa0\x8d\xed\x1a1:y1:qe";

const PING_2: &[u8] =
    b"d1:ad2:id20:\xff\xff\xff\xff\xff\xff\xff\xff\xff\xff\xff\xff\xff\xff\xff\xff\xff\xff\xff\xffe1:q4:ping2:roi1e1:t4:\xa8\x36\xef\xcc1:y1:qe";

/// The answer of contact 1 to the first ping.
const ANSWER_1: &[u8] =
    b"d1:rd2:id20:\0\0\0\0\0\0\0\0\0\0\0\0\0\0\0\0\0\0\0\x01e1:t4:\xa0\x8d\xed\x1a1:y1:re";

/// The same with its tag under a key of 32 zero bytes: HMAC-SHA-1, as Python's `hmac` makes it.
const TAGGED: &[u8] =
    b"d1:rd2:id20:\0\0\0\0\0\0\0\0\0\0\0\0\0\0\0\0\0\0\0\x01e2:sg20:6T\x1bC\x1cM, N\xf3@\xf9\x1f\xaa{\x16v\x93/p1:t4:\xa0\x8d\xed\x1a1:y1:re";

const ZEROS_KEY: &str = "0000000000000000000000000000000000000000000000000000000000000000";

/// A refresh of the table of contact 1, who answers.
const ANSWERED: Trial = Trial {
    words: &["refresh"],
    input: ONE,
    coming: Coming::Datagrams(&[(10, 6001, ANSWER_1)]),
    failing_sends: &[],
    failing_receives: &[],
    status: 0,
    text: ONE,
    told: Wanted::Sends(&[PING_1]),
};

/// The same where nobody answers.
const SILENT: Trial = Trial {
    coming: Coming::Datagrams(&[]),
    text: NOBODY,
    told: Wanted::Sends(&[PING_1, PING_2]),
    ..ANSWERED
};

/// Contact 1 answers.
const REPLY_1: Reply = Reply {
    family: Family::Four,
    to: 1,
    at: 10,
    port: 6001,
    id: 1,
    node: None,
};

/// Contact 2 does.
const REPLY_2: Reply = Reply {
    family: Family::Four,
    to: 2,
    at: 20,
    port: 6002,
    id: 2,
    node: None,
};

#[test]
fn who_answers_stays(rt: HostRuntime) -> Result<(), Fail> {
    plays(&rt, &ANSWERED)
}

/// Two tries of two seconds, and of a second.
const TRIES: &[Trial] = &[
    Trial {
        told: Wanted::Events(&[
            Told::Now(0),
            Told::Sent(6001, PING_1),
            Told::Quiet(2000, 2000),
            Told::Sent(6001, PING_2),
            Told::Quiet(4000, 4000),
        ]),
        ..SILENT
    },
    Trial {
        words: &["refresh", "--timeout", "1000"],
        told: Wanted::Events(&[
            Told::Now(0),
            Told::Sent(6001, PING_1),
            Told::Quiet(1000, 1000),
            Told::Sent(6001, PING_2),
            Told::Quiet(2000, 2000),
        ]),
        ..SILENT
    },
];

#[test]
fn who_is_silent_is_pinged_twice_and_goes(rt: HostRuntime) -> Result<(), Fail> {
    all_play(&rt, TRIES)
}

const OF_TWO: &[Trial] = &[
    Trial {
        words: &["refresh", "--all", "yes"],
        input: TWO,
        coming: Coming::Replies(&[REPLY_1, REPLY_2]),
        text: BOTH_SEEN,
        told: Wanted::Sends(&[PING_1, PING_2]),
        ..ANSWERED
    },
    Trial {
        words: &["refresh", "--all", "no"],
        input: TWO,
        coming: Coming::Replies(&[REPLY_1, REPLY_2]),
        text: FIRST_SEEN,
        ..ANSWERED
    },
];

#[test]
fn all_are_pinged_by_wish_and_else_the_first_alone(rt: HostRuntime) -> Result<(), Fail> {
    all_play(&rt, OF_TWO)
}

/// Nobody is asked.
const UNASKED: Trial = Trial {
    told: Wanted::Sends(&[]),
    ..SILENT
};

const NO_TABLES: &[Trial] = &[
    Trial {
        input: CUT,
        status: 3,
        text: "bad line 5\n",
        ..UNASKED
    },
    Trial {
        input: "",
        status: 3,
        text: "bad line 1\n",
        ..UNASKED
    },
    Trial {
        input: "0000000000000000000000000000000000000001 127.0.0.1:6001\n",
        status: 3,
        text: "bad line 1\n",
        ..UNASKED
    },
];

#[test]
fn a_text_that_is_none_names_its_line(rt: HostRuntime) -> Result<(), Fail> {
    all_play(&rt, NO_TABLES)
}

const UNSOUND: &Trial = &Trial {
    input: TWICE,
    status: 13,
    text: "unsound\n",
    ..UNASKED
};

#[test]
fn a_table_that_no_calls_make_is_unsound(rt: HostRuntime) -> Result<(), Fail> {
    plays(&rt, UNSOUND)
}

const OF_NOBODY: &Trial = &Trial {
    input: NOBODY,
    ..UNASKED
};

#[test]
fn a_table_of_nobody_stays(rt: HostRuntime) -> Result<(), Fail> {
    plays(&rt, OF_NOBODY)
}

const SEALED: &[Trial] = &[
    Trial {
        words: &["refresh", "--group", ZEROS_KEY],
        coming: Coming::Datagrams(&[(10, 6001, TAGGED)]),
        ..ANSWERED
    },
    Trial {
        words: &["refresh", "--group", ZEROS_KEY],
        coming: Coming::Datagrams(&[(10, 6001, ANSWER_1)]),
        ..SILENT
    },
];

#[test]
fn a_sealed_refresh_believes_tags_alone(rt: HostRuntime) -> Result<(), Fail> {
    all_play(&rt, SEALED)
}

const FAILED: &Trial = &Trial {
    failing_receives: &[1],
    status: 4,
    text: "link fault\n",
    ..SILENT
};

#[test]
fn a_failed_receive_ends_it(rt: HostRuntime) -> Result<(), Fail> {
    plays(&rt, FAILED)
}

/// So a ping that can't be sent is a failed try.
const UNSENT: &Trial = &Trial {
    coming: Coming::Replies(&[REPLY_1]),
    failing_sends: &[0, 1],
    ..UNASKED
};

#[test]
fn failed_sends_are_failed_tries(rt: HostRuntime) -> Result<(), Fail> {
    plays(&rt, UNSENT)
}

#[test]
fn the_millionth_stray_ends_it(rt: HostRuntime) -> Result<(), Fail> {
    let mut link = Strangers { from: local(6001) };
    answers(&rt, &["refresh"], ONE, &mut link, 7, "strays\n")
}

/// The source gives a byte a call, and this call fails.
fn fails_to_read<R: AllocGlobal + RandomSource + Threads + Wait + Sync>(
    rt: &R,
    n: u64,
) -> Result<(), Fail> {
    let outside = Outside {
        input: Input::Text(ONE),
        reads: (1, &[n]),
        writes: (4096, &[]),
    };
    ends(rt, &["refresh"], &outside, &[], 6, b"source fault\n", 0)
}

/// The last read finds the end.
#[test]
fn a_failed_read_ends_it_unasked(rt: HostRuntime) -> Result<(), Fail> {
    for n in [0, 100, ONE.len() as u64] {
        fails_to_read(&rt, n)?;
    }
    Ok(())
}

/// A byte a call, and the sixth call fails.
const UNWRITTEN: &Outside = &Outside {
    input: Input::Text(ONE),
    reads: (4096, &[]),
    writes: (1, &[5]),
};

#[test]
fn a_failed_write_leaves_a_front(rt: HostRuntime) -> Result<(), Fail> {
    ends(&rt, &["refresh"], UNWRITTEN, &[], 5, b"table", 2)
}

const TOO_LONG: &Outside = &Outside {
    input: Input::Marks(1_048_577),
    reads: (4096, &[]),
    writes: (4096, &[]),
};

#[test]
fn too_long_an_input_is_named(rt: HostRuntime) -> Result<(), Fail> {
    ends(&rt, &["refresh"], TOO_LONG, &[], 11, b"too long\n", 0)
}

const NO_LINK: &[Row] = &[(&["refresh"], ONE, 2, "usage\n")];

#[test]
fn the_call_without_a_link_does_not_take_it(rt: HostRuntime) -> Result<(), Fail> {
    all_answer_plainly(&rt, NO_LINK)
}
