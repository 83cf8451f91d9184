//! Nodes that serve by several workers, over a scripted link. The bytes were written by hand from BEP 5; who pings has the
//! identifier `abcdefghij0123456789` of its examples.
use crate::serve::trial::{Coming, Told, Trial, Wanted, plays};
use id_puzzles::Sha1Check;
use run_kit::{play_under, words};
use std::random::RandomSource;
use std::sync::Wait;
use std::test::Fail;
use std::thread::Threads;
use trial_kit::{MeetingSeal, link_at};

/// The node of ones serves by two workers for two receive calls, for four, and by eight for 45.
const TWO: &[&str] = &[
    "serve",
    "--workers",
    "2",
    "--receives",
    "2",
    "--own",
    "ffffffffffffffffffffffffffffffffffffffff",
];

const FOUR: &[&str] = &[
    "serve",
    "--workers",
    "2",
    "--receives",
    "4",
    "--own",
    "ffffffffffffffffffffffffffffffffffffffff",
];

const EIGHT: &[&str] = &[
    "serve",
    "--workers",
    "8",
    "--receives",
    "45",
    "--own",
    "ffffffffffffffffffffffffffffffffffffffff",
];

/// Two workers for a minute, with the table in the end.
const TIMED: &[&str] = &[
    "serve",
    "--workers",
    "2",
    "--minutes",
    "1",
    "--table",
    "yes",
    "--own",
    "ffffffffffffffffffffffffffffffffffffffff",
];

/// Node 5 is in it, as who asked at port 7005.
const WITH_5: &str =
    "received 1 replied 1\ntable ffffffffffffffffffffffffffffffffffffffff 8 1\nrow -\nlive 0000000000000000000000000000000000000005 127.0.0.1:7005 0\nsibling 0000000000000000000000000000000000000005 127.0.0.1:7005\nend\n";

/// Two workers of a group whose key is 32 zero bytes, for sixteen receive calls.
const GROUPED: &[&str] = &[
    "serve",
    "--workers",
    "2",
    "--receives",
    "16",
    "--own",
    "ffffffffffffffffffffffffffffffffffffffff",
    "--group",
    "0000000000000000000000000000000000000000000000000000000000000000",
];

const PING: &[u8] = b"d1:ad2:id20:abcdefghij0123456789e1:q4:ping1:t2:aa1:y1:qe";

const PONG: &[u8] =
    b"d1:rd2:id20:\xff\xff\xff\xff\xff\xff\xff\xff\xff\xff\xff\xff\xff\xff\xff\xff\xff\xff\xff\xffe1:t2:aa1:y1:re";

/// The same with another transaction id.
const SECOND_PING: &[u8] = b"d1:ad2:id20:abcdefghij0123456789e1:q4:ping1:t2:ab1:y1:qe";

const SECOND_PONG: &[u8] =
    b"d1:rd2:id20:\xff\xff\xff\xff\xff\xff\xff\xff\xff\xff\xff\xff\xff\xff\xff\xff\xff\xff\xff\xffe1:t2:ab1:y1:re";

/// Nodes 5 and 6 look for the identifier of zeros.
const FIND_BY_5: &[u8] =
    b"d1:ad2:id20:\0\0\0\0\0\0\0\0\0\0\0\0\0\0\0\0\0\0\0\x056:target20:\0\0\0\0\0\0\0\0\0\0\0\0\0\0\0\0\0\0\0\0e1:q9:find_node1:t2:aa1:y1:qe";

const FIND_BY_6: &[u8] =
    b"d1:ad2:id20:\0\0\0\0\0\0\0\0\0\0\0\0\0\0\0\0\0\0\0\x066:target20:\0\0\0\0\0\0\0\0\0\0\0\0\0\0\0\0\0\0\0\0e1:q9:find_node1:t2:aa1:y1:qe";

/// The node knows nobody yet; and then node 5, at port 7005.
const FOUND_NONE: &[u8] =
    b"d1:rd2:id20:\xff\xff\xff\xff\xff\xff\xff\xff\xff\xff\xff\xff\xff\xff\xff\xff\xff\xff\xff\xff5:nodes0:e1:t2:aa1:y1:re";

const FOUND_5: &[u8] =
    b"d1:rd2:id20:\xff\xff\xff\xff\xff\xff\xff\xff\xff\xff\xff\xff\xff\xff\xff\xff\xff\xff\xff\xff5:nodes26:\0\0\0\0\0\0\0\0\0\0\0\0\0\0\0\0\0\0\0\x05\x7f\0\0\x01\x1b\x5de1:t2:aa1:y1:re";

/// Two pings at one moment.
const PINGS: &[(u64, u16, &[u8])] = &[(10, 7000, PING), (10, 7001, SECOND_PING)];

/// The first receive call waits for a minute and the second for nothing; then both are answered, in order.
const IN_ORDER: &Trial = &Trial {
    words: TWO,
    input: "",
    coming: Coming::Datagrams(PINGS),
    failing_sends: &[],
    failing_receives: &[],
    status: 0,
    text: "received 2 replied 2\n",
    told: Wanted::Events(&[
        Told::Now(0),
        Told::Got(7000, PING, 60_000, 10),
        Told::Got(7001, SECOND_PING, 10, 10),
        Told::Sent(7000, PONG),
        Told::Sent(7001, SECOND_PONG),
    ]),
};

#[test]
fn a_batch_is_answered_in_its_order(rt: HostRuntime) -> Result<(), Fail> {
    plays(&rt, IN_ORDER)
}

/// Who asks is told to the table after its own answer, and is named to who asks in the next batch.
const TWO_BATCHES: &Trial = &Trial {
    words: FOUR,
    input: "",
    coming: Coming::Datagrams(&[(1, 7005, FIND_BY_5), (10, 7006, FIND_BY_6)]),
    failing_sends: &[],
    failing_receives: &[],
    status: 0,
    text: "received 2 replied 2\n",
    told: Wanted::Sends(&[FOUND_NONE, FOUND_5]),
};

#[test]
fn a_later_batch_names_who_asked_before(rt: HostRuntime) -> Result<(), Fail> {
    plays(&rt, TWO_BATCHES)
}

/// A batch has at most 32 receive calls, and eight workers answer forty pings in two.
const FORTY: &Trial = &Trial {
    words: EIGHT,
    input: "",
    coming: Coming::Datagrams(&[(10, 7000, PING); 40]),
    failing_sends: &[],
    failing_receives: &[],
    status: 0,
    text: "received 40 replied 40\n",
    told: Wanted::Sends(&[PONG; 40]),
};

#[test]
fn more_than_a_batch_is_answered(rt: HostRuntime) -> Result<(), Fail> {
    plays(&rt, FORTY)
}

const REFUSED: &Trial = &Trial {
    words: TWO,
    input: "",
    coming: Coming::Datagrams(PINGS),
    failing_sends: &[0],
    failing_receives: &[],
    status: 0,
    text: "received 2 replied 1\n",
    told: Wanted::Sends(&[SECOND_PONG]),
};

#[test]
fn a_reply_that_is_refused_is_passed_over(rt: HostRuntime) -> Result<(), Fail> {
    plays(&rt, REFUSED)
}

/// The batch in which a receive fails is not answered.
const FAILED: &Trial = &Trial {
    words: FOUR,
    input: "",
    coming: Coming::Datagrams(PINGS),
    failing_sends: &[],
    failing_receives: &[2],
    status: 4,
    text: "link fault\n",
    told: Wanted::Sends(&[]),
};

#[test]
fn a_failed_receive_ends_it_without_the_replies_of_its_batch(rt: HostRuntime) -> Result<(), Fail> {
    plays(&rt, FAILED)
}

/// How often two workers are tried: on a busy machine a thread may come when the batch is over.
const TRIES: usize = 5;

/// Serves a batch of which each of two workers has eight pings, for which a thread is woken. Whether all are answered, and the tag
/// of a reply to the first ping and that of one to the second are made at once: each waits until it sees the other.
fn are_at_work_at_once<R: AllocGlobal + RandomSource + Threads + Wait + Sync>(
    rt: &R,
) -> Result<bool, Fail> {
    let alloc = rt.alloc();
    let mut pings = [(10, 7000, PING); 16];
    for i in 8..16 {
        pings[i] = (10, 7001, SECOND_PING);
    }
    let link = link_at(alloc, &pings, &[], &[])?;
    let words = words(alloc, GROUPED)?;
    let seal = MeetingSeal::new([0; 32], 2);
    let played = play_under(rt, &words, "", link, &Sha1Check, &seal)?;
    Ok(played.text.as_str() == "received 16 replied 16\n" && seal.is_met())
}

#[test]
fn two_workers_of_a_batch_are_at_work_at_once(rt: HostRuntime) -> Result<(), Fail> {
    let mut is_met = false;
    for _ in 0..TRIES {
        is_met = is_met || are_at_work_at_once(&rt)?;
    }
    assert!(rt; is_met);
    Ok(())
}

const A_MINUTE: &Trial = &Trial {
    words: TIMED,
    input: "",
    coming: Coming::Datagrams(&[(1, 7005, FIND_BY_5)]),
    failing_sends: &[],
    failing_receives: &[],
    status: 0,
    text: WITH_5,
    told: Wanted::Sends(&[FOUND_NONE]),
};

#[test]
fn workers_that_serve_for_a_minute_print_one_table(rt: HostRuntime) -> Result<(), Fail> {
    plays(&rt, A_MINUTE)
}
