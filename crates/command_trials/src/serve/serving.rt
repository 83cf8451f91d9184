//! Nodes that serve over a scripted link: what they answer, and how they end. The bytes were written by hand from BEP 5, and
//! who asks has the identifier `abcdefghij0123456789` of its examples.
use crate::serve::trial::{Coming, Told, Trial, Wanted, answers, plays};
use std::alloc::Global;
use std::test::Fail;
use trial_kit::{PROVED_LINES, link_from};

/// The node of ones serves for two receive calls, and for nine.
const TWO: &[&str] = &[
    "serve",
    "--receives",
    "2",
    "--own",
    "ffffffffffffffffffffffffffffffffffffffff",
];

const NINE: &[&str] = &[
    "serve",
    "--receives",
    "9",
    "--own",
    "ffffffffffffffffffffffffffffffffffffffff",
];

/// The same where puzzles are wanted, for one receive call.
const PUZZLED: &[&str] = &[
    "serve",
    "--receives",
    "1",
    "--own",
    "ffffffffffffffffffffffffffffffffffffffff",
    "--c2",
    "8",
];

/// The same for a minute, with its table in the end.
const TIMED: &[&str] = &[
    "serve",
    "--minutes",
    "1",
    "--table",
    "yes",
    "--own",
    "ffffffffffffffffffffffffffffffffffffffff",
];

/// Its table has who asked, once.
const WITH_ASKER: &str =
    "received 1 replied 1\ntable ffffffffffffffffffffffffffffffffffffffff 8 1\nrow -\nlive 6162636465666768696a30313233343536373839 127.0.0.1:7000 0\nsibling 6162636465666768696a30313233343536373839 127.0.0.1:7000\nend\n";

const PING: &[u8] = b"d1:ad2:id20:abcdefghij0123456789e1:q4:ping1:t2:aa1:y1:qe";

const PONG: &[u8] =
    b"d1:rd2:id20:\xff\xff\xff\xff\xff\xff\xff\xff\xff\xff\xff\xff\xff\xff\xff\xff\xff\xff\xff\xffe1:t2:aa1:y1:re";

/// The same with the tag of a group whose key is 32 zero bytes, as Python's `hmac` makes it.
const TAGGED_PONG: &[u8] =
    b"d1:rd2:id20:\xff\xff\xff\xff\xff\xff\xff\xff\xff\xff\xff\xff\xff\xff\xff\xff\xff\xff\xff\xffe2:sg20:-\x9e\xe4Y\x1bD\x13\xbet\xf1\x94-=0\x1fC@\xfa\x0ag1:t2:aa1:y1:re";

/// The node of ones serves in that group, for one receive call.
const GROUPED: &[&str] = &[
    "serve",
    "--receives",
    "1",
    "--own",
    "ffffffffffffffffffffffffffffffffffffffff",
    "--group",
    "0000000000000000000000000000000000000000000000000000000000000000",
];

/// A ping whose transaction id has 33 bytes.
const LONG_TX: &[u8] =
    b"d1:ad2:id20:abcdefghij0123456789e1:q4:ping1:t33:0123456789012345678901234567890121:y1:qe";

/// The answer to a ping, which nobody asked for.
const AN_ANSWER: &[u8] = b"d1:rd2:id20:mnopqrstuvwxyz123456e1:t2:aa1:y1:re";

/// A query for the identifier of zeros.
const FIND: &[u8] =
    b"d1:ad2:id20:abcdefghij01234567896:target20:\0\0\0\0\0\0\0\0\0\0\0\0\0\0\0\0\0\0\0\0e1:q9:find_node1:t2:aa1:y1:qe";

/// Its reply names both nodes of the input, nearest first, and then the proof of each.
const FOUND: &[u8] =
    b"d1:rd2:id20:\xff\xff\xff\xff\xff\xff\xff\xff\xff\xff\xff\xff\xff\xff\xff\xff\xff\xff\xff\xff5:nodes52:\xa3\xf8\xd0\x18\xd1\x5e\xae\x79\xbd\x51\x9f\xbe\xf9\x8c\x5e\x3c\xfb\x23\x36\x9e\x7f\0\0\x01\x17\x72\xf8\xb3\x6a\xfa\xa8\x2e\xfd\xb7\x23\x98\x84\xa0\x29\x6c\x9e\x20\x9d\xb1\xc4\xb0\x7f\0\0\x01\x17\x716:snodes156:\xa3\xf8\xd0\x18\xd1\x5e\xae\x79\xbd\x51\x9f\xbe\xf9\x8c\x5e\x3c\xfb\x23\x36\x9e\xf6\xa1\x2c\xa8\xff\xc3\x0a\x66\xca\x14\x0c\xcc\x72\x76\x33\x61\x15\x81\x93\x61\x18\x6d\x3f\x53\x5d\xd9\x9f\x8e\xaa\xca\x8f\xce\0\0\0\0\0\0\0\0\0\0\0\0\0\0\0\0\0\0\0\xc5\x7f\0\0\x01\x17\x72\xf8\xb3\x6a\xfa\xa8\x2e\xfd\xb7\x23\x98\x84\xa0\x29\x6c\x9e\x20\x9d\xb1\xc4\xb0\x02\x3f\x37\x20\x3a\x24\x76\xc4\x25\x66\xa6\x1c\xc5\x5c\x3c\xa8\x75\xdb\xb4\xcc\x41\xc0\xde\xb7\x89\xf8\xe7\xbf\x88\x18\x36\x38\0\0\0\0\0\0\0\0\0\0\0\0\0\0\0\0\0\0\0\x67\x7f\0\0\x01\x17\x71e1:t2:aa1:y1:re";

/// It asks for the moment, waits for a minute, replies to the source, and waits for a minute from the last told moment.
const PINGED: &Trial = &Trial {
    words: TWO,
    input: "",
    coming: Coming::Datagrams(&[(10, 7000, PING)]),
    failing_sends: &[],
    failing_receives: &[],
    status: 0,
    text: "received 1 replied 1\n",
    told: Wanted::Events(&[
        Told::Now(0),
        Told::Got(7000, PING, 60_000, 10),
        Told::Sent(7000, PONG),
        Told::Quiet(60_010, 60_010),
    ]),
};

#[test]
fn a_node_with_no_contacts_answers_a_ping(rt: HostRuntime) -> Result<(), Fail> {
    plays(&rt, PINGED)
}

/// A ping of 4,097 bytes; 4,096 lists one in another; a query from port 0; a transaction id of 33 bytes; an answer that
/// nobody asked for; nothing at all; and 600 keys in falling order in a ping, which is answered.
#[test]
fn hostile_datagrams_are_passed_over(rt: HostRuntime) -> Result<(), Fail> {
    let alloc = rt.alloc();
    let long = padded(alloc)?;
    let unsorted = falling(alloc)?;
    let mut link = link_from(
        alloc,
        &[
            (6001, long.as_slice()),
            (6001, &[b'l'; 4096]),
            (0, PING),
            (6001, LONG_TX),
            (6001, AN_ANSWER),
            (6001, b""),
            (6001, unsorted.as_slice()),
        ],
        &[],
        &[],
    )?;
    answers(&rt, NINE, "", &mut link, 0, "received 7 replied 1\n")
}

/// A ping that a key beside the others makes 4,097 bytes long.
fn padded(alloc: Global) -> Result<Vec<u8>, Fail> {
    let mut ping = Vec::new(alloc);
    ping.extend_from_slice(b"d1:ad2:id20:abcdefghij0123456789e1:q4:ping1:t2:aa1:y1:q1:z4033:")?;
    ping.extend_from_slice(&[b'.'; 4033])?;
    ping.push(b'e')?;
    Ok(ping)
}

/// A ping with 600 keys of two bytes more, in falling order, each with an empty string.
fn falling(alloc: Global) -> Result<Vec<u8>, Fail> {
    let mut ping = Vec::new(alloc);
    ping.extend_from_slice(b"d1:ad2:id20:abcdefghij0123456789e1:q4:ping1:t2:aa1:y1:q")?;
    for i in 0..600u16 {
        let key = (0xffff - i).to_be_bytes();
        ping.extend_from_slice(b"2:")?;
        ping.extend_from_slice(&key)?;
        ping.extend_from_slice(b"0:")?;
    }
    ping.push(b'e')?;
    Ok(ping)
}

const REFUSED: &Trial = &Trial {
    words: TWO,
    input: "",
    coming: Coming::Datagrams(&[(10, 6001, PING), (20, 6001, PING)]),
    failing_sends: &[0],
    failing_receives: &[],
    status: 0,
    text: "received 2 replied 1\n",
    told: Wanted::Sends(&[PONG]),
};

#[test]
fn a_refused_reply_is_passed_over_and_not_counted(rt: HostRuntime) -> Result<(), Fail> {
    plays(&rt, REFUSED)
}

const FAILED: &Trial = &Trial {
    words: NINE,
    input: "",
    coming: Coming::Datagrams(&[(10, 6001, PING), (20, 6001, PING)]),
    failing_sends: &[],
    failing_receives: &[1],
    status: 4,
    text: "link fault\n",
    told: Wanted::Sends(&[PONG]),
};

#[test]
fn a_failed_receive_ends_the_service(rt: HostRuntime) -> Result<(), Fail> {
    plays(&rt, FAILED)
}

const BAD_LINE: &Trial = &Trial {
    words: TWO,
    input: "#\nxyz\n",
    coming: Coming::Datagrams(&[(10, 6001, PING)]),
    failing_sends: &[],
    failing_receives: &[],
    status: 3,
    text: "bad line 2\n",
    told: Wanted::Sends(&[]),
};

#[test]
fn a_node_serves_no_bad_line(rt: HostRuntime) -> Result<(), Fail> {
    plays(&rt, BAD_LINE)
}

const ASKED: &Trial = &Trial {
    words: PUZZLED,
    input: PROVED_LINES,
    coming: Coming::Datagrams(&[(10, 7000, FIND)]),
    failing_sends: &[],
    failing_receives: &[],
    status: 0,
    text: "received 1 replied 1\n",
    told: Wanted::Sends(&[FOUND]),
};

#[test]
fn the_proofs_of_the_input_come_back(rt: HostRuntime) -> Result<(), Fail> {
    plays(&rt, ASKED)
}

const MEMBER: &Trial = &Trial {
    words: GROUPED,
    input: "",
    coming: Coming::Datagrams(&[(10, 7000, PING)]),
    failing_sends: &[],
    failing_receives: &[],
    status: 0,
    text: "received 1 replied 1\n",
    told: Wanted::Sends(&[TAGGED_PONG]),
};

#[test]
fn a_member_tags_what_it_says(rt: HostRuntime) -> Result<(), Fail> {
    plays(&rt, MEMBER)
}

/// It replies, and waits to the end of its minute. Then the table is printed, with who asked.
const A_MINUTE: &Trial = &Trial {
    words: TIMED,
    input: "",
    coming: Coming::Datagrams(&[(10, 7000, PING)]),
    failing_sends: &[],
    failing_receives: &[],
    status: 0,
    text: WITH_ASKER,
    told: Wanted::Events(&[
        Told::Now(0),
        Told::Got(7000, PING, 60_000, 10),
        Told::Sent(7000, PONG),
        Told::Quiet(60_000, 60_000),
    ]),
};

#[test]
fn a_node_serves_for_a_minute_and_prints_its_table(rt: HostRuntime) -> Result<(), Fail> {
    plays(&rt, A_MINUTE)
}
