//! Runs by hand. The query and the answer are BEP 5's example of a ping.
ghost use Rattle.std.specs.Prelude.{All, IfOk};
ghost use Rattle.fake_net.specs.Scripts.{IsWritableEvent};

use fake_net::{ScriptEvent, ScriptLink};
use kad_base::{Addr, Came, Event, Id, Ip, Link, List, NoMemory};
use kad_krpc::{Answer, Message};
use std::alloc::Global;
use std::process::Abort;
use std::test::Fail;

const PING: &[u8] = b"d1:ad2:id20:abcdefghij0123456789e1:q4:ping1:t2:aa1:y1:qe";

const SECOND_PING: &[u8] = b"d1:ad2:id20:abcdefghij0123456789e1:q4:ping1:t2:bb1:y1:qe";

const PONG: &[u8] = b"d1:rd2:id20:mnopqrstuvwxyz123456e1:t2:aa1:y1:re";

/// What the script of a test has.
#[derive(Clone, Copy)]
enum Coming {
    /// Bytes from port 6002.
    Bytes {
        at: u64,
        text: &'static [u8],
        times: u32,
    },
    /// An answer from port 6001 to the query that was sent there.
    Answer {
        at: u64,
    },
}

/// What a receive answers.
#[derive(Clone, Copy, Debug, PartialEq, Eq)]
enum Said<'a> {
    Datagram { from: Addr, text: &'a [u8], at: u64 },
    Quiet { at: u64 },
    Failed,
}

/// An event of the transcript.
#[derive(Clone, Copy, Debug, PartialEq, Eq)]
enum Told<'a> {
    Now {
        at: u64,
    },
    Sent {
        to: Addr,
        text: &'a [u8],
    },
    Unsent {
        to: Addr,
        text: &'a [u8],
    },
    Got {
        from: Addr,
        text: &'a [u8],
        until: u64,
        at: u64,
    },
    Quiet {
        until: u64,
        at: u64,
    },
}

/// A call of the link and what it has to answer, or what the link has to tell. The ports are those of 127.0.0.1.
#[derive(Clone, Copy, Debug)]
enum Row {
    /// The moment is this.
    Now(u64),
    /// A send to that port passes.
    Sent(u16, &'static [u8]),
    /// A send to that port fails.
    Unsent(u16, &'static [u8]),
    /// A send of that many bytes to that port passes.
    SentMany(u16, usize),
    /// A receive until that moment gives these bytes from that port, and tells that moment.
    Gives(u64, u16, &'static [u8], u64),
    /// So does one into a buffer of 4 bytes.
    GivesCut(u64, u16, &'static [u8], u64),
    /// A receive until that moment gives nothing, and tells that moment.
    Waits(u64, u64),
    /// A receive until that moment fails.
    Fails(u64),
    /// So often the link is asked for the moment, sends, and receives nothing: three events each.
    Repeats(u32),
    /// The transcript is this.
    Tells(&'static [Told<'static>]),
    /// The transcript is so many events, in turn those of `Repeats` at moment 5.
    TellsRepeated(usize),
}

fn addr(port: u16) -> Addr {
    Addr {
        ip: Ip::V4([127, 0, 0, 1]),
        port,
    }
}

fn answer(alloc: Global, at: u64) -> ScriptEvent
    ensures { IsWritableEvent result }
{
    ScriptEvent::ToQuery {
        to: addr(6001),
        at,
        from: addr(6001),
        message: Message::Answer {
            tx: List::new(alloc),
            answer: Answer {
                id: Id(*b"mnopqrstuvwxyz123456"),
                nodes: None,
                snodes: None,
                nodes6: None,
                snodes6: None,
                token: None,
                v: None,
                values: None,
            },
        },
    }
}

fn event(alloc: Global, coming: Coming) -> Result<ScriptEvent, NoMemory>
    ensures { IfOk result IsWritableEvent }
{
    match coming {
        Coming::Bytes { at, text, times } => Ok(ScriptEvent::Deliver {
            at,
            from: addr(6002),
            bytes: List::from_slice(alloc, text)?,
            times,
        }),
        Coming::Answer { at } => Ok(answer(alloc, at)),
    }
}

/// A link over two events that starts at moment 5.
fn link(
    alloc: Global,
    coming: [Coming; 2],
    failing_sends: &[u64],
    failing_receives: &[u64],
) -> Result<ScriptLink, NoMemory> {
    let mut script = List::new(alloc);
    script.push(event(alloc, coming[0])?)?;
    script.push(event(alloc, coming[1])?)?;
    let failing_sends = List::from_slice(alloc, failing_sends)?;
    let failing_receives = List::from_slice(alloc, failing_receives)?;
    Ok(ScriptLink::new(alloc, 5, script, failing_sends, failing_receives))
}

fn sends(link: &mut ScriptLink, port: u16, text: &[u8]) -> bool {
    link.send(addr(port), text).is_ok()
}

fn receives<'a>(link: &mut ScriptLink, buf: &'a mut [u8], until: u64) -> Said<'a> {
    match link.recv(buf, until) {
        Ok(Came::Packet { from, len, at }) => Said::Datagram {
            from,
            text: &buf[..len],
            at,
        },
        Ok(Came::Quiet { at }) => Said::Quiet { at },
        Err(_) => Said::Failed,
    }
}

/// Whether a receive into a buffer of that length gives this.
fn gives(link: &mut ScriptLink, room: usize, until: u64, port: u16, text: &[u8], at: u64) -> bool {
    let mut buf = [0; 64];
    let wanted = Said::Datagram {
        from: addr(port),
        text,
        at,
    };
    receives(link, &mut buf[..room.min(64)], until) == wanted
}

/// Whether a receive gives nothing, and tells that moment.
fn waits(link: &mut ScriptLink, until: u64, at: u64) -> bool {
    receives(link, &mut [0; 64], until) == Said::Quiet { at }
}

fn fails(link: &mut ScriptLink, until: u64) -> bool {
    receives(link, &mut [0; 64], until) == Said::Failed
}

/// Whether a send of that many bytes passes.
fn sends_many(link: &mut ScriptLink, port: u16, count: usize) -> bool {
    let bytes = [b'x'; 65_507];
    sends(link, port, &bytes[..count.min(65_507)])
}

/// Asks for the moment, sends, and receives nothing, that many times: three events each.
fn repeats(link: &mut ScriptLink, times: u32) {
    for _ in 0..times {
        link.now();
        sends(link, 6003, b"sent");
        receives(link, &mut [0; 64], 5);
    }
}

fn shown(event: &Event) -> Told<'_> {
    match event {
        Event::Now { at } => Told::Now { at: *at },
        Event::Sent { to, bytes } => Told::Sent {
            to: *to,
            text: bytes.as_slice(),
        },
        Event::Unsent { to, bytes } => Told::Unsent {
            to: *to,
            text: bytes.as_slice(),
        },
        Event::Got {
            from,
            bytes,
            until,
            at,
        } => Told::Got {
            from: *from,
            text: bytes.as_slice(),
            until: *until,
            at: *at,
        },
        Event::Quiet { until, at } => Told::Quiet {
            until: *until,
            at: *at,
        },
    }
}

/// Whether the transcript is this.
fn tells(events: Option<&[Event]>, wanted: &[Told<'_>]) -> bool {
    let events = events.unwrap_or(&[]);
    events.len() == wanted.len()
        && events
            .iter()
            .zip(wanted)
            .all(|(event, told)| shown(event) == *told)
}

/// The event of that number of what `repeats` does at moment 5.
fn repeated(number: usize) -> Told<'static> {
    match number % 3 {
        0 => Told::Now { at: 5 },
        1 => Told::Sent {
            to: addr(6003),
            text: b"sent",
        },
        _ => Told::Quiet { until: 5, at: 5 },
    }
}

/// Whether the transcript is so many of these events.
fn tells_repeated(events: Option<&[Event]>, count: usize) -> bool {
    let events = events.unwrap_or(&[]);
    for (number, event) in events.iter().enumerate() {
        if shown(event) != repeated(number) {
            return false;
        }
    }
    events.len() == count
}

/// Makes the call, and says whether all is as the row has it.
fn holds(link: &mut ScriptLink, row: &Row) -> bool {
    match *row {
        Row::Now(at) => link.now() == at,
        Row::Sent(port, text) => sends(link, port, text),
        Row::Unsent(port, text) => !sends(link, port, text),
        Row::SentMany(port, count) => sends_many(link, port, count),
        Row::Gives(until, port, text, at) => gives(link, 64, until, port, text, at),
        Row::GivesCut(until, port, text, at) => gives(link, 4, until, port, text, at),
        Row::Waits(until, at) => waits(link, until, at),
        Row::Fails(until) => fails(link, until),
        Row::Repeats(times) => {
            repeats(link, times);
            true
        }
        Row::Tells(wanted) => tells(link.events(), wanted),
        Row::TellsRepeated(count) => tells_repeated(link.events(), count),
    }
}

/// Makes the calls of a link over two events, one after another.
fn plays(
    rt: &impl Abort,
    alloc: Global,
    coming: [Coming; 2],
    failing_sends: &[u64],
    failing_receives: &[u64],
    rows: &[Row],
) -> Result<(), Fail> {
    let mut link = link(alloc, coming, failing_sends, failing_receives)?;
    for row in rows {
        assert!(rt; holds(&mut link, row), "{row:?}");
    }
    Ok(())
}

fn bytes(at: u64, text: &'static [u8], times: u32) -> Coming {
    Coming::Bytes { at, text, times }
}

const OTHER: Coming = Coming::Bytes {
    at: 30,
    text: b"other",
    times: 1,
};

const ANSWER: Coming = Coming::Answer { at: 7 };

const QUERY_AND_ANSWER: &[Row] = &[
    Row::Waits(9, 9),
    Row::Sent(6001, PING),
    Row::Gives(9, 6001, PONG, 9),
    Row::Waits(12, 12),
];

#[test]
fn an_answer_comes_once_its_query_was_sent(rt: HostRuntime) -> Result<(), Fail> {
    plays(&rt, rt.alloc(), [ANSWER, OTHER], &[], &[], QUERY_AND_ANSWER)
}

const ELSEWHERE: &[Row] = &[Row::Sent(6003, PING), Row::Waits(9, 9)];

#[test]
fn a_query_elsewhere_makes_no_answer_ready(rt: HostRuntime) -> Result<(), Fail> {
    plays(&rt, rt.alloc(), [ANSWER, OTHER], &[], &[], ELSEWHERE)
}

const TWO_QUERIES: &[Row] = &[
    Row::Sent(6001, PING),
    Row::Sent(6001, SECOND_PING),
    Row::Gives(9, 6001, PONG, 7),
];

#[test]
fn the_second_query_does_not_change_the_id(rt: HostRuntime) -> Result<(), Fail> {
    plays(&rt, rt.alloc(), [ANSWER, OTHER], &[], &[], TWO_QUERIES)
}

const FAILED_SEND: &[Row] = &[
    Row::Unsent(6001, SECOND_PING),
    Row::Waits(9, 9),
    Row::Sent(6001, PING),
    Row::Gives(9, 6001, PONG, 9),
];

#[test]
fn a_failed_send_makes_no_answer_ready(rt: HostRuntime) -> Result<(), Fail> {
    plays(&rt, rt.alloc(), [ANSWER, OTHER], &[0], &[], FAILED_SEND)
}

const THRICE: &[Row] = &[
    Row::Gives(9, 6002, b"thrice", 7),
    Row::Gives(9, 6002, b"thrice", 7),
    Row::Gives(9, 6002, b"thrice", 7),
    Row::Waits(9, 9),
];

#[test]
fn bytes_come_as_often_as_the_script_says(rt: HostRuntime) -> Result<(), Fail> {
    let coming = [bytes(7, b"thrice", 3), bytes(6, b"never", 0)];
    plays(&rt, rt.alloc(), coming, &[], &[], THRICE)
}

const OF_ONE_MOMENT: &[Row] = &[
    Row::Gives(9, 6002, b"first", 7),
    Row::Gives(9, 6002, b"second", 7),
];

#[test]
fn the_first_of_one_moment_comes_first(rt: HostRuntime) -> Result<(), Fail> {
    let coming = [bytes(7, b"first", 1), bytes(7, b"second", 1)];
    plays(&rt, rt.alloc(), coming, &[], &[], OF_ONE_MOMENT)
}

const SOONER_AND_LATER: &[Row] = &[
    Row::Gives(9, 6002, b"sooner", 5),
    Row::Gives(8, 6002, b"later", 8),
];

#[test]
fn the_sooner_of_two_comes_first(rt: HostRuntime) -> Result<(), Fail> {
    let coming = [bytes(8, b"later", 1), bytes(2, b"sooner", 1)];
    plays(&rt, rt.alloc(), coming, &[], &[], SOONER_AND_LATER)
}

const PAST_MOMENTS: &[Row] = &[
    Row::Waits(19, 19),
    Row::Waits(3, 19),
    Row::Gives(20, 6002, b"first", 20),
];

#[test]
fn a_receive_waits_no_less_than_the_last_moment(rt: HostRuntime) -> Result<(), Fail> {
    let coming = [bytes(20, b"first", 1), bytes(30, b"second", 1)];
    plays(&rt, rt.alloc(), coming, &[], &[], PAST_MOMENTS)
}

const FAILED_RECEIVE: &[Row] = &[
    Row::Gives(9, 6002, b"first", 6),
    Row::Fails(9),
    Row::Gives(9, 6002, b"second", 7),
];

#[test]
fn a_listed_receive_fails_and_takes_nothing(rt: HostRuntime) -> Result<(), Fail> {
    let coming = [bytes(6, b"first", 1), bytes(7, b"second", 1)];
    plays(&rt, rt.alloc(), coming, &[], &[1], FAILED_RECEIVE)
}

#[test]
fn a_datagram_is_cut_to_the_buffer(rt: HostRuntime) -> Result<(), Fail> {
    let coming = [bytes(6, b"abcdef", 1), bytes(7, b"second", 1)];
    let rows = [Row::GivesCut(9, 6002, b"abcd", 6)];
    plays(&rt, rt.alloc(), coming, &[], &[], &rows)
}

/// 127.0.0.1:6002.
const FROM: Addr = Addr {
    ip: Ip::V4([127, 0, 0, 1]),
    port: 6002,
};

/// 127.0.0.1:6003.
const TO: Addr = Addr {
    ip: Ip::V4([127, 0, 0, 1]),
    port: 6003,
};

const WHAT_IT_DID: &[Row] = &[
    Row::Now(5),
    Row::Sent(6003, b"sent"),
    Row::Unsent(6003, b"unsent"),
    Row::Gives(9, 6002, b"first", 6),
    Row::Waits(8, 8),
    Row::Tells(&[
        Told::Now { at: 5 },
        Told::Sent {
            to: TO,
            text: b"sent",
        },
        Told::Unsent {
            to: TO,
            text: b"unsent",
        },
        Told::Got {
            from: FROM,
            text: b"first",
            until: 9,
            at: 6,
        },
        Told::Quiet { until: 8, at: 8 },
    ]),
];

#[test]
fn it_tells_what_it_did(rt: HostRuntime) -> Result<(), Fail> {
    let coming = [bytes(6, b"first", 1), bytes(30, b"second", 1)];
    plays(&rt, rt.alloc(), coming, &[1], &[], WHAT_IT_DID)
}

const FIVE_THOUSAND: &[Row] = &[Row::Repeats(1_667), Row::TellsRepeated(5_001)];

#[test]
fn five_thousand_events_are_told(rt: HostRuntime) -> Result<(), Fail> {
    let coming = [bytes(6, b"first", 1), bytes(7, b"second", 1)];
    plays(&rt, rt.alloc(), coming, &[], &[], FIVE_THOUSAND)
}

const LENGTHS: &[Row] = &[
    Row::SentMany(6001, 0),
    Row::SentMany(6001, 2_001),
    Row::SentMany(6001, 65_507),
];

#[test]
fn a_send_of_any_length_passes(rt: HostRuntime) -> Result<(), Fail> {
    plays(&rt, rt.alloc(), [ANSWER, OTHER], &[], &[], LENGTHS)
}
