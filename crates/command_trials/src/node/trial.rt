//! Plays a command over a scripted link, and compares what it did with what was wanted. A trial is a constant, and a test one
//! call with a reference to it: that is proved in a second or two, and a test that owns what is played in half a minute.
ghost use Rattle.std.specs.Prelude.{All, IfOk};
ghost use Rattle.fake_net.specs.Scripts.{IsWritableEvent};

use fake_net::{Script, ScriptEvent, ScriptLink};
use kad_base::{Addr, Event, List, NoMemory};
use run_kit::{Played, play, play_with};
use std::alloc::Global;
use std::random::RandomSource;
use std::sync::Wait;
use std::test::Fail;
use std::thread::Threads;
use trial_kit::{Meeting, Reply, contact6, local, with_replies};

/// What comes to a link. The first number is a moment.
#[derive(Clone, Copy)]
pub enum Outside<'a> {
    /// These bytes come from this port of 127.0.0.1.
    From(u64, u16, &'a [u8]),
    /// These bytes come from this port of 127.0.0.1, so many times.
    Often(u64, u16, &'a [u8], u32),
    /// These bytes come from this contact of the network of IPv6.
    FromSix(u64, u8, &'a [u8]),
    /// This contact answers the query to it as it should, without nodes.
    Answers(u64, u8),
    /// The same with this contact as the one node.
    Names(u64, u8, u8),
    /// A query is answered in another way.
    Says(Reply),
}

/// A datagram that was sent: how many were before it, the port that it went to, and its bytes.
pub type Sending<'a> = (usize, u16, &'a [u8]);

/// An event that a link tells.
#[derive(Clone, Copy, PartialEq, Eq)]
pub enum Told<'a> {
    Now {
        at: u64,
    },
    Sent {
        to: Addr,
        bytes: &'a [u8],
    },
    Unsent {
        to: Addr,
        bytes: &'a [u8],
    },
    Got {
        from: Addr,
        bytes: &'a [u8],
        until: u64,
        at: u64,
    },
    Quiet {
        until: u64,
        at: u64,
    },
}

/// What a link has to tell.
#[derive(Clone, Copy)]
pub enum Wanted<'a> {
    /// Whatever it is.
    Anything,
    /// So many datagrams that were sent, and these among them.
    Sends(usize, &'a [Sending<'a>]),
    /// These events, and no others.
    Events(&'a [Told<'a>]),
}

/// A command and what it has to do.
#[derive(Clone, Copy)]
pub struct Trial<'a> {
    pub words: &'a [&'a str],
    pub input: &'a str,
    pub outside: &'a [Outside<'a>],
    /// The numbers, from 0, of the sends that fail.
    pub refused: &'a [u64],
    /// The numbers, from 0, of the receives that fail.
    pub broken: &'a [u64],
    pub status: u8,
    /// All that it writes.
    pub text: &'a str,
    pub told: Wanted<'a>,
}

/// No words, nothing that comes or fails, and a good end without a text.
pub const SILENT: Trial<'static> = Trial {
    words: &[],
    input: "",
    outside: &[],
    refused: &[],
    broken: &[],
    status: 0,
    text: "",
    told: Wanted::Anything,
};

/// The script with a datagram after it.
fn with_datagram(
    alloc: Global,
    script: Script,
    at: u64,
    from: Addr,
    bytes: &[u8],
    times: u32,
) -> Result<Script, NoMemory>
    requires { All IsWritableEvent script }
    ensures { IfOk result (All IsWritableEvent) }
{
    let mut script = script;
    script.push(ScriptEvent::Deliver {
        at,
        from,
        bytes: List::from_slice(alloc, bytes)?,
        times,
    })?;
    Ok(script)
}

/// The script with what comes by this row after it.
fn with(alloc: Global, script: Script, row: Outside<'_>) -> Result<Script, NoMemory>
    requires { All IsWritableEvent script }
    ensures { IfOk result (All IsWritableEvent) }
{
    match row {
        Outside::From(at, port, bytes) => with_datagram(alloc, script, at, local(port), bytes, 1),
        Outside::Often(at, port, bytes, times) => {
            with_datagram(alloc, script, at, local(port), bytes, times)
        }
        Outside::FromSix(at, n, bytes) => {
            with_datagram(alloc, script, at, contact6(n).addr, bytes, 1)
        }
        Outside::Answers(at, n) => with_replies(alloc, script, &[Reply::of(n, at)]),
        Outside::Names(at, n, node) => with_replies(alloc, script, &[Reply::naming(n, at, node)]),
        Outside::Says(reply) => with_replies(alloc, script, &[reply]),
    }
}

fn script(alloc: Global, outside: &[Outside<'_>]) -> Result<Script, NoMemory>
    ensures { IfOk result (All IsWritableEvent) }
{
    let mut script = List::new(alloc);
    for row in outside {
        script = with(alloc, script, *row)?;
    }
    Ok(script)
}

/// The link of a trial, whose first moment is 0.
fn link(alloc: Global, trial: &Trial<'_>) -> Result<ScriptLink, NoMemory> {
    let script = script(alloc, trial.outside)?;
    let refused = List::from_slice(alloc, trial.refused)?;
    let broken = List::from_slice(alloc, trial.broken)?;
    Ok(ScriptLink::new(alloc, 0, script, refused, broken))
}

/// The event with its bytes borrowed.
fn shown(event: &Event) -> Told<'_> {
    match event {
        Event::Now { at } => Told::Now { at: *at },
        Event::Sent { to, bytes } => Told::Sent {
            to: *to,
            bytes: bytes.as_slice(),
        },
        Event::Unsent { to, bytes } => Told::Unsent {
            to: *to,
            bytes: bytes.as_slice(),
        },
        Event::Got {
            from,
            bytes,
            until,
            at,
        } => Told::Got {
            from: *from,
            bytes: bytes.as_slice(),
            until: *until,
            at: *at,
        },
        Event::Quiet { until, at } => Told::Quiet {
            until: *until,
            at: *at,
        },
    }
}

/// How many datagrams were sent.
fn count_sent(events: &[Event]) -> usize {
    let mut count = 0usize;
    for event in events {
        if let Event::Sent { .. } = event {
            count = count.saturating_add(1);
        }
    }
    count
}

/// Whether the datagram was sent to its port, after as many others as it says.
fn did_send(events: &[Event], wanted: Sending<'_>) -> bool {
    let (place, port, text) = wanted;
    let mut before = 0usize;
    for event in events {
        if let Event::Sent { to, bytes } = event {
            if before == place {
                return to.port == port && bytes.as_slice() == text;
            }
            before = before.saturating_add(1);
        }
    }
    false
}

/// Which part differs, if any.
fn sends_other(events: &[Event], count: usize, wanted: &[Sending<'_>]) -> Option<&'static str> {
    if count_sent(events) != count {
        return Some("another number of sends");
    }
    for sending in wanted {
        if !did_send(events, *sending) {
            return Some("another send");
        }
    }
    None
}

/// Which part differs, if any.
fn tells_other(events: &[Event], wanted: &[Told<'_>]) -> Option<&'static str> {
    if events.len() != wanted.len() {
        return Some("another number of events");
    }
    for (event, told) in events.iter().zip(wanted) {
        if shown(event) != *told {
            return Some("another event");
        }
    }
    None
}

/// Which part differs of what the link tells, if any.
fn link_differs(link: &ScriptLink, wanted: Wanted<'_>) -> Option<&'static str> {
    let Some(events) = link.events() else {
        return Some("not told");
    };
    match wanted {
        Wanted::Anything => None,
        Wanted::Sends(count, sendings) => sends_other(events, count, sendings),
        Wanted::Events(told) => tells_other(events, told),
    }
}

/// Which part of what was played differs, if any.
fn differs(played: &Played, trial: &Trial<'_>) -> Option<&'static str> {
    if played.status != trial.status {
        return Some("another status");
    }
    if played.text.as_str() != trial.text {
        return Some("another text");
    }
    link_differs(&played.link, trial.told)
}

/// The command does what it has to. This function owns what is played, so that no test has to.
pub fn plays<R: AllocGlobal + RandomSource + Threads + Wait + Sync>(
    rt: &R,
    trial: &Trial<'_>,
) -> Result<(), Fail> {
    let link = link(rt.alloc(), trial)?;
    let played = play(rt, trial.words, trial.input, link)?;
    match differs(&played, trial) {
        Some(part) => Err(Fail::new(part)),
        None => Ok(()),
    }
}

/// So do those of all trials.
pub fn all_play<R: AllocGlobal + RandomSource + Threads + Wait + Sync>(
    rt: &R,
    trials: &[Trial<'_>],
) -> Result<(), Fail> {
    for trial in trials {
        plays(rt, trial)?;
    }
    Ok(())
}

/// The command does what it has to, and the checks of contacts 3 and 4 run at once.
pub fn meets<R: AllocGlobal + RandomSource + Threads + Wait + Sync>(
    rt: &R,
    trial: &Trial<'_>,
) -> Result<(), Fail> {
    let meeting = Meeting::new(3, 2);
    let link = link(rt.alloc(), trial)?;
    let played = play_with(rt, trial.words, trial.input, link, &meeting)?;
    if let Some(part) = differs(&played, trial) {
        return Err(Fail::new(part));
    }
    if !meeting.is_met() {
        return Err(Fail::new("one check after the other"));
    }
    Ok(())
}
