//! Commands that are played, and compared with what a test wants. A test names a constant, so that what a trial makes is
//! owned, and proved, once.
use fake_net::ScriptLink;
use id_puzzles::Sha1Check;
use kad_base::{BytesSink, Event, Link, List, NoMemory, SteadySource};
use run_kit::{none, plain_status_of, status_of, words};
use std::alloc::Global;
use std::random::RandomSource;
use std::sync::Wait;
use std::test::Fail;
use std::thread::Threads;
use trial_kit::{Reply, failing_link, link, link_at, local};

/// A command over a scripted link, and what has to come of it. Its random bytes are zeros.
#[derive(Clone, Copy)]
pub(crate) struct Trial {
    pub words: &'static [&'static str],
    pub input: &'static str,
    pub coming: Coming,
    /// The sends and the receives that fail, by their numbers from 0.
    pub failing_sends: &'static [u64],
    pub failing_receives: &'static [u64],
    pub status: u8,
    pub text: &'static str,
    pub told: Wanted,
}

/// What comes over the link.
#[derive(Clone, Copy)]
pub(crate) enum Coming {
    /// These bytes, each at its moment from 127.0.0.1 and its port.
    Datagrams(&'static [(u64, u16, &'static [u8])]),
    /// These replies to queries.
    Replies(&'static [Reply]),
}

/// What the link has to tell.
#[derive(Clone, Copy)]
pub(crate) enum Wanted {
    /// These events and no others.
    Events(&'static [Told<'static>]),
    /// These datagrams were sent and no others.
    Sends(&'static [&'static [u8]]),
}

/// An event, whose address is that of 127.0.0.1 and this port.
#[derive(Clone, Copy, Debug, PartialEq, Eq)]
pub(crate) enum Told<'a> {
    Now(u64),
    Sent(u16, &'a [u8]),
    Unsent(u16, &'a [u8]),
    Got(u16, &'a [u8], u64, u64),
    Quiet(u64, u64),
}

/// A command that asks nobody: its words and input, the status that it answers, and the text that it writes.
pub(crate) type Row = (&'static [&'static str], &'static str, u8, &'static str);

fn link_of(alloc: Global, trial: &Trial) -> Result<ScriptLink, NoMemory> {
    match trial.coming {
        Coming::Datagrams(datagrams) => link_at(
            alloc,
            datagrams,
            trial.failing_sends,
            trial.failing_receives,
        ),
        Coming::Replies(replies) => failing_link(
            alloc,
            replies,
            trial.failing_sends,
            trial.failing_receives,
        ),
    }
}

/// Plays a trial.
pub(crate) fn plays<R: AllocGlobal + RandomSource + Threads + Wait + Sync>(
    rt: &R,
    trial: &Trial,
) -> Result<(), Fail> {
    let mut link = link_of(rt.alloc(), trial)?;
    answers(
        rt,
        trial.words,
        trial.input,
        &mut link,
        trial.status,
        trial.text,
    )?;
    tells(&link, &trial.told)
}

/// Plays these trials, one after another.
pub(crate) fn all_play<R: AllocGlobal + RandomSource + Threads + Wait + Sync>(
    rt: &R,
    trials: &[Trial],
) -> Result<(), Fail> {
    for trial in trials {
        plays(rt, trial)?;
    }
    Ok(())
}

/// The command of these words over this link answers this status and writes this text.
pub(crate) fn answers<R: AllocGlobal + RandomSource + Threads + Wait + Sync, L: Link>(
    rt: &R,
    texts: &[&str],
    input: &str,
    link: &mut L,
    status: u8,
    text: &str,
) -> Result<(), Fail> {
    let alloc = rt.alloc();
    let words = words(alloc, texts)?;
    let mut source = SteadySource::new(List::from_slice(alloc, input.as_bytes())?);
    let mut sink = BytesSink::new(4096, none(alloc), List::new(alloc));
    let answered = status_of(rt, &words, &mut source, link, &mut sink, &Sha1Check)?;
    compare(answered, &sink, status, text.as_bytes())
}

/// A command that answered this status and wrote into this sink has answered that status and written that text.
pub(crate) fn compare(answered: u8, sink: &BytesSink, status: u8, text: &[u8]) -> Result<(), Fail> {
    if answered != status {
        return Err(Fail::new("another status"));
    }
    if sink.written() != text {
        return Err(Fail::new("another text"));
    }
    Ok(())
}

/// The link tells what is wanted.
fn tells(link: &ScriptLink, wanted: &Wanted) -> Result<(), Fail> {
    let Some(events) = link.events() else {
        return Err(Fail::new("not told"));
    };
    match *wanted {
        Wanted::Events(rows) => are(events, rows),
        Wanted::Sends(sends) => were_sent(events, sends),
    }
}

fn are(events: &[Event], rows: &[Told]) -> Result<(), Fail> {
    if events.len() != rows.len() {
        return Err(Fail::new("another number of events"));
    }
    for (event, row) in events.iter().zip(rows) {
        if !is(event, row) {
            return Err(Fail::new("another event"));
        }
    }
    Ok(())
}

fn is(event: &Event, row: &Told) -> bool {
    match event {
        Event::Now { at } => *row == Told::Now(*at),
        Event::Sent { to, bytes } => {
            *to == local(to.port) && *row == Told::Sent(to.port, bytes.as_slice())
        }
        Event::Unsent { to, bytes } => {
            *to == local(to.port) && *row == Told::Unsent(to.port, bytes.as_slice())
        }
        Event::Got {
            from,
            bytes,
            until,
            at,
        } => {
            *from == local(from.port) && *row == Told::Got(from.port, bytes.as_slice(), *until, *at)
        }
        Event::Quiet { until, at } => *row == Told::Quiet(*until, *at),
    }
}

fn were_sent(events: &[Event], sends: &[&[u8]]) -> Result<(), Fail> {
    let mut wanted = sends.iter();
    for event in events {
        if let Event::Sent { bytes, .. } = event {
            match wanted.next() {
                Some(send) if *send == bytes.as_slice() => {}
                _ => return Err(Fail::new("another datagram")),
            }
        }
    }
    if wanted.next().is_some() {
        return Err(Fail::new("too few datagrams"));
    }
    Ok(())
}

/// Both calls answer each of these rows: over a link, at which contact 9 alone would answer, and without one.
pub(crate) fn both_answer<R: AllocGlobal + RandomSource + Threads + Wait + Sync>(
    rt: &R,
    rows: &[Row],
) -> Result<(), Fail> {
    for (words, input, status, text) in rows {
        let mut silent = link(rt.alloc(), &[Reply::of(9, 10)])?;
        answers(rt, words, input, &mut silent, *status, text)?;
        answers_plainly(rt, words, input, *status, text)?;
    }
    Ok(())
}

/// The call that takes no link answers each of these rows.
pub(crate) fn all_answer_plainly<R: AllocGlobal + RandomSource>(
    rt: &R,
    rows: &[Row],
) -> Result<(), Fail> {
    for (words, input, status, text) in rows {
        answers_plainly(rt, words, input, *status, text)?;
    }
    Ok(())
}

fn answers_plainly<R: AllocGlobal + RandomSource>(
    rt: &R,
    texts: &[&str],
    input: &str,
    status: u8,
    text: &str,
) -> Result<(), Fail> {
    let alloc = rt.alloc();
    let words = words(alloc, texts)?;
    let mut source = SteadySource::new(List::from_slice(alloc, input.as_bytes())?);
    let mut sink = BytesSink::new(4096, none(alloc), List::new(alloc));
    let answered = plain_status_of(rt, &words, &mut source, &mut sink)?;
    compare(answered, &sink, status, text.as_bytes())
}
