//! Nodes that serve by several workers.
ghost use Rattle.std.specs.Prelude.{◌≤◌};
ghost use Rattle.node_serve.specs.Calls.{IsSetting};

use crate::replies::{OWN, PING, Text, joined, pong, random, tagged_pong};
use contact_table::Table;
use fake_net::ScriptLink;
use kad_base::{Link, List, NoMemory, Policy};
use node_serve::{Lasting, ServeCounts, ServeFault, ServeSetting};
use node_tokens::Tokens;
use seal_tags::{GroupSeal, Seal};
use serve_batches::{Duty, serve_many};
use std::alloc::Global;
use std::sync::Wait;
use std::test::Fail;
use std::thread::Threads;
use trial_kit::{link_from, link_with, sent};

/// Asks for the nodes next to whoever asks.
const FIND: &[u8] =
    b"d1:ad2:id20:abcdefghij01234567896:target20:abcdefghij0123456789e1:q9:find_node1:t2:aa1:y1:qe";

fn setting(alloc: Global, sealed: bool) -> ServeSetting
    ensures { IsSetting result }
{
    ServeSetting {
        own: OWN,
        k: 8,
        policy: Policy::Plain,
        proofs: List::new(alloc),
        tokens: Tokens::new(&random(), 0),
        sealed,
        proof: None,
    }
}

/// The seal whose key is 32 zero bytes.
pub fn group() -> GroupSeal {
    GroupSeal::new([0; 32])
}

/// So many receive calls, and no end by time.
fn lasts(receives: u32) -> Lasting {
    Lasting {
        receives,
        minutes: 0,
    }
}

/// How much so many workers serve over the link.
pub fn serve<R: AllocGlobal + Threads + Wait + Sync, G: Seal + Sync>(
    rt: &R,
    link: &mut ScriptLink,
    seal: &G,
    workers: u8,
    lasting: Lasting,
    sealed: bool,
) -> Result<Result<ServeCounts, ServeFault>, NoMemory>
    requires some { 2 ≤ workers }
    requires few { workers ≤ 8 }
{
    let alloc = rt.alloc();
    let table = Table::new(alloc, OWN, 8, 1)?;
    let began = link.now();
    let duty = Duty {
        workers,
        began,
        lasting,
    };
    let (_, answer) = serve_many(rt, alloc, link, seal, setting(alloc, sealed), table, duty);
    Ok(answer)
}

/// Whether the link was sent just these replies.
fn sends(alloc: Global, link: &ScriptLink, wanted: &[Text]) -> Result<bool, Fail> {
    let replies = sent(alloc, link)?;
    if replies.len() != wanted.len() {
        return Ok(false);
    }
    for (reply, text) in replies.iter().zip(wanted) {
        if reply.as_slice() != text.as_slice() {
            return Ok(false);
        }
    }
    Ok(true)
}

/// How many pongs the link was sent, where it was sent nothing else.
fn pongs(alloc: Global, link: &ScriptLink) -> Result<usize, Fail> {
    let replies = sent(alloc, link)?;
    for reply in &replies {
        if reply.as_slice() != pong().as_slice() {
            return Err(Fail::new("another reply"));
        }
    }
    Ok(replies.len())
}

/// Whether so many of these pings, which come at one moment, are answered by so many workers.
fn answers<R: AllocGlobal + Threads + Wait + Sync>(
    rt: &R,
    workers: u8,
    pings: u32,
    receives: u32,
    replies: u32,
) -> Result<bool, Fail>
    requires some { 2 ≤ workers }
    requires few { workers ≤ 8 }
{
    let alloc = rt.alloc();
    let mut link = link_with(alloc, PING, 10, pings, &[])?;
    let counts = ServeCounts {
        received: replies,
        replied: replies,
    };
    if serve(rt, &mut link, &group(), workers, lasts(receives), false)? != Ok(counts) {
        return Ok(false);
    }
    Ok(pongs(alloc, &link)? == replies as usize)
}

#[test]
fn a_batch_is_answered(rt: HostRuntime) -> Result<(), Fail> {
    assert!(&rt; answers(&rt, 3, 5, 5, 5)?);
    assert!(&rt; answers(&rt, 2, 1, 2, 1)?);
    Ok(())
}

#[test]
fn more_than_a_batch_is_answered(rt: HostRuntime) -> Result<(), Fail> {
    assert!(&rt; answers(&rt, 8, 40, 45, 40)?);
    assert!(&rt; answers(&rt, 5, 40, 33, 33)?);
    Ok(())
}

#[test]
fn those_who_help_answer_batch_after_batch(rt: HostRuntime) -> Result<(), Fail> {
    assert!(&rt; answers(&rt, 2, 100, 104, 100)?);
    assert!(&rt; answers(&rt, 4, 100, 104, 100)?);
    Ok(())
}

/// Whether two workers that make so many receive calls answer so many of these datagrams with just these replies.
fn answers_with<R: AllocGlobal + Threads + Wait + Sync>(
    rt: &R,
    link: Result<ScriptLink, NoMemory>,
    receives: u32,
    sealed: bool,
    wanted: &[Text],
) -> Result<bool, Fail> {
    let mut link = link?;
    match serve(rt, &mut link, &group(), 2, lasts(receives), sealed)? {
        Ok(counts) => Ok(
            counts.received as usize == wanted.len()
                && counts.replied as usize == wanted.len()
                && sends(rt.alloc(), &link, wanted)?,
        ),
        Err(_) => Ok(false),
    }
}

#[test]
fn who_asked_in_an_earlier_batch_is_named(rt: HostRuntime) -> Result<(), Fail> {
    let link = link_from(rt.alloc(), &[(7000, FIND), (7001, FIND)], &[], &[]);
    let nobody = joined(&[b"d1:rd2:id20:", &OWN.0, b"5:nodes0:e1:t2:aa1:y1:re"]);
    let one = joined(&[
        b"d1:rd2:id20:",
        &OWN.0,
        b"5:nodes26:abcdefghij0123456789\x7f\0\0\x01\x1b\x58e1:t2:aa1:y1:re",
    ]);
    assert!(&rt; answers_with(&rt, link, 4, false, &[nobody, one])?);
    Ok(())
}

/// How many pongs two workers send over the link, where a receive of theirs fails.
fn pongs_before_a_fault<R: AllocGlobal + Threads + Wait + Sync>(
    rt: &R,
    link: Result<ScriptLink, NoMemory>,
) -> Result<usize, Fail> {
    let mut link = link?;
    match serve(rt, &mut link, &group(), 2, lasts(4), false)? {
        Err(ServeFault::LinkFault) => pongs(rt.alloc(), &link),
        _ => Err(Fail::new("it ends otherwise")),
    }
}

#[test]
fn a_failed_receive_ends_it_behind_whole_batches(rt: HostRuntime) -> Result<(), Fail> {
    let second = link_from(rt.alloc(), &[(7000, PING), (7001, PING)], &[], &[2]);
    assert!(&rt; pongs_before_a_fault(&rt, second)? == 1);
    let first = link_from(rt.alloc(), &[(7000, PING)], &[], &[1]);
    assert!(&rt; pongs_before_a_fault(&rt, first)? == 0);
    Ok(())
}

#[test]
fn a_sealed_crew_tags_its_replies(rt: HostRuntime) -> Result<(), Fail> {
    let link = link_with(rt.alloc(), PING, 10, 1, &[]);
    assert!(&rt; answers_with(&rt, link, 1, true, &[tagged_pong()])?);
    let three = link_with(rt.alloc(), PING, 10, 3, &[]);
    let wanted = [tagged_pong(), tagged_pong(), tagged_pong()];
    assert!(&rt; answers_with(&rt, three, 3, true, &wanted)?);
    Ok(())
}
