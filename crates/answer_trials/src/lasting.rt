//! Nodes that serve until a number of receive calls was made or a moment was told, over scripted links: which receive calls
//! they make, and how long each waits. The moments were worked out by hand: a minute has 60,000 milliseconds.
use crate::replies::{PING, node, pong};
use crate::workers::{group, serve};
use fake_net::ScriptLink;
use kad_base::{Event, Link, List, NoMemory, Policy};
use node_serve::{Lasting, serve_loop};
use std::alloc::Global;
use std::sync::Wait;
use std::test::Fail;
use std::thread::Threads;
use trial_kit::{link_at, local, tells};

/// What a link told behind its first moment: a ping from a port or nothing, with the moment to which the call waits and the
/// moment that was told; or a pong to a port.
#[derive(Clone, Copy)]
enum Told {
    Got(u16, u64, u64),
    Quiet(u64, u64),
    Sent(u16),
}

fn event(alloc: Global, told: Told) -> Result<Event, NoMemory> {
    match told {
        Told::Got(port, until, at) => Ok(Event::Got {
            from: local(port),
            bytes: List::from_slice(alloc, PING)?,
            until,
            at,
        }),
        Told::Quiet(until, at) => Ok(Event::Quiet { until, at }),
        Told::Sent(port) => Ok(Event::Sent {
            to: local(port),
            bytes: List::from_slice(alloc, pong().as_slice())?,
        }),
    }
}

/// Whether the link told this behind its first moment, which is 0.
fn has_told(alloc: Global, link: &ScriptLink, wanted: &[Told]) -> Result<bool, NoMemory> {
    let mut events = Vec::new(alloc);
    events.push(Event::Now { at: 0 })?;
    for told in wanted {
        let event = event(alloc, *told)?;
        events.push(event)?;
    }
    Ok(tells(link, &events))
}

/// Serves by one worker, and whether that ended well.
fn serve_alone(alloc: Global, link: &mut ScriptLink, lasting: Lasting) -> Result<bool, NoMemory> {
    let node = node(alloc, 8, Policy::Plain)?;
    let began = link.now();
    let (_, answer) = serve_loop(link, node, &group(), began, lasting);
    Ok(answer.is_ok())
}

/// Whether a worker that lasts so long has this told over a link with these pings.
fn alone(
    alloc: Global,
    pings: &[(u64, u16, &[u8])],
    receives: u32,
    minutes: u32,
    wanted: &[Told],
) -> Result<bool, NoMemory> {
    let mut link = link_at(alloc, pings, &[], &[])?;
    let well = serve_alone(alloc, &mut link, Lasting { receives, minutes })?;
    Ok(well && has_told(alloc, &link, wanted)?)
}

/// The same of two workers.
fn two<R: AllocGlobal + Threads + Wait + Sync>(
    rt: &R,
    pings: &[(u64, u16, &[u8])],
    receives: u32,
    minutes: u32,
    wanted: &[Told],
) -> Result<bool, NoMemory> {
    let mut link = link_at(rt.alloc(), pings, &[], &[])?;
    let lasting = Lasting { receives, minutes };
    let well = serve(rt, &mut link, &group(), 2, lasting, false)?.is_ok();
    Ok(well && has_told(rt.alloc(), &link, wanted)?)
}

/// At the end exactly it is over; a millisecond before it isn't, and the next call waits to the end; so does a call behind a
/// whole minute of two.
#[test]
fn a_worker_ends_by_the_clock(rt: HostRuntime) -> Result<(), Fail> {
    let alloc = rt.alloc();
    let at_end = [Told::Got(7000, 60_000, 60_000), Told::Sent(7000)];
    assert!(rt;
        alone(
            alloc,
            &[(60_000, 7000, PING), (60_000, 7001, PING)],
            9,
            1,
            &at_end
        )?
    );
    let before = [
        Told::Got(7000, 60_000, 59_999),
        Told::Sent(7000),
        Told::Quiet(60_000, 60_000),
    ];
    assert!(rt;
        alone(
            alloc,
            &[(59_999, 7000, PING), (60_001, 7001, PING)],
            9,
            1,
            &before
        )?
    );
    let two_minutes = [
        Told::Got(7000, 60_000, 10),
        Told::Sent(7000),
        Told::Quiet(60_010, 60_010),
        Told::Quiet(120_000, 120_000),
    ];
    assert!(rt; alone(alloc, &[(10, 7000, PING)], 9, 2, &two_minutes)?);
    Ok(())
}

/// As many receive calls end it, if they are made first; and they alone, if it has no end by time.
#[test]
fn a_worker_ends_by_its_receives(rt: HostRuntime) -> Result<(), Fail> {
    let alloc = rt.alloc();
    let pings: [(u64, u16, &[u8]); 2] = [(10, 7000, PING), (20, 7001, PING)];
    let one = [Told::Got(7000, 60_000, 10), Told::Sent(7000)];
    assert!(rt; alone(alloc, &pings, 1, 1, &one)?);
    let three = [
        Told::Quiet(60_000, 60_000),
        Told::Quiet(120_000, 120_000),
        Told::Quiet(180_000, 180_000),
    ];
    assert!(rt; alone(alloc, &[], 3, 0, &three)?);
    Ok(())
}

/// A batch goes on behind a datagram before the end, and ends with the first one at the end: the other one of that moment is
/// not received. As many receive calls end it, if they are made first.
#[test]
fn a_batch_ends_by_the_clock(rt: HostRuntime) -> Result<(), Fail> {
    let pings: [(u64, u16, &[u8]); 3] = [
        (59_999, 7000, PING),
        (60_000, 7001, PING),
        (60_000, 7002, PING),
    ];
    let cut = [
        Told::Got(7000, 60_000, 59_999),
        Told::Quiet(59_999, 59_999),
        Told::Sent(7000),
        Told::Got(7001, 60_000, 60_000),
        Told::Sent(7001),
    ];
    assert!(&rt; two(&rt, &pings, 9, 1, &cut)?);
    let one = [Told::Got(7000, 60_000, 59_999), Told::Sent(7000)];
    assert!(&rt; two(&rt, &pings, 1, 1, &one)?);
    Ok(())
}
