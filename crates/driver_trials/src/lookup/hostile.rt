//! Lookups whose outside fails in one place after the other. What each finds was worked out by hand.
ghost use Rattle.std.specs.Prelude.{◌≤◌};

use crate::lookup::{OWN, are, look_alone, setting};
use fake_net::ScriptLink;
use kad_base::{Id, NoMemory};
use lookup_run::{AskKind, LookFault, Outcome};
use std::alloc::Global;
use std::hash::RandomState;
use std::test::Fail;
use trial_kit::{Reply, contact, failing_link, link, link_with};

/// The answer of contact 1 that names nobody, to the first query of the generator of 32 zero bytes.
const ANSWER_1: &[u8] =
    b"d1:rd2:id20:\0\0\0\0\0\0\0\0\0\0\0\0\0\0\0\0\0\0\0\x01e1:t4:\xa0\x8d\xed\x1a1:y1:re";

/// What a lookup found, by the numbers of the contacts, whom it asked and who failed.
#[derive(Clone, Copy)]
struct Found<'a> {
    numbers: &'a [u8],
    asked: u32,
    failed: u32,
}

fn is(outcome: &Outcome, found: &Found) -> bool {
    outcome.counts.asked == found.asked
        && outcome.counts.failed == found.failed
        && are(outcome.found.as_slice(), found.numbers)
}

/// How a lookup from these contacts ends over the link.
fn play_out(
    alloc: Global,
    own: Id,
    contacts: &[u8],
    paths: u8,
    link: &mut ScriptLink,
    hasher: RandomState,
) -> Result<Result<Outcome, LookFault>, Fail>
    requires some { 1 ≤ paths }
    requires few { paths ≤ 8 }
{
    let look = setting(own, paths, AskKind::FindNode);
    let (_table, ended) = look_alone(alloc, contacts, &look, link, hasher)?;
    Ok(ended)
}

/// It ends in this way. A function that owns a link or an outcome is dear to prove, so no test does.
fn ends(
    rt: &HostRuntime,
    contacts: &[u8],
    paths: u8,
    link: Result<ScriptLink, NoMemory>,
    wanted: &Result<Found, LookFault>,
) -> Result<(), Fail>
    requires some { 1 ≤ paths }
    requires few { paths ≤ 8 }
{
    let hasher = RandomState::new(rt)?;
    let mut link = link?;
    let ended = play_out(rt.alloc(), OWN, contacts, paths, &mut link, hasher)?;
    let fits = match (&ended, wanted) {
        (Ok(outcome), Ok(found)) => is(outcome, found),
        (Err(fault), Err(wanted)) => *fault == *wanted,
        _ => false,
    };
    if fits {
        Ok(())
    } else {
        Err(Fail::new("it ends otherwise"))
    }
}

#[test]
fn an_answer_cut_anywhere_loses_its_contact(rt: HostRuntime) -> Result<(), Fail> {
    let wanted = Ok(Found {
        numbers: &[],
        asked: 1,
        failed: 1,
    });
    for len in 0..ANSWER_1.len() {
        let link = link_with(rt.alloc(), &ANSWER_1[..len], 10, 1, &[]);
        ends(&rt, &[1], 1, link, &wanted)?;
    }
    Ok(())
}

/// What eight contacts find of which the second names the ninth, where the send of this number, from 0, is refused. The
/// ninth is asked in the place of another than the second, of whom alone it is learnt.
fn found_of_nine(refused: u8) -> Found<'static> {
    let (numbers, asked, failed): (&[u8], u32, u32) = match refused {
        0 => (&[2, 3, 4, 5, 6, 7, 8, 9], 9, 1),
        1 => (&[1, 3, 4, 5, 6, 7, 8], 8, 1),
        2 => (&[1, 2, 4, 5, 6, 7, 8, 9], 9, 1),
        3 => (&[1, 2, 3, 5, 6, 7, 8, 9], 9, 1),
        4 => (&[1, 2, 3, 4, 6, 7, 8, 9], 9, 1),
        5 => (&[1, 2, 3, 4, 5, 7, 8, 9], 9, 1),
        6 => (&[1, 2, 3, 4, 5, 6, 8, 9], 9, 1),
        7 => (&[1, 2, 3, 4, 5, 6, 7, 9], 9, 1),
        _ => (&[1, 2, 3, 4, 5, 6, 7, 8], 8, 0),
    };
    Found {
        numbers,
        asked,
        failed,
    }
}

#[test]
fn each_refused_send_loses_one_contact(rt: HostRuntime) -> Result<(), Fail> {
    let replies = [
        Reply::of(1, 10),
        Reply::naming(2, 10, 9),
        Reply::of(3, 10),
        Reply::of(4, 10),
        Reply::of(5, 10),
        Reply::of(6, 10),
        Reply::of(7, 10),
        Reply::of(8, 10),
        Reply::of(9, 10),
    ];
    let begin = [1, 2, 3, 4, 5, 6, 7, 8];
    for n in 0..=8 {
        let link = failing_link(rt.alloc(), &replies, &[u64::from(n)], &[]);
        ends(&rt, &begin, 1, link, &Ok(found_of_nine(n)))?;
    }
    Ok(())
}

const THREE: Found<'static> = Found {
    numbers: &[1, 2, 3],
    asked: 3,
    failed: 0,
};

/// Three receives bring three answers, and there is no fourth.
#[test]
fn each_failed_receive_is_a_link_fault(rt: HostRuntime) -> Result<(), Fail> {
    let replies = [
        Reply::naming(1, 10, 3),
        Reply::naming(2, 10, 3),
        Reply::of(3, 10),
    ];
    for n in 0..=3 {
        let wanted = if n < 3 {
            Err(LookFault::LinkFault)
        } else {
            Ok(THREE)
        };
        let link = failing_link(rt.alloc(), &replies, &[], &[n]);
        ends(&rt, &[1, 2], 2, link, &wanted)?;
    }
    Ok(())
}

/// Each answer comes three times, and once more while a fourth contact lets its time pass.
#[test]
fn answers_that_come_again_are_heard_once(rt: HostRuntime) -> Result<(), Fail> {
    let mut replies = Vec::new(rt.alloc());
    for at in [10, 10, 10, 1999] {
        replies.push(Reply::naming(1, at, 3))?;
        replies.push(Reply::naming(2, at, 3))?;
        replies.push(Reply::naming(3, at, 4))?;
    }
    let link = link(rt.alloc(), &replies);
    let wanted = Ok(Found {
        asked: 4,
        failed: 1,
        ..THREE
    });
    ends(&rt, &[1, 2], 2, link, &wanted)
}
