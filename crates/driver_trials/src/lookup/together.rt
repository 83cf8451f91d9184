//! Whole lookups whose paths settle at once.
ghost use Rattle.std.specs.Prelude.{◌≤◌};
ghost use Rattle.lookup_run.specs.Lookup.{IsWithinLimits};

use super::{OWN, drops, is_found, look_alone, setting, table_in};
use contact_table::Table;
use fake_net::ScriptLink;
use id_puzzles::{Sha1Check, Words};
use kad_base::NoMemory;
use lookup_run::{AskKind, LookFault, LookSetting, Outcome, look_up};
use path_worker::PacedCheck;
use seal_tags::GroupSeal;
use std::alloc::Global;
use std::hash::RandomState;
use std::random::RandomSource;
use std::sync::Wait;
use std::test::Fail;
use std::thread::Threads;
use trial_kit::{Meeting, Reply, failing_link, link};

/// How a lookup of this setting whose paths settle at once ends over the link, from a table that was told these contacts of its
/// network, and the table that it leaves. A call of a lookup is dear to prove, so this function alone makes this one.
pub(crate) fn look_together<R: Threads + Wait + Sync, C: PacedCheck + Sync>(
    rt: &R,
    alloc: Global,
    contacts: &[u8],
    look: &LookSetting,
    link: &mut ScriptLink,
    check: &C,
    hasher: RandomState,
) -> Result<(Table, Result<Outcome, LookFault>), Fail>
    requires { IsWithinLimits look.now }
{
    let table = table_in(alloc, look.own, look.family, contacts)?;
    let mut words = Words::new(&[0; 32], 5);
    let seal = GroupSeal::new([0; 32]);
    Ok(look_up(
        rt, alloc, link, &mut words, table, look, check, &seal, hasher,
    ))
}

/// What a lookup from these contacts gives over the link, and the table that it leaves.
fn play<R: Threads + Wait + Sync, C: PacedCheck + Sync>(
    rt: &R,
    alloc: Global,
    contacts: &[u8],
    paths: u8,
    link: &mut ScriptLink,
    check: &C,
    hasher: RandomState,
) -> Result<(Table, Result<Outcome, LookFault>), Fail>
    requires some { 1 ≤ paths }
    requires few { paths ≤ 8 }
{
    let look = setting(OWN, paths, AskKind::FindNode);
    look_together(rt, alloc, contacts, &look, link, check, hasher)
}

/// Contacts 1 and 2 answer at moment 10, and name these.
fn two_answers(alloc: Global, first: u8, second: u8) -> Result<ScriptLink, NoMemory> {
    let replies = [
        Reply::naming(1, 10, first),
        Reply::naming(2, 10, second),
        Reply::of(3, 20),
        Reply::of(4, 20),
    ];
    link(alloc, &replies)
}

/// Whether a trial of what such a lookup gives holds, however it ended. A function that owns an outcome is dear to prove, so
/// this one and the next alone do.
fn gives<
    R: AllocGlobal + RandomSource + Threads + Wait + Sync,
    C: PacedCheck + Sync,
    F: FnOnce(&mut Table, &Result<Outcome, LookFault>) -> bool,
>(
    rt: &R,
    contacts: &[u8],
    paths: u8,
    link: Result<ScriptLink, NoMemory>,
    check: &C,
    trial: F,
) -> Result<bool, Fail>
    requires some { 1 ≤ paths }
    requires few { paths ≤ 8 }
    requires callable { F.IsAlwaysCallable trial }
{
    let hasher = RandomState::new(rt)?;
    let mut link = link?;
    let (mut table, ended) = play(rt, rt.alloc(), contacts, paths, &mut link, check, hasher)?;
    Ok(trial(&mut table, &ended))
}

/// Whether these contacts were found, and so many asked.
fn finds(ended: &Result<Outcome, LookFault>, numbers: &[u8], asked: u32) -> bool {
    match ended {
        Ok(outcome) => is_found(outcome, numbers, asked),
        Err(_) => false,
    }
}

fn finds_four(_table: &mut Table, ended: &Result<Outcome, LookFault>) -> bool {
    finds(ended, &[1, 2, 3, 4], 4)
}

/// Two paths whose answers come at one moment settle them at once: each check meets the other.
#[test]
fn two_checks_run_at_once(rt: HostRuntime) -> Result<(), Fail> {
    let meeting = Meeting::new(3, 2);
    let link = two_answers(rt.alloc(), 3, 4);
    assert!(rt; gives(&rt, &[1, 2], 2, link, &meeting, finds_four)?);
    assert!(rt; meeting.is_met());
    Ok(())
}

fn ends_in_any_way(_table: &mut Table, _ended: &Result<Outcome, LookFault>) -> bool {
    true
}

/// Whether the checks of these contacts, as many as `count` from `first` on, meet in a lookup on
/// eight paths, which contacts 1 to 8 begin.
fn meet_on_eight_paths<R: AllocGlobal + RandomSource + Threads + Wait + Sync>(
    rt: &R,
    replies: &[Reply],
    first: u8,
    count: u8,
) -> Result<bool, Fail> {
    let meeting = Meeting::new(first, count);
    let contacts = [1, 2, 3, 4, 5, 6, 7, 8];
    let link = link(rt.alloc(), replies);
    Ok(gives(rt, &contacts, 8, link, &meeting, ends_in_any_way)? && meeting.is_met())
}

/// All eight answer at one moment, and each names another contact.
#[test]
fn eight_checks_run_at_once(rt: HostRuntime) -> Result<(), Fail> {
    let replies = [
        Reply::naming(1, 10, 11),
        Reply::naming(2, 10, 12),
        Reply::naming(3, 10, 13),
        Reply::naming(4, 10, 14),
        Reply::naming(5, 10, 15),
        Reply::naming(6, 10, 16),
        Reply::naming(7, 10, 17),
        Reply::naming(8, 10, 18),
    ];
    assert!(rt; meet_on_eight_paths(&rt, &replies, 11, 8)?);
    Ok(())
}

/// Contacts 3 and 4, of paths 2 and 3, answer at one moment, before all others.
#[test]
fn the_checks_of_paths_2_and_3_run_at_once(rt: HostRuntime) -> Result<(), Fail> {
    let replies = [
        Reply::naming(3, 10, 13),
        Reply::naming(4, 10, 14),
        Reply::of(1, 20),
        Reply::of(2, 20),
    ];
    assert!(rt; meet_on_eight_paths(&rt, &replies, 13, 2)?);
    Ok(())
}

fn finds_three(_table: &mut Table, ended: &Result<Outcome, LookFault>) -> bool {
    finds(ended, &[1, 2, 3], 3)
}

/// Both paths learn contact 3, which is asked once, whichever worker was first.
#[test]
fn one_of_two_paths_takes_what_both_learn(rt: HostRuntime) -> Result<(), Fail> {
    let link = two_answers(rt.alloc(), 3, 3);
    assert!(rt; gives(&rt, &[1, 2], 2, link, &Sha1Check, finds_three)?);
    Ok(())
}

/// How such a lookup ends path by path.
fn play_alone(alloc: Global, hasher: RandomState) -> Result<Result<Outcome, LookFault>, Fail> {
    let mut link = two_answers(alloc, 3, 3)?;
    let look = setting(OWN, 2, AskKind::FindNode);
    let (_table, ended) = look_alone(alloc, &[1, 2], &look, &mut link, hasher)?;
    Ok(ended)
}

/// The same, path by path.
#[test]
fn one_of_two_paths_takes_it_alone(rt: HostRuntime) -> Result<(), Fail> {
    let hasher = RandomState::new(&rt)?;
    let ended = play_alone(rt.alloc(), hasher)?;
    assert!(rt; finds(&ended, &[1, 2, 3], 3));
    Ok(())
}

fn finds_seven(table: &mut Table, ended: &Result<Outcome, LookFault>) -> bool {
    match ended {
        Ok(outcome) => { outcome.found.len() == 7 && outcome.counts.asked == 8 && drops(table, 8) }
        Err(_) => false,
    }
}

/// Eight paths with a contact each, of which the last is silent and leaves the table at its second
/// failure.
#[test]
fn eight_paths_settle_at_once(rt: HostRuntime) -> Result<(), Fail> {
    let replies = [
        Reply::of(1, 10),
        Reply::of(2, 10),
        Reply::of(3, 10),
        Reply::of(4, 10),
        Reply::of(5, 10),
        Reply::of(6, 10),
        Reply::of(7, 10),
    ];
    let link = link(rt.alloc(), &replies);
    let contacts = [1, 2, 3, 4, 5, 6, 7, 8];
    assert!(rt; gives(&rt, &contacts, 8, link, &Sha1Check, finds_seven)?);
    Ok(())
}

fn is_link_fault(_table: &mut Table, ended: &Result<Outcome, LookFault>) -> bool {
    matches!(ended, Err(LookFault::LinkFault))
}

/// A receive that fails after a round that settled at once.
#[test]
fn a_failing_receive_ends_it(rt: HostRuntime) -> Result<(), Fail> {
    let replies = [Reply::naming(1, 10, 3), Reply::naming(2, 10, 4)];
    let link = failing_link(rt.alloc(), &replies, &[], &[2]);
    assert!(rt; gives(&rt, &[1, 2], 2, link, &Sha1Check, is_link_fault)?);
    Ok(())
}
