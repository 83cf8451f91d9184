//! Whole lookups over a scripted link, by `look_up` and by `look_up_alone`. The target is identifier 0.
ghost use Rattle.std.specs.Prelude.{◌≡◌, ◌≤◌, IfOk};
ghost use Rattle.std.specs.List.{All};
ghost use Rattle.kad_base.specs.Contacts.{IsUsable};
ghost use Rattle.contact_table.specs.TableStep.{contacts_of};
ghost use Rattle.lookup_run.specs.Lookup.{IsWithinLimits};

mod hostile;
mod items;
mod script;
mod sealed;
mod six;
mod together;

use bucket_tree::Gone;
use contact_table::{Table, TableCall, TableReply, holds_what_it_was_told};
use fake_net::ScriptLink;
use id_puzzles::{Sha1Check, Words};
use kad_base::{ClaimRule, Contact, Family, Id, NoMemory, Policy, Serial, is_usable};
use lookup_run::{AskKind, LookFault, LookSetting, Outcome, look_up_alone};
use script::peers_link;
use seal_tags::GroupSeal;
use std::alloc::Global;
use std::hash::RandomState;
use std::test::Fail;
use trial_kit::{Reply, at_in, contact, link, local, port};

const OWN: Id = Id([255; 20]);

/// A lookup of identifier 0 on this many paths, with k 8 and alpha 3.
fn setting(own: Id, paths: u8, kind: AskKind) -> LookSetting
    requires some { 1 ≤ paths }
    requires few { paths ≤ 8 }
    ensures limits { IsWithinLimits result }
    ensures own { result.own ≡ own }
{
    LookSetting {
        own,
        target: Id([0; 20]),
        k: 8,
        paths,
        alpha: 3,
        policy: Policy::Plain,
        timeout: 2000,
        kind,
        family: Family::Four,
        sealed: false,
        per_address: 0,
        claim: ClaimRule::Named,
    }
}

/// A table that was told these contacts of the network, each of which the node may ask.
fn table_in(alloc: Global, own: Id, family: Family, contacts: &[u8]) -> Result<Table, Fail>
    ensures { IfOk result (λ table. All (IsUsable own) (contacts_of table)) }
{
    let mut table = Table::new(alloc, own, 8, 1)?;
    for n in contacts {
        let contact = at_in(family, *n, port(*n));
        if !is_usable(&own, &contact) {
            return Err(Fail::new("not usable"));
        }
        let _reply = table.apply(0, TableCall::Seen { contact });
    }
    holds_what_it_was_told();
    Ok(table)
}

/// How a lookup of this setting ends over the link, from a table that was told these contacts of its network, and the table that
/// it leaves. A call of a lookup is dear to prove, so this function alone makes this one.
fn look_alone(
    alloc: Global,
    contacts: &[u8],
    look: &LookSetting,
    link: &mut ScriptLink,
    hasher: RandomState,
) -> Result<(Table, Result<Outcome, LookFault>), Fail>
    requires { IsWithinLimits look.now }
{
    let table = table_in(alloc, look.own, look.family, contacts)?;
    let mut words = Words::new(&[0; 32], 5);
    let seal = GroupSeal::new([0; 32]);
    Ok(look_up_alone(
        alloc, link, &mut words, table, look, &Sha1Check, &seal, hasher,
    ))
}

/// What a lookup from these contacts gives over the link, and the table that it leaves.
fn play(
    alloc: Global,
    own: Id,
    contacts: &[u8],
    paths: u8,
    kind: AskKind,
    link: &mut ScriptLink,
    hasher: RandomState,
) -> Result<(Table, Outcome), Fail>
    requires some { 1 ≤ paths }
    requires few { paths ≤ 8 }
{
    let look = setting(own, paths, kind);
    let (table, result) = look_alone(alloc, contacts, &look, link, hasher)?;
    match result {
        Ok(outcome) => Ok((table, outcome)),
        Err(_) => Err(Fail::new("it ended early")),
    }
}

/// Whether these contacts were found, by their numbers, and so many asked.
fn is_found(outcome: &Outcome, numbers: &[u8], asked: u32) -> bool {
    outcome.counts.asked == asked && are(outcome.found.as_slice(), numbers)
}

fn are(contacts: &[Contact], numbers: &[u8]) -> bool {
    if contacts.len() != numbers.len() {
        return false;
    }
    for (found, n) in contacts.iter().zip(numbers) {
        if *found != contact(*n) {
            return false;
        }
    }
    true
}

/// Whether the table drops contact n at its next failure.
fn drops(table: &mut Table, n: u8) -> bool {
    let gone = Gone::Removed;
    let contact = contact(n);
    table.apply(0, TableCall::Failed { contact }) == TableReply::Gone { gone }
}

/// Whether a trial of what a lookup from these contacts gives over the link holds. A function that owns an outcome is dear to
/// prove, so this one alone does.
fn gives<F: FnOnce(&mut Table, &Outcome) -> bool>(
    rt: &HostRuntime,
    contacts: &[u8],
    paths: u8,
    kind: AskKind,
    link: Result<ScriptLink, NoMemory>,
    trial: F,
) -> Result<bool, Fail>
    requires some { 1 ≤ paths }
    requires few { paths ≤ 8 }
    requires callable { F.IsAlwaysCallable trial }
{
    let hasher = RandomState::new(rt)?;
    let mut link = link?;
    let (mut table, outcome) = play(rt.alloc(), OWN, contacts, paths, kind, &mut link, hasher)?;
    Ok(trial(&mut table, &outcome))
}

fn finds_four(_table: &mut Table, outcome: &Outcome) -> bool {
    is_found(outcome, &[1, 2, 3, 4], 4)
}

#[test]
fn two_paths_find_what_each_learns(rt: HostRuntime) -> Result<(), Fail> {
    let replies = [
        Reply::naming(1, 10, 3),
        Reply::naming(2, 10, 4),
        Reply::of(3, 20),
        Reply::of(4, 20),
    ];
    let link = link(rt.alloc(), &replies);
    assert!(rt; gives(&rt, &[1, 2], 2, AskKind::FindNode, link, finds_four)?);
    Ok(())
}

/// A contact that fails twice leaves the table.
fn loses_the_silent(table: &mut Table, outcome: &Outcome) -> bool {
    are(outcome.found.as_slice(), &[1]) && drops(table, 2)
}

#[test]
fn the_table_is_told_who_is_silent(rt: HostRuntime) -> Result<(), Fail> {
    let link = link(rt.alloc(), &[Reply::of(1, 10)]);
    assert!(rt; gives(&rt, &[1, 2], 1, AskKind::FindNode, link, loses_the_silent)?);
    Ok(())
}

fn keeps_peers(_table: &mut Table, outcome: &Outcome) -> bool {
    let peers = [local(7000), local(7001), local(7002)];
    outcome.peers.as_slice() == peers.as_slice() && outcome.tokens.len() == 2
}

#[test]
fn peers_stand_once_and_tokens_with_their_contacts(rt: HostRuntime) -> Result<(), Fail> {
    let link = peers_link(rt.alloc());
    assert!(rt; gives(&rt, &[1, 2], 1, AskKind::GetPeers, link, keeps_peers)?);
    Ok(())
}
