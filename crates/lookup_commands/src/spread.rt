//! Whom a command follows up whose words say `--spread yes`: the k closest contacts of each path of its lookup that were not
//! lost and that no other path asked. So the places that one path's liars fill are not those of another path (S/Kademlia,
//! section 4.4, has the disjoint paths; this use of them is the project's own). It sends nothing.
ghost use Rattle.std.specs.Prelude.{◌≡◌, ◌<◌, ◌++◌, ◌∷◌, [], ℕ, List, IfOk, OnOk, MatchOption};
ghost use Rattle.kad_base.specs.Contacts.{among, without};
ghost use Rattle.claim_book.specs.declared.types.Setting.{Setting};
ghost use Rattle.claim_book.specs.declared.types.Entry.{Entry};
ghost use Rattle.claim_book.specs.Journal.{ask_elsewhere, failed, fail_of, on_path, path as path_of_journal, path_of, theirs};
ghost use Rattle.claim_book.specs.Legal.{Legal};
ghost use Rattle.claim_book.specs.RunOut.{RunOut};
ghost use Rattle.lookup_commands.specs.Spread.{spread_over, IsSpread};

use claim_book::Entry;
use kad_base::{Contact, Contacts, Id, List, NoMemory, is_same};
use kad_distance::k_least;
use std::alloc::Global;

/// The k closest contacts of each path that were not lost and that no other path asked, path by path, each path's nearest
/// first.
pub fn spread_over(
    alloc: Global,
    target: &Id,
    k: u8,
    paths: u8,
    journal: &[Entry],
) -> Result<Contacts, NoMemory>
    ensures { IfOk result (λ found. found ≡ spread_over target.now k paths journal.now) }
{
    let lost = lost(alloc, journal)?;
    let mut found = List::new(alloc);
    for path in 0..paths {
        let mut gone = theirs(alloc, path, journal)?;
        gone.extend(lost.as_slice())?;
        let alive = alive_on(alloc, path, journal, gone.as_slice())?;
        let closest = k_least(alloc, target, k, alive.as_slice())?;
        found.extend(closest.as_slice())?;
    }
    Ok(found)
}

/// The contacts that were lost.
fn lost(alloc: Global, journal: &[Entry]) -> Result<Contacts, NoMemory>
    ensures { IfOk result (λ lost. lost ≡ failed journal.now) }
{
    let mut lost = List::new(alloc);
    for entry in journal {
        add_lost(&mut lost, entry)?;
    }
    Ok(lost)
}

/// Appends the contact that the entry loses, if it loses one.
fn add_lost(lost: &mut Contacts, entry: &Entry) -> Result<(), NoMemory>
    ensures { OnOk result (lost.new ≡ lost.old ++ fail_of entry.now) }
{
    match *entry {
        Entry::Lost { contact, .. } => lost.push(contact),
        _ => Ok(()),
    }
}

/// The contacts that other paths asked.
fn theirs(alloc: Global, path: u8, journal: &[Entry]) -> Result<Contacts, NoMemory>
    ensures { IfOk result (λ asked. asked ≡ theirs path journal.now) }
{
    let mut asked = List::new(alloc);
    for entry in journal {
        add_theirs(&mut asked, path, entry)?;
    }
    Ok(asked)
}

/// Appends the contact that the entry asks, if another path asks it.
fn add_theirs(asked: &mut Contacts, path: u8, entry: &Entry) -> Result<(), NoMemory>
    ensures { OnOk result (asked.new ≡ asked.old ++ ask_elsewhere path entry.now) }
{
    match *entry {
        Entry::Ask { path: by, contact } if by != path => asked.push(contact),
        _ => Ok(()),
    }
}

/// The contacts that the path began with or took, without those that are gone.
fn alive_on(
    alloc: Global,
    path: u8,
    journal: &[Entry],
    gone: &[Contact],
) -> Result<Contacts, NoMemory>
    ensures { IfOk result (λ alive. alive ≡ without (path_of_journal path journal.now) gone.now) }
{
    let mut alive = List::new(alloc);
    for entry in journal {
        add_alive(&mut alive, path, entry, gone)?;
    }
    Ok(alive)
}

/// Appends the contact that the entry gives the path, if it gives one that is not gone.
fn add_alive(
    alive: &mut Contacts,
    path: u8,
    entry: &Entry,
    gone: &[Contact],
) -> Result<(), NoMemory>
    ensures { OnOk result (alive.new ≡ alive.old ++ without (path_of path entry.now) gone.now) }
{
    let Some(contact) = given_to(path, entry) else {
        return Ok(());
    };
    if is_among(gone, &contact) {
        return Ok(());
    }
    alive.push(contact)
}

/// The contact that the entry gives the path.
fn given_to(path: u8, entry: &Entry) -> Option<Contact>
    ensures { MatchOption result (path_of path entry.now ≡ [])
        (λ contact. path_of path entry.now ≡ contact ∷ []) }
{
    match *entry {
        Entry::Seed { path: by, contact } => on_path(path, by, contact),
        Entry::Taken { path: by, contact } => on_path(path, by, contact),
        _ => None,
    }
}

/// The contact, if the path that has it is this one.
fn on_path(path: u8, by: u8, contact: Contact) -> Option<Contact>
    ensures { MatchOption result (on_path path by (contact ∷ []) ≡ [])
        (λ own. on_path path by (contact ∷ []) ≡ own ∷ []) }
{
    if by == path { Some(contact) } else { None }
}

/// Whether the list has the contact.
fn is_among(list: &[Contact], contact: &Contact) -> bool
    ensures { result ≡ among list.now contact.now }
{
    for other in list {
        if is_same(contact, other) {
            return true;
        }
    }
    false
}

/// Of every legal journal in which all paths have run out: what it is to be spread over them.
pub fn is_spread()
    ensures { (s : Setting) (J : List Entry) → Legal s J
        → ((p : ℕ) → p < s.paths → RunOut s p J) → IsSpread s J }
{}
