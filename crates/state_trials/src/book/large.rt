//! Long lookups: `numbered(n)` has the identifier of 18 zero bytes and n, the high byte first, at 127.0.0.1, port 6000.
ghost use Rattle.std.specs.Prelude.{◌<◌};

use super::compare::{all_usable, seeds};
use claim_book::{Book, BookCall, BookReply, Checked, Counts, Setting};
use id_puzzles::Sha1Check;
use kad_base::{Addr, ClaimRule, Contact, Id, Ip, List, NoMemory, Policy, Report, Serial};
use std::alloc::Global;
use std::hash::RandomState;
use std::process::Abort;
use std::random::RandomSource;
use std::test::Fail;

fn numbered(n: u16) -> Contact {
    let mut id = [0u8; 20];
    id[18] = (n / 256) as u8;
    id[19] = (n % 256) as u8;
    Contact {
        id: Id(id),
        addr: Addr {
            ip: Ip::V4([127, 0, 0, 1]),
            port: 6000,
        },
    }
}

fn reported(n: u16) -> Report {
    Report {
        contact: numbered(n),
        proof: None,
    }
}

/// A book of these seeds, of which each path is to find k.
fn begun<R: Abort + AllocGlobal + RandomSource>(
    rt: &R,
    k: u8,
    paths: u8,
    contacts: &[Contact],
) -> Result<Book, Fail>
    requires { 0 < paths }
{
    let setting = Setting {
        own: Id([0xff; 20]),
        target: Id([0; 20]),
        k,
        paths,
        alpha: 1,
        policy: Policy::Plain,
        per_address: 0,
        claim: ClaimRule::Named,
    };
    let seeds = seeds(rt.alloc(), &setting, contacts)?;
    assert!(rt; all_usable(&setting.own, seeds.as_slice()));
    Ok(Book::new(rt.alloc(), setting, seeds.as_slice(), RandomState::new(rt)?)?)
}

fn hears(
    alloc: Global,
    book: &mut Book,
    contact: Contact,
    named: &[Report; 16],
) -> Result<bool, NoMemory> {
    let reports = List::from_slice(alloc, named)?;
    Ok(book.apply(0, BookCall::Heard { contact, reports }) == BookReply::Kept)
}

fn notes(book: &mut Book, role: u8, contact: Contact) -> bool
    requires { 0 < role }
{
    book.apply(role, BookCall::Note { contact }) == BookReply::Kept
}

fn pulls(book: &mut Book, role: u8) -> BookReply
    requires { 0 < role }
{
    book.apply(role, BookCall::Pull)
}

fn settles(book: &mut Book, role: u8, report: Report) -> BookReply
    requires { 0 < role }
{
    let checked = Checked::of(&Sha1Check, Policy::Plain, report);
    book.apply(role, BookCall::Settle { checked })
}

/// The path settles these, each of which stands first in its turn; how many it takes, and how many it turns away.
fn settle_all(book: &mut Book, role: u8, named: &[Report; 16]) -> (u32, u32)
    requires { 0 < role }
{
    let mut all = (0u32, 0u32);
    for report in named {
        match settles(book, role, *report) {
            BookReply::Taken => all.0 = all.0.wrapping_add(1),
            BookReply::Turned => all.1 = all.1.wrapping_add(1),
            _ => {}
        }
    }
    all
}

/// The contact names these 16, and its path notes and settles all of it.
fn answered(
    rt: &impl Abort,
    alloc: Global,
    book: &mut Book,
    role: u8,
    contact: Contact,
    named: &[Report; 16],
) -> Result<(u32, u32), NoMemory>
    requires { 0 < role }
{
    let kept = hears(alloc, book, contact, named)?;
    let noted = notes(book, role, contact);
    assert!(rt; kept && noted);
    let all = settle_all(book, role, named);
    assert_eq!(rt; pulls(book, role), BookReply::Idle);
    Ok(all)
}

/// What the path asks next, if anything.
fn next(book: &mut Book, path: u8) -> Option<Contact> {
    match book.apply(0, BookCall::Next { path }) {
        BookReply::Ask { contact } => Some(contact),
        _ => None,
    }
}

/// Each contact from 200 down to 1 names the one below it 16 times.
fn chain(rt: &impl Abort, alloc: Global, book: &mut Book) -> Result<(), NoMemory> {
    for step in 0..200u16 {
        let n = 200 - step;
        assert_eq!(rt; next(book, 0), Some(numbered(n)));
        let below = if n > 1 { n - 1 } else { 2 };
        answered(rt, alloc, book, 1, numbered(n), &[reported(below); 16])?;
    }
    Ok(())
}

fn has_run_out(book: &mut Book) -> bool {
    book.apply(0, BookCall::Next { path: 0 }) == BookReply::RunOut
}

/// How many of so many further calls say that the path has run out.
fn count_run_out(book: &mut Book, calls: u32) -> u32 {
    let mut said = 0u32;
    for _ in 0..calls {
        if has_run_out(book) {
            said = said.wrapping_add(1);
        }
    }
    said
}

#[test]
fn asking_a_long_lookup_again_is_quick(rt: HostRuntime) -> Result<(), Fail> {
    let mut book = begun(&rt, 20, 1, &[numbered(200)])?;
    chain(&rt, rt.alloc(), &mut book)?;
    assert_eq!(rt; count_run_out(&mut book, 10000000), 10000000);
    assert_eq!(rt; book.into_journal().len(), 3801);
    Ok(())
}

/// 16 contacts from this one on.
fn sixteen(from: u16) -> [Report; 16] {
    let mut named = [reported(0); 16];
    let mut n = from;
    for slot in named.iter_mut() {
        *slot = reported(n);
        n = n.wrapping_add(1);
    }
    named
}

/// Each path asks once, where it can, and each answer names 16 contacts that no other names.
fn round(
    rt: &impl Abort,
    alloc: Global,
    book: &mut Book,
    from: u16,
) -> Result<(u16, u32, u32), NoMemory> {
    let mut all = (from, 0u32, 0u32);
    for path in 0..8u8 {
        if let Some(contact) = next(book, path) {
            let (taken, turned) = answered(rt, alloc, book, path + 1, contact, &sixteen(all.0))?;
            all = (
                all.0.wrapping_add(16),
                all.1.wrapping_add(taken),
                all.2.wrapping_add(turned),
            );
        }
    }
    Ok(all)
}

/// 20 rounds: the number after the last contact that was named, how many reports were taken, and how many turned away.
fn rounds(rt: &impl Abort, alloc: Global, book: &mut Book) -> Result<(u16, u32, u32), NoMemory> {
    let mut all = (8u16, 0u32, 0u32);
    for _ in 0..20u8 {
        let (from, taken, turned) = round(rt, alloc, book, all.0)?;
        all = (from, all.1.wrapping_add(taken), all.2.wrapping_add(turned));
    }
    Ok(all)
}

/// Whether these are the first 20 contacts.
fn are_first(contacts: &[Contact]) -> bool {
    contacts.len() == 20
        && contacts
            .iter()
            .zip(0..20u16)
            .all(|(one, n)| *one == numbered(n))
}

/// Whether the lookup is over, found the first 20 contacts, and counted so.
fn ends(book: &mut Book, wanted: &Counts) -> bool {
    let reply = book.apply(0, BookCall::Finish);
    match &reply {
        BookReply::Found { found, counts } => *counts == *wanted && are_first(found.as_slice()),
        _ => false,
    }
}

const COUNTS: Counts = Counts {
    asked: 160,
    failed: 0,
    turned: 520,
};

/// 8 paths begin with one contact each, and each answer names contacts farther than all before: a path asks the 20
/// closest of its own, takes 255 of the 320 that they name, and turns 65 away.
#[test]
fn eight_paths_fill_up(rt: HostRuntime) -> Result<(), Fail> {
    let mut seeds = [numbered(0); 8];
    for n in 0..8u16 {
        seeds[n as usize] = numbered(n);
    }
    let mut book = begun(&rt, 20, 8, &seeds)?;
    assert_eq!(rt; rounds(&rt, rt.alloc(), &mut book)?, (2568, 2040, 520));
    assert!(rt; ends(&mut book, &COUNTS));
    Ok(())
}
