//! The book of claims worked by hand, with random calls beside a plain book, and at its limits.
ghost use Rattle.std.specs.Prelude.{◌≢◌, ◌<◌, ℕ, IfOk};
ghost use Rattle.claim_book.specs.Calls.{BookMay};

mod claims;
mod compare;
mod hosts;
mod large;
mod merging;
mod plain_book;
mod queries;
mod shortlists;

use claim_book::*;
use kad_base::{Check, ClaimRule, Contact, Id, List, NoMemory, Policy, Report, Serial, is_usable};
use kad_distance::closer;
use std::alloc::Global;
use std::hash::RandomState;
use std::process::Abort;
use std::random::RandomSource;
use std::test::Fail;
use trial_kit::contact;

/// Believes each report under the plain policy, and knows no puzzle.
#[derive(Drop)]
struct Trusting<'a, R: Abort> {
    rt: &'a R,
}

impl<R: Abort> Check for Trusting<'_, R> {
    fn check(&self, policy: Policy, _report: &Report) -> bool {
        match policy {
            Policy::Plain => true,
            Policy::Puzzled { .. } => panic!(self.rt; "a puzzle"),
        }
    }
}

fn report(n: u8) -> Report {
    Report {
        contact: contact(n),
        proof: None,
    }
}

/// The answer of the n-th contact, which names these others: four, or fewer.
fn answer(alloc: Global, n: u8, named: &[u8]) -> Result<BookCall, NoMemory>
    ensures { IfOk result (λ call. BookMay 0 call) }
{
    let mut told = [report(0); 4];
    for (slot, other) in told.iter_mut().zip(named) {
        *slot = report(*other);
    }
    let count = named.len().min(4);
    let reports = List::from_slice(alloc, &told[..count])?;
    Ok(BookCall::Heard {
        contact: contact(n),
        reports,
    })
}

/// A call on the book. Contacts go by their numbers.
#[derive(Clone, Copy)]
enum Step {
    /// What to ask on a path.
    Next(u8),
    /// A contact answers, and names these others.
    Heard(u8, &'static [u8]),
    /// A contact lets its time pass.
    TimedOut(u8),
    Finish,
    /// The first thing to settle on a path.
    Pull(u8),
    /// On a path a contact is noted.
    Note(u8, u8),
    /// On a path a contact's report is settled.
    Settle(u8, u8),
}

/// A reply of the book, with the number of the contact that it names.
#[derive(Clone, Copy, Debug, PartialEq, Eq)]
enum Told {
    Ask(u8),
    RunOut,
    Later,
    Kept,
    NotOpen,
    Found,
    NotYet(u8),
    Alive(u8),
    Report(u8),
    Idle,
    NotFront,
    Taken,
    Held(u8),
    Turned,
    Rejected,
    Skipped,
    NoMemory,
}

/// The number of a contact, or 255 where it is none of those that have one.
fn number_of(one: &Contact) -> u8 {
    let n = one.id.0[19];
    if *one == contact(n) { n } else { u8::MAX }
}

/// The number of the contact of a report without proof, else 255.
fn reported(one: &Report) -> u8 {
    match one.proof {
        None => number_of(&one.contact),
        Some(_) => u8::MAX,
    }
}

fn told_of(reply: &BookReply) -> Told {
    match reply {
        BookReply::Ask { contact } => Told::Ask(number_of(contact)),
        BookReply::RunOut => Told::RunOut,
        BookReply::Later => Told::Later,
        BookReply::Kept => Told::Kept,
        BookReply::NotOpen => Told::NotOpen,
        BookReply::Found { .. } => Told::Found,
        BookReply::NotYet { path } => Told::NotYet(*path),
        BookReply::Alive { contact } => Told::Alive(number_of(contact)),
        BookReply::Report { report } => Told::Report(reported(report)),
        BookReply::Idle => Told::Idle,
        BookReply::NotFront => Told::NotFront,
        BookReply::Taken => Told::Taken,
        BookReply::Held { path } => Told::Held(*path),
        BookReply::Turned => Told::Turned,
        BookReply::Rejected => Told::Rejected,
        BookReply::Skipped => Told::Skipped,
        BookReply::NoMemory => Told::NoMemory,
    }
}

/// The number of the first that is false, from 0.
fn first_false(held: &[bool]) -> Option<usize> {
    held.iter().position(|is| !*is)
}

/// The role that settles on a path.
fn worker(path: u8) -> u8
    ensures { result ≢ 0 }
{
    path.saturating_add(1)
}

fn settle(rt: &impl Abort, n: u8) -> BookCall
    ensures { (role : ℕ) → role ≢ 0 → BookMay role result }
{
    let check = Trusting { rt };
    BookCall::Settle {
        checked: Checked::of(&check, Policy::Plain, report(n)),
    }
}

/// Makes a call, in its role.
fn make(
    rt: &impl Abort,
    alloc: Global,
    book: &mut Book,
    step: Step,
) -> Result<BookReply, NoMemory> {
    let cause = Cause::Timeout;
    let reply = match step {
        Step::Next(path) => book.apply(0, BookCall::Next { path }),
        Step::Heard(n, named) => book.apply(0, answer(alloc, n, named)?),
        Step::TimedOut(n) => book.apply(
            0,
            BookCall::Lost {
                contact: contact(n),
                cause,
            },
        ),
        Step::Finish => book.apply(0, BookCall::Finish),
        Step::Pull(path) => book.apply(worker(path), BookCall::Pull),
        Step::Note(path, n) => book.apply(
            worker(path),
            BookCall::Note {
                contact: contact(n),
            },
        ),
        Step::Settle(path, n) => book.apply(worker(path), settle(rt, n)),
    };
    Ok(reply)
}

/// Makes the calls in order, of which each is to be replied to so.
fn play(
    rt: &impl Abort,
    alloc: Global,
    book: &mut Book,
    rows: &[(Step, Told)],
) -> Result<(), NoMemory> {
    for (step, told) in rows {
        let reply = make(rt, alloc, book, *step)?;
        assert_eq!(rt; told_of(&reply), *told);
    }
    Ok(())
}

/// What a lookup that is over found, by the contacts' numbers.
#[derive(Clone, Copy)]
struct End {
    found: &'static [u8],
    counts: Counts,
}

/// Whether these are the contacts, in order.
fn are(contacts: &[Contact], numbers: &[u8]) -> bool {
    contacts.len() == numbers.len()
        && contacts
            .iter()
            .zip(numbers)
            .all(|(one, n)| *one == contact(*n))
}

/// Whether the lookup is over and found this, if an end is given.
fn ends(book: &mut Book, end: Option<&End>) -> bool {
    let Some(end) = end else {
        return true;
    };
    let reply = book.apply(0, BookCall::Finish);
    match &reply {
        BookReply::Found { found, counts } => {
            *counts == end.counts && are(found.as_slice(), end.found)
        }
        _ => false,
    }
}

/// A book with the first two contacts as its seeds.
#[tactic(auto, using(claim_book::proofs::Closest::sorted_two))]
fn seeded(rt: &impl Abort, alloc: Global, hasher: RandomState, paths: u8) -> Result<Book, Fail>
    requires { 0 < paths }
{
    let setting = Setting {
        own: Id([0xff; 20]),
        target: Id([0; 20]),
        k: 8,
        paths,
        alpha: 1,
        policy: Policy::Plain,
        per_address: 0,
        claim: ClaimRule::Named,
    };
    let first = contact(1);
    let second = contact(2);
    assert!(rt; closer(&setting.target, &first, &second));
    assert!(rt; is_usable(&setting.own, &first));
    assert!(rt; is_usable(&setting.own, &second));
    Ok(Book::new(alloc, setting, &[first, second], hasher)?)
}

/// A lookup with two seeds on so many paths: the calls and how each is replied to, what it found if it is over by then, and
/// how many entries its journal has.
fn plays<R: Abort + AllocGlobal + RandomSource>(
    rt: &R,
    paths: u8,
    rows: &[(Step, Told)],
    end: Option<&End>,
    entries: usize,
) -> Result<(), Fail>
    requires { 0 < paths }
{
    let mut book = seeded(rt, rt.alloc(), RandomState::new(rt)?, paths)?;
    play(rt, rt.alloc(), &mut book, rows)?;
    assert!(rt; ends(&mut book, end));
    assert_eq!(rt; book.into_journal().len(), entries);
    Ok(())
}

const OPEN: &[(Step, Told)] = &[
    (Step::Next(0), Told::Ask(1)),
    (Step::Next(0), Told::Later),
    (Step::Next(5), Told::RunOut),
    (Step::Finish, Told::NotYet(0)),
    (Step::Heard(3, &[]), Told::NotOpen),
    (Step::Heard(1, &[3]), Told::Kept),
    (Step::Heard(1, &[3]), Told::NotOpen),
];

#[test]
fn a_query_is_open_until_it_is_heard(rt: HostRuntime) -> Result<(), Fail> {
    plays(&rt, 1, OPEN, None, 4)
}

const IN_ORDER: &[(Step, Told)] = &[
    (Step::Next(0), Told::Ask(1)),
    (Step::Heard(1, &[3]), Told::Kept),
    (Step::Pull(0), Told::Alive(1)),
    (Step::Settle(0, 3), Told::NotFront),
    (Step::Note(0, 1), Told::Kept),
    (Step::Pull(0), Told::Report(3)),
    (Step::Settle(0, 3), Told::Taken),
    (Step::Pull(0), Told::Idle),
    (Step::Note(0, 1), Told::NotFront),
    (Step::Next(0), Told::Ask(2)),
];

#[test]
fn an_answer_is_settled_in_order(rt: HostRuntime) -> Result<(), Fail> {
    plays(&rt, 1, IN_ORDER, None, 7)
}

const ANSWERED: &[(Step, Told)] = &[
    (Step::Next(0), Told::Ask(1)),
    (Step::Heard(1, &[3]), Told::Kept),
    (Step::Note(0, 1), Told::Kept),
    (Step::Settle(0, 3), Told::Taken),
    (Step::Next(0), Told::Ask(2)),
    (Step::TimedOut(2), Told::Kept),
    (Step::Next(0), Told::Ask(3)),
    (Step::Heard(3, &[1]), Told::Kept),
    (Step::Note(0, 3), Told::Kept),
    (Step::Settle(0, 1), Told::Held(0)),
    (Step::Next(0), Told::RunOut),
];

const FOUND: End = End {
    found: &[1, 3],
    counts: Counts {
        asked: 3,
        failed: 1,
        turned: 0,
    },
};

#[test]
fn a_lookup_finds_those_that_answered(rt: HostRuntime) -> Result<(), Fail> {
    plays(&rt, 1, ANSWERED, Some(&FOUND), 12)
}

const OWN_SEEDS: &[(Step, Told)] = &[
    (Step::Next(0), Told::Ask(1)),
    (Step::Next(0), Told::Later),
    (Step::Next(1), Told::Ask(2)),
    (Step::Next(5), Told::RunOut),
    (Step::Finish, Told::NotYet(0)),
    (Step::Heard(3, &[]), Told::NotOpen),
    (Step::Heard(1, &[3]), Told::Kept),
    (Step::Heard(1, &[3]), Told::NotOpen),
];

#[test]
fn each_path_asks_its_own_seed(rt: HostRuntime) -> Result<(), Fail> {
    plays(&rt, 2, OWN_SEEDS, None, 5)
}

const OWN_ANSWERS: &[(Step, Told)] = &[
    (Step::Next(0), Told::Ask(1)),
    (Step::Heard(1, &[3]), Told::Kept),
    (Step::Pull(1), Told::Idle),
    (Step::Pull(0), Told::Alive(1)),
    (Step::Settle(0, 3), Told::NotFront),
    (Step::Note(0, 1), Told::Kept),
    (Step::Pull(0), Told::Report(3)),
    (Step::Settle(0, 3), Told::Taken),
];

#[test]
fn a_path_settles_what_its_own_query_gave(rt: HostRuntime) -> Result<(), Fail> {
    plays(&rt, 2, OWN_ANSWERS, None, 6)
}

const TOOK: &[(Step, Told)] = &[
    (Step::Next(0), Told::Ask(1)),
    (Step::Heard(1, &[3]), Told::Kept),
    (Step::Note(0, 1), Told::Kept),
    (Step::Settle(0, 3), Told::Taken),
    (Step::Pull(0), Told::Idle),
    (Step::Next(0), Told::Ask(3)),
    (Step::Note(0, 1), Told::NotFront),
];

#[test]
fn a_path_asks_what_it_took(rt: HostRuntime) -> Result<(), Fail> {
    plays(&rt, 2, TOOK, None, 7)
}

const ONE_PATH: &[(Step, Told)] = &[
    (Step::Next(0), Told::Ask(1)),
    (Step::Heard(1, &[3]), Told::Kept),
    (Step::Note(0, 1), Told::Kept),
    (Step::Settle(0, 3), Told::Taken),
    (Step::Next(1), Told::Ask(2)),
    (Step::Heard(2, &[3]), Told::Kept),
    (Step::Note(1, 2), Told::Kept),
    (Step::Settle(1, 3), Told::Held(0)),
];

#[test]
fn a_contact_is_on_one_path(rt: HostRuntime) -> Result<(), Fail> {
    plays(&rt, 2, ONE_PATH, None, 10)
}

const LAST_PATH: &[(Step, Told)] = &[
    (Step::Next(0), Told::Ask(1)),
    (Step::Next(1), Told::Ask(2)),
    (Step::Heard(1, &[]), Told::Kept),
    (Step::Note(0, 1), Told::Kept),
    (Step::Finish, Told::NotYet(1)),
    (Step::TimedOut(2), Told::Kept),
];

const FOUND_ONE: End = End {
    found: &[1],
    counts: Counts {
        asked: 2,
        failed: 1,
        turned: 0,
    },
};

#[test]
fn a_lookup_ends_with_its_last_path(rt: HostRuntime) -> Result<(), Fail> {
    plays(&rt, 2, LAST_PATH, Some(&FOUND_ONE), 7)
}
