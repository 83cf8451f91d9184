//! Random lists of calls by all roles, on a book and on the plain book beside it: the replies and the journals are equal.
ghost use Rattle.std.specs.Prelude.{◌≡◌, ◌<◌, ◌≤◌, length, IfOk, IsTrue};
ghost use Rattle.std.specs.List.{All};
ghost use Rattle.std.specs.List.Sorted.{IsStrictlySortedBy};
ghost use Rattle.kad_base.specs.Contacts.{IsUsable};
ghost use Rattle.kad_distance.specs.Order.{closeness};
ghost use Rattle.claim_book.specs.Calls.{BookMay};

use super::plain_book::{PlainBook, front, open_path};
use claim_book::{Book, BookCall, BookReply, Cause, Checked, Entry, Setting, Thing};
use id_puzzles::{Sha1Check, mint};
use kad_base::{
    Addr, ClaimRule, Contact, Contacts, Id, Ip, List, NoMemory, Policy, Report, Reports, Serial,
    is_usable,
};
use kad_distance::k_least;
use std::alloc::Global;
use std::hash::RandomState;
use std::process::Abort;
use std::random::RandomSource;
use std::test::Fail;

/// A row of numbers that only its start determines (Knuth's linear congruence).
#[derive(Drop)]
struct Dice {
    state: u64,
}

impl Dice {
    fn roll(&mut self, sides: u64) -> u64
        requires { 0 < sides }
        ensures { result < sides }
    {
        self.state = self
            .state
            .wrapping_mul(6364136223846793005)
            .wrapping_add(1442695040888963407);
        (self.state >> 33) % sides
    }

    /// One of these reports.
    fn pick(&mut self, nodes: &[Report]) -> Report {
        let at = self.roll(64) as usize;
        match nodes.get(at) {
            Some(report) => *report,
            None => report_of(Id([1; 20]), 0, None),
        }
    }

    /// At most 16 of them.
    fn pick_some(&mut self, alloc: Global, nodes: &[Report]) -> Result<Reports, NoMemory>
        ensures { IfOk result (λ reports. length reports ≤ 16) }
    {
        let mut named = [report_of(Id([1; 20]), 0, None); 16];
        for slot in named.iter_mut() {
            *slot = self.pick(nodes);
        }
        let count = self.roll(17) as usize;
        List::from_slice(alloc, &named[..count])
    }
}

fn report_of(id: Id, port: u16, proof: Option<kad_base::Proof>) -> Report {
    Report {
        contact: Contact {
            id,
            addr: Addr {
                ip: Ip::V4([127, 0, 0, 1 + id.0[0] % 4]),
                port,
            },
        },
        proof,
    }
}

/// 64 reports: of 15 minted identifiers, at four addresses, each at two ports, with its proof and without; two with port 0, and two of the
/// node itself.
fn nodes(alloc: Global, own: Id) -> Result<Vec<Report>, Fail> {
    let mut nodes = Vec::new(alloc);
    for n in 0..15u8 {
        if let Ok(minted) = mint(&[n; 32], 0, 0, 1) {
            nodes.push(report_of(minted.id, 6001, Some(minted.proof)))?;
            nodes.push(report_of(minted.id, 6001, None))?;
            nodes.push(report_of(minted.id, 6002, Some(minted.proof)))?;
            nodes.push(report_of(minted.id, 6002, None))?;
        }
    }
    nodes.push(report_of(Id([2; 20]), 0, None))?;
    nodes.push(report_of(Id([3; 20]), 0, None))?;
    nodes.push(report_of(own, 6001, None))?;
    nodes.push(report_of(own, 6002, None))?;
    Ok(nodes)
}

pub(super) fn all_usable(own: &Id, contacts: &[Contact]) -> bool
    ensures { IsTrue result → All (IsUsable own.now) contacts.now }
{
    contacts.iter().all(|contact| is_usable(own, contact))
}

/// The k closest of these, in order.
pub(super) fn seeds(
    alloc: Global,
    setting: &Setting,
    contacts: &[Contact],
) -> Result<Contacts, NoMemory>
    ensures few { IfOk result (λ found. length found ≤ setting.now.k) }
    ensures in_order { IfOk result (λ found. IsStrictlySortedBy
        (closeness setting.now.target) found) }
{
    match k_least(alloc, &setting.target, setting.k, contacts) {
        Ok(found) => Ok(found),
        Err(NoMemory) => Err(NoMemory),
    }
}

/// The same call on the book and on the plain book: the same reply.
fn both(
    rt: &impl Abort,
    alloc: Global,
    book: &mut Book,
    plain: &mut PlainBook,
    role: u8,
    call: BookCall,
    again: BookCall,
) -> Result<BookReply, NoMemory>
    requires { BookMay role call }
{
    let expected = plain.apply(alloc, role, again)?;
    let reply = book.apply(role, call);
    assert!(rt; reply == expected);
    Ok(reply)
}

/// A contact that has an open query, or any.
fn pick_open(journal: &[Entry], dice: &mut Dice, nodes: &[Report]) -> Contact {
    let mut contact = dice.pick(nodes).contact;
    for report in nodes {
        if open_path(journal, &report.contact).is_some() && dice.roll(3) == 0 {
            contact = report.contact;
        }
    }
    contact
}

fn lose_one(
    rt: &impl Abort,
    alloc: Global,
    book: &mut Book,
    plain: &mut PlainBook,
    contact: Contact,
) -> Result<BookReply, NoMemory> {
    let cause = Cause::Timeout;
    both(
        rt,
        alloc,
        book,
        plain,
        0,
        BookCall::Lost { contact, cause },
        BookCall::Lost { contact, cause },
    )
}

fn hear_one(
    rt: &impl Abort,
    alloc: Global,
    book: &mut Book,
    plain: &mut PlainBook,
    contact: Contact,
    reports: Reports,
) -> Result<BookReply, NoMemory>
    requires { length reports ≤ 16 }
{
    let copied = List::from_slice(alloc, reports.as_slice())?;
    both(
        rt,
        alloc,
        book,
        plain,
        0,
        BookCall::Heard { contact, reports },
        BookCall::Heard {
            contact,
            reports: copied,
        },
    )
}

/// An answer, or a loss, of a contact that has an open query, or of any.
fn end_one(
    rt: &impl Abort,
    alloc: Global,
    book: &mut Book,
    plain: &mut PlainBook,
    dice: &mut Dice,
    nodes: &[Report],
) -> Result<BookReply, NoMemory> {
    let contact = pick_open(plain.journal.as_slice(), dice, nodes);
    if dice.roll(4) == 0 {
        return lose_one(rt, alloc, book, plain, contact);
    }
    let reports = dice.pick_some(alloc, nodes)?;
    hear_one(rt, alloc, book, plain, contact, reports)
}

fn note_one(
    rt: &impl Abort,
    alloc: Global,
    book: &mut Book,
    plain: &mut PlainBook,
    role: u8,
    contact: Contact,
) -> Result<BookReply, NoMemory>
    requires { 0 < role }
{
    both(
        rt,
        alloc,
        book,
        plain,
        role,
        BookCall::Note { contact },
        BookCall::Note { contact },
    )
}

fn settle_report(
    rt: &impl Abort,
    alloc: Global,
    book: &mut Book,
    plain: &mut PlainBook,
    role: u8,
    policy: Policy,
    report: Report,
) -> Result<BookReply, NoMemory>
    requires { 0 < role }
{
    let checked = Checked::of(&Sha1Check, policy, report);
    let again = Checked::of(&Sha1Check, policy, report);
    both(
        rt,
        alloc,
        book,
        plain,
        role,
        BookCall::Settle { checked },
        BookCall::Settle { checked: again },
    )
}

/// What the worker of a path settles: mostly what stands first.
fn pick_thing(
    alloc: Global,
    journal: &[Entry],
    dice: &mut Dice,
    nodes: &[Report],
    path: u8,
) -> Result<Thing, NoMemory> {
    let report = dice.pick(nodes);
    let first = front(alloc, journal, path)?;
    Ok(match first {
        Some(thing) if dice.roll(8) > 0 => thing,
        Some(Thing::Responder { .. }) => Thing::Responder {
            contact: report.contact,
        },
        _ => Thing::Told { report },
    })
}

/// The worker of a path notes or settles what stands first, or anything.
fn settle_one(
    rt: &impl Abort,
    alloc: Global,
    book: &mut Book,
    plain: &mut PlainBook,
    dice: &mut Dice,
    nodes: &[Report],
) -> Result<BookReply, NoMemory> {
    let path = dice.roll(9) as u8;
    let other = dice.roll(16) == 0;
    match pick_thing(alloc, plain.journal.as_slice(), dice, nodes, path)? {
        Thing::Responder { contact } => note_one(rt, alloc, book, plain, path + 1, contact),
        Thing::Told { report } => {
            let policy = if other {
                Policy::Puzzled { c1: 0, c2: 1 }
            } else {
                plain.setting.policy
            };
            settle_report(rt, alloc, book, plain, path + 1, policy, report)
        }
    }
}

fn next_one(
    rt: &impl Abort,
    alloc: Global,
    book: &mut Book,
    plain: &mut PlainBook,
    path: u8,
) -> Result<BookReply, NoMemory> {
    both(
        rt,
        alloc,
        book,
        plain,
        0,
        BookCall::Next { path },
        BookCall::Next { path },
    )
}

/// Any call, by any role.
fn call_one(
    rt: &impl Abort,
    alloc: Global,
    book: &mut Book,
    plain: &mut PlainBook,
    dice: &mut Dice,
    nodes: &[Report],
) -> Result<BookReply, NoMemory> {
    match dice.roll(20) {
        0..=2 => {
            let path = dice.roll(9) as u8;
            next_one(rt, alloc, book, plain, path)
        }
        3 => end_one(rt, alloc, book, plain, dice, nodes),
        4 => both(
            rt,
            alloc,
            book,
            plain,
            0,
            BookCall::Finish,
            BookCall::Finish,
        ),
        5 => {
            let role = 1 + dice.roll(9) as u8;
            both(rt, alloc, book, plain, role, BookCall::Pull, BookCall::Pull)
        }
        _ => settle_one(rt, alloc, book, plain, dice, nodes),
    }
}

/// Which replies came, and whether two paths had one contact.
#[derive(Clone, Copy, Debug, PartialEq, Eq)]
struct Came {
    taken: bool,
    held: bool,
    turned: bool,
    rejected: bool,
    skipped: bool,
    not_front: bool,
    found: bool,
    shared: bool,
}

fn mark(came: &mut Came, reply: &BookReply) {
    match reply {
        BookReply::Taken => came.taken = true,
        BookReply::Turned => came.turned = true,
        BookReply::Held { .. } => came.held = true,
        BookReply::Rejected => came.rejected = true,
        BookReply::Skipped => came.skipped = true,
        BookReply::NotFront => came.not_front = true,
        BookReply::Found { .. } => came.found = true,
        _ => {}
    }
}

/// 1,000 calls on both books.
fn call_all(
    rt: &impl Abort,
    alloc: Global,
    book: &mut Book,
    plain: &mut PlainBook,
    dice: &mut Dice,
    nodes: &[Report],
    came: &mut Came,
) -> Result<(), NoMemory> {
    for _ in 0..1000u32 {
        let reply = call_one(rt, alloc, book, plain, dice, nodes)?;
        mark(came, &reply);
    }
    Ok(())
}

/// Some of those that may be asked.
fn known(alloc: Global, own: &Id, dice: &mut Dice, nodes: &[Report]) -> Result<Vec<Contact>, Fail> {
    let mut known = Vec::new(alloc);
    for report in nodes {
        if is_usable(own, &report.contact) && dice.roll(3) == 0 {
            known.push(report.contact)?;
        }
    }
    Ok(known)
}

/// A book and a plain book of the same seeds, after the same calls: the same journal.
fn compare(
    rt: &impl Abort,
    alloc: Global,
    hasher: RandomState,
    setting: Setting,
    dice: &mut Dice,
    came: &mut Came,
) -> Result<(), Fail>
    requires { 0 < setting.paths }
{
    let nodes = nodes(alloc, setting.own)?;
    let known = known(alloc, &setting.own, dice, nodes.as_slice())?;
    let seeds = seeds(alloc, &setting, known.as_slice())?;
    assert!(rt; all_usable(&setting.own, seeds.as_slice()));
    let mut book = Book::new(alloc, setting, seeds.as_slice(), hasher)?;
    let mut plain = PlainBook::new(alloc, setting, seeds.as_slice())?;
    call_all(
        rt,
        alloc,
        &mut book,
        &mut plain,
        dice,
        nodes.as_slice(),
        came,
    )?;
    assert!(rt; book.into_journal().as_slice() == plain.journal.as_slice());
    assert!(rt; plain.lists.ask_once());
    if plain.lists.share_some() {
        came.shared = true;
    }
    Ok(())
}

/// 8 paths, of 2 to 4 queries at once, under both policies; the last has one path.
fn setting(n: u8, claim: ClaimRule) -> Setting
    requires { n < 6 }
    ensures { 0 < result.paths }
{
    Setting {
        own: Id([0xff; 20]),
        target: Id([n.wrapping_mul(37); 20]),
        k: 3 + n,
        paths: if n == 5 { 1 } else { 8 },
        alpha: 2 + n % 3,
        policy: if n % 2 == 0 {
            Policy::Plain
        } else {
            Policy::Puzzled { c1: 0, c2: 0 }
        },
        per_address: [0, 0, 1, 2, 3, 4][n as usize],
        claim,
    }
}

/// No replies, and each of them where a contact is on one path.
const NONE: Came = Came {
    taken: false,
    held: false,
    turned: false,
    rejected: false,
    skipped: false,
    not_front: false,
    found: false,
    shared: false,
};

const EACH: Came = Came {
    taken: true,
    held: true,
    turned: true,
    rejected: true,
    skipped: true,
    not_front: true,
    found: true,
    shared: false,
};

/// Six lookups by the rule, drawn from the same start.
fn compare_six<R: Abort + AllocGlobal + RandomSource>(
    rt: &R,
    claim: ClaimRule,
) -> Result<Came, Fail> {
    let mut came = NONE;
    let mut dice = Dice { state: 1 };
    for n in 0..6u8 {
        let hasher = RandomState::new(rt)?;
        compare(
            rt,
            rt.alloc(),
            hasher,
            setting(n, claim),
            &mut dice,
            &mut came,
        )?;
    }
    Ok(came)
}

#[test]
fn answers_as_the_filters_of_its_journal(rt: HostRuntime) -> Result<(), Fail> {
    assert_eq!(rt; compare_six(&rt, ClaimRule::Named)?, EACH);
    Ok(())
}

#[test]
fn answers_as_the_rows_of_lists_and_askers(rt: HostRuntime) -> Result<(), Fail> {
    let wanted = Came {
        shared: true,
        ..EACH
    };
    assert_eq!(rt; compare_six(&rt, ClaimRule::Asked)?, wanted);
    Ok(())
}
