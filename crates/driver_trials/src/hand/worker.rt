//! Books worked by hand, and a routing table behind a turn. The target is 20 zero bytes, and the
//! node's own identifier 20 bytes of 255. So seed n is dealt to path n - 1.
ghost use Rattle.std.specs.Prelude.{◌≡◌, ◌<◌, ◌≤◌, length, IfOk};
ghost use Rattle.kad_base.specs.Limits.{max_paths};
ghost use Rattle.kad_base.specs.declared.types.Policy.TheVariants.{Plain};
ghost use Rattle.claim_book.specs.State.{BookState};

use bucket_tree::Seen;
use claim_book::{Book, BookCall, BookReply, Entry, Setting};
use contact_table::{Table, TableCall, TableReply};
use kad_base::{
    Check, ClaimRule, Contact, Id, List, NoMemory, Policy, Report, Reports, Serial, is_usable,
};
use kad_distance::k_least;
use path_worker::{settle_alone, settle_together};
use std::alloc::Global;
use std::hash::RandomState;
use std::process::Abort;
use std::sync::Wait;
use std::test::Fail;
use std::thread::{Threads, join};
use trial_kit::{at, contact};
use turn_book::{Pass, Turn};

const OWN: Id = Id([255; 20]);

/// Knows that a report without a proof passes the plain policy alone.
#[derive(Drop)]
struct Unproved<'a, R: Abort> {
    rt: &'a R,
}

impl<R: Abort> Check for Unproved<'_, R> {
    fn check(&self, policy: Policy, report: &Report) -> bool {
        if report.proof.is_some() {
            panic!(self.rt; "a proof");
        }
        matches!(policy, Policy::Plain)
    }
}

fn report(contact: Contact) -> Report {
    Report {
        contact,
        proof: None,
    }
}

/// A contact with the node's own identifier.
fn own() -> Contact {
    Contact {
        id: OWN,
        ..contact(0)
    }
}

fn setting(paths: u8, policy: Policy) -> Setting
    ensures paths { result.paths ≡ paths }
    ensures policy { result.policy ≡ policy }
    ensures k { result.k ≡ 8 }
{
    Setting {
        own: OWN,
        target: Id([0; 20]),
        k: 8,
        paths,
        alpha: 1,
        policy,
        per_address: 0,
        claim: ClaimRule::Named,
    }
}

/// Contacts 1 to 8, the seeds of a book of eight paths.
fn eight() -> [Contact; 8] {
    let mut all = [contact(1); 8];
    for i in 0..8u8 {
        all[i as usize] = contact(i.wrapping_add(1));
    }
    all
}

/// A book with a seed for each path.
fn begun(
    rt: &impl Abort,
    alloc: Global,
    hasher: RandomState,
    setting: Setting,
) -> Result<Book, Fail>
    requires { 0 < setting.paths }
    ensures { IfOk result (λ book. book.setting ≡ setting) }
{
    let known = &eight()[..setting.paths.min(8) as usize];
    let seeds = k_least(alloc, &setting.target, setting.k, known)?;
    assert!(rt;
        seeds
            .as_slice()
            .iter()
            .all(|seed| is_usable(&setting.own, seed))
    );
    Ok(Book::new(alloc, setting, seeds.as_slice(), hasher)?)
}

/// Whether the book has the path ask this contact.
fn asks(book: &mut Book, path: u8, contact: Contact) -> bool
    ensures { book.new.setting ≡ book.old.setting }
{
    match book.apply(0, BookCall::Next { path }) {
        BookReply::Ask { contact: asked } => asked == contact,
        _ => false,
    }
}

/// Whether the book keeps that this contact named these.
fn keeps(book: &mut Book, contact: Contact, reports: Reports) -> bool
    requires { length reports ≤ 16 }
    ensures { book.new.setting ≡ book.old.setting }
{
    match book.apply(0, BookCall::Heard { contact, reports }) {
        BookReply::Kept => true,
        _ => false,
    }
}

/// Whether the path's contact is asked, and the book is told that it named these.
fn is_answered(alloc: Global, book: &mut Book, path: u8, named: &[Report]) -> bool
    ensures { book.new.setting ≡ book.old.setting }
{
    let contact = contact(path.wrapping_add(1));
    let Ok(reports) = List::from_slice(alloc, named) else {
        return false;
    };
    if reports.len() > 16 {
        return false;
    }
    asks(book, path, contact) && keeps(book, contact, reports)
}

/// Whether the path asks this contact, and the book is told that it named nobody.
fn names_nobody(alloc: Global, book: &mut Book, path: u8, contact: Contact) -> bool
    ensures { book.new.setting ≡ book.old.setting }
{
    asks(book, path, contact) && keeps(book, contact, List::new(alloc))
}

fn table(alloc: Global) -> Result<Table, Fail> {
    Ok(Table::new(alloc, OWN, 8, 1)?)
}

/// Whether the reply lists these contacts.
fn lists(reply: TableReply, wanted: &[Contact]) -> bool {
    match reply {
        TableReply::List { list } => list.as_slice() == wanted,
        _ => false,
    }
}

/// Whether the table has these contacts, nearest to the target first, and no others.
fn knows(table: &mut Table, wanted: &[Contact]) -> bool {
    let target = Id([0; 20]);
    lists(table.apply(0, TableCall::Closest { target, n: 20 }), wanted)
}

/// An entry of the journal that settling puts in, or one of another kind.
#[derive(Clone, Copy, PartialEq, Eq)]
enum Settled {
    Note { path: u8, contact: Contact },
    Taken { path: u8, contact: Contact },
    Held { path: u8, contact: Contact, by: u8 },
    Rejected { path: u8, report: Report },
    Skipped { path: u8, report: Report },
    Other,
}

fn outcome(entry: &Entry) -> Settled {
    match entry {
        Entry::Note { path, contact } => Settled::Note {
            path: *path,
            contact: *contact,
        },
        Entry::Taken { path, contact } => Settled::Taken {
            path: *path,
            contact: *contact,
        },
        Entry::Held { path, contact, by } => Settled::Held {
            path: *path,
            contact: *contact,
            by: *by,
        },
        Entry::Rejected { path, report } => Settled::Rejected {
            path: *path,
            report: *report,
        },
        Entry::Skipped { path, report } => Settled::Skipped {
            path: *path,
            report: *report,
        },
        _ => Settled::Other,
    }
}

/// Whether the book's journal has these entries after its first ones, and no others.
fn tells(book: Book, first: usize, wanted: &[Settled]) -> bool {
    let journal = book.into_journal();
    let Some(entries) = journal.as_slice().get(first..) else {
        return false;
    };
    entries.len() == wanted.len()
        && entries
            .iter()
            .zip(wanted)
            .all(|(entry, want)| outcome(entry) == *want)
}

#[test]
fn the_only_path_settles_in_order_and_tells_the_table_who_answered(
    rt: HostRuntime,
) -> Result<(), Fail> {
    let alloc = rt.alloc();
    let hasher = RandomState::new(&rt)?;
    let mut table = table(alloc)?;
    let mut book = begun(&rt, alloc, hasher, setting(1, Policy::Plain))?;
    let named = [report(contact(9)), report(contact(1)), report(own())];
    assert!(rt; is_answered(alloc, &mut book, 0, &named));
    let check = Unproved { rt: &rt };
    let count = settle_alone(0, &mut book, &mut table, Policy::Plain, &check);
    assert_eq!(rt; count, Ok(4));
    assert!(rt; knows(&mut table, &[contact(1)]));
    let wanted = [
        Settled::Note {
            path: 0,
            contact: contact(1),
        },
        Settled::Taken {
            path: 0,
            contact: contact(9),
        },
        Settled::Held {
            path: 0,
            contact: contact(1),
            by: 0,
        },
        Settled::Skipped {
            path: 0,
            report: report(own()),
        },
    ];
    assert!(rt; tells(book, 3, &wanted));
    Ok(())
}

/// Contact 1 names identifier 9 at two addresses, and both answer, one after the other. The table
/// keeps the first.
#[test]
fn one_identifier_answers_at_two_addresses(rt: HostRuntime) -> Result<(), Fail> {
    let alloc = rt.alloc();
    let hasher = RandomState::new(&rt)?;
    let mut table = table(alloc)?;
    let mut book = begun(&rt, alloc, hasher, setting(1, Policy::Plain))?;
    let check = Unproved { rt: &rt };
    let named = [report(contact(9)), report(at(9, 7000))];
    assert!(rt; is_answered(alloc, &mut book, 0, &named));
    let count = settle_alone(0, &mut book, &mut table, Policy::Plain, &check);
    assert_eq!(rt; count, Ok(3));
    assert!(rt; names_nobody(alloc, &mut book, 0, contact(9)));
    let count = settle_alone(0, &mut book, &mut table, Policy::Plain, &check);
    assert_eq!(rt; count, Ok(1));
    assert!(rt; names_nobody(alloc, &mut book, 0, at(9, 7000)));
    let count = settle_alone(0, &mut book, &mut table, Policy::Plain, &check);
    assert_eq!(rt; count, Ok(1));
    assert!(rt; knows(&mut table, &[contact(1), contact(9)]));
    Ok(())
}

#[test]
fn the_eighth_of_eight_paths_settles_its_own(rt: HostRuntime) -> Result<(), Fail> {
    let alloc = rt.alloc();
    let hasher = RandomState::new(&rt)?;
    let mut table = table(alloc)?;
    let mut book = begun(&rt, alloc, hasher, setting(8, Policy::Plain))?;
    assert!(rt; is_answered(alloc, &mut book, 7, &[report(contact(9))]));
    let check = Unproved { rt: &rt };
    let sixth = settle_alone(6, &mut book, &mut table, Policy::Plain, &check);
    assert_eq!(rt; sixth, Ok(0));
    let seventh = settle_alone(7, &mut book, &mut table, Policy::Plain, &check);
    assert_eq!(rt; seventh, Ok(2));
    assert!(rt; knows(&mut table, &[contact(8)]));
    Ok(())
}

#[test]
fn a_report_without_a_proof_is_rejected_where_puzzles_are_asked_for(
    rt: HostRuntime,
) -> Result<(), Fail> {
    let alloc = rt.alloc();
    let policy = Policy::Puzzled { c1: 1, c2: 1 };
    let hasher = RandomState::new(&rt)?;
    let mut table = table(alloc)?;
    let mut book = begun(&rt, alloc, hasher, setting(1, policy))?;
    assert!(rt; is_answered(alloc, &mut book, 0, &[report(contact(9))]));
    let count = settle_alone(0, &mut book, &mut table, policy, &Unproved { rt: &rt });
    assert_eq!(rt; count, Ok(2));
    let wanted = [Settled::Rejected {
        path: 0,
        report: report(contact(9)),
    }];
    assert!(rt; tells(book, 4, &wanted));
    Ok(())
}

/// A book each of whose paths has an answer with a report of another contact.
fn answered(rt: &impl Abort, alloc: Global, hasher: RandomState, paths: u8) -> Result<Book, Fail>
    requires some { 0 < paths }
    ensures paths { IfOk result (λ book. book.setting.paths ≡ paths) }
    ensures policy { IfOk result (λ book. book.setting.policy ≡ Plain) }
    ensures k { IfOk result (λ book. book.setting.k ≡ 8) }
{
    let mut book = begun(rt, alloc, hasher, setting(paths, Policy::Plain))?;
    for path in 0..paths {
        let named = report(contact(path.wrapping_add(100)));
        assert!(rt; is_answered(alloc, &mut book, path, &[named]));
    }
    Ok(book)
}

/// All its paths settled at once: how many entries the journal has then, and whether the table has
/// these contacts. `None` if memory is short.
fn settled_at_once<R: Threads + Wait + Abort + Sync>(
    rt: &R,
    alloc: Global,
    paths: u8,
    book: Book,
    table: Table,
    wanted: &[Contact],
) -> Option<(usize, bool)>
    requires some { 0 < paths }
    requires few { paths ≤ max_paths }
    requires paths { book.setting.paths ≡ paths }
    requires policy { book.setting.policy ≡ Plain }
    requires k { book.setting.k ≡ 8 }
{
    let check = Unproved { rt };
    let (book, mut table, answer) = settle_together(
        rt,
        alloc,
        paths,
        book,
        table,
        Policy::Plain,
        &check,
    );
    let entries = book.into_journal().as_slice().len();
    let knows = knows(&mut table, wanted);
    match answer {
        Ok(()) => Some((entries, knows)),
        Err(NoMemory) => None,
    }
}

#[test]
fn one_path_settles_in_its_thread(rt: HostRuntime) -> Result<(), Fail> {
    let alloc = rt.alloc();
    let hasher = RandomState::new(&rt)?;
    let table = table(alloc)?;
    let book = answered(&rt, alloc, hasher, 1)?;
    let found = settled_at_once(&rt, alloc, 1, book, table, &[contact(1)]);
    assert_eq!(rt; found, Some((5, true)));
    Ok(())
}

#[test]
fn two_paths_settle_at_once(rt: HostRuntime) -> Result<(), Fail> {
    let alloc = rt.alloc();
    let hasher = RandomState::new(&rt)?;
    let table = table(alloc)?;
    let book = answered(&rt, alloc, hasher, 2)?;
    let wanted = [contact(1), contact(2)];
    let found = settled_at_once(&rt, alloc, 2, book, table, &wanted);
    assert_eq!(rt; found, Some((10, true)));
    Ok(())
}

#[test]
fn eight_paths_settle_at_once(rt: HostRuntime) -> Result<(), Fail> {
    let alloc = rt.alloc();
    let hasher = RandomState::new(&rt)?;
    let table = table(alloc)?;
    let book = answered(&rt, alloc, hasher, 8)?;
    let found = settled_at_once(&rt, alloc, 8, book, table, &eight());
    assert_eq!(rt; found, Some((40, true)));
    Ok(())
}

/// What two roles see of a routing table that one of them tells of a contact.
#[derive(Clone, Copy, Debug, PartialEq, Eq)]
struct Shared {
    /// What became of the contact.
    seen: Option<Seen>,
    /// Whether who asked was told of this contact alone.
    listed: bool,
    /// Whether the table has this contact alone at the end.
    kept: bool,
    /// How many calls were told.
    calls: u64,
}

/// What became of a contact that was seen, where the reply says so.
fn seen(reply: TableReply) -> Option<Seen> {
    match reply {
        TableReply::Seen { seen } => Some(seen),
        _ => None,
    }
}

/// The routing table is told of contact 1 by role 1, and asked by role 0.
fn told_and_asked<R: Wait>(rt: &R, alloc: Global, table: Table) -> Option<Shared> {
    let Ok((turn, mut passes)) = Turn::new(alloc, table, 2) else {
        return None;
    };
    let mut one = passes.pop()?;
    let mut zero = passes.pop()?;
    let contact = contact(1);
    let target = Id([0; 20]);
    let seen = seen(turn.call(rt, &mut one, TableCall::Seen { contact }));
    let closest = turn.call(rt, &mut zero, TableCall::Closest { target, n: 1 });
    let listed = lists(closest, &[contact]);
    passes.push(zero);
    passes.push(one);
    let (mut table, told) = turn.close(passes);
    Some(Shared {
        seen,
        listed,
        kept: knows(&mut table, &[contact]),
        calls: told.calls,
    })
}

#[test]
fn a_table_behind_a_turn_answers_and_comes_back(rt: HostRuntime) -> Result<(), Fail> {
    let alloc = rt.alloc();
    let found = told_and_asked(&rt, alloc, table(alloc)?);
    let wanted = Shared {
        seen: Some(Seen::Added),
        listed: true,
        kept: true,
        calls: 2,
    };
    assert_eq!(rt; found, Some(wanted));
    Ok(())
}

/// Tells the table 500 times of a contact, and asks after each.
fn tell_and_ask<R: Wait>(rt: &R, turn: &Turn<Table>, mut pass: Pass<Table>) -> Pass<Table>
    requires { pass.turn ≡ turn.now.id }
    ensures { result.turn ≡ turn.now.id }
{
    let contact = contact(1);
    let target = Id([0; 20]);
    for _ in 0..500 {
        turn.call(rt, &mut pass, TableCall::Seen { contact });
        turn.call(rt, &mut pass, TableCall::Closest { target, n: 1 });
    }
    pass
}

/// Two threads do so at once. Whether the table has contact 1 alone at the end, and how many calls
/// were told.
fn told_and_asked_at_once<R: Threads + Wait + Sync>(
    rt: &R,
    alloc: Global,
    table: Table,
) -> Option<(bool, u64)> {
    let Ok((turn, mut passes)) = Turn::new(alloc, table, 2) else {
        return None;
    };
    let one = passes.pop()?;
    let zero = passes.pop()?;
    let there = &turn;
    let (zero, one) = join(
        rt,
        move || -> Pass<Table>
            requires { zero.turn ≡ there.now.id }
            ensures { result.turn ≡ there.entry.now.id }
        { tell_and_ask(rt, there, zero) },
        move || -> Pass<Table>
            requires { one.turn ≡ there.now.id }
            ensures { result.turn ≡ there.entry.now.id }
        { tell_and_ask(rt, there, one) },
    );
    passes.push(zero);
    passes.push(one);
    let (mut table, told) = turn.close(passes);
    Some((knows(&mut table, &[contact(1)]), told.calls))
}

#[test]
fn two_threads_call_one_table(rt: HostRuntime) -> Result<(), Fail> {
    let alloc = rt.alloc();
    let found = told_and_asked_at_once(&rt, alloc, table(alloc)?);
    assert_eq!(rt; found, Some((true, 2000)));
    Ok(())
}
