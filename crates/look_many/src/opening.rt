//! Where several lookups begin: each with the closest contacts of the table, a book, and a pass at the turn over the table.
ghost use Rattle.std.specs.Prelude.{◌≡◌, ◌+◌, ◌<◌, ◌≤◌, ◌≢◌, ◌∷◌, [], length, map, reverse, vec_capacity, IfOk};
ghost use Rattle.std.specs.List.{All, AllZip, range_with_len};
ghost use Rattle.kad_base.specs.Contacts.{IsUsable};
ghost use Rattle.turn_book.specs.Turns.{fresh};
ghost use Rattle.contact_table.specs.TableStep.{contacts_of};
ghost use Rattle.look_many.specs.ManyLooked.{IsWithinLimits, quest_for, seeds_for, setting_for};
ghost use Rattle.look_many.specs.inner.Seats.{IsBookFor, IsSeekerFor};

use crate::found::ManySetting;
use crate::job::Job;
use claim_book::{Book, Setting};
use contact_table::{Table, TableCall, TableReply};
use kad_base::{Contacts, Family, NoMemory, Serial};
use lookup_core::{Lookup, Quest, nothing};
use lookup_crowd::Seeker;
use node_serve::ServeSetting;
use serve_crew::Desk;
use std::alloc::Global;
use std::hash::RandomState;
use turn_book::{Pass, Passes};

/// The role in which the driver calls.
pub(crate) const DRIVER: u8 = 0;

/// What the book of the job's lookup is set to.
fn setting_of(server: &ServeSetting, setting: &ManySetting, job: &Job) -> Setting
    ensures { result ≡ setting_for server.now setting.now job.now }
{
    Setting {
        own: server.own,
        target: job.target(),
        k: server.k,
        paths: setting.paths,
        alpha: setting.alpha,
        policy: server.policy,
        per_address: setting.per_address,
        claim: setting.claim,
    }
}

/// What the job's lookup asks, and what it believes.
fn quest_of(server: &ServeSetting, setting: &ManySetting, job: &Job) -> Quest
    ensures { result ≡ quest_for server.now setting.now job.now }
{
    Quest {
        own: server.own,
        target: job.target(),
        policy: server.policy,
        kind: job.kind(),
        family: Family::Four,
        timeout: setting.timeout,
        sealed: server.sealed,
        read_only: false,
        proof: server.proof,
    }
}

/// The contacts that the job's lookup begins with: the k of the table that are closest to its target.
fn seeds_of(table: &mut Table, server: &ServeSetting, job: &Job) -> Result<Contacts, NoMemory>
    ensures seeds { IfOk result (λ seeds. seeds ≡ seeds_for server.now table.old job.now) }
    ensures table { table.new ≡ table.old }
{
    let call = TableCall::Closest {
        target: job.target(),
        n: server.k,
    };
    match table.apply(DRIVER, call) {
        TableReply::List { list } => Ok(list),
        TableReply::NoMemory => Err(NoMemory),
        TableReply::Seen { .. } => unreachable!(),
        TableReply::Gone { .. } => unreachable!(),
        TableReply::Reports { .. } => unreachable!(),
        TableReply::Crowded => unreachable!(),
    }
}

/// A book that begins with the closest contacts of the table.
fn open_book(
    alloc: Global,
    table: &mut Table,
    server: &ServeSetting,
    setting: &ManySetting,
    job: &Job,
    hasher: RandomState,
) -> Result<Book, NoMemory>
    requires limits { IsWithinLimits setting.now }
    requires usable { All (IsUsable server.now.own) (contacts_of table.old) }
    ensures book { IfOk result (IsBookFor server.now setting.now table.old job.now) }
    ensures table { table.new ≡ table.old }
{
    let seeds = seeds_of(table, server, job)?;
    Book::new(
        alloc,
        setting_of(server, setting, job),
        seeds.as_slice(),
        hasher,
    )
}

/// The books of all lookups, that of the last job first, so that they are taken from the end in order.
pub(crate) fn open_books(
    alloc: Global,
    table: &mut Table,
    server: &ServeSetting,
    setting: &ManySetting,
    jobs: &[Job],
    hasher: RandomState,
) -> Result<Vec<Book>, NoMemory>
    requires limits { IsWithinLimits setting.now }
    requires usable { All (IsUsable server.now.own) (contacts_of table.old) }
    ensures books { IfOk result (λ books. AllZip (IsBookFor server.now setting.now table.old) jobs.now
        (reverse books.items)) }
    ensures room { IfOk result (λ books. length jobs.now ≤ vec_capacity books) }
    ensures table { table.new ≡ table.old }
{
    let mut books = Vec::with_capacity(alloc, jobs.len())?;
    let mut left = jobs.len();
    while left > 0 {
        left -= 1;
        books.push_reserved(open_book(alloc, table, server, setting, &jobs[left], hasher)?);
    }
    Ok(books)
}

/// All passes of the row, the last first, so that they are taken from the end in order.
pub(crate) fn stack_up(row: &mut Passes<Table>, stack: &mut Vec<Pass<Table>>)
    requires empty { stack.old.items ≡ [] }
    requires room { length row.old.passes ≤ vec_capacity stack.old }
    ensures stack { reverse stack.new.items ≡ row.old.passes }
    ensures row { row.new.passes ≡ [] }
    ensures room { row.new.room ≡ row.old.room }
{
    while let Some(pass) = row.pop() {
        stack.push_reserved(pass);
    }
}

/// The last book of the list, which is the next.
fn next_book(books: &mut Vec<Book>) -> Book
    requires some { books.old.items ≢ [] }
    ensures next { reverse books.old.items ≡ result ∷ reverse books.new.items }
    ensures room { vec_capacity books.new ≡ vec_capacity books.old }
{
    let Some(book) = books.pop() else {
        unreachable!()
    };
    book
}

/// The last pass of the list, which is the next.
pub(crate) fn next_pass(stack: &mut Vec<Pass<Table>>) -> Pass<Table>
    requires some { stack.old.items ≢ [] }
    ensures next { reverse stack.old.items ≡ result ∷ reverse stack.new.items }
{
    let Some(pass) = stack.pop() else {
        unreachable!()
    };
    pass
}

/// Makes a lookup for each job, of the next book and the next pass. The books' list keeps its room.
pub(crate) fn seat_all(
    alloc: Global,
    desk: &Desk,
    setting: &ManySetting,
    jobs: &[Job],
    stack: &mut Vec<Pass<Table>>,
    books: &mut Vec<Book>,
    seekers: &mut Vec<Seeker>,
)
    requires books { AllZip (IsBookFor desk.now.setting.now setting.now desk.now.turns.now.table.start) jobs.now
        (reverse books.old.items) }
    requires passes { reverse stack.old.items ≡ map (fresh desk.now.turns.now.table.id)
        (range_with_len 1 (length jobs.now)) }
    requires empty { seekers.old.items ≡ [] }
    requires room { length jobs.now ≤ vec_capacity seekers.old }
    ensures seekers { AllZip (IsSeekerFor desk.now.setting.now setting.now desk.now.turns.now.table.start) jobs.now
        seekers.new.items }
    ensures passes { map (λ k. k.pass) seekers.new.items ≡ map (fresh desk.now.turns.now.table.id)
        (range_with_len 1 (length jobs.now)) }
    ensures books { books.new.items ≡ [] }
    ensures room { vec_capacity books.new ≡ vec_capacity books.old }
{
    for i in 0..jobs.len() {
        let book = next_book(books);
        let pass = next_pass(stack);
        seekers.push_reserved(Seeker {
            quest: quest_of(desk.setting, setting, &jobs[i]),
            lookup: Lookup::new(book),
            gathered: nothing(alloc),
            pass,
            settled: Ok(()),
        });
    }
}
