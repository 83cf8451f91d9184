//! Where several lookups end: their passes go back, each book says what was found, and what was gathered is put in order.
ghost use Rattle.std.specs.Prelude.{◌≡◌, ◌≤◌, ◌<◌, ◌+◌, ◌++◌, [], ℕ, length, map, reverse, vec_capacity, IfOk};
ghost use Rattle.std.specs.List.{AllByRecursion, AllZip};
ghost use Rattle.look_many.specs.ManyLooked.{AreSent, how_often};
ghost use Rattle.look_many.specs.inner.Seats.{IsOutcome, IsOverBook, done_of};

use crate::found::{One, Ones};
use crate::opening::DRIVER;
use claim_book::{Book, BookCall, BookReply};
use contact_table::Table;
use kad_base::{List, NoMemory, Serial};
use lookup_core::{Gathered, Lookup, in_order};
use lookup_crowd::Seeker;
use std::alloc::Global;
use turn_book::Passes;

/// What is left of a lookup: its book, and what it gathered beside contacts.
#[derive(Drop)]
pub(crate) struct Done {
    pub book: Book,
    pub gathered: Gathered,
}

/// Puts the passes of all lookups back, and keeps their books and what they gathered, the last one's first.
pub(crate) fn gather(row: &mut Passes<Table>, mut seekers: Vec<Seeker>, done: &mut Vec<Done>)
    requires room { length row.old.passes + length seekers.items ≤ row.old.room }
    requires empty { done.old.items ≡ [] }
    requires done_room { length seekers.items ≤ vec_capacity done.old }
    ensures row { row.new.passes ≡ row.old.passes ++ map (λ k. k.pass) (reverse seekers.items) }
    ensures done { done.new.items ≡ map done_of (reverse seekers.items) }
{
    while let Some(seeker) = seekers.pop() {
        let Seeker {
            quest: _,
            lookup,
            gathered,
            pass,
            settled: _,
        } = seeker;
        let Lookup { book, queries: _ } = lookup;
        row.push(pass);
        done.push_reserved(Done { book, gathered });
    }
}

/// How often the number is among these.
fn count_of(numbers: &[u64], number: u64) -> u64
    ensures { result ≡ how_often number numbers.now }
{
    let mut count = 0;
    for one in numbers {
        if *one == number {
            count += 1;
        }
    }
    count
}

/// What a lookup found, where every path has run out, and so many of its follow-ups were sent.
fn finish(done: Done, sent: u64) -> Result<One, NoMemory>
    requires { IsOverBook done.book }
    ensures found { IfOk result (IsOutcome done) }
    ensures sent { IfOk result (λ one. one.sent ≡ sent) }
{
    let Done { mut book, gathered } = done;
    let Gathered {
        peers,
        tokens,
        items,
    } = gathered;
    match book.apply(DRIVER, BookCall::Finish) {
        BookReply::Found { found, counts } => Ok(One {
            found,
            counts,
            journal: book.into_journal(),
            peers: in_order(peers),
            tokens,
            items,
            sent,
        }),
        BookReply::NoMemory => Err(NoMemory),
        _ => unreachable!(),
    }
}

/// What all lookups found, in order, where every path of each has run out, and of which lookups the follow-ups were that were
/// sent. What is left of the last one comes first.
pub(crate) fn finish_all(alloc: Global, mut all: Vec<Done>, said: &[u64]) -> Result<Ones, NoMemory>
    requires { AllByRecursion (λ done. IsOverBook done.book) (reverse all.items) }
    ensures found { IfOk result (λ ones. AllZip IsOutcome (reverse all.items) ones) }
    ensures sent { IfOk result (λ ones. AreSent said.now 0 ones) }
{
    let mut ones = List::new(alloc);
    while let Some(done) = all.pop() {
        let sent = count_of(said, ones.len() as u64);
        let one = match finish(done, sent) {
            Ok(one) => one,
            Err(NoMemory) => return Err(NoMemory),
        };
        match ones.push(one) {
            Ok(()) => {}
            Err(NoMemory) => return Err(NoMemory),
        }
    }
    Ok(ones)
}
