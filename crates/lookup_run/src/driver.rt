//! A whole lookup, from the seeds of a table to where every path has run out.
ghost use Rattle.std.specs.Prelude.{◌≡◌, ◌≢◌, ◌≤◌, ◌<◌, ◌^◌, ◌∷◌, [], ℕ, Err, IfOk, IfErr, OnOk, OnErr, IsErrOf};
ghost use Rattle.std.specs.List.{All};
ghost use Rattle.kad_base.specs.declared.types.Event.TheVariants.{Now};
ghost use Rattle.kad_base.specs.Contacts.{IsUsable};
ghost use Rattle.kad_base.specs.Failing.{FailsLast};
ghost use Rattle.kad_base.specs.Outside.{Grows};
ghost use Rattle.contact_table.specs.TableStep.{contacts_of};
ghost use Rattle.claim_book.specs.RunOut.{RunOut};
ghost use Rattle.lookup_run.specs.Rounds.{concurrent, sequential, scheduling_by};
ghost use Rattle.lookup_core.specs.Gathered.{IsEachOnce};
ghost use Rattle.lookup_run.specs.Lookup.{IsWithinLimits, seeds_in, TableTold, LooksUp};
ghost use Rattle.lookup_run.specs.inner.RoundSteps.{MaySettle, Settles, IsDone, IsClosed, IsBookOf, asks_seeds, IsBegun};

use crate::on_reply::DRIVER;
use crate::round::go_rounds;
use crate::settle::{Concurrent, Schedule, Sequential, settle_paths};
use crate::together::settle_each;
use crate::types::{LookFault, LookSetting, LookupState, Outcome, Progress};
use claim_book::{Book, BookCall, BookReply};
use contact_table::{Table, TableCall, TableReply};
use id_puzzles::Words;
use kad_base::{Check, Contacts, Link, NoMemory, Serial};
use lookup_core::{Gathered, Lookup, in_order, nothing};
use path_worker::PacedCheck;
use seal_tags::SealCheck;
use std::alloc::Global;
use std::hash::RandomState;
use std::sync::Wait;
use std::thread::Threads;

/// The contacts that the lookup begins with: the k closest of the table.
fn seeds_of(table: &mut Table, look: &LookSetting) -> Result<Contacts, NoMemory>
    ensures seeds { IfOk result (λ seeds. seeds ≡ seeds_in look.now table.old) }
    ensures table { table.new ≡ table.old }
    ensures told { OnOk result (TableTold (asks_seeds look.now) table.old table.new) }
{
    let call = TableCall::Closest {
        target: look.target,
        n: look.k,
    };
    match table.apply(DRIVER, call) {
        TableReply::List { list } => Ok(list),
        TableReply::NoMemory => Err(NoMemory),
        TableReply::Seen { .. } => unreachable!(),
        TableReply::Gone { .. } => unreachable!(),
        TableReply::Reports { .. } => unreachable!(),
        TableReply::Crowded => unreachable!(),
    }
}

/// What the lookup found, where every path has run out.
fn finish(mut book: Book, gathered: Gathered) -> Result<Outcome, LookFault>
    requires { (p : ℕ) → p < book.setting.paths → RunOut book.setting p book.journal }
    ensures done { IfOk result (IsDone book) }
    ensures peers { IfOk result (λ outcome. IsEachOnce gathered.peers outcome.peers) }
    ensures tokens { IfOk result (λ outcome. outcome.tokens ≡ gathered.tokens) }
    ensures items { IfOk result (λ outcome. outcome.items ≡ gathered.items) }
    ensures fault { IfErr result (λ fault. fault ≡ LookFault.NoMemory) }
{
    match book.apply(DRIVER, BookCall::Finish) {
        BookReply::Found { found, counts } => Ok(Outcome {
            found,
            counts,
            journal: book.into_journal(),
            peers: in_order(gathered.peers),
            tokens: gathered.tokens,
            items: gathered.items,
        }),
        BookReply::NoMemory => Err(LookFault::NoMemory),
        _ => unreachable!(),
    }
}

/// The table and what the lookup found, where its rounds ended well.
fn close(work: LookupState, ended: Result<(), LookFault>) -> (Table, Result<Outcome, LookFault>)
    requires { OnOk ended ((p : ℕ) → p < work.lookup.book.setting.paths
        → RunOut work.lookup.book.setting p work.lookup.book.journal) }
    ensures table { result.0 ≡ work.table }
    ensures done { IfOk result.1 (λ outcome. IsClosed work ended outcome) }
    ensures fault { IfErr result.1 (λ fault. fault ≢ LookFault.NoMemory → ended ≡ Err fault) }
    ensures link { IsErrOf ended LookFault.LinkFault → IsErrOf result.1 LookFault.LinkFault }
{
    let LookupState {
        lookup,
        table,
        gathered,
        progress: _,
    } = work;
    let Lookup { book, queries: _ } = lookup;
    match ended {
        Ok(()) => (table, finish(book, gathered)),
        Err(fault) => (table, Err(fault)),
    }
}

/// A book that begins with the closest contacts of the table. Without memory the table is as it was.
fn open_book(
    alloc: Global,
    table: &mut Table,
    look: &LookSetting,
    hasher: RandomState,
) -> Result<Book, NoMemory>
    requires limits { IsWithinLimits look.now }
    requires usable { All (IsUsable look.now.own) (contacts_of table.old) }
    ensures book { IfOk result (IsBookOf look.now table.old) }
    ensures told { OnOk result (TableTold (asks_seeds look.now) table.old table.new) }
    ensures err { OnErr result (table.new ≡ table.old) }
{
    let seeds = seeds_of(table, look)?;
    Book::new(alloc, look.setting(), seeds.as_slice(), hasher)
}

/// What a lookup keeps where it begins, at the moment that the link tells.
fn begin<L: Link>(alloc: Global, link: &mut L, table: Table, book: Book) -> LookupState
    ensures begun { IsBegun book table (L.moment link.new) result }
    ensures told { Grows (L.told link.old) (L.told link.new)
        (λ es. es ≡ Now (L.moment link.new) ∷ []) }
    ensures recv_faults { L.recv_faults link.new ≡ L.recv_faults link.old }
    ensures send_faults { L.send_faults link.new ≡ L.send_faults link.old }
    ensures kept { L.kept link.new ≡ L.kept link.old }
{
    LookupState {
        lookup: Lookup::new(book),
        table,
        progress: Progress {
            moment: link.now(),
            receives: 0,
            strays: 0,
        },
        gathered: nothing(alloc),
    }
}

/// One lookup: `settle` settles what the paths have after a round.
fn look_by<
    O: Schedule,
    L: Link,
    G: SealCheck,
    S: Fn(LookupState) -> (LookupState, Result<(), LookFault>),
>(
    alloc: Global,
    link: &mut L,
    words: &mut Words,
    table: Table,
    setting: &LookSetting,
    seal: &G,
    hasher: RandomState,
    settle: S,
) -> (Table, Result<Outcome, LookFault>)
    requires limits { IsWithinLimits setting.now }
    requires usable { All (IsUsable setting.now.own) (contacts_of table) }
    requires place { words.old.place < 2 ^ 59 }
    requires callable { (before : LookupState) → MaySettle setting.now before → S.pre settle before }
    requires settles { (before : LookupState) (after : _) → MaySettle setting.now before
        → S.post settle before after → Settles O.scheduling setting.now before after.0 after.1 }
    ensures looks { LooksUp O.scheduling setting.now (G.accepted seal.now) table result.0 words.old words.new (L.told link.old)
        (L.told link.new) (L.recv_faults link.old) (L.recv_faults link.new) (L.send_faults link.old)
        (L.send_faults link.new) (L.kept link.old) (L.kept link.new) result.1 }
    ensures last { IsErrOf result.1 LookFault.LinkFault
        → FailsLast L.told L.recv_faults link.old link.new }
{
    let mut table = table;
    let book = match open_book(alloc, &mut table, setting, hasher) {
        Ok(book) => book,
        Err(_) => return (table, Err(LookFault::NoMemory)),
    };
    let work = begin(alloc, link, table, book);
    let (work, ended) = go_rounds::<O, L, G, S>(alloc, link, work, words, setting, seal, settle);
    work.lookup.book.legal();
    close(work, ended)
}

/// Looks the target up from the k closest contacts of the table, and tells the table who answered and who didn't: asks,
/// receives and settles in rounds until every path has run out. What a path asks comes from its own seeds and answers
/// (S/Kademlia, section 4.4). The table comes back on every answer. It waits for nobody but the link, and returns for every
/// link. A sealed lookup believes no reply without a tag that the seal accepts of who says it; any other never asks the
/// seal. Strangers choose the contacts, so the hasher of the book's index is handed in; no answer depends on it.
pub fn look_up_alone<L: Link, C: Check, G: SealCheck>(
    alloc: Global,
    link: &mut L,
    words: &mut Words,
    table: Table,
    setting: &LookSetting,
    check: &C,
    seal: &G,
    hasher: RandomState,
) -> (Table, Result<Outcome, LookFault>)
    requires limits { IsWithinLimits setting.now }
    requires usable { All (IsUsable setting.now.own) (contacts_of table) }
    requires place { words.old.place < 2 ^ 59 }
    ensures looks { LooksUp sequential setting.now (G.accepted seal.now) table result.0 words.old words.new (L.told link.old)
        (L.told link.new) (L.recv_faults link.old) (L.recv_faults link.new) (L.send_faults link.old)
        (L.send_faults link.new) (L.kept link.old) (L.kept link.new) result.1 }
    ensures last { IsErrOf result.1 LookFault.LinkFault
        → FailsLast L.told L.recv_faults link.old link.new }
{
    look_by::<Sequential, _, _, _>(
        alloc,
        link,
        words,
        table,
        setting,
        seal,
        hasher,
        |work|
            requires { MaySettle setting.now work }
            ensures { Settles sequential setting.entry.now work result.0 result.1 }
        { settle_paths(work, setting, check) },
    )
}

/// The same, but all paths settle at once in a round, each on a thread of its own, if more than one has something to settle;
/// the caller does the work of those that no thread can be made for.
fn look_up_together<R: Threads + Wait + Sync, L: Link, C: Check + Sync, G: SealCheck>(
    rt: &R,
    alloc: Global,
    link: &mut L,
    words: &mut Words,
    table: Table,
    setting: &LookSetting,
    check: &C,
    seal: &G,
    hasher: RandomState,
) -> (Table, Result<Outcome, LookFault>)
    requires limits { IsWithinLimits setting.now }
    requires usable { All (IsUsable setting.now.own) (contacts_of table) }
    requires place { words.old.place < 2 ^ 59 }
    ensures looks { LooksUp concurrent setting.now (G.accepted seal.now) table result.0 words.old words.new (L.told link.old)
        (L.told link.new) (L.recv_faults link.old) (L.recv_faults link.new) (L.send_faults link.old)
        (L.send_faults link.new) (L.kept link.old) (L.kept link.new) result.1 }
    ensures last { IsErrOf result.1 LookFault.LinkFault
        → FailsLast L.told L.recv_faults link.old link.new }
{
    look_by::<Concurrent, _, _, _>(
        alloc,
        link,
        words,
        table,
        setting,
        seal,
        hasher,
        |work|
            requires { MaySettle setting.now work }
        { settle_each(rt, alloc, work, setting, check) },
    )
}

/// Looks the target up from the k closest contacts of the table, and tells the table who answered and who didn't: asks,
/// receives and settles in rounds until every path has run out. What a path asks comes from its own seeds and answers
/// (S/Kademlia, section 4.4). If the check is slow, all paths settle at once in a round, on threads; else they settle one
/// after another, since a thread costs more than two hashes. So under a check that isn't slow the link's events determine
/// what a lookup did. The table comes back on every answer. A sealed lookup believes no reply without a tag that the seal
/// accepts of who says it; any other never asks the seal. Strangers choose the contacts, so the hasher of the book's index is
/// handed in; no answer depends on it.
pub fn look_up<R: Threads + Wait + Sync, L: Link, C: PacedCheck + Sync, G: SealCheck>(
    rt: &R,
    alloc: Global,
    link: &mut L,
    words: &mut Words,
    table: Table,
    setting: &LookSetting,
    check: &C,
    seal: &G,
    hasher: RandomState,
) -> (Table, Result<Outcome, LookFault>)
    requires limits { IsWithinLimits setting.now }
    requires usable { All (IsUsable setting.now.own) (contacts_of table) }
    requires place { words.old.place < 2 ^ 59 }
    ensures looks { LooksUp (scheduling_by (C.slow check.now)) setting.now (G.accepted seal.now) table result.0 words.old words.new
        (L.told link.old) (L.told link.new) (L.recv_faults link.old) (L.recv_faults link.new) (L.send_faults link.old)
        (L.send_faults link.new) (L.kept link.old) (L.kept link.new) result.1 }
    ensures last { IsErrOf result.1 LookFault.LinkFault
        → FailsLast L.told L.recv_faults link.old link.new }
{
    let slow = check.is_slow();
    if !slow {
        return look_up_alone(alloc, link, words, table, setting, check, seal, hasher);
    }
    look_up_together(rt, alloc, link, words, table, setting, check, seal, hasher)
}
