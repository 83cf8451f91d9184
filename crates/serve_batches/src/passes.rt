//! The passes of three turns, dealt to the workers and gathered again, and the slots of the workers.
ghost use Rattle.std.specs.Prelude.{◌≡◌, ◌-◌, ◌*◌, ◌<◌, ◌≤◌, ◌++◌, ◌∷◌, [], map, length, reverse, vec_capacity, IfOk};
ghost use Rattle.std.specs.List.{All, range_with_len};
ghost use Rattle.turn_book.specs.Turns.{fresh};
ghost use Rattle.serve_batches.specs.Crew.{HasSlots};
ghost use Rattle.serve_crew.specs.Opening.{AreEmpty, AreFresh};
ghost use Rattle.serve_batches.specs.Passes.{HavePasses, new_hands, workers_of};

use crate::receiving::MAX_BATCH;
use crate::shift::Shift;
use crate::slot::Slot;
use kad_base::{NoMemory, Serial};
use serve_crew::{Rows, ServeWorker, Turns};
use std::alloc::Global;
use turn_book::{Pass, Passes, Turn};

/// So many slots.
fn new_slots(alloc: Global, count: usize) -> Result<Vec<Slot>, NoMemory>
    ensures { IfOk result (λ v. length v.items ≡ count) }
{
    let mut slots = Vec::with_capacity(alloc, count)?;
    for i in 0..count {
        slots.push_reserved(Slot::empty());
    }
    Ok(slots)
}

/// The slots of each of n workers: enough for its share of a batch.
pub(crate) fn all_slots(alloc: Global, n: u8) -> Result<Vec<Vec<Slot>>, NoMemory>
    requires some { 0 < n }
    ensures count { IfOk result (λ v. length v.items ≡ n) }
    ensures room { IfOk result (λ v. All (λ s. 32 ≤ length s.items * n) v.items) }
{
    let mut all = Vec::with_capacity(alloc, n as usize)?;
    let count = (MAX_BATCH as usize).div_ceil(n as usize);
    for w in 0..n {
        all.push_reserved(new_slots(alloc, count)?);
    }
    Ok(all)
}

/// Takes out the last pass, where those of the first `n` roles are left.
fn take_last<S: Serial>(turn: &Turn<S>, passes: &mut Passes<S>, n: u8) -> Pass<S>
    requires some { 0 < n }
    requires fresh { passes.old.passes ≡ map (fresh turn.now.id) (range_with_len 0 n) }
    ensures left { passes.new.passes ≡ map (fresh turn.now.id) (range_with_len 0 (n - 1)) }
    ensures room { passes.new.room ≡ passes.old.room }
    ensures last { result ≡ fresh turn.now.id (n - 1) }
{
    let _ = turn;
    let _ = n;
    let Some(pass) = passes.pop() else {
        unreachable!()
    };
    pass
}

/// Takes out the last slots.
fn take_slots(slots: &mut Vec<Vec<Slot>>, n: u8) -> Vec<Slot>
    requires some { 0 < n }
    requires count { length slots.old.items ≡ n }
    ensures left { slots.old.items ≡ slots.new.items ++ result ∷ [] }
{
    let _ = n;
    let Some(last) = slots.pop() else {
        unreachable!()
    };
    last
}

/// Deals all passes to workers, the last role first.
fn deal_last(
    alloc: Global,
    turns: &Turns,
    rows: &mut Rows,
    mut slots: Vec<Vec<Slot>>,
    workers: u8,
    crew: &mut Vec<Shift>,
)
    requires fresh { AreFresh workers workers turns.now rows.old }
    requires slots { length slots.items ≡ workers }
    requires slot_room { All (λ s. 32 ≤ length s.items * workers) slots.items }
    requires empty { crew.old.items ≡ [] }
    requires room { workers ≤ vec_capacity crew.old }
    ensures dealt { AreEmpty workers workers rows.new }
    ensures crew { workers_of crew.new.items
        ≡ reverse (map (new_hands turns.now) (range_with_len 0 workers)) }
    ensures slots { All (HasSlots workers) crew.new.items }
{
    let mut left = workers;
    while left > 0 {
        let table = take_last(&turns.table, &mut rows.table, left);
        let peers = take_last(&turns.peers, &mut rows.peers, left);
        let items = take_last(&turns.items, &mut rows.items, left);
        let taken = take_slots(&mut slots, left);
        left -= 1;
        crew.push_reserved(Shift {
            worker: ServeWorker::new(alloc, table, peers, items),
            slots: taken,
            given: 0,
            at: 0,
        });
    }
}

/// Turns the crew round.
fn turn_round(crew: &mut Vec<Shift>)
    ensures { crew.new.items ≡ reverse crew.old.items }
{
    crew.as_mut_slice().reverse();
}

/// Deals all passes to workers: worker w has role w of each turn.
pub(crate) fn deal_passes(
    alloc: Global,
    turns: &Turns,
    rows: &mut Rows,
    slots: Vec<Vec<Slot>>,
    workers: u8,
    crew: &mut Vec<Shift>,
)
    requires fresh { AreFresh workers workers turns.now rows.old }
    requires slots { length slots.items ≡ workers }
    requires slot_room { All (λ s. 32 ≤ length s.items * workers) slots.items }
    requires empty { crew.old.items ≡ [] }
    requires room { workers ≤ vec_capacity crew.old }
    ensures dealt { AreEmpty workers workers rows.new }
    ensures crew { workers_of crew.new.items ≡ map (new_hands turns.now) (range_with_len 0 workers) }
    ensures slots { All (HasSlots workers) crew.new.items }
{
    deal_last(alloc, turns, rows, slots, workers, crew);
    turn_round(crew);
}

/// Puts the passes of all workers back.
pub(crate) fn gather_passes(rows: &mut Rows, mut crew: Vec<Shift>)
    requires { AreEmpty (length crew.items) (length crew.items) rows.old }
    ensures { HavePasses rows.new crew.items }
{
    while let Some(shift) = crew.pop() {
        let (table, peers, items) = shift.worker.into_passes();
        rows.table.push(table);
        rows.peers.push(peers);
        rows.items.push(items);
    }
}
