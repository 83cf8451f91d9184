//! All paths settled at once: a worker for each, over a turn on the book and one on the routing table that are opened
//! for it and closed at its end.
ghost use Rattle.std.specs.Prelude.{◌≡◌, ◌+◌, ◌<◌, ◌≤◌, [], length, IfOk, IfErr, vec_capacity};
ghost use Rattle.kad_base.specs.Limits.{max_paths};
ghost use Rattle.turn_book.specs.Turns.{all_fresh, AreAll};
ghost use Rattle.path_worker.specs.Burst.{IsOpened};
ghost use Rattle.path_worker.specs.Assignment.{CameBack};
ghost use Rattle.path_worker.specs.Together.{SettlesTogether, StopsTogether};

use crate::assign::{assign, gather};
use crate::pool::{Job, answer_of, burst_all};
use claim_book::Book;
use contact_table::Table;
use kad_base::{Check, NoMemory, Policy};
use std::alloc::Global;
use std::sync::Wait;
use std::thread::Threads;
use turn_book::{Passes, Turn, TurnNoMemory};

/// Assigns the passes to a worker for each path, lets all workers make their bursts, and puts the passes back.
fn work<R: Threads + Wait + Sync, C: Check + Sync>(
    rt: &R,
    books: &Turn<Book>,
    tables: &Turn<Table>,
    check: &C,
    book_row: &mut Passes<Book>,
    table_row: &mut Passes<Table>,
    policy: Policy,
    paths: u8,
    mut pool: Vec<Job>,
) -> Result<(), NoMemory>
    requires few { paths ≤ max_paths }
    requires policy { policy ≡ books.now.start.setting.policy }
    requires opened { IsOpened books.now.start }
    requires book_roles { books.now.roles ≡ paths + 1 }
    requires table_roles { tables.now.roles ≡ paths + 1 }
    requires book_row { book_row.old.passes ≡ all_fresh books.now }
    requires table_row { table_row.old.passes ≡ all_fresh tables.now }
    requires book_room { book_row.old.room ≡ paths + 1 }
    requires table_room { table_row.old.room ≡ paths + 1 }
    requires empty { pool.items ≡ [] }
    requires room { paths ≤ vec_capacity pool }
    ensures books { AreAll books.now book_row.new.passes }
    ensures tables { AreAll tables.now table_row.new.passes }
    ensures back { CameBack books.now tables.now policy paths book_row.new.passes
        table_row.new.passes result }
{
    assign(books, tables, book_row, table_row, policy, paths, &mut pool);
    burst_all(rt, books, tables, check, &mut pool);
    let answer = answer_of(pool.as_slice());
    gather(book_row, table_row, pool);
    answer
}

/// Settles all that all paths have, at once: each path's worker does in a thread of its own what `settle_alone` does, and
/// all of them call one book and one table, in turn. `NoMemory` comes where there was none to open the turns, and then
/// nothing changed, or where the table had none for a contact that answered, who stays unsettled; the other paths are
/// settled before it comes, and what was done stands.
pub fn settle_together<R: Threads + Wait + Sync, C: Check + Sync>(
    rt: &R,
    alloc: Global,
    paths: u8,
    book: Book,
    table: Table,
    policy: Policy,
    check: &C,
) -> (Book, Table, Result<(), NoMemory>)
    requires some { 0 < paths }
    requires few { paths ≤ max_paths }
    requires paths { paths ≡ book.setting.paths }
    requires policy { policy ≡ book.setting.policy }
    requires small { book.setting.k < 256 }
    ensures ok { IfOk result.2 (λ u. SettlesTogether book result.0 table result.1) }
    ensures err { IfErr result.2 (λ e. StopsTogether book result.0 table result.1) }
{
    book.legal();
    let Ok(pool) = Vec::with_capacity(alloc, paths as usize) else {
        return (book, table, Err(NoMemory));
    };
    let (books, mut book_row) = match Turn::new(alloc, book, paths + 1) {
        Ok(opened) => opened,
        Err(TurnNoMemory { state }) => return (state, table, Err(NoMemory)),
    };
    let (tables, mut table_row) = match Turn::new(alloc, table, paths + 1) {
        Ok(opened) => opened,
        Err(TurnNoMemory { state }) => {
            let (book, _) = books.close(book_row);
            return (book, state, Err(NoMemory));
        }
    };
    let answer = work(
        rt,
        &books,
        &tables,
        check,
        &mut book_row,
        &mut table_row,
        policy,
        paths,
        pool,
    );
    let (book, _) = books.close(book_row);
    let (table, _) = tables.close(table_row);
    (book, table, answer)
}
