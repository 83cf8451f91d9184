//! The passes of both turns, assigned to the workers and gathered again.
ghost use Rattle.std.specs.Prelude.{◌≡◌, ◌+◌, ◌-◌, ◌<◌, ◌≤◌, ◌++◌, ◌∷◌, [], map, length, vec_capacity};
ghost use Rattle.std.specs.List.{All, range_with_len};
ghost use Rattle.kad_base.specs.Limits.{max_paths};
ghost use Rattle.turn_book.specs.Turns.{fresh};
ghost use Rattle.path_worker.specs.Pool.{CanWork};
ghost use Rattle.path_worker.specs.Assignment.{assigned, book_passes, table_passes};

use crate::pool::Job;
use crate::worker::Worker;
use claim_book::Book;
use contact_table::Table;
use kad_base::{Policy, Serial};
use turn_book::{Pass, Passes, Turn};

/// Takes out the last pass, where those of the first `n` roles are left.
fn take_last<S: Serial>(turn: &Turn<S>, passes: &mut Passes<S>, n: u8) -> Pass<S>
    requires some { 0 < n }
    requires fresh { passes.old.passes ≡ map (fresh turn.now.id) (range_with_len 0 n) }
    ensures left { passes.new.passes ≡ map (fresh turn.now.id) (range_with_len 0 (n - 1)) }
    ensures room { passes.new.room ≡ passes.old.room }
    ensures last { result ≡ fresh turn.now.id (n - 1) }
{
    let _ = turn;
    let _ = n;
    let Some(pass) = passes.pop() else {
        unreachable!()
    };
    pass
}

/// Assigns all passes but those of role 0, which is no path's, to a worker for each path, the last path first.
pub(crate) fn assign(
    books: &Turn<Book>,
    tables: &Turn<Table>,
    book_row: &mut Passes<Book>,
    table_row: &mut Passes<Table>,
    policy: Policy,
    paths: u8,
    pool: &mut Vec<Job>,
)
    requires few { paths ≤ max_paths }
    requires books { book_row.old.passes ≡ map (fresh books.now.id) (range_with_len 0 (paths + 1)) }
    requires tables { table_row.old.passes ≡ map (fresh tables.now.id)
        (range_with_len 0 (paths + 1)) }
    requires empty { pool.old.items ≡ [] }
    requires room { paths ≤ vec_capacity pool.old }
    requires policy { policy ≡ books.now.start.setting.policy }
    ensures books { book_row.new.passes ≡ fresh books.now.id 0 ∷ [] }
    ensures tables { table_row.new.passes ≡ fresh tables.now.id 0 ∷ [] }
    ensures book_room { book_row.new.room ≡ book_row.old.room }
    ensures table_room { table_row.new.room ≡ table_row.old.room }
    ensures pool { pool.new.items ≡ assigned books.now tables.now policy 0 paths }
    ensures can { All (λ s. CanWork books.now tables.now s.worker) pool.new.items }
    ensures count { length pool.new.items ≡ paths }
{
    let mut left = paths;
    while left > 0 {
        let book = take_last(books, book_row, left + 1);
        let table = take_last(tables, table_row, left + 1);
        left -= 1;
        pool.push_reserved(Job {
            worker: Worker::new(left, book, table, policy),
            answer: Ok(0),
        });
    }
}

/// Puts the passes of all workers back.
pub(crate) fn gather(book_row: &mut Passes<Book>, table_row: &mut Passes<Table>, mut pool: Vec<Job>)
    requires book_room { length book_row.old.passes + length pool.items ≤ book_row.old.room }
    requires table_room { length table_row.old.passes + length pool.items ≤ table_row.old.room }
    ensures books { book_row.new.passes ≡ book_row.old.passes ++ book_passes pool.items }
    ensures tables { table_row.new.passes ≡ table_row.old.passes ++ table_passes pool.items }
{
    while let Some(job) = pool.pop() {
        let (book, table) = job.worker.into_passes();
        book_row.push(book);
        table_row.push(table);
    }
}
