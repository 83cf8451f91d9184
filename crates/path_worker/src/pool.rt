//! The workers of all paths, each with its burst in a thread of its own.
ghost use Rattle.std.specs.Prelude.{◌≡◌, ◌↔◌, IsOk, IfOk, length};
ghost use Rattle.std.specs.List.{All};
ghost use Rattle.path_worker.specs.Burst.{IsOpened};
ghost use Rattle.path_worker.specs.Pool.{CanWork, Worked, AllWorked};

use crate::worker::Worker;
use claim_book::Book;
use contact_table::Table;
use kad_base::limits::MAX_PATHS;
use kad_base::{Check, NoMemory};
use std::sync::Wait;
use std::thread;
use std::thread::Threads;
use turn_book::Turn;

/// A worker, and the answer of its burst.
#[derive(Drop)]
pub(crate) struct Job {
    pub worker: Worker,
    pub answer: Result<u32, NoMemory>,
}

impl Job {
    fn work<R: Wait, C: Check>(&mut self, rt: &R, book: &Turn<Book>, table: &Turn<Table>, check: &C)
        requires can { CanWork book.now table.now self.old.worker }
        requires opened { IsOpened book.now.start }
        ensures { Worked book.now self.old self.new }
    {
        self.answer = self.worker.burst(rt, book, table, check);
    }
}

/// All bursts at once, and joined: each in a thread of its own, or by the caller where no thread can be made.
fn burst_each<R: Threads + Wait + Sync, C: Check + Sync>(
    rt: &R,
    book: &Turn<Book>,
    table: &Turn<Table>,
    check: &C,
    pool: &mut [Job],
)
    requires can { All (λ s. CanWork book.now table.now s.worker) pool.old }
    requires opened { IsOpened book.now.start }
    ensures len { length pool.new ≡ length pool.old }
    ensures each { AllWorked book.now pool.old pool.new }
{
    thread::for_each_mut(
        rt,
        pool,
        MAX_PATHS as usize,
        &|_: usize, job: &mut Job|
            requires can { CanWork book.now table.now job.old.worker }
            requires opened { IsOpened book.now.start }
            ensures { Worked book.entry.now job.old job.new }
        { job.work(rt, book, table, check) },
    );
}

/// The same over the pool's own list.
pub(crate) fn burst_all<R: Threads + Wait + Sync, C: Check + Sync>(
    rt: &R,
    book: &Turn<Book>,
    table: &Turn<Table>,
    check: &C,
    pool: &mut Vec<Job>,
)
    requires can { All (λ s. CanWork book.now table.now s.worker) pool.old.items }
    requires opened { IsOpened book.now.start }
    ensures len { length pool.new.items ≡ length pool.old.items }
    ensures each { AllWorked book.now pool.old.items pool.new.items }
{
    burst_each(rt, book, table, check, pool.as_mut_slice());
}

/// The answer of all workers together: that of the first that was without memory, if there is one.
pub(crate) fn answer_of(pool: &[Job]) -> Result<(), NoMemory>
    ensures { IsOk result ↔ All (λ s. IsOk s.answer) pool.now }
{
    for job in pool {
        if let Err(fault) = job.answer {
            return Err(fault);
        }
    }
    Ok(())
}
