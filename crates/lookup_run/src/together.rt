//! Settling all paths at once, each on a thread of its own.
ghost use Rattle.std.specs.Prelude.{◌≡◌, ◌≤◌, ◌↔◌, IsTrue};
ghost use Rattle.kad_base.specs.Limits.{max_paths};
ghost use Rattle.lookup_run.specs.Rounds.{concurrent, HasSeveral};
ghost use Rattle.lookup_run.specs.inner.RoundSteps.{MaySettle, Settles};

use crate::settle::settle_paths;
use crate::types::{LookFault, LookSetting, LookupState};
use claim_book::Book;
use kad_base::{Check, NoMemory};
use lookup_core::{Lookup, has_some};
use path_worker::settle_together;
use std::alloc::Global;
use std::sync::Wait;
use std::thread::Threads;

/// Whether more than one path has something to settle: for one alone no thread is worth its making.
fn has_several(book: &mut Book, paths: u8) -> bool
    requires { paths ≤ max_paths }
    ensures same { book.new ≡ book.old }
    ensures several { IsTrue result ↔ HasSeveral paths book.old.journal }
{
    let mut some = false;
    for path in 0..paths {
        if !has_some(book, path) {
            continue;
        }
        if some {
            return true;
        }
        some = true;
    }
    false
}

/// Settles all that the paths have: each on a thread of its own if more than one has something to settle, else path by path.
pub(crate) fn settle_each<R: Threads + Wait + Sync, C: Check + Sync>(
    rt: &R,
    alloc: Global,
    work: LookupState,
    look: &LookSetting,
    check: &C,
) -> (LookupState, Result<(), LookFault>)
    requires { MaySettle look.now work }
    ensures { Settles concurrent look.now work result.0 result.1 }
{
    let mut work = work;
    if !has_several(&mut work.lookup.book, look.paths) {
        return settle_paths(work, look, check);
    }
    work.lookup.book.legal();
    let LookupState {
        lookup,
        table,
        progress,
        gathered,
    } = work;
    let Lookup { book, queries } = lookup;
    let (book, table, settled) = settle_together(
        rt,
        alloc,
        look.paths,
        book,
        table,
        look.policy,
        check,
    );
    let work = LookupState {
        lookup: Lookup { book, queries },
        table,
        progress,
        gathered,
    };
    match settled {
        Ok(()) => (work, Ok(())),
        Err(NoMemory) => (work, Err(LookFault::NoMemory)),
    }
}
