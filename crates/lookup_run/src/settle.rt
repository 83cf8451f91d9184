//! Settling what the answers of a round gave.
ghost use Rattle.std.specs.Prelude.{◌≡◌, ◌<◌, ◌+◌, List, Option, IfErr, OnOk, OnErr};
ghost use Rattle.kad_base.specs.declared.types.Event.{Event};
ghost use Rattle.lookup_run.specs.Rounds.{Scheduling, AllSettled, concurrent, sequential};
ghost use Rattle.lookup_run.specs.Lookup.{IsWithinLimits, TableRan};
ghost use Rattle.lookup_run.specs.inner.DriverInvariant.{Keeps};
ghost use Rattle.lookup_run.specs.inner.RoundSteps.{MaySettle, SettlesPaths, Settles};

use crate::types::{LookFault, LookSetting, LookupState};
use kad_base::Check;
use path_worker::settle_alone;

/// How the rounds of a lookup settle what their paths have. It is for contracts: no code asks for it.
pub(crate) trait Schedule {
    ghost scheduling: { Scheduling };
}

/// One path after another, on the caller's own thread.
pub(crate) struct Sequential;

impl Schedule for Sequential {
    ghost scheduling = { sequential };
}

/// All paths at once.
pub(crate) struct Concurrent;

impl Schedule for Concurrent {
    ghost scheduling = { concurrent };
}

/// Settles all that the path has, and tells the table who answered.
fn settle_path<C: Check>(
    work: &mut LookupState,
    look: &LookSetting,
    check: &C,
    path: u8,
) -> Result<(), LookFault>
    requires limits { IsWithinLimits look.now }
    requires path { path < look.now.paths }
    requires keeps { Keeps look.now work.old }
    requires round_over { work.old.progress.receives ≡ 0 }
    requires settled { AllSettled path work.old.lookup.book.journal }
    ensures ok { (scheduling : Scheduling) (told : Option (List Event))
        → OnOk result (SettlesPaths scheduling look.now path (path + 1) work.old work.new told) }
    ensures ran { OnErr result (TableRan work.old.table work.new.table) }
    ensures fault { IfErr result (λ fault. fault ≡ LookFault.NoMemory) }
{
    settle_alone(
        path,
        &mut work.lookup.book,
        &mut work.table,
        look.policy,
        check,
    )?;
    Ok(())
}

/// Settles all that the paths have, path by path.
pub(crate) fn settle_paths<C: Check>(
    work: LookupState,
    look: &LookSetting,
    check: &C,
) -> (LookupState, Result<(), LookFault>)
    requires { MaySettle look.now work }
    ensures { (scheduling : Scheduling) → Settles scheduling look.now work result.0 result.1 }
{
    let mut work = work;
    work.lookup.book.legal();
    for path in 0..look.paths {
        match settle_path(&mut work, look, check, path) {
            Ok(()) => {}
            Err(fault) => return (work, Err(fault)),
        }
    }
    (work, Ok(()))
}
