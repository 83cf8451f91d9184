//! The command `lookup`: looks the target up, and makes the text of what it found.
ghost use Rattle.std.specs.Prelude.{◌≡◌, ◌⊎◌, IfOk, IfErr, IsErrOf};
ghost use Rattle.kad_base.specs.Failing.{FailsLast};
ghost use Rattle.command_base.specs.Called.{called_with};
ghost use Rattle.command_base.specs.Input.{ReadsAtMost};
ghost use Rattle.command_base.specs.Endings.{EndsUnasked, number_of};
ghost use Rattle.lookup_commands.specs.Looked.{LookupText, LookupBegun, lookup_promise};
ghost use Rattle.command_base.specs.Printed.{printed};
ghost use Rattle.command_base.specs.Started.{IsInRange};
ghost use Rattle.command_base.specs.Shown.{shown, shown_link};

use crate::run_lookup::run_lookup;
use command_base::printed::print;
use command_base::{Call, Status};
use kad_base::{Bytes, Link, NoMemory, Source};
use kad_words::LookWords;
use lookup_run::{AskKind, Outcome};
use path_worker::PacedCheck;
use seal_tags::{Seal, SealCheck};
use std::alloc::Global;
use std::sync::Wait;
use std::thread::Threads;

/// The text of what a lookup found.
fn text_of(alloc: Global, outcome: &Outcome) -> Result<Bytes, NoMemory>
    ensures { let counts = outcome.now.counts in
        IfOk result (λ text. text ≡ printed outcome.now.found counts.asked counts.failed
        counts.turned) }
{
    let counts = outcome.counts;
    print(
        alloc,
        outcome.found.as_slice(),
        counts.asked,
        counts.failed,
        counts.turned,
    )
}

/// Looks the target up and makes the text of what was found, or says why there is none. Nothing is written yet.
pub fn lookup<
    R: Threads + Wait + Sync,
    S: Source,
    L: Link,
    C: PacedCheck + Sync,
    G: Seal + SealCheck,
>(
    rt: &R,
    alloc: Global,
    look: &LookWords,
    source: &mut S,
    link: &mut L,
    call: &Call<'_, C, G>,
) -> Result<Bytes, Status>
    requires { IsInRange look.now }
    ensures ok { IfOk result (LookupText AskKind.FindNode look.now
        (called_with call.now.random (C.slow call.now.check.now) (G.accepted call.now.seal.now)
        (G.tag_of call.now.seal.now))
        (shown S.left S.faults source.old source.new)
        (shown_link L.told L.recv_faults L.send_faults link.old link.new)) }
    ensures cause { IfErr result ((lookup_promise look.now).cause
        (called_with call.now.random (C.slow call.now.check.now) (G.accepted call.now.seal.now)
        (G.tag_of call.now.seal.now))
        (shown S.left S.faults source.old source.new)
        (shown_link L.told L.recv_faults L.send_faults link.old link.new)) }
    ensures no_memory { IfErr result (λ status. status ≡ Status.NoMemory →
        LookupBegun AskKind.FindNode look.now
        (called_with call.now.random (C.slow call.now.check.now) (G.accepted call.now.seal.now)
        (G.tag_of call.now.seal.now))
        (shown S.left S.faults source.old source.new)
        (shown_link L.told L.recv_faults L.send_faults link.old link.new) ⊎ (link.new ≡ link.old)) }
    ensures early { IfErr result (λ status. EndsUnasked (number_of status) → link.new ≡ link.old) }
    ensures kept { L.kept link.new ≡ L.kept link.old }
    ensures hears_well { ¬ IsErrOf result Status.LinkFault
        → L.recv_faults link.new ≡ L.recv_faults link.old }
    ensures hears_last { IsErrOf result Status.LinkFault
        → FailsLast L.told L.recv_faults link.old link.new }
    ensures at_most { ReadsAtMost (S.left source.old) (S.left source.new) }
    ensures reads_well { ¬ IsErrOf result Status.SourceFault
        → S.faults source.new ≡ S.faults source.old }
    ensures reads_last { IsErrOf result Status.SourceFault
        → FailsLast S.left S.faults source.old source.new }
{
    let kind = AskKind::FindNode;
    let reached = run_lookup(rt, alloc, kind, look, source, link, call)?;
    Ok(text_of(alloc, &reached.outcome)?)
}
