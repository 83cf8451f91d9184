//! The command `put`: looks up the key of an immutable item (BEP 44), gives the item to the contacts of the result, or spread
//! over the paths to the k closest of each, and makes the text of its key and of how many were given it.
ghost use Rattle.std.specs.Prelude.{◌≡◌, ◌⊎◌, IfOk, IfErr, IsErrOf};
ghost use Rattle.kad_base.specs.Failing.{FailsLast};
ghost use Rattle.item_store.specs.Items.{IsItem};
ghost use Rattle.lookup_core.specs.declared.quest.AskKind.TheVariants.{GetItem};
ghost use Rattle.command_base.specs.Called.{called_with};
ghost use Rattle.lookup_commands.specs.Stored.{PutBegun, PutText, put_promise};
ghost use Rattle.command_base.specs.Endings.{EndsUnasked, number_of};
ghost use Rattle.command_base.specs.Input.{ReadsAtMost};
ghost use Rattle.lookup_commands.specs.Looked.{LookupCause};
ghost use Rattle.command_base.specs.Shown.{shown, shown_link};
ghost use Rattle.command_base.specs.Started.{IsInRange};

use crate::follow::follow_up;
use crate::item::is_item;
use crate::printed::print_stored;
use crate::run_lookup::{Reached, run_lookup};
use command_base::{Call, Status};
use follow_ups::announce::Said;
use kad_base::{Bytes, Link, NoMemory, Source};
use kad_words::LookWords;
use lookup_run::AskKind;
use path_worker::PacedCheck;
use seal_tags::{Seal, SealCheck};
use std::alloc::Global;
use std::sync::Wait;
use std::thread::Threads;

/// Stores the item, if the bytes may be one, and makes the text of its key and of how many were given it, or says why there is
/// none. Nothing is written yet.
pub fn put<R: Threads + Wait + Sync, S: Source, L: Link, C: PacedCheck + Sync, G: Seal + SealCheck>(
    rt: &R,
    alloc: Global,
    look: &LookWords,
    item: &[u8],
    spread: bool,
    source: &mut S,
    link: &mut L,
    call: &Call<'_, C, G>,
) -> Result<Bytes, Status>
    requires { IsInRange look.now }
    ensures ok { IfOk result ((put_promise look.now item.now spread).text
        (called_with call.now.random (C.slow call.now.check.now) (G.accepted call.now.seal.now)
        (G.tag_of call.now.seal.now))
        (shown S.left S.faults source.old source.new)
        (shown_link L.told L.recv_faults L.send_faults link.old link.new)) }
    ensures cause { IfErr result ((put_promise look.now item.now spread).cause
        (called_with call.now.random (C.slow call.now.check.now) (G.accepted call.now.seal.now)
        (G.tag_of call.now.seal.now))
        (shown S.left S.faults source.old source.new)
        (shown_link L.told L.recv_faults L.send_faults link.old link.new)) }
    ensures no_memory { IfErr result (λ status. status ≡ Status.NoMemory →
        PutBegun look.now item.now spread
        (called_with call.now.random (C.slow call.now.check.now) (G.accepted call.now.seal.now)
        (G.tag_of call.now.seal.now))
        (shown S.left S.faults source.old source.new)
        (shown_link L.told L.recv_faults L.send_faults link.old link.new) ⊎ (link.new ≡ link.old)) }
    ensures unread { IfErr result (λ status. number_of status ≡ 12 → source.new ≡ source.old) }
    ensures early { IfErr result (λ status. EndsUnasked (number_of status) → link.new ≡ link.old) }
    ensures kept { L.kept link.new ≡ L.kept link.old }
    ensures hears_well { ¬ IsErrOf result Status.LinkFault
        → L.recv_faults link.new ≡ L.recv_faults link.old }
    ensures hears_last { IsErrOf result Status.LinkFault
        → FailsLast L.told L.recv_faults link.old link.new }
    ensures at_most { ReadsAtMost (S.left source.old) (S.left source.new) }
    ensures reads_well { ¬ IsErrOf result Status.SourceFault
        → S.faults source.new ≡ S.faults source.old }
    ensures reads_last { IsErrOf result Status.SourceFault
        → FailsLast S.left S.faults source.old source.new }
{
    match is_item(alloc, item) {
        Ok(true) => store(rt, alloc, look, item, spread, source, link, call),
        Ok(false) => Err(Status::BadValue),
        Err(NoMemory) => Err(Status::NoMemory),
    }
}

/// The same of bytes that may be an item.
fn store<R: Threads + Wait + Sync, S: Source, L: Link, C: PacedCheck + Sync, G: Seal + SealCheck>(
    rt: &R,
    alloc: Global,
    look: &LookWords,
    item: &[u8],
    spread: bool,
    source: &mut S,
    link: &mut L,
    call: &Call<'_, C, G>,
) -> Result<Bytes, Status>
    requires range { IsInRange look.now }
    requires item { IsItem item.now }
    ensures ok { IfOk result (PutText look.now item.now spread
        (called_with call.now.random (C.slow call.now.check.now) (G.accepted call.now.seal.now)
        (G.tag_of call.now.seal.now))
        (shown S.left S.faults source.old source.new)
        (shown_link L.told L.recv_faults L.send_faults link.old link.new)) }
    ensures cause { IfErr result (LookupCause GetItem look.now
        (called_with call.now.random (C.slow call.now.check.now) (G.accepted call.now.seal.now)
        (G.tag_of call.now.seal.now))
        (shown S.left S.faults source.old source.new)
        (shown_link L.told L.recv_faults L.send_faults link.old link.new)) }
    ensures no_memory { IfErr result (λ status. status ≡ Status.NoMemory →
        PutBegun look.now item.now spread
        (called_with call.now.random (C.slow call.now.check.now) (G.accepted call.now.seal.now)
        (G.tag_of call.now.seal.now))
        (shown S.left S.faults source.old source.new)
        (shown_link L.told L.recv_faults L.send_faults link.old link.new) ⊎ (link.new ≡ link.old)) }
    ensures early { IfErr result (λ status. EndsUnasked (number_of status) → link.new ≡ link.old) }
    ensures kept { L.kept link.new ≡ L.kept link.old }
    ensures hears_well { ¬ IsErrOf result Status.LinkFault
        → L.recv_faults link.new ≡ L.recv_faults link.old }
    ensures hears_last { IsErrOf result Status.LinkFault
        → FailsLast L.told L.recv_faults link.old link.new }
    ensures at_most { ReadsAtMost (S.left source.old) (S.left source.new) }
    ensures reads_well { ¬ IsErrOf result Status.SourceFault
        → S.faults source.new ≡ S.faults source.old }
    ensures reads_last { IsErrOf result Status.SourceFault
        → FailsLast S.left S.faults source.old source.new }
{
    let kind = AskKind::GetItem;
    let reached = run_lookup(rt, alloc, kind, look, source, link, call)?;
    let Reached {
        own,
        outcome,
        mut words,
    } = reached;
    let said = Said::Item { own, v: item };
    let stored = follow_up(alloc, link, &mut words, &said, look, spread, &outcome)?;
    let found = outcome.found.len();
    Ok(print_stored(alloc, &look.target, found, &outcome.counts, stored)?)
}
