//! The command `get`: looks for an immutable item (BEP 44), and makes the text of the first that is one of the key.
ghost use Rattle.std.specs.Prelude.{◌≡◌, ◌↔◌, ◌⊎◌, IfOk, IfErr, IsTrue, option_copied, IsErrOf};
ghost use Rattle.kad_base.specs.Failing.{FailsLast};
ghost use Rattle.command_base.specs.Called.{called_with};
ghost use Rattle.lookup_commands.specs.Got.{GetText, IsGot, IsItemOf, IsPrinted, get_promise};
ghost use Rattle.command_base.specs.Endings.{EndsUnasked, number_of};
ghost use Rattle.command_base.specs.Input.{ReadsAtMost};
ghost use Rattle.lookup_commands.specs.Looked.{LookupBegun};
ghost use Rattle.command_base.specs.Shown.{shown, shown_link};
ghost use Rattle.command_base.specs.Started.{IsInRange};

use crate::printed::print_item;
use crate::run_lookup::run_lookup;
use command_base::{Call, Status};
use item_store::{MAX_ITEM, item_key};
use kad_base::{Bytes, Id, Link, NoMemory, Source};
use kad_words::LookWords;
use lookup_run::{AskKind, Item, Outcome};
use path_worker::PacedCheck;
use seal_tags::{Seal, SealCheck};
use std::alloc::Global;
use std::sync::Wait;
use std::thread::Threads;

/// Whether what a contact gave is an item of the key. What is too long isn't hashed.
fn is_item_of(key: &Id, item: &Item) -> bool
    ensures { IsTrue result ↔ IsItemOf key.now item.now.v }
{
    let v = item.v.as_slice();
    if v.len() > MAX_ITEM {
        return false;
    }
    is_same(key, &item_key(v))
}

/// Whether two identifiers are one.
fn is_same(a: &Id, b: &Id) -> bool
    ensures { IsTrue result ↔ (a.now ≡ b.now) }
{
    a == b
}

/// The first of what the contacts gave that is an item of the key (BEP 44): `None` if none is. Takes no memory.
pub fn first_item<'a>(key: &Id, items: &'a [Item]) -> Option<&'a [u8]>
    ensures { IsGot key.now items.now (option_copied result) }
{
    for item in items {
        if is_item_of(key, item) {
            return Some(item.v.as_slice());
        }
    }
    None
}

/// The text of what a lookup for an item found.
fn text_of(alloc: Global, key: &Id, outcome: &Outcome) -> Result<Bytes, NoMemory>
    ensures { let o = outcome.now in
        IfOk result (λ text. IsPrinted key.now o text) }
{
    print_item(
        alloc,
        first_item(key, outcome.items.as_slice()),
        outcome.found.len(),
        &outcome.counts,
    )
}

/// Looks for the item, and makes the text of what was got, or says why there is none. Nothing is written yet.
pub fn get<R: Threads + Wait + Sync, S: Source, L: Link, C: PacedCheck + Sync, G: Seal + SealCheck>(
    rt: &R,
    alloc: Global,
    look: &LookWords,
    source: &mut S,
    link: &mut L,
    call: &Call<'_, C, G>,
) -> Result<Bytes, Status>
    requires { IsInRange look.now }
    ensures ok { IfOk result (GetText look.now
        (called_with call.now.random (C.slow call.now.check.now) (G.accepted call.now.seal.now)
        (G.tag_of call.now.seal.now))
        (shown S.left S.faults source.old source.new)
        (shown_link L.told L.recv_faults L.send_faults link.old link.new)) }
    ensures cause { IfErr result ((get_promise look.now).cause
        (called_with call.now.random (C.slow call.now.check.now) (G.accepted call.now.seal.now)
        (G.tag_of call.now.seal.now))
        (shown S.left S.faults source.old source.new)
        (shown_link L.told L.recv_faults L.send_faults link.old link.new)) }
    ensures no_memory { IfErr result (λ status. status ≡ Status.NoMemory →
        LookupBegun AskKind.GetItem look.now
        (called_with call.now.random (C.slow call.now.check.now) (G.accepted call.now.seal.now)
        (G.tag_of call.now.seal.now))
        (shown S.left S.faults source.old source.new)
        (shown_link L.told L.recv_faults L.send_faults link.old link.new) ⊎ (link.new ≡ link.old)) }
    ensures early { IfErr result (λ status. EndsUnasked (number_of status) → link.new ≡ link.old) }
    ensures kept { L.kept link.new ≡ L.kept link.old }
    ensures hears_well { ¬ IsErrOf result Status.LinkFault
        → L.recv_faults link.new ≡ L.recv_faults link.old }
    ensures hears_last { IsErrOf result Status.LinkFault
        → FailsLast L.told L.recv_faults link.old link.new }
    ensures at_most { ReadsAtMost (S.left source.old) (S.left source.new) }
    ensures reads_well { ¬ IsErrOf result Status.SourceFault
        → S.faults source.new ≡ S.faults source.old }
    ensures reads_last { IsErrOf result Status.SourceFault
        → FailsLast S.left S.faults source.old source.new }
{
    let kind = AskKind::GetItem;
    let reached = run_lookup(rt, alloc, kind, look, source, link, call)?;
    Ok(text_of(alloc, &look.target, &reached.outcome)?)
}
