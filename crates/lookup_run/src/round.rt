//! The rounds of a lookup.
ghost use Rattle.std.specs.Prelude.{◌≡◌, ◌≤◌, ◌+◌, length, true, false, IfOk, OnOk, OnErr, IsErrOf};
ghost use Rattle.kad_base.specs.Limits.{max_datagram};
ghost use Rattle.kad_base.specs.Failing.{FailsLast};
ghost use Rattle.kad_base.specs.Outside.{Rose};
ghost use Rattle.lookup_run.specs.Lookup.{IsWithinLimits};
ghost use Rattle.lookup_run.specs.Rounds.{Scheduling};
ghost use Rattle.lookup_core.specs.SendFaults.{Refuses};
ghost use Rattle.lookup_run.specs.inner.RoundSteps.{MaySettle, Settles, Begins, HasReceived, IsOver, StopsRound, RoundEndsByStray, RoundFewStrays};

use crate::ask::ask_all;
use crate::receive::receive_round;
use crate::settle::Schedule;
use crate::types::{LookFault, LookSetting, LookupState};
use id_puzzles::Words;
use kad_base::Link;
use kad_base::limits::RECEIVE_ROOM;
use seal_tags::SealCheck;
use std::alloc::Global;

/// Asks what may be asked, and receives; false where nothing was left to wait for.
fn ask_and_receive<L: Link, G: SealCheck>(
    alloc: Global,
    link: &mut L,
    work: &mut LookupState,
    words: &mut Words,
    buf: &mut [u8],
    look: &LookSetting,
    seal: &G,
) -> Result<bool, LookFault>
    requires limits { IsWithinLimits look.now }
    requires begins { Begins look.now words.old work.old }
    requires room { length buf.old ≡ max_datagram + 1 }
    requires moment { L.moment link.old ≡ work.old.progress.moment }
    ensures more { IfOk result (λ more. more ≡ true
        → HasReceived look.now (G.accepted seal.now) words.old words.new work.old work.new (L.told link.old)
        (L.told link.new)) }
    ensures over { (scheduling : Scheduling) → IfOk result
        (λ more. more ≡ false → IsOver scheduling look.now (G.accepted seal.now) words.old words.new
        work.old work.new (L.told link.old) (L.told link.new)) }
    ensures moment { OnOk result (L.moment link.new ≡ work.new.progress.moment) }
    ensures stops { (scheduling : Scheduling) → OnErr result
        (StopsRound scheduling look.now (G.accepted seal.now) words.old words.new work.old work.new
        (L.told link.old) (L.told link.new) (L.send_faults link.old) (L.send_faults link.new)) }
    ensures strays { (scheduling : Scheduling) → IsErrOf result LookFault.Strays
        → RoundEndsByStray scheduling look.now (G.accepted seal.now) words.old work.old
        (L.told link.old) (L.told link.new) }
    ensures few_strays { (scheduling : Scheduling) → IsErrOf result LookFault.LinkFault
        → RoundFewStrays scheduling look.now (G.accepted seal.now) words.old work.old
        (L.told link.old) (L.told link.new) }
    ensures link { IsErrOf result LookFault.LinkFault
        → Rose (L.recv_faults link.old) (L.recv_faults link.new) }
    ensures last { IsErrOf result LookFault.LinkFault
        → FailsLast L.told L.recv_faults link.old link.new }
    ensures recv_faults { L.recv_faults link.old ≤ L.recv_faults link.new }
    ensures well { ¬ IsErrOf result LookFault.LinkFault
        → L.recv_faults link.new ≡ L.recv_faults link.old }
    ensures refuses { OnOk result (Refuses work.old.lookup.book.journal work.new.lookup.book.journal
        (L.send_faults link.old) (L.send_faults link.new)) }
    ensures kept { L.kept link.new ≡ L.kept link.old }
{
    ask_all(link, work, words, look);
    if work.lookup.queries.is_empty() {
        return Ok(false);
    }
    match receive_round(alloc, link, work, buf, look, seal) {
        Ok(()) => Ok(true),
        Err(fault) => Err(fault),
    }
}

/// Goes round until every path has run out. What the paths have after a round, `settle` settles.
pub(crate) fn go_rounds<
    O: Schedule,
    L: Link,
    G: SealCheck,
    S: Fn(LookupState) -> (LookupState, Result<(), LookFault>),
>(
    alloc: Global,
    link: &mut L,
    work: LookupState,
    words: &mut Words,
    look: &LookSetting,
    seal: &G,
    settle: S,
) -> (LookupState, Result<(), LookFault>)
    requires limits { IsWithinLimits look.now }
    requires begins { Begins look.now words.old work }
    requires moment { L.moment link.old ≡ work.progress.moment }
    requires callable { (before : LookupState) → MaySettle look.now before → S.pre settle before }
    requires settles { (before : LookupState) (after : _) → MaySettle look.now before
        → S.post settle before after → Settles O.scheduling look.now before after.0 after.1 }
    ensures over { OnOk result.1 (IsOver O.scheduling look.now (G.accepted seal.now) words.old words.new work result.0
        (L.told link.old) (L.told link.new)) }
    ensures stops { OnErr result.1 (StopsRound O.scheduling look.now (G.accepted seal.now) words.old words.new work result.0
        (L.told link.old) (L.told link.new) (L.send_faults link.old) (L.send_faults link.new)) }
    ensures strays { IsErrOf result.1 LookFault.Strays
        → RoundEndsByStray O.scheduling look.now (G.accepted seal.now) words.old work (L.told link.old) (L.told link.new) }
    ensures few_strays { IsErrOf result.1 LookFault.LinkFault
        → RoundFewStrays O.scheduling look.now (G.accepted seal.now) words.old work (L.told link.old) (L.told link.new) }
    ensures link { IsErrOf result.1 LookFault.LinkFault
        → Rose (L.recv_faults link.old) (L.recv_faults link.new) }
    ensures last { IsErrOf result.1 LookFault.LinkFault
        → FailsLast L.told L.recv_faults link.old link.new }
    ensures recv_faults { L.recv_faults link.old ≤ L.recv_faults link.new }
    ensures well { ¬ IsErrOf result.1 LookFault.LinkFault
        → L.recv_faults link.new ≡ L.recv_faults link.old }
    ensures refuses { OnOk result.1 (Refuses work.lookup.book.journal result.0.lookup.book.journal
        (L.send_faults link.old) (L.send_faults link.new)) }
    ensures kept { L.kept link.new ≡ L.kept link.old }
{
    let mut work = work;
    let mut buf = [0u8; RECEIVE_ROOM];
    'rounds: loop {
        match ask_and_receive(alloc, link, &mut work, words, &mut buf, look, seal) {
            Ok(true) => {}
            Ok(false) => return (work, Ok(())),
            Err(fault) => return (work, Err(fault)),
        }
        let (after, settled) = settle(work);
        work = after;
        match settled {
            Ok(()) => {}
            Err(fault) => return (work, Err(fault)),
        }
    }
}
