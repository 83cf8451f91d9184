//! One receive call, and what it gave.
ghost use Rattle.std.specs.Prelude.{◌≡◌, ◌≢◌, ◌≤◌, ◌<◌, ◌+◌, [], length, IfErr, OnOk, OnErr, IsErrOf};
ghost use Rattle.kad_base.specs.Limits.{max_datagram, max_strays};
ghost use Rattle.kad_base.specs.Failing.{FailsLast};
ghost use Rattle.kad_base.specs.Outside.{Rose};
ghost use Rattle.id_puzzles.specs.Drawn.{WordsState};
ghost use Rattle.lookup_core.specs.LookupSteps.{Holds};
ghost use Rattle.lookup_run.specs.Lookup.{IsWithinLimits};
ghost use Rattle.lookup_run.specs.inner.DriverInvariant.{Keeps};
ghost use Rattle.lookup_run.specs.inner.RoundSteps.{WaitsFor, TakesStray, TakesDatagram, IsLastStray, MayReceive, ReceivesOne, ReceivesAll, Stops, EndsByStray, FewStrays};

use crate::on_reply::expire;
use crate::types::{LookFault, LookSetting, LookupState, Progress};
use kad_base::{Addr, Came, Link};
use lookup_core::{Lookup, Taken, keep, round_after, stray_more, wait_until};
use seal_tags::SealCheck;
use std::alloc::Global;

/// How long the next receive waits.
fn wait_for(progress: &Progress, lookup: &Lookup) -> u64
    requires { lookup.now.queries ≢ [] }
    ensures { WaitsFor progress.now.receives progress.now.moment lookup.now.queries result }
{
    match lookup.earliest() {
        Some(deadline) => wait_until(progress.receives, progress.moment, deadline),
        None => unreachable!(),
    }
}

/// Takes a stray: only the last that a lookup takes is a fault.
fn take_stray(progress: &mut Progress) -> Result<(), LookFault>
    requires { progress.old.strays < max_strays }
    ensures ok { OnOk result (TakesStray progress.old progress.new) }
    ensures err { IfErr result (λ fault. (fault ≡ LookFault.Strays)
        × (progress.old.strays + 1 ≡ max_strays)) }
{
    match stray_more(progress.strays) {
        Some(strays) => {
            progress.strays = strays;
            Ok(())
        }
        None => Err(LookFault::Strays),
    }
}

/// Hands the datagram to the lookup, and keeps what it heard; what replies to no open query is a stray.
fn take_datagram<G: SealCheck>(
    alloc: Global,
    work: &mut LookupState,
    look: &LookSetting,
    seal: &G,
    from: Addr,
    bytes: &[u8],
) -> Result<(), LookFault>
    requires { Keeps look.now work.old }
    ensures ok { OnOk result (TakesDatagram look.now (G.accepted seal.now) from bytes.now
        work.old work.new) }
    ensures strays { IsErrOf result LookFault.Strays → IsLastStray look.now (G.accepted seal.now)
        from bytes.now work.old }
    ensures link { ¬ IsErrOf result LookFault.LinkFault }
    ensures holds { OnOk result (Holds work.new.lookup) }
    ensures table { work.new.table ≡ work.old.table }
{
    let taken = work.lookup.take(alloc, &look.quest(), seal, from, bytes)?;
    match taken {
        Taken::Stray => take_stray(&mut work.progress),
        Taken::Heard(answered) => {
            keep(alloc, &mut work.gathered, look.kind, answered)?;
            Ok(())
        }
        Taken::Lost => Ok(()),
    }
}

/// Makes one receive call, and tells the book what it gave: the reply to an open query, and whose deadlines the told
/// moment has passed.
pub(crate) fn receive<L: Link, G: SealCheck>(
    alloc: Global,
    link: &mut L,
    work: &mut LookupState,
    buf: &mut [u8],
    look: &LookSetting,
    seal: &G,
) -> Result<(), LookFault>
    requires limits { IsWithinLimits look.now }
    requires may_receive { MayReceive look.now work.old }
    requires room { length buf.old ≡ max_datagram + 1 }
    requires moment { L.moment link.old ≡ work.old.progress.moment }
    ensures ok { OnOk result (ReceivesOne look.now (G.accepted seal.now) work.old work.new (L.told link.old)
        (L.told link.new)) }
    ensures moment { OnOk result (L.moment link.new ≡ work.new.progress.moment) }
    ensures stops { OnErr result ((words : WordsState)
        → Stops look.now (G.accepted seal.now) words words work.old work.new (L.told link.old) (L.told link.new)) }
    ensures strays { IsErrOf result LookFault.Strays → (words : WordsState)
        → EndsByStray look.now (G.accepted seal.now) words work.old (L.told link.old) (L.told link.new) }
    ensures few_strays { IsErrOf result LookFault.LinkFault → (words : WordsState)
        → FewStrays look.now (G.accepted seal.now) words work.old (L.told link.old) (L.told link.new) }
    ensures link { IsErrOf result LookFault.LinkFault
        → Rose (L.recv_faults link.old) (L.recv_faults link.new) }
    ensures last { IsErrOf result LookFault.LinkFault
        → FailsLast L.told L.recv_faults link.old link.new }
    ensures recv_faults { L.recv_faults link.old ≤ L.recv_faults link.new }
    ensures well { ¬ IsErrOf result LookFault.LinkFault
        → L.recv_faults link.new ≡ L.recv_faults link.old }
    ensures send_faults { L.send_faults link.new ≡ L.send_faults link.old }
    ensures kept { L.kept link.new ≡ L.kept link.old }
{
    work.lookup.book.legal();
    let until = wait_for(&work.progress, &work.lookup);
    match link.recv(buf, until) {
        Ok(Came::Packet { from, len, at }) => {
            take_datagram(alloc, work, look, seal, from, &buf[..len])?;
            expire(work, at);
            work.progress.moment = at;
            work.progress.receives = round_after(work.progress.receives, work.lookup.earliest());
            Ok(())
        }
        Ok(Came::Quiet { at }) => {
            expire(work, at);
            work.progress.moment = at;
            work.progress.receives = 0;
            Ok(())
        }
        Err(_) => Err(LookFault::LinkFault),
    }
}

/// Makes the receives of a round: one that waits to the earliest deadline, and up to 31 more that wait for nothing.
pub(crate) fn receive_round<L: Link, G: SealCheck>(
    alloc: Global,
    link: &mut L,
    work: &mut LookupState,
    buf: &mut [u8],
    look: &LookSetting,
    seal: &G,
) -> Result<(), LookFault>
    requires limits { IsWithinLimits look.now }
    requires may_receive { MayReceive look.now work.old }
    requires begins { work.old.progress.receives ≡ 0 }
    requires room { length buf.old ≡ max_datagram + 1 }
    requires moment { L.moment link.old ≡ work.old.progress.moment }
    ensures ok { OnOk result (ReceivesAll look.now (G.accepted seal.now) work.old work.new (L.told link.old)
        (L.told link.new)) }
    ensures moment { OnOk result (L.moment link.new ≡ work.new.progress.moment) }
    ensures stops { OnErr result ((words : WordsState)
        → Stops look.now (G.accepted seal.now) words words work.old work.new (L.told link.old) (L.told link.new)) }
    ensures strays { IsErrOf result LookFault.Strays → (words : WordsState)
        → EndsByStray look.now (G.accepted seal.now) words work.old (L.told link.old) (L.told link.new) }
    ensures few_strays { IsErrOf result LookFault.LinkFault → (words : WordsState)
        → FewStrays look.now (G.accepted seal.now) words work.old (L.told link.old) (L.told link.new) }
    ensures link { IsErrOf result LookFault.LinkFault
        → Rose (L.recv_faults link.old) (L.recv_faults link.new) }
    ensures last { IsErrOf result LookFault.LinkFault
        → FailsLast L.told L.recv_faults link.old link.new }
    ensures recv_faults { L.recv_faults link.old ≤ L.recv_faults link.new }
    ensures well { ¬ IsErrOf result LookFault.LinkFault
        → L.recv_faults link.new ≡ L.recv_faults link.old }
    ensures send_faults { L.send_faults link.new ≡ L.send_faults link.old }
    ensures kept { L.kept link.new ≡ L.kept link.old }
{
    receive(alloc, link, work, buf, look, seal)?;
    'receiving: while work.progress.receives != 0 {
        receive(alloc, link, work, buf, look, seal)?;
    }
    Ok(())
}
