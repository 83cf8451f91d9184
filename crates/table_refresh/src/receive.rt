//! One receive while a ping waits for its reply, and what it gave.
ghost use Rattle.std.specs.Prelude.{◌≡◌, ◌≤◌, ◌<◌, ◌+◌, length, Ok, IfOk, IfErr, OnOk, OnErr, IsErrOf};
ghost use Rattle.kad_base.specs.Limits.{max_datagram, max_strays};
ghost use Rattle.kad_base.specs.Failing.{FailsLast};
ghost use Rattle.kad_base.specs.Outside.{Rose, Happens};
ghost use Rattle.table_refresh.specs.declared.types.Tried.TheVariants as Tried;
ghost use Rattle.table_refresh.specs.Refreshed.{Stops};
ghost use Rattle.table_refresh.specs.inner.Steps.{FailsAt, TakesNone, TakesStray, TakesDatagram, StopsGot, Takes};

use crate::pong::{Pong, pong_of};
use crate::tell::{notify_failed, notify_seen};
use crate::types::{Progress, RefreshFault, Setting, Tried};
use kad_base::{Addr, Came, Link};
use lookup_core::stray_more;
use query_book::Query;
use seal_tags::SealCheck;
use std::alloc::Global;

/// The contact didn't answer in time, or refused to: the try is over.
fn fail(work: &mut Progress, query: &Query, at: u64) -> Tried
    ensures { FailsAt query.now at work.old work.new result }
{
    work.moment = at;
    let kept = notify_failed(&mut work.table, query.contact);
    Tried::Over { kept }
}

/// Takes no reply: the try is over at its deadline, and goes on before.
fn take_none(work: &mut Progress, query: &Query, at: u64) -> Tried
    ensures { TakesNone query.now at work.old work.new result }
{
    if query.deadline <= at {
        return fail(work, query, at);
    }
    work.moment = at;
    Tried::Waits
}

/// Takes a stray: only the last that a refresh takes is a fault.
fn take_stray(work: &mut Progress, query: &Query, at: u64) -> Result<Tried, RefreshFault>
    requires { work.old.strays < max_strays }
    ensures ok { IfOk result (TakesStray query.now at work.old work.new) }
    ensures err { IfErr result (λ fault. (fault ≡ RefreshFault.Strays)
        × (work.old.strays + 1 ≡ max_strays)) }
    ensures table { OnErr result (work.new.table ≡ work.old.table) }
{
    match stray_more(work.strays) {
        Some(strays) => {
            work.strays = strays;
            Ok(take_none(work, query, at))
        }
        None => Err(RefreshFault::Strays),
    }
}

/// Takes a datagram: what replies to the ping ends the try, and what doesn't is a stray.
fn take_datagram<G: SealCheck>(
    alloc: Global,
    work: &mut Progress,
    setting: &Setting,
    seal: &G,
    query: &Query,
    from: Addr,
    bytes: &[u8],
    at: u64,
) -> Result<Tried, RefreshFault>
    requires { work.old.strays < max_strays }
    ensures ok { IfOk result (TakesDatagram setting.now.sealed (G.accepted seal.now) query.now from
        bytes.now at work.old work.new) }
    ensures err { IfErr result (StopsGot setting.now.sealed (G.accepted seal.now) query.now from
        bytes.now work.old) }
    ensures table { OnErr result (work.new.table ≡ work.old.table) }
{
    match pong_of(alloc, setting, seal, query, from, bytes) {
        Ok(Pong::Stray) => take_stray(work, query, at),
        Ok(Pong::Answer) => {
            match notify_seen(&mut work.table, query.contact) {
                Ok(()) => {}
                Err(_) => return Err(RefreshFault::NoMemory),
            }
            work.moment = at;
            Ok(Tried::Over { kept: false })
        }
        Ok(Pong::Refusal) => Ok(fail(work, query, at)),
        Err(_) => Err(RefreshFault::NoMemory),
    }
}

/// Makes one receive call, which waits to the deadline of the ping, and takes what it gave.
pub(crate) fn receive<L: Link, G: SealCheck>(
    alloc: Global,
    link: &mut L,
    work: &mut Progress,
    buf: &mut [u8],
    setting: &Setting,
    query: &Query,
    seal: &G,
) -> Result<Tried, RefreshFault>
    requires room { length buf.old ≡ max_datagram + 1 }
    requires few { work.old.strays < max_strays }
    ensures ok { IfOk result (λ tried. Happens (L.told link.old) (L.told link.new)
        (Takes setting.now (G.accepted seal.now) query.now work.old work.new tried)) }
    ensures few { OnOk result (work.new.strays < max_strays) }
    ensures counts { result ≡ Ok Tried.Waits → work.old.strays < work.new.strays }
    ensures stops { IfErr result (λ fault. Happens (L.told link.old) (L.told link.new)
        (Stops setting.now.sealed (G.accepted seal.now) query.now work.old.strays fault)) }
    ensures table { OnErr result (work.new.table ≡ work.old.table) }
    ensures link { IsErrOf result RefreshFault.LinkFault
        → Rose (L.recv_faults link.old) (L.recv_faults link.new) }
    ensures last { IsErrOf result RefreshFault.LinkFault
        → FailsLast L.told L.recv_faults link.old link.new }
    ensures recv_faults { L.recv_faults link.old ≤ L.recv_faults link.new }
    ensures well { ¬ IsErrOf result RefreshFault.LinkFault
        → L.recv_faults link.new ≡ L.recv_faults link.old }
    ensures kept { L.kept link.new ≡ L.kept link.old }
{
    match link.recv(buf, query.deadline) {
        Ok(Came::Packet { from, len, at }) => {
            take_datagram(alloc, work, setting, seal, query, from, &buf[..len], at)
        }
        Ok(Came::Quiet { at }) => Ok(take_none(work, query, at)),
        Err(_) => Err(RefreshFault::LinkFault),
    }
}
