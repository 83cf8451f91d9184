//! The one or two tries of a contact: the head of those that are left.
ghost use Rattle.std.specs.Prelude.{◌≡◌, ◌≤◌, ◌<◌, ◌+◌, ◌^◌, ◌∷◌, [], length, IfOk, IfErr, OnOk, IsErrOf};
ghost use Rattle.kad_base.specs.Limits.{max_datagram, max_strays};
ghost use Rattle.kad_base.specs.Failing.{FailsLast};
ghost use Rattle.kad_base.specs.Outside.{Rose, Happens};
ghost use Rattle.table_refresh.specs.inner.Steps.{Awaits, AwaitEnds, Tries, TryEnds, PingsThese, TheseEnd};

use crate::ping::{open_ping, send_ping};
use crate::receive::receive;
use crate::tell::notify_failed;
use crate::types::{Progress, RefreshFault, Setting, Tried};
use id_puzzles::Words;
use kad_base::{Contact, Link};
use query_book::Query;
use seal_tags::SealCheck;
use std::alloc::Global;

/// Receives until the try is over; true where the head failed, and the table keeps it.
fn await_reply<L: Link, G: SealCheck>(
    alloc: Global,
    link: &mut L,
    work: &mut Progress,
    buf: &mut [u8],
    setting: &Setting,
    query: &Query,
    seal: &G,
) -> Result<bool, RefreshFault>
    requires room { length buf.old ≡ max_datagram + 1 }
    requires few { work.old.strays < max_strays }
    ensures ok { IfOk result (λ kept. Happens (L.told link.old) (L.told link.new)
        (Awaits setting.now (G.accepted seal.now) query.now work.old work.new kept)) }
    ensures few { OnOk result (work.new.strays < max_strays) }
    ensures ends { IfErr result (λ fault. Happens (L.told link.old) (L.told link.new)
        (AwaitEnds setting.now (G.accepted seal.now) query.now work.old work.new.table fault)) }
    ensures link { IsErrOf result RefreshFault.LinkFault
        → Rose (L.recv_faults link.old) (L.recv_faults link.new) }
    ensures last { IsErrOf result RefreshFault.LinkFault
        → FailsLast L.told L.recv_faults link.old link.new }
    ensures recv_faults { L.recv_faults link.old ≤ L.recv_faults link.new }
    ensures well { ¬ IsErrOf result RefreshFault.LinkFault
        → L.recv_faults link.new ≡ L.recv_faults link.old }
    ensures kept { L.kept link.new ≡ L.kept link.old }
{
    'waiting: loop {
        match receive(alloc, link, work, buf, setting, query, seal) {
            Ok(Tried::Waits) => {}
            Ok(Tried::Over { kept }) => return Ok(kept),
            Err(fault) => return Err(fault),
        }
    }
}

/// Pings the head once, and tells the table what came of it; true where the head failed, and the table keeps it. A ping
/// that can't be sent is a whole try.
fn try_head<L: Link, G: SealCheck>(
    alloc: Global,
    link: &mut L,
    words: &mut Words,
    work: &mut Progress,
    buf: &mut [u8],
    setting: &Setting,
    head: Contact,
    seal: &G,
) -> Result<bool, RefreshFault>
    requires room { length buf.old ≡ max_datagram + 1 }
    requires few { work.old.strays < max_strays }
    requires place { words.old.place < 2 ^ 60 }
    ensures ok { IfOk result (λ kept. Happens (L.told link.old) (L.told link.new)
        (Tries setting.now (G.accepted seal.now) head words.old words.new work.old work.new kept)) }
    ensures few { OnOk result (work.new.strays < max_strays) }
    ensures ends { IfErr result (λ fault. Happens (L.told link.old) (L.told link.new)
        (TryEnds setting.now (G.accepted seal.now) head words.old words.new work.old work.new.table fault)) }
    ensures words { words.new ≡ record words.old { place = words.old.place + 1 } }
    ensures link { IsErrOf result RefreshFault.LinkFault
        → Rose (L.recv_faults link.old) (L.recv_faults link.new) }
    ensures last { IsErrOf result RefreshFault.LinkFault
        → FailsLast L.told L.recv_faults link.old link.new }
    ensures recv_faults { L.recv_faults link.old ≤ L.recv_faults link.new }
    ensures well { ¬ IsErrOf result RefreshFault.LinkFault
        → L.recv_faults link.new ≡ L.recv_faults link.old }
    ensures kept { L.kept link.new ≡ L.kept link.old }
{
    let query = open_ping(words, head, work.moment, setting.timeout);
    if !send_ping(link, &setting.own, &query) {
        return Ok(notify_failed(&mut work.table, head));
    }
    await_reply(alloc, link, work, buf, setting, &query, seal)
}

/// Pings the head, and once more where it failed and the table keeps it: the table lets go of who fails twice.
pub(crate) fn ping_head<L: Link, G: SealCheck>(
    alloc: Global,
    link: &mut L,
    words: &mut Words,
    work: &mut Progress,
    buf: &mut [u8],
    setting: &Setting,
    head: Contact,
    seal: &G,
) -> Result<(), RefreshFault>
    requires room { length buf.old ≡ max_datagram + 1 }
    requires few { work.old.strays < max_strays }
    requires place { words.old.place + 1 < 2 ^ 60 }
    ensures ok { OnOk result (Happens (L.told link.old) (L.told link.new)
        (PingsThese setting.now (G.accepted seal.now) (head ∷ []) words.old words.new work.old work.new)) }
    ensures few { OnOk result (work.new.strays < max_strays) }
    ensures ends { IfErr result (λ fault. Happens (L.told link.old) (L.told link.new)
        (TheseEnd setting.now (G.accepted seal.now) (head ∷ []) words.old words.new work.old work.new.table fault)) }
    ensures seed { words.new.seed ≡ words.old.seed }
    ensures place { words.new.place ≤ words.old.place + 2 }
    ensures link { IsErrOf result RefreshFault.LinkFault
        → Rose (L.recv_faults link.old) (L.recv_faults link.new) }
    ensures last { IsErrOf result RefreshFault.LinkFault
        → FailsLast L.told L.recv_faults link.old link.new }
    ensures recv_faults { L.recv_faults link.old ≤ L.recv_faults link.new }
    ensures well { ¬ IsErrOf result RefreshFault.LinkFault
        → L.recv_faults link.new ≡ L.recv_faults link.old }
    ensures kept { L.kept link.new ≡ L.kept link.old }
{
    match try_head(alloc, link, words, work, buf, setting, head, seal) {
        Ok(true) => {}
        Ok(false) => return Ok(()),
        Err(fault) => return Err(fault),
    }
    match try_head(alloc, link, words, work, buf, setting, head, seal) {
        Ok(_) => Ok(()),
        Err(fault) => Err(fault),
    }
}
