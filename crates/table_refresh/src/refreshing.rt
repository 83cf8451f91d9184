//! A whole refresh.
ghost use Rattle.std.specs.Prelude.{◌≡◌, ◌≤◌, ◌<◌, ◌+◌, ◌*◌, ◌^◌, length, IfErr, OnOk, IsErrOf};
ghost use Rattle.kad_base.specs.Limits.{max_strays};
ghost use Rattle.kad_base.specs.Failing.{FailsLast};
ghost use Rattle.kad_base.specs.Outside.{Rose, Happens};
ghost use Rattle.table_refresh.specs.Refreshed.{Refreshed, Unfinished, goes_by};
ghost use Rattle.table_refresh.specs.inner.Steps.{PingsThese, TheseEnd};

use crate::head::ping_head;
use crate::plan::plan_of;
use crate::types::{Progress, RefreshFault, RefreshSetting, Setting};
use contact_table::Table;
use id_puzzles::Words;
use kad_base::limits::RECEIVE_ROOM;
use kad_base::{Contact, Link};
use seal_tags::SealCheck;
use std::alloc::Global;

/// Pings these contacts in order.
fn ping_all<L: Link, G: SealCheck>(
    alloc: Global,
    link: &mut L,
    words: &mut Words,
    work: &mut Progress,
    setting: &Setting,
    due: &[Contact],
    seal: &G,
) -> Result<(), RefreshFault>
    requires few { work.old.strays < max_strays }
    requires place { words.old.place + 2 * length due.now < 2 ^ 60 }
    ensures ok { OnOk result (Happens (L.told link.old) (L.told link.new)
        (PingsThese setting.now (G.accepted seal.now) due.now words.old words.new work.old work.new)) }
    ensures few { OnOk result (work.new.strays < max_strays) }
    ensures ends { IfErr result (λ fault. Happens (L.told link.old) (L.told link.new)
        (TheseEnd setting.now (G.accepted seal.now) due.now words.old words.new work.old work.new.table fault)) }
    ensures seed { words.new.seed ≡ words.old.seed }
    ensures place { words.new.place ≤ words.old.place + 2 * length due.now }
    ensures link { IsErrOf result RefreshFault.LinkFault
        → Rose (L.recv_faults link.old) (L.recv_faults link.new) }
    ensures last { IsErrOf result RefreshFault.LinkFault
        → FailsLast L.told L.recv_faults link.old link.new }
    ensures recv_faults { L.recv_faults link.old ≤ L.recv_faults link.new }
    ensures well { ¬ IsErrOf result RefreshFault.LinkFault
        → L.recv_faults link.new ≡ L.recv_faults link.old }
    ensures kept { L.kept link.new ≡ L.kept link.old }
{
    let mut buf = [0u8; RECEIVE_ROOM];
    for head in due {
        match ping_head(alloc, link, words, work, &mut buf, setting, *head, seal) {
            Ok(()) => {}
            Err(fault) => return Err(fault),
        }
    }
    Ok(())
}

/// Pings the least recently seen contact of each bucket of the table, in the order of the buckets, and tells the table what
/// came (Kademlia, 2002, section 2.2). Where `all`, it pings each live contact of each bucket, the least recently seen first;
/// whom, is listed before the first ping, so that a spare that moves up isn't pinged. Who answers is seen, and so is the most
/// recently seen of its bucket. Who doesn't has failed, and is pinged once more where the table keeps it; who fails twice
/// makes room for the newest spare. A try waits for `timeout` milliseconds; a ping that can't be sent, an error message and an
/// answer in another name are failures too. Where `sealed`, a reply without a tag that the seal accepts of who says it is
/// none; else the seal is never asked. The table comes back on every answer. It waits for nobody but the link, and returns
/// for every link.
pub fn refresh<L: Link, G: SealCheck>(
    alloc: Global,
    link: &mut L,
    words: &mut Words,
    table: Table,
    setting: RefreshSetting,
    seal: &G,
) -> (Table, Result<(), RefreshFault>)
    requires { words.old.place < 2 ^ 59 }
    ensures refreshed { OnOk result.1 (Happens (L.told link.old) (L.told link.new)
        (Refreshed (goes_by table setting (G.accepted seal.now) words.old.seed) table words.old.place result.0 words.new.place)) }
    ensures unfinished { IfErr result.1 (λ fault. Happens (L.told link.old) (L.told link.new)
        (Unfinished (goes_by table setting (G.accepted seal.now) words.old.seed) table words.old.place fault result.0 words.new.place)) }
    ensures seed { words.new.seed ≡ words.old.seed }
    ensures place { words.new.place < 2 ^ 60 }
    ensures link { IsErrOf result.1 RefreshFault.LinkFault
        → Rose (L.recv_faults link.old) (L.recv_faults link.new) }
    ensures last { IsErrOf result.1 RefreshFault.LinkFault
        → FailsLast L.told L.recv_faults link.old link.new }
    ensures recv_faults { L.recv_faults link.old ≤ L.recv_faults link.new }
    ensures well { ¬ IsErrOf result.1 RefreshFault.LinkFault
        → L.recv_faults link.new ≡ L.recv_faults link.old }
    ensures kept { L.kept link.new ≡ L.kept link.old }
{
    let plan = match plan_of(alloc, &table, setting.all) {
        Ok(plan) => plan,
        Err(_) => return (table, Err(RefreshFault::NoMemory)),
    };
    let setting = Setting {
        own: plan.own,
        timeout: setting.timeout,
        sealed: setting.sealed,
        all: setting.all,
    };
    // No slice of contacts is so long that the words would run out.
    let due = plan.due.as_slice();
    let mut work = Progress {
        table,
        moment: link.now(),
        strays: 0,
    };
    let ended = ping_all(alloc, link, words, &mut work, &setting, due, seal);
    let Progress { table, .. } = work;
    (table, ended)
}
