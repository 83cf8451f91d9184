//! Serving by workers: the three turns are opened for it and closed at its end.
ghost use Rattle.std.specs.Prelude.{◌≡◌, ◌≢◌, ◌≤◌, IfOk, IfErr};
ghost use Rattle.kad_base.specs.Failing.{FailsLast};
ghost use Rattle.kad_base.specs.Outside.{Rose, Happens};
ghost use Rattle.node_serve.specs.Calls.{IsSetting};
ghost use Rattle.node_serve.specs.declared.service.ServeFault.{ServeFault};
ghost use Rattle.serve_batches.specs.ManyServed.{ManyServed, ManyBegun};

use crate::deed::Service;
use crate::passes::{all_slots, deal_passes, gather_passes};
use crate::staying::serve_helped;
use contact_table::Table;
use kad_base::{Link, NoMemory};
use node_serve::{Lasting, ServeCounts, ServeFault, ServeSetting, end_of};
use seal_tags::Seal;
use serve_crew::Turns;
use std::alloc::Global;
use std::marker::Brand;
use std::sync::Wait;
use std::thread::Threads;
use turn_book::TurnNoMemory;

/// How a node serves: by how many workers, from which moment on, in milliseconds, and for how long.
#[derive(Clone, Copy, Debug, PartialEq, Eq)]
pub struct Duty {
    pub workers: u8,
    pub began: u64,
    pub lasting: Lasting,
}

/// Serves by 2 to 8 workers over one routing table, and over peers and items that it begins to keep, no more of one host than
/// the table takes contacts: makes receive calls on the link, in batches,
/// until as many were made as it lasts, or until a moment is told that is at its end by time or behind it, and answers the
/// queries that come, tagged by the seal where the setting is sealed. A batch begins with a receive call that waits for a
/// minute, but to that end at most, and as long as something came before the end it goes on without waiting, up to 32 calls.
/// The datagram of place j of a batch is answered by worker j mod n, all workers answer at once, those whose datagrams are
/// worth it each on a thread of its own that stays as long as it serves, and then the replies are sent in the order of the
/// batch. Where the link refuses a reply it goes on. The table comes back after all calls that were made on it.
pub fn serve_many<R: Threads + Wait + Sync, L: Link, G: Seal + Sync>(
    rt: &R,
    alloc: Global,
    link: &mut L,
    seal: &G,
    setting: ServeSetting,
    table: Table,
    duty: Duty,
) -> (Table, Result<ServeCounts, ServeFault>)
    requires setting { IsSetting setting }
    requires some { 2 ≤ duty.workers }
    requires few { duty.workers ≤ 8 }
    ensures ok { IfOk result.1 (λ counts. Happens (L.told link.old) (L.told link.new)
        (ManyServed (G.tag_of seal.now) setting duty.workers duty.began duty.lasting table result.0
        counts.received counts.replied)) }
    ensures begun { IfErr result.1 (λ fault. Happens (L.told link.old) (L.told link.new)
        (ManyBegun (G.tag_of seal.now) setting duty.workers duty.began duty.lasting table result.0
        fault)) }
    ensures well { result.1 ≢ Err ServeFault.LinkFault
        → L.recv_faults link.new ≡ L.recv_faults link.old }
    ensures link_fault { result.1 ≡ Err ServeFault.LinkFault
        → Rose (L.recv_faults link.old) (L.recv_faults link.new) }
    ensures last { result.1 ≡ Err ServeFault.LinkFault
        → FailsLast L.told L.recv_faults link.old link.new }
    ensures recv_faults { L.recv_faults link.old ≤ L.recv_faults link.new }
    ensures kept { L.kept link.new ≡ L.kept link.old }
{
    let workers = duty.workers;
    let Ok(mut crew) = Vec::with_capacity(alloc, workers as usize) else {
        return (table, Err(ServeFault::NoMemory));
    };
    let slots = match all_slots(alloc, workers) {
        Ok(slots) => slots,
        Err(NoMemory) => return (table, Err(ServeFault::NoMemory)),
    };
    let (turns, mut rows) = match Turns::open(alloc, table, workers, workers) {
        Ok(opened) => opened,
        Err(TurnNoMemory { state }) => return (state, Err(ServeFault::NoMemory)),
    };
    deal_passes(alloc, &turns, &mut rows, slots, workers, &mut crew);
    let service = Service {
        turns: &turns,
        seal,
        end: end_of(duty.began, duty.lasting.minutes),
    };
    let answer = serve_helped::<Brand, _, _, _>(
        rt, alloc, link, setting, &service, &mut crew, duty,
    );
    gather_passes(&mut rows, crew);
    (turns.close(rows), answer)
}
