//! A worker with its slots.
ghost use Rattle.std.specs.Prelude.{◌≡◌, ◌≤◌, ◌<◌, [], length, set, get_or, take, IfOk, OnErr};
ghost use Rattle.kad_base.specs.Failing.{FailsLast};
ghost use Rattle.kad_base.specs.Outside.{Grows, Rose};
ghost use Rattle.node_serve.specs.Calls.{IsSetting};
ghost use Rattle.serve_crew.specs.Hands.{CanWork, SameHands};
ghost use Rattle.serve_batches.specs.Crew.{Worked, no_slot};
ghost use Rattle.serve_batches.specs.Slots.{AnswersAll, datagram_in, took_event, Took};

use crate::slot::Slot;
use kad_base::{Came, Failed, Link};
use seal_tags::Seal;
use serve_crew::{Desk, ServeWorker};
use std::sync::Wait;

/// A worker, the slots of the datagrams that it is to answer, how many of them it is given, and the moment at which it is.
#[derive(Drop)]
pub(crate) struct Shift {
    pub worker: ServeWorker,
    pub slots: Vec<Slot>,
    pub given: usize,
    pub at: u64,
}

/// Receives into a slot of a list.
fn receive_into<L: Link>(
    slots: &mut [Slot],
    round: usize,
    link: &mut L,
    until: u64,
) -> Result<Came, Failed>
    requires room { round < length slots.old }
    ensures len { length slots.new ≡ length slots.old }
    ensures put { slots.new ≡ set slots.old round (get_or slots.new round no_slot) }
    ensures took { IfOk result (λ came. Took came (get_or slots.new round no_slot)) }
    ensures told { IfOk result (λ came. Grows (L.told link.old) (L.told link.new)
        (λ es. es ≡ took_event came until (datagram_in (get_or slots.new round no_slot)))) }
    ensures still { OnErr result (Grows (L.told link.old) (L.told link.new) (λ es. es ≡ [])) }
    ensures well { IfOk result (λ came. L.recv_faults link.new ≡ L.recv_faults link.old) }
    ensures failed { OnErr result (Rose (L.recv_faults link.old) (L.recv_faults link.new)) }
    ensures last { OnErr result (FailsLast L.told L.recv_faults link.old link.new) }
    ensures recv_faults { L.recv_faults link.old ≤ L.recv_faults link.new }
    ensures kept { L.kept link.new ≡ L.kept link.old }
{
    slots[round].receive(link, until)
}

/// Lets the worker answer the datagrams of a list at the desk, in order.
fn answer_all<R: Wait, G: Seal>(
    worker: &mut ServeWorker,
    slots: &mut [Slot],
    rt: &R,
    desk: &Desk,
    seal: &G,
)
    requires setting { IsSetting desk.now.setting.now }
    requires can { CanWork desk.now.turns.now worker.old }
    ensures same { SameHands worker.old worker.new }
    ensures len { length slots.new ≡ length slots.old }
    ensures answers { AnswersAll (G.tag_of seal.now) desk.now.setting.now worker.old worker.new
        slots.old slots.new }
{
    for slot in slots.iter_mut() {
        slot.answer(worker, rt, desk, seal);
    }
}

/// The same of the first so many.
fn answer_first<R: Wait, G: Seal>(
    worker: &mut ServeWorker,
    slots: &mut [Slot],
    given: usize,
    rt: &R,
    desk: &Desk,
    seal: &G,
)
    requires setting { IsSetting desk.now.setting.now }
    requires can { CanWork desk.now.turns.now worker.old }
    requires given { given ≤ length slots.old }
    ensures same { SameHands worker.old worker.new }
    ensures len { length slots.new ≡ length slots.old }
    ensures answers { AnswersAll (G.tag_of seal.now) desk.now.setting.now worker.old worker.new
        (take given slots.old) (take given slots.new) }
{
    answer_all(worker, &mut slots[..given], rt, desk, seal);
}

impl Shift {
    ghost use Rattle.std.specs.Prelude.{◌≡◌, ◌≤◌, ◌<◌, [], length, get_or, set, IfOk, OnErr};
    ghost use Rattle.kad_base.specs.Failing.{FailsLast};
    ghost use Rattle.kad_base.specs.Outside.{Grows, Rose};
    ghost use Rattle.node_serve.specs.Calls.{IsSetting};
    ghost use Rattle.serve_crew.specs.Hands.{CanWork};
    ghost use Rattle.serve_batches.specs.Crew.{Worked, no_slot};
    ghost use Rattle.serve_batches.specs.Deeds.{IsTold};
    ghost use Rattle.serve_batches.specs.Slots.{datagram_in, took_event, Took};

    /// Tells the worker how many datagrams it has, at a moment.
    pub(crate) fn tell(&mut self, given: usize, at: u64)
        ensures { IsTold given self.old self.new }
    {
        self.given = given;
        self.at = at;
    }

    /// Receives a datagram into a slot, until the moment in milliseconds.
    pub(crate) fn receive<L: Link>(
        &mut self,
        round: usize,
        link: &mut L,
        until: u64,
    ) -> Result<Came, Failed>
        requires room { round < length self.old.slots.items }
        ensures worker { self.new.worker ≡ self.old.worker }
        ensures len { length self.new.slots.items ≡ length self.old.slots.items }
        ensures put { self.new.slots.items ≡ set self.old.slots.items round
            (get_or self.new.slots.items round no_slot) }
        ensures took { IfOk result (λ came. Took came (get_or self.new.slots.items round no_slot)) }
        ensures told { IfOk result (λ came. Grows (L.told link.old) (L.told link.new)
            (λ es. es ≡ took_event came until (datagram_in (get_or self.new.slots.items round no_slot)))) }
        ensures still { OnErr result (Grows (L.told link.old) (L.told link.new) (λ es. es ≡ [])) }
        ensures well { IfOk result (λ came. L.recv_faults link.new ≡ L.recv_faults link.old) }
        ensures failed { OnErr result (Rose (L.recv_faults link.old) (L.recv_faults link.new)) }
        ensures last { OnErr result (FailsLast L.told L.recv_faults link.old link.new) }
        ensures recv_faults { L.recv_faults link.old ≤ L.recv_faults link.new }
        ensures kept { L.kept link.new ≡ L.kept link.old }
    {
        receive_into(self.slots.as_mut_slice(), round, link, until)
    }

    /// Answers the datagrams of the first so many slots at the desk, in order.
    pub(crate) fn work<R: Wait, G: Seal>(&mut self, given: usize, rt: &R, desk: &Desk, seal: &G)
        requires setting { IsSetting desk.now.setting.now }
        requires can { CanWork desk.now.turns.now self.old.worker }
        requires given { given ≤ length self.old.slots.items }
        ensures { Worked (G.tag_of seal.now) desk.now.setting.now given self.old self.new }
    {
        answer_first(
            &mut self.worker,
            self.slots.as_mut_slice(),
            given,
            rt,
            desk,
            seal,
        );
    }
}
