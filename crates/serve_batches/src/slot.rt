//! A slot: a datagram that came, with room for its reply.

use kad_base::limits::{MAX_DATAGRAM, RECEIVE_ROOM};
use kad_base::{Addr, Came, Failed, Ip, Link, NoMemory};
use node_serve::Answered;
use seal_tags::Seal;
use serve_crew::{Datagram, Desk, ServeWorker};
use std::marker::Model;
use std::sync::Wait;

/// A datagram, where it came from and when, and what became of it: its reply, where one is owed, stands in front of `out`.
#[derive(Drop)]
pub(crate) struct Slot {
    room: [u8; RECEIVE_ROOM],
    length: usize,
    from: Addr,
    at: u64,
    out: [u8; MAX_DATAGRAM],
    answered: Answered,
}

impl Model for Slot {
    ghost use Rattle.std.specs.Prelude.{◌≤◌, take};
    ghost use Rattle.serve_batches.specs.Slots.{SlotState, Fits};

    ghost Value = { SlotState };

    ghost view = { λ s. record { from = s.from; at = s.at; bytes = take s.length s.room; answered = s.answered; out = s.out } };

    ghost invariant = { λ s. (s.length ≤ 4097) × Fits s.answered };
}

impl Slot {
    ghost use Rattle.std.specs.Prelude.{◌≡◌, ◌≤◌, [], IfOk, OnOk, OnErr};
    ghost use Rattle.kad_base.specs.Failing.{FailsLast};
    ghost use Rattle.kad_base.specs.Outside.{Grows, Rose};
    ghost use Rattle.node_serve.specs.Calls.{IsSetting};
    ghost use Rattle.node_serve.specs.Receives.{sent_in};
    ghost use Rattle.node_serve.specs.declared.node.Answered.{Answered};
    ghost use Rattle.serve_crew.specs.Hands.{CanWork, SameHands};
    ghost use Rattle.serve_batches.specs.Slots.{Took, took_event, datagram_in, AnswersOne, Went, sends_of};

    /// A slot of which nothing was made yet.
    pub(crate) fn empty() -> Slot {
        Slot {
            room: [0u8; RECEIVE_ROOM],
            length: 0,
            from: Addr {
                ip: Ip::V4([0, 0, 0, 0]),
                port: 0,
            },
            at: 0,
            out: [0u8; MAX_DATAGRAM],
            answered: Answered::Silent,
        }
    }

    /// Receives a datagram into the slot, until the moment in milliseconds.
    pub(crate) fn receive<L: Link>(&mut self, link: &mut L, until: u64) -> Result<Came, Failed>
        ensures took { IfOk result (λ came. Took came self.new) }
        ensures told { IfOk result (λ came. Grows (L.told link.old) (L.told link.new)
            (λ es. es ≡ took_event came until (datagram_in self.new))) }
        ensures still { OnErr result (Grows (L.told link.old) (L.told link.new) (λ es. es ≡ [])) }
        ensures well { IfOk result (λ came. L.recv_faults link.new ≡ L.recv_faults link.old) }
        ensures failed { OnErr result (Rose (L.recv_faults link.old) (L.recv_faults link.new)) }
        ensures last { OnErr result (FailsLast L.told L.recv_faults link.old link.new) }
        ensures recv_faults { L.recv_faults link.old ≤ L.recv_faults link.new }
        ensures kept { L.kept link.new ≡ L.kept link.old }
    {
        match link.recv(&mut self.room, until) {
            Ok(Came::Packet { from, len, at }) => {
                self.from = from;
                self.length = len;
                self.at = at;
                Ok(Came::Packet { from, len, at })
            }
            Ok(Came::Quiet { at }) => Ok(Came::Quiet { at }),
            Err(Failed) => Err(Failed),
        }
    }

    /// Lets the worker answer the datagram at the desk.
    pub(crate) fn answer<R: Wait, G: Seal>(
        &mut self,
        worker: &mut ServeWorker,
        rt: &R,
        desk: &Desk,
        seal: &G,
    )
        requires setting { IsSetting desk.now.setting.now }
        requires can { CanWork desk.now.turns.now worker.old }
        ensures same { SameHands worker.old worker.new }
        ensures answers { AnswersOne (G.tag_of seal.now) desk.now.setting.now worker.old worker.new
            self.old self.new }
    {
        let datagram = Datagram {
            from: self.from,
            bytes: &self.room[..self.length],
            at: self.at,
        };
        self.answered = worker.answer(rt, desk, &datagram, seal, &mut self.out);
    }

    /// Whether there was memory for the answer.
    pub(crate) fn went(&self) -> Result<(), NoMemory>
        ensures ok { OnOk result (Went self.now.answered) }
        ensures err { OnErr result (self.now.answered ≡ Answered.NoMemory) }
    {
        match self.answered {
            Answered::Reply(_) => Ok(()),
            Answered::Silent => Ok(()),
            Answered::NoMemory => Err(NoMemory),
        }
    }

    /// Sends the reply, if one is owed, and says how many were sent: none also where the link refused it.
    pub(crate) fn send<L: Link>(&self, link: &mut L) -> u32
        ensures most { result ≤ 1 }
        ensures count { result ≡ sent_in (sends_of self.now result) }
        ensures told { Grows (L.told link.old) (L.told link.new)
            (λ es. es ≡ sends_of self.now result) }
        ensures recv_faults { L.recv_faults link.new ≡ L.recv_faults link.old }
        ensures kept { L.kept link.new ≡ L.kept link.old }
    {
        match self.answered {
            Answered::Reply(length) => match link.send(self.from, &self.out[..length]) {
                Ok(()) => 1,
                Err(_) => 0,
            },
            Answered::Silent => 0,
            Answered::NoMemory => 0,
        }
    }
}
