//! The link to a whole network that follows from a seed.
ghost use Rattle.std.specs.Prelude.{◌≡◌, ◌<◌, ◌≤◌, ◌++◌, ◌∷◌, ◌↔◌, ◌+◌, ◌&&◌, [], length, nat_eq, Some, None, true, IfOk, IsOk, OnOk, IfSome, IsTrue};
ghost use Rattle.kad_base.specs.declared.types.Event.{Event};
ghost use Rattle.kad_base.specs.Limits.{max_datagram};
ghost use Rattle.kad_base.specs.Outside.{Grows, EventOf, Arrives, came_at};
ghost use Rattle.kad_distance.specs.KClosest.{k_closest};
ghost use Rattle.fake_net.specs.Network.{own_of, target_of, node, honest};
ghost use Rattle.fake_net.specs.Replies.{BringsAbout};
ghost use Rattle.fake_net.specs.Queue.{Gets, QueuedBy};
ghost use Rattle.fake_net.specs.Plays.{Plays};

use crate::nodes::Nodes;
use crate::replies::answer;
use crate::telling::{came_at, telling, telling_came, telling_sent};
use crate::waiting::{Waiting, take_next};
use kad_base::limits::RECEIVE_ROOM;
use kad_base::{Addr, Came, Contact, Contacts, Event, Failed, Id, Link, List, NoMemory};
use std::alloc::Global;
use std::marker::Model;

/// A whole network in memory, hostile nodes among them, that follows from a seed. Its clock begins at 0, and its calls
/// never fail. If it finds no memory for an answer or for its transcript it is short, for good: it tells nothing then,
/// and answers may be missing.
#[derive(Drop)]
pub struct SimNet {
    alloc: Global,
    nodes: Nodes,
    moment: u64,
    told: Option<List<Event>>,
    waiting: Vec<Waiting>,
    wide: bool,
}

impl Model for SimNet {
    ghost use Rattle.std.specs.Prelude.{IfSome};
    ghost use Rattle.fake_net.specs.Queue.{SimState};
    ghost use Rattle.fake_net.specs.Plays.{PlaysTo};

    ghost Value = { SimState };

    ghost view = { λ s. record {
      network = s.nodes;
      moment = s.moment;
      told = s.told;
      waiting = s.waiting.items;
      wide = s.wide;
    } };

    // What it tells is what its network plays.
    ghost invariant = { λ s. IfSome s.told (λ events. PlaysTo s.nodes s.wide events s.moment s.waiting.items) };
}

impl SimNet {
    /// The network of a seed, with that many nodes, at most 20,000, of which the first `hostile` of every hundred are
    /// hostile. Takes memory for the nodes' identifiers.
    pub fn new(alloc: Global, seed: &[u8; 32], nodes: u32, hostile: u8) -> Result<SimNet, NoMemory>
        requires { nodes ≤ 20000 }
        ensures network { IfOk result (λ net. net.network
            ≡ record { seed = seed.now; count = nodes; hostile = hostile }) }
        ensures moment { IfOk result (λ net. net.moment ≡ 0) }
        ensures told { IfOk result (λ net. net.told ≡ Some []) }
        ensures waiting { IfOk result (λ net. net.waiting ≡ []) }
        ensures wide { IfOk result (λ net. net.wide ≡ true) }
    {
        Ok(SimNet {
            alloc,
            nodes: Nodes::new(alloc, seed, nodes, hostile)?,
            moment: 0,
            told: Some(List::new(alloc)),
            waiting: Vec::new(alloc),
            wide: true,
        })
    }

    /// Node `i`, from 0. Takes no memory.
    pub fn contact(&self, i: u32) -> Contact
        requires { i < self.now.network.count }
        ensures { result ≡ node self.now.network.seed i }
    {
        self.nodes.contact(i)
    }

    /// Who looks up in the network. Takes no memory.
    pub fn own(&self) -> Id
        ensures { result ≡ own_of self.now.network.seed }
    {
        self.nodes.own()
    }

    /// What is looked up in it. Takes no memory.
    pub fn target(&self) -> Id
        ensures { result ≡ target_of self.now.network.seed }
    {
        self.nodes.target()
    }

    /// The k closest to the target of all nodes that aren't hostile. Takes memory for k contacts, at once.
    pub fn closest_honest(&self, target: &Id, k: u8) -> Result<Contacts, NoMemory>
        ensures { IfOk result (λ found. found ≡ k_closest target.now k (honest self.now.network)) }
    {
        self.nodes.closest_honest(self.alloc, target, k)
    }

    /// Whether it ran out of memory. Takes none. What it tells is what its network plays, with wide receives where each
    /// had room for more than the longest datagram that is believed.
    pub fn short(&self) -> bool
        ensures short { IsTrue result ↔ (self.now.told ≡ None) }
        ensures plays { IfSome self.now.told (Plays self.now.network self.now.wide) }
    {
        self.told.is_none()
    }
}

/// Puts the answer that a datagram brings about after those that wait, if there is memory for it.
fn queue(
    alloc: Global,
    nodes: &Nodes,
    waiting: &mut Vec<Waiting>,
    moment: u64,
    to: &Addr,
    bytes: &[u8],
) -> Result<(), NoMemory>
    ensures { OnOk result (QueuedBy nodes.now moment to.now bytes.now waiting.old.items
        waiting.new.items) }
{
    match answer(alloc, nodes, moment, to, bytes)? {
        Some(answer) => Ok(waiting.push(answer)?),
        None => Ok(()),
    }
}

impl Link for SimNet {
    ghost use Rattle.fake_net.specs.Plays.{SimKept};

    ghost Kept = { SimKept };

    ghost kept = { λ s. record { network = s.network; wide = s.wide } };

    ghost told = { λ s. s.told };

    ghost moment = { λ s. s.moment };

    ghost send_faults = { λ s. 0 };

    ghost recv_faults = { λ s. 0 };

    /// The last moment that was told, from 0 on.
    fn now(&mut self) -> u64
        ensures moment { result ≡ self.old.moment }
        ensures told { Grows self.old.told self.new.told (λ t. t ≡ Event.Now result ∷ []) }
        ensures same_moment { self.new.moment ≡ self.old.moment }
        ensures same_network { self.new.network ≡ self.old.network }
        ensures same_wide { self.new.wide ≡ self.old.wide }
        ensures same_waiting { self.new.waiting ≡ self.old.waiting }
    {
        let at = self.moment;
        self.told = telling(self.told.take(), Event::Now { at });
        at
    }

    /// Never fails. Of a `find_node` query to a node the answer, if there is one, waits from then on.
    fn send(&mut self, to: Addr, bytes: &[u8]) -> Result<(), Failed>
        ensures sent { IsOk result }
        ensures told { Grows self.old.told self.new.told (λ t. t ≡ Event.Sent to bytes.now ∷ []) }
        // All answers wait, unless it is short.
        ensures queued { IfSome self.new.told
            (λ told. QueuedBy self.old.network self.old.moment to bytes.now self.old.waiting
            self.new.waiting) }
        ensures same_moment { self.new.moment ≡ self.old.moment }
        ensures same_network { self.new.network ≡ self.old.network }
        ensures same_wide { self.new.wide ≡ self.old.wide }
    {
        let queued = queue(
            self.alloc,
            &self.nodes,
            &mut self.waiting,
            self.moment,
            &to,
            bytes,
        );
        let told = self.told.take();
        match queued {
            Ok(()) => {
                self.told = telling_sent(self.alloc, told, to, bytes);
                Ok(())
            }
            Err(_) => Ok(()),
        }
    }

    /// Never fails. Gives the answer that comes first, where it comes at or before `until`, cut to the buffer; of two that
    /// come at one moment the one that was sent for first. Memory is taken only for the transcript.
    fn recv(&mut self, buf: &mut [u8], until: u64) -> Result<Came, Failed>
        ensures received { IsOk result }
        ensures came { IfOk result (Gets self.old.waiting self.old.moment until
            (length buf.old) buf.new self.new.waiting) }
        ensures arrives { IfOk result (λ came. Arrives came until self.old.moment
            (length buf.old)) }
        ensures told { IfOk result (λ came. Grows self.old.told self.new.told
            (λ t. t ≡ EventOf came until buf.new ∷ [])) }
        ensures moment { IfOk result (λ came. self.new.moment ≡ came_at came) }
        ensures same_network { self.new.network ≡ self.old.network }
        ensures wide { self.new.wide ≡ (self.old.wide && nat_eq (length buf.old) (max_datagram + 1)) }
    {
        self.wide = self.wide && buf.len() == RECEIVE_ROOM;
        let came = take_next(&mut self.waiting, self.moment, buf, until);
        self.moment = came_at(&came);
        self.told = telling_came(self.alloc, self.told.take(), &came, buf, until);
        Ok(came)
    }
}
