//! The link of one lookup: a query to a node is answered as that node answers, after its time.
ghost use Rattle.std.specs.Prelude.{◌≡◌, ◌≤◌, length, None, IfSome, IfOk};

use crate::answers::{MISLEADING, invented, query_tx, write_answer};
use crate::network::{Network, Node};
use crate::words::Attack;
use kad_base::{Addr, Came, Contact, Contacts, Failed, Id, Link, List, NoMemory};
use kad_distance::k_least;
use std::alloc::Global;

/// An answer on its way: when it comes, from where, and to which query.
#[derive(Clone, Copy, Debug, Drop)]
struct Waiting {
    at: u64,
    from: Addr,
    tx: [u8; 4],
}

/// What a lookup meets: the nodes, what they answer about its target, and what it did.
#[derive(Drop)]
pub struct StudyLink<'a> {
    alloc: Global,
    network: &'a Network,
    attack: Attack,
    target: Id,
    k: u8,
    /// The hostile nodes that are closest to the target.
    snare: Contacts,
    moment: u64,
    waiting: Vec<Waiting>,
    /// Who has answered.
    answered: Vec<Addr>,
    /// How many queries went to hostile nodes and to contacts that they invented.
    misled: u64,
    send_faults: u64,
    recv_faults: u64,
}

/// Puts an answer after those that come no later.
fn put(waiting: &mut Vec<Waiting>, answer: Waiting) -> Result<(), Failed> {
    let place = waiting.partition_point(|other| other.at <= answer.at);
    match waiting.insert(place, answer) {
        Ok(()) => Ok(()),
        Err(_) => Err(Failed),
    }
}

/// Takes the first answer, where it comes at or before `until`.
fn take_due(waiting: &mut Vec<Waiting>, until: u64) -> Option<Waiting> {
    let first = waiting.first()?;
    if first.at > until {
        return None;
    }
    Some(waiting.remove(0))
}

impl<'a> StudyLink<'a> {
    /// A link to the nodes of the network at moment 0, for one lookup of `k` nodes.
    pub fn new(
        alloc: Global,
        network: &'a Network,
        attack: Attack,
        target: Id,
        k: u8,
    ) -> Result<Self, NoMemory> {
        let snare = k_least(alloc, &target, MISLEADING, network.hostile.as_slice())?;
        Ok(StudyLink {
            alloc,
            network,
            attack,
            target,
            k,
            snare,
            moment: 0,
            waiting: Vec::new(alloc),
            answered: Vec::new(alloc),
            misled: 0,
            send_faults: 0,
            recv_faults: 0,
        })
    }

    /// Whether the contact has answered.
    pub fn has_answered(&self, contact: &Contact) -> bool {
        self.answered.contains(&contact.addr)
    }

    /// How many queries went to hostile nodes and to contacts that they invented.
    pub fn misled(&self) -> u64 {
        self.misled
    }

    /// Whom a node names in its answer.
    fn named(&self, node: &Node) -> Result<Contacts, NoMemory> {
        if !node.hostile {
            return k_least(self.alloc, &self.target, self.k, node.known.as_slice());
        }
        match self.attack {
            Attack::Silent => Ok(List::new(self.alloc)),
            Attack::Misroute => List::from_slice(self.alloc, self.snare.as_slice()),
            Attack::Dead => invented(self.alloc, &self.target, node.number),
        }
    }

    /// Writes the answer that has come.
    fn give(&self, waiting: &Waiting, buf: &mut [u8]) -> Result<usize, Failed>
        ensures room { IfOk result (λ n. n ≤ length buf.old) }
    {
        let Some(node) = self.network.node_at(waiting.from) else {
            return Err(Failed);
        };
        let Ok(nodes) = self.named(node) else {
            return Err(Failed);
        };
        write_answer(self.alloc, node.contact.id, nodes, &waiting.tx, buf)
    }

    /// The answer to a query to this address, if one will come.
    fn answer_to(&self, to: Addr, bytes: &[u8]) -> Option<Waiting> {
        let node = self.network.node_at(to)?;
        if node.hostile && self.attack == Attack::Silent {
            return None;
        }
        Some(Waiting {
            at: self.moment.saturating_add(node.delay),
            from: to,
            tx: query_tx(bytes)?,
        })
    }

    /// Whether a query to this address goes to a hostile node, or to a contact that one invented.
    fn misleads(&self, to: Addr) -> bool {
        match self.network.node_at(to) {
            Some(node) => node.hostile,
            None => true,
        }
    }
}

impl<'a> Link for StudyLink<'a> {
    ghost kept = { λ _. tt };

    ghost told = { λ _. None };

    ghost moment = { λ l. l.moment };

    ghost send_faults = { λ l. l.send_faults };

    ghost recv_faults = { λ l. l.recv_faults };

    fn now(&mut self) -> u64 {
        self.moment
    }

    /// It fails only if out of memory.
    fn send(&mut self, to: Addr, bytes: &[u8]) -> Result<(), Failed> {
        if self.misleads(to) {
            self.misled = self.misled.saturating_add(1);
        }
        let Some(answer) = self.answer_to(to, bytes) else {
            return Ok(());
        };
        match put(&mut self.waiting, answer) {
            Ok(()) => Ok(()),
            Err(_) => {
                self.send_faults = self.send_faults.saturating_add(1);
                Err(Failed)
            }
        }
    }

    /// It fails only if out of memory. Time passes here: to the next answer, or to `until`.
    fn recv(&mut self, buf: &mut [u8], until: u64) -> Result<Came, Failed> {
        let Some(waiting) = take_due(&mut self.waiting, until) else {
            self.moment = until.max(self.moment);
            return Ok(Came::Quiet { at: self.moment });
        };
        let given = self.give(&waiting, buf);
        let noted = self.answered.push(waiting.from);
        match (given, noted) {
            (Ok(len), Ok(())) => {
                self.moment = waiting.at.max(self.moment);
                Ok(Came::Packet {
                    from: waiting.from,
                    len,
                    at: self.moment,
                })
            }
            _ => {
                self.recv_faults = self.recv_faults.saturating_add(1);
                Err(Failed)
            }
        }
    }
}
