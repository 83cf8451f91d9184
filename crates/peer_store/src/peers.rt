//! The peers of each key.
ghost use Rattle.std.specs.Prelude.{◌≡◌, ◌↔◌, OnOk, OnErr, IfOk};
ghost use Rattle.std.specs.List.Sorted.{IsStrictlySortedBy};
ghost use Rattle.peer_store.specs.Peers.{IsPeers, Holds, IsCrowded, HasNoPlace, no_peers, address_cmp, with_add, purged, listed, listed_from};

use crate::adds::{Adds, drop_old, first_fresh, put};
use crate::drawing::first_drawn;
use crate::ends::is_between;
use aged_map::{HostedMap, Refused, Stored};
use kad_base::{Addr, Addrs, Id, NoMemory};
use std::alloc::Global;
use std::marker::Model;
use thiserror::Error;

/// Why a pair wasn't added.
#[derive(Clone, Copy, Debug, PartialEq, Eq, Error)]
pub enum PeerFault {
    /// It isn't held, and as many pairs of its host are as may be.
    #[error("as many peers of this address are held as may be")]
    Crowded,
    /// It isn't held, and as many pairs are as may be.
    #[error("as many peers are held as may be")]
    Full,
    /// It isn't held, and there was no memory.
    #[error("no memory")]
    NoMemory,
}

/// The peers that announced themselves, each under the key that it named, with the moment of its last add, in
/// milliseconds. They stand in a B-tree in order of their keys and then of their addresses, and in one by age, so no choice
/// of keys makes a search longer: it makes at most some 70 comparisons among 65,536 pairs.
#[derive(Debug, Drop)]
pub struct Peers {
    alloc: Global,
    adds: Adds,
}

impl Model for Peers {
    ghost use Rattle.peer_store.specs.Peers.{PeersState};
    ghost use Rattle.peer_store.specs.Between.{IsKept};

    ghost Value = { PeersState };

    ghost view = { λ p. p.adds };

    ghost invariant = { λ p. IsKept p.adds };
}

impl Peers {
    /// No peers, and no limit of one host. Takes no memory.
    pub fn new(alloc: Global) -> Peers
        ensures { result ≡ no_peers 0 }
    {
        Peers::limited(alloc, 0)
    }

    /// No peers, of which at most so many pairs may be of one host (`kad_base::Host`), whatever their keys and ports; 0 is no
    /// limit. Takes no memory.
    pub fn limited(alloc: Global, per_address: usize) -> Peers
        ensures { result ≡ no_peers per_address }
    {
        Peers {
            alloc,
            adds: HostedMap::new(alloc, per_address),
        }
    }

    /// Adds the peer under the key at the moment, or sets its last add where it is held, be it earlier or later than it
    /// was. A pair that is held takes no memory that it needs: where the index by age has none, it has no index from then on
    /// until nothing is held. On a fault all is as before. Costs four searches, and one more where no place is left; where
    /// there is a limit of one host, and the pair isn't held, also two and one for each pair of its host.
    pub fn add(&mut self, key: Id, peer: Addr, at: u64) -> Result<Stored, PeerFault>
        ensures stored { OnOk result (self.new ≡ with_add self.old (key, peer) at) }
        ensures fault { OnErr result (self.new ≡ self.old) }
        ensures renewed { (result ≡ Ok Stored.Renewed) ↔ Holds self.old (key, peer) }
        ensures crowded { (result ≡ Err PeerFault.Crowded) ↔ IsCrowded self.old (key, peer) }
        ensures full { (result ≡ Err PeerFault.Full) ↔ HasNoPlace self.old (key, peer) }
    {
        let stored = match put(&mut self.adds, key, peer, at) {
            Ok(stored) => stored,
            Err(Refused::Crowded) => return Err(PeerFault::Crowded),
            Err(Refused::Full) => return Err(PeerFault::Full),
            Err(Refused::NoMemory) => return Err(PeerFault::NoMemory),
        };
        is_between(&peer);
        Ok(stored)
    }

    /// The peers of the key whose last add is less than 30 minutes before the moment, the first 50 in the order of
    /// addresses, those of IPv4 before those of IPv6. A last add after the moment counts as 0 before it. Costs a search and
    /// a step for each peer of the key until 50 are fresh, and nothing more than a search where all that is held is old.
    pub fn list(&self, key: Id, at: u64) -> Result<Addrs, NoMemory>
        ensures listed { IfOk result (λ peers. peers ≡ listed self.now key at) }
        ensures in_order { IfOk result (IsStrictlySortedBy address_cmp) }
        ensures peers { IsPeers self.now }
    {
        first_fresh(&self.adds, self.alloc, key, at)
    }

    /// The same list where there is no limit of one host. Where there is one it begins at the IPv4 address `first` and goes round
    /// in the order of addresses, so that of more than 50 peers those are named that come next after it: no address of
    /// somebody's choice is named to all who ask, if each asks with a point of its own.
    pub fn list_from(&self, key: Id, at: u64, first: [u8; 4]) -> Result<Addrs, NoMemory>
        ensures { IfOk result (λ peers. peers ≡ listed_from self.now key at first) }
    {
        if self.adds.is_limited() {
            return first_drawn(&self.adds, self.alloc, key, at, first);
        }
        first_fresh(&self.adds, self.alloc, key, at)
    }

    /// Drops the pairs whose last add is 30 minutes or more before the moment. A last add after the moment counts as 0
    /// before it. Takes no memory. Costs a search for each pair that it drops, and one more.
    pub fn purge(&mut self, at: u64)
        ensures { self.new ≡ purged self.old at }
    {
        drop_old(&mut self.adds, at);
    }
}
