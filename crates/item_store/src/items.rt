//! The items of a node.
ghost use Rattle.std.specs.Prelude.{◌≡◌, ◌↔◌, OnOk, OnErr, IfOk, IfSome, option_copied};
ghost use Rattle.kad_base.specs.Puzzles.{hash};
ghost use Rattle.item_store.specs.Items.{IsItem, IsItems, Holds, IsCrowded, HasNoPlace, key_of, no_items, with_item, purged, handed_out};

use crate::held::{Held, MAX_AGE, is_fresh, put};
use aged_map::{HostedMap, Refused, Stored};
use kad_base::{Addr, Bytes, Id, List, NoMemory};
use sha1::Sha1;
use std::alloc::Global;
use std::marker::Model;
use thiserror::Error;

/// The most bytes of an item's written form (this project's limit).
pub const MAX_ITEM: usize = 1_000;

/// Why an item wasn't added.
#[derive(Clone, Copy, Debug, PartialEq, Eq, Error)]
pub enum ItemFault {
    /// None of its key is held, and as many items that its host put first are held as may be.
    #[error("as many items from this address are held as may be")]
    Crowded,
    /// None of its key is held, and as many items are as may be: 4,096.
    #[error("as many items are held as may be")]
    Full,
    /// None of its key is held, and there was no memory.
    #[error("no memory")]
    NoMemory,
}

/// The key of an immutable item (BEP 44): the SHA-1 of the written form of its value. Takes no memory.
#[tactic(auto, unfolding(kad_base::specs::Puzzles::hash))]
pub fn item_key(v: &[u8]) -> Id
    ensures { result ≡ key_of v.now }
{
    Id(Sha1::digest(v))
}

/// The immutable items that a node keeps for others (BEP 44), each under the SHA-1 of its written form, with the moment of
/// its last add, in milliseconds. They stand in a B-tree in order of their keys, and in one by age, so no choice of values
/// makes a search longer: it makes at most some 55 comparisons among 4,096 items.
#[derive(Debug, Drop)]
pub struct Items {
    alloc: Global,
    held: Held,
}

impl Model for Items {
    ghost use Rattle.item_store.specs.Items.{ItemsState, IsItems};

    ghost Value = { ItemsState };

    ghost view = { λ s. s.held };

    ghost invariant = { λ s. IsItems s.held };
}

impl Items {
    /// No items, and no limit of one host. Takes no memory.
    pub fn new(alloc: Global) -> Items
        ensures { result ≡ no_items 0 }
    {
        Items::limited(alloc, 0)
    }

    /// No items, of which at most so many may be put first from one host (`kad_base::Host`); 0 is no limit. Takes no memory.
    pub fn limited(alloc: Global, per_address: usize) -> Items
        ensures { result ≡ no_items per_address }
    {
        Items {
            alloc,
            held: HostedMap::new(alloc, per_address),
        }
    }

    /// Adds the item that came from the address at the moment, or sets its last add where its key is held, be it earlier or
    /// later than it was. `v` is the written form of its value, of at most 1,000 bytes and with at most 14 lists and
    /// dictionaries one in another. An item that is held takes no memory that it needs: where the index by age has none, it
    /// has no index from then on until nothing is held. Of two values with one key the last is kept, and the host that put
    /// the first. On a fault all is as before. Costs one SHA-1 and five searches, and one more where no place is left; where
    /// there is a limit of one host, and the key isn't held, also two and one for each item of the host.
    pub fn add(&mut self, v: Bytes, from: Addr, at: u64) -> Result<Stored, ItemFault>
        requires { IsItem v }
        ensures stored { OnOk result (self.new ≡ with_item self.old v from at) }
        ensures fault { OnErr result (self.new ≡ self.old) }
        ensures renewed { (result ≡ Ok Stored.Renewed) ↔ Holds self.old (key_of v) }
        ensures crowded { (result ≡ Err ItemFault.Crowded) ↔ IsCrowded self.old (key_of v) from }
        ensures full { (result ≡ Err ItemFault.Full) ↔ HasNoPlace self.old (key_of v) from }
    {
        let key = item_key(v.as_slice());
        let stored = match put(&mut self.held, key, v, from, at) {
            Ok(stored) => stored,
            Err(Refused::Crowded) => return Err(ItemFault::Crowded),
            Err(Refused::Full) => return Err(ItemFault::Full),
            Err(Refused::NoMemory) => return Err(ItemFault::NoMemory),
        };
        Ok(stored)
    }

    /// The written form of the item with this key, if its last add is less than two hours before the moment. A last add
    /// after the moment counts as 0 before it. Takes no memory. Costs one search.
    pub fn get(&self, key: &Id, at: u64) -> Option<&[u8]>
        ensures handed_out { option_copied result ≡ handed_out self.now key.now at }
        ensures item { IfSome (option_copied result) IsItem }
        ensures key { IfSome (option_copied result) (λ v. key.now.0 ≡ hash v) }
        ensures items { IsItems self.now }
    {
        let item = self.held.get(key)?;
        if is_fresh(item.last, at) {
            return Some(item.v.as_slice());
        }
        None
    }

    /// A copy of what `get` answers.
    pub(crate) fn copied(&self, key: &Id, at: u64) -> Result<Option<Bytes>, NoMemory>
        ensures copy { IfOk result (λ v. v ≡ handed_out self.now key.now at) }
        ensures item { IfOk result (λ v. IfSome v IsItem) }
    {
        match self.get(key, at) {
            Some(v) => {
                let copy = List::from_slice(self.alloc, v)?;
                Ok(Some(copy))
            }
            None => Ok(None),
        }
    }

    /// Drops the items whose last add is two hours or more before the moment. A last add after the moment counts as 0
    /// before it. Takes no memory. Costs a search for each item that it drops, and one more.
    pub fn purge(&mut self, at: u64)
        ensures { self.new ≡ purged self.old at }
    {
        self.held.purge(MAX_AGE, at);
    }
}
