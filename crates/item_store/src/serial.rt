//! A store of items as an object whose calls are steps.
ghost use Rattle.std.specs.Prelude.{◌≡◌};
ghost use Rattle.item_store.specs.Items.{IsItem};
ghost use Rattle.item_store.specs.ItemSteps.{ItemMay, ItemStep, item_after};
ghost use Rattle.item_store.specs.declared.calls.ItemCall.{ItemCall};

use crate::calls::{ItemCall, ItemReply};
use crate::items::{ItemFault, Items};
use kad_base::{Addr, Bytes, Id, NoMemory, Serial};

impl Items {
    /// Answers with a copy of the written form of an item.
    fn get_one(&self, key: &Id, at: u64) -> ItemReply
        ensures { ItemStep self.now 0 (ItemCall.Get key.now at) result }
    {
        match self.copied(key, at) {
            Ok(Some(v)) => ItemReply::Held { v },
            Ok(None) => ItemReply::Absent,
            Err(NoMemory) => ItemReply::NoMemory,
        }
    }

    /// Drops what is old, and answers what became of an item.
    fn put_one(&mut self, v: Bytes, from: Addr, at: u64) -> ItemReply
        requires { IsItem v }
        ensures step { ItemStep self.old 0 (ItemCall.Put v from at) result }
        ensures after { self.new ≡ item_after self.old 0 (ItemCall.Put v from at) result }
    {
        self.purge(at);
        match self.add(v, from, at) {
            Ok(stored) => ItemReply::Stored { stored },
            Err(ItemFault::Crowded) => ItemReply::Crowded,
            Err(ItemFault::Full) => ItemReply::Full,
            Err(ItemFault::NoMemory) => ItemReply::NoMemory,
        }
    }
}

impl Serial for Items {
    type Call = ItemCall;

    type Reply = ItemReply;

    ghost may = { ItemMay };

    ghost step = { ItemStep };

    ghost after = { item_after };

    fn apply(&mut self, role: u8, call: ItemCall) -> ItemReply {
        match call {
            ItemCall::Get { key, at } => self.get_one(&key, at),
            ItemCall::Put { v, from, at } => self.put_one(v, from, at),
        }
    }
}
