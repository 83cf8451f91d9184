//! The calls of a store of items and its replies.
use aged_map::Stored;
use kad_base::{Addr, Bytes, Id};

/// A call of a store of items, at a moment in milliseconds. Each role may make each.
#[derive(Debug, Drop, PartialEq, Eq)]
pub enum ItemCall {
    /// Asks for the item of a key.
    Get { key: Id, at: u64 },
    /// Drops what is old, and adds the item that came from an address, whose written form `v` is as `Items::add` asks.
    Put { v: Bytes, from: Addr, at: u64 },
}

/// The reply to a call.
#[derive(Debug, Drop, PartialEq, Eq)]
pub enum ItemReply {
    /// A copy of the written form of the key's item.
    Held { v: Bytes },
    /// No item of the key is handed out.
    Absent,
    /// What became of the item that was added.
    Stored { stored: Stored },
    /// None of the item's key is held, and as many items that its host put first are held as may be. What is old was dropped.
    Crowded,
    /// None of the item's key is held, and as many items are as may be. What is old was dropped.
    Full,
    /// The allocator gave no memory. The store is as it was, but that a Put has dropped what is old.
    NoMemory,
}
