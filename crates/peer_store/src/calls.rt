//! The calls of the announced peers and their replies.
use aged_map::Stored;
use kad_base::{Addr, Addrs, Id};

/// A call of the announced peers, at a moment in milliseconds. Every role may make each.
#[derive(Clone, Copy, Debug, PartialEq, Eq)]
pub enum PeerCall {
    /// Asks for the peers of the key, where there is a limit of one host from the IPv4 address `first` on.
    List { key: Id, at: u64, first: [u8; 4] },
    /// Drops what is old, and adds the peer under the key.
    Put { key: Id, peer: Addr, at: u64 },
}

/// The reply to a call.
#[derive(Debug, Drop, PartialEq, Eq)]
pub enum PeerReply {
    /// The peers of the key, in the order of addresses: those of IPv4 before those of IPv6. Where there is a limit of one
    /// host, from the address on that was given, and round to it.
    Listed { list: Addrs },
    /// What became of the peer that was added.
    Stored { stored: Stored },
    /// The peer isn't held, and as many of its host are as may be. What is old was dropped.
    Crowded,
    /// The peer isn't held, and as many are as may be. What is old was dropped.
    Full,
    /// The allocator gave no memory. The peers are as they were, but that a Put has dropped what is old.
    NoMemory,
}
