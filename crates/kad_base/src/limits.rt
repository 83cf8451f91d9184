//! The limits of the product. Unless a line says otherwise they are this project's own choice.

/// The greatest k: how many contacts a lookup looks for, and how many a bucket holds (Kademlia, section 2.1).
pub const MAX_K: u8 = 20;

/// k where no option names it.
pub const DEFAULT_K: u8 = 8;

/// The most disjoint paths of a lookup (S/Kademlia, section 4.4).
pub const MAX_PATHS: u8 = 8;

/// The paths of a lookup where no option names them.
pub const DEFAULT_PATHS: u8 = 4;

/// The most queries that one path may have open at once (Kademlia's alpha, section 2.3).
pub const MAX_ALPHA: u8 = 4;

/// alpha where no option names it.
pub const DEFAULT_ALPHA: u8 = 3;

/// The most queries that are open at once, of all paths.
pub const MAX_OPEN: usize = 32;

/// The most contacts that a path takes, those that failed among them.
pub const MAX_PATH_CONTACTS: usize = 256;

/// How many reports of one answer are read.
pub const MAX_REPORTS: usize = 16;

/// The longest time to wait for an answer, in milliseconds.
pub const MAX_TIMEOUT: u32 = 60_000;

/// The time to wait for an answer where no option names it, in milliseconds.
pub const DEFAULT_TIMEOUT: u32 = 2_000;

/// The greatest number of bits by which a bucket splits (Kademlia's b, section 4.2).
pub const MAX_BITS: u8 = 5;

/// b where no option names it.
pub const DEFAULT_BITS: u8 = 1;

/// The most contacts of the sibling list (S/Kademlia, section 4.2).
pub const MAX_SIBLINGS: usize = 16;

/// The longest datagram that is read, in bytes.
pub const MAX_DATAGRAM: usize = 4_096;

/// The room that each receive is given, in bytes: one more than a datagram may have, so that a longer one shows.
pub const RECEIVE_ROOM: usize = 4_097;

/// The stray datagram of this number ends a lookup, and a refresh of a saved table.
pub const MAX_STRAYS: u32 = 1_000_000;

/// The most receive calls of one round.
pub const MAX_ROUND_RECEIVES: u32 = 32;

/// The longest that a node which serves waits in one receive call, in milliseconds.
pub const MAX_WAIT: u64 = 60_000;

/// The most lookups that a node makes at the same time.
pub const MAX_LOOKUPS: usize = 16;

/// The longest input, in bytes.
pub const MAX_INPUT: usize = 1_048_576;

/// The most peers that are stored.
pub const MAX_PEERS: usize = 65_536;

/// The longest transaction id of a query that is answered, in bytes.
pub const MAX_ANSWERED_TX: usize = 32;
