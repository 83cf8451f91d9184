//! What a bucket is made of, and what the calls answer.
use kad_base::{Addr, Contact, Id, Ip};

/// What the buckets are made for: the node's own identifier, how many contacts a bucket holds (Kademlia's k), and by how
/// many bits a bucket splits that hasn't that identifier (Kademlia's b, section 4.2).
#[derive(Clone, Copy, Debug, PartialEq, Eq)]
pub(crate) struct Setting {
    pub own: Id,
    pub k: u8,
    pub b: u8,
}

/// A live contact of a bucket, and how often it failed since it was last seen.
#[derive(Clone, Copy, Debug, PartialEq, Eq)]
pub struct Live {
    pub contact: Contact,
    pub failures: u8,
}

/// What a place of a bucket holds that no entry has.
impl Default for Live {
    fn default() -> Live {
        let addr = Addr {
            ip: Ip::V4([0; 4]),
            port: 0,
        };
        let id = Id([0; 20]);
        Live {
            contact: Contact { id, addr },
            failures: 0,
        }
    }
}

/// What became of a contact that was seen.
#[derive(Clone, Copy, Debug, PartialEq, Eq)]
pub enum Seen {
    /// It is a new live entry of its bucket.
    Added,
    /// It was live, and is now the most recently seen of its bucket, with no failures.
    Moved,
    /// Its bucket is full and may not split: it is the newest of the replacement cache.
    Spared,
    /// Its identifier is live at another address, which stays.
    Conflict,
    /// Its identifier is the node's own.
    Own,
}

/// What became of a contact that failed.
#[derive(Clone, Copy, Debug, PartialEq, Eq)]
pub enum Gone {
    /// It failed once, and stays.
    Kept,
    /// It failed twice and is gone, and its bucket has no spare.
    Removed,
    /// It failed twice and is gone, and the newest spare is live in its place.
    Replaced,
    /// It isn't live.
    Unknown,
}
