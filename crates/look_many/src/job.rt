//! What one of several lookups is for.
ghost use Rattle.std.specs.Prelude.{◌≡◌};
ghost use Rattle.look_many.specs.Job.{kind_of, target_of};

use kad_base::{Bytes, Id, List};
use lookup_core::AskKind;

/// What one of several lookups is for.
#[derive(Debug, Drop, PartialEq, Eq)]
pub enum Job {
    /// The contacts closest to an identifier.
    Find { target: Id },
    /// The peers of a key (BEP 5).
    Peers { key: Id },
    /// The same; and then whoever gave a token is told that this node is a peer, at this port. 0 is the port that the
    /// datagram comes from (`implied_port`).
    Announce { key: Id, port: u16 },
    /// The immutable item of a key (BEP 44).
    Get { key: Id },
    /// Whoever gives a token is then given the item: `v` is its written form, and `key` the SHA-1 of that.
    Put { key: Id, v: Bytes },
}

pub type Jobs = List<Job>;

impl Job {
    /// The identifier that is looked up.
    pub fn target(&self) -> Id
        ensures { result ≡ target_of self.now }
    {
        match self {
            Job::Find { target } => *target,
            Job::Peers { key } => *key,
            Job::Announce { key, .. } => *key,
            Job::Get { key } => *key,
            Job::Put { key, .. } => *key,
        }
    }

    /// The queries that it is looked up by.
    pub fn kind(&self) -> AskKind
        ensures { result ≡ kind_of self.now }
    {
        match self {
            Job::Find { .. } => AskKind::FindNode,
            Job::Peers { .. } => AskKind::GetPeers,
            Job::Announce { .. } => AskKind::GetPeers,
            Job::Get { .. } => AskKind::GetItem,
            Job::Put { .. } => AskKind::GetItem,
        }
    }
}
