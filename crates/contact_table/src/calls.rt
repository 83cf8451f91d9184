//! The calls of a routing table and its replies.
use bucket_tree::{Gone, Seen};
use kad_base::{Contact, Contacts, Id, Proof, Reports};

/// A call of a routing table. Role 0 may make each, the other roles each but Failed.
#[derive(Clone, Copy, Debug, PartialEq, Eq)]
pub enum TableCall {
    /// The contact answered.
    Seen { contact: Contact },
    /// The contact was seen, and showed by this proof that its identifier was made.
    Vouched { contact: Contact, proof: Proof },
    /// The contact didn't answer.
    Failed { contact: Contact },
    /// Asks for the n contacts that are closest to the target.
    Closest { target: Id, n: u8 },
    /// Asks for the same, each with the first proof that it showed since the table holds it.
    Vouchers { target: Id, n: u8 },
}

/// The reply to a call.
#[derive(Debug, Drop, PartialEq, Eq)]
pub enum TableReply {
    /// What became of a contact that was seen.
    Seen { seen: Seen },
    /// What became of a contact that failed.
    Gone { gone: Gone },
    /// The closest contacts, nearest first.
    List { list: Contacts },
    /// The closest contacts with their proofs, nearest first.
    Reports { reports: Reports },
    /// The contact was turned away: the table holds as many others of its host as it may. The table is as it was.
    Crowded,
    /// The allocator gave no memory; the table is as it was.
    NoMemory,
}
