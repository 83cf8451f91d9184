//! What several lookups are given, and what they found.
use claim_book::{Counts, Journal};
use kad_base::{Addrs, ClaimRule, Contacts, List, Numbers};
use lookup_core::{ItemList, Tokened};

/// How each of several lookups goes: on how many disjoint paths, with how many queries at once on each, how long it waits
/// for an answer, in milliseconds, how many contacts of one host a path has at most (0: as many as come), and from when on a
/// contact is the path's that has it.
#[derive(Clone, Copy, Debug, PartialEq, Eq)]
pub struct ManySetting {
    pub paths: u8,
    pub alpha: u8,
    pub timeout: u32,
    pub per_address: u8,
    pub claim: ClaimRule,
}

/// What one of several lookups found: the closest contacts, its numbers, its journal, the peers that the answers named, each
/// once and in order, the tokens, and the items that they gave, both in the order of the answers; and how many of its follow-ups
/// were sent. There are peers only if those were asked for, items only if one was, and tokens in both cases.
#[derive(Debug, Drop)]
pub struct One {
    pub found: Contacts,
    pub counts: Counts,
    pub journal: Journal,
    pub peers: Addrs,
    pub tokens: Tokened,
    pub items: ItemList,
    pub sent: u64,
}

pub type Ones = List<One>;

/// What several lookups found, in the order of their jobs; the number of the lookup that each query was of, follow-ups
/// too, in the order in which they were sent, refused ones too; and how many datagrams came, and how many replies were sent to others.
#[derive(Debug, Drop)]
pub struct Many {
    pub outcomes: Ones,
    pub owners: Numbers,
    pub received: u64,
    pub replied: u64,
}
