//! What a lookup is set to, and what its journal is made of.
use kad_base::{ClaimRule, Contact, Id, List, Policy, Report, Reports};

/// What a lookup is set to. `own` is the node that asks; each of `paths` disjoint paths (S/Kademlia, section 4.4) has at
/// most `alpha` queries open and ends when its `k` closest contacts have answered (Kademlia, section 2.3). `policy`
/// says which reports may be believed. A path has at most `per_address` contacts of one host (`Host`), lost ones among
/// them; 0 is no limit. `claim` says from when on a contact is one path's alone, since a lookup uses each node once
/// (S/Kademlia, section 4.4): once the path has it on its shortlist, or once the path queries it.
#[derive(Clone, Copy, Debug, PartialEq, Eq)]
pub struct Setting {
    pub own: Id,
    pub target: Id,
    pub k: u8,
    pub paths: u8,
    pub alpha: u8,
    pub policy: Policy,
    pub per_address: u8,
    pub claim: ClaimRule,
}

/// Why a contact that was asked is lost: the query was not sent, no answer came in time, the answer was another
/// node's, or it was an error message with this code (BEP 5).
#[derive(Clone, Copy, Debug, PartialEq, Eq)]
pub enum Cause {
    SendFault,
    Timeout,
    WrongId,
    Error { code: i64 },
}

/// How many contacts a lookup asked, how many of them were lost, and how many reports a full or crowded path turned away.
#[derive(Clone, Copy, Debug, PartialEq, Eq)]
pub struct Counts {
    pub asked: u32,
    pub failed: u32,
    pub turned: u32,
}

/// One thing that happened in a lookup, and on which path. The first says where a path starts, the next three what
/// came of its queries, and the last six how what it learnt was settled.
#[derive(Debug, Drop, PartialEq, Eq)]
pub enum Entry {
    /// The path starts with this contact of the routing table.
    Seed {
        path: u8,
        contact: Contact,
    },
    /// The path asks the contact.
    Ask {
        path: u8,
        contact: Contact,
    },
    /// The contact answered, and named these others.
    Heard {
        path: u8,
        contact: Contact,
        reports: Reports,
    },
    /// The contact will not answer.
    Lost {
        path: u8,
        contact: Contact,
        cause: Cause,
    },
    /// The contact that answered was noted.
    Note {
        path: u8,
        contact: Contact,
    },
    /// The path has the reported contact now.
    Taken {
        path: u8,
        contact: Contact,
    },
    /// The path `by` has the reported contact already, or asked it.
    Held {
        path: u8,
        contact: Contact,
        by: u8,
    },
    /// The path was full, or had as many contacts of this host as it may.
    Turned {
        path: u8,
        contact: Contact,
    },
    /// The report does not pass the policy.
    Rejected {
        path: u8,
        report: Report,
    },
    /// The reported contact is this node or has no port.
    Skipped {
        path: u8,
        report: Report,
    },
}

/// What happened in a lookup, in order.
pub type Journal = List<Entry>;

/// What an answer gives to settle: the contact that answered, then each contact that it reported.
#[derive(Clone, Copy, Debug, PartialEq, Eq)]
pub enum Thing {
    Responder { contact: Contact },
    Told { report: Report },
}
