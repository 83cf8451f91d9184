//! A query that goes out once all lookups are over.
use kad_base::Addr;
use kad_krpc::Ask;

/// A query that follows a lookup, as that a node be known as a peer (BEP 5), or that an item be kept (BEP 44): the number of
/// the lookup, to whom it goes, and what is asked.
#[derive(Debug, Drop, PartialEq, Eq)]
pub struct FollowUp {
    pub owner: u64,
    pub to: Addr,
    pub ask: Ask,
}
