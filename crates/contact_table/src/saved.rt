//! The table as a value: all that it holds but its limit and its proofs, so that it can be saved and made again.
use bucket_tree::Rows;
use kad_base::{Contacts, Id};

/// What a table holds: the node's own identifier, its k and b, the rows of its buckets, and its siblings, nearest first. As a
/// table gives it, it is sound; what is given to a table may be anything.
#[derive(Debug, Drop)]
pub struct Saved {
    pub own: Id,
    pub k: u8,
    pub b: u8,
    pub rows: Rows,
    pub siblings: Contacts,
}
