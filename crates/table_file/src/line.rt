//! The lines of a saved table.
use bucket_tree::{Live, Prefix};
use kad_base::{Contact, Id};

/// A line of a saved table.
#[derive(Debug, Drop)]
pub enum Line {
    /// `table <own> <k> <b>`: whose table it is, and its setting. The first line.
    Table { own: Id, k: u8, b: u8 },
    /// `row <bits>`: a bucket begins. `-` is the prefix of every identifier.
    Row { prefix: Prefix },
    /// `live <id> <address>:<port> <failures>`: a live contact of the bucket.
    Live { entry: Live },
    /// `spare <id> <address>:<port>`: an entry of its replacement cache.
    Spare { contact: Contact },
    /// `sibling <id> <address>:<port>`: one of the siblings.
    Sibling { contact: Contact },
    /// `end`: the last line, so that a text that was cut off is none.
    End,
}
