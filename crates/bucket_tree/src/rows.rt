//! The buckets as rows: a list that has all that they hold, so that they can be saved and made again.

use crate::prefix::Prefix;
use crate::types::Live;
use kad_base::{Contacts, List, NoMemory};

/// Live contacts, the least recently seen first.
pub type Lives = List<Live>;

/// A bucket: the prefix of its identifiers, its live contacts, the least recently seen first, and its replacement cache,
/// the newest last.
#[derive(Debug, Drop)]
pub struct Row {
    pub prefix: Prefix,
    pub live: Lives,
    pub spare: Contacts,
}

/// Rows in ascending order of their prefixes, as the buckets give them; what is given to the buckets may be any list.
pub type Rows = List<Row>;

/// Why saved rows give no buckets, or a saved table none.
#[derive(Clone, Copy, Debug, PartialEq, Eq)]
pub enum TableFault {
    /// k or b is outside its limits, the prefixes are no partition in ascending order, or a row isn't one that a bucket
    /// can be (see `specs/Rows`).
    Unsound,
    /// The allocator gave no memory.
    NoMemory,
}

impl From<NoMemory> for TableFault {
    ghost use Rattle.std.specs.Prelude.{◌≡◌};
    ghost use Rattle.bucket_tree.specs.declared.rows.TableFault.TheVariants as fault;

    ghost from_gives = { λ _ e. e ≡ fault.NoMemory };

    fn from(_: NoMemory) -> Self {
        TableFault::NoMemory
    }
}
