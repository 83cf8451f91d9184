//! The buckets of a Kademlia routing table: contacts by the prefix of their identifiers, the least recently seen first,
//! with a replacement cache for each full bucket that may not split. It opens no socket and reads no clock: who calls it
//! says which contact was seen and which one failed.
#![tactic(auto)]

mod bits;
mod bucket;
mod buckets;
mod entries;
mod failing;
mod finding;
mod laws;
mod nearest;
mod node;
mod prefix;
mod rebuilt;
mod rows;
mod sound;
mod taking;
mod types;

pub use buckets::Buckets;
pub use laws::one_prefix;
pub use prefix::{Prefix, Prefixes};
pub use rows::{Lives, Row, Rows, TableFault};
pub use types::{Gone, Live, Seen};
