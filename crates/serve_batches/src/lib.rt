//! A node that serves by several workers at once: it receives datagrams in batches, deals each batch to the workers, who
//! answer it at the same time over one routing table, one store of peers and one of items, and sends the replies in the
//! order in which the datagrams came. A batch is dealt as cards are, to the workers in a ring. It opens no socket and reads
//! no clock, and after its start it takes no memory but what the answers need.
#![tactic(auto)]

mod batch;
mod crew;
mod deed;
mod laws;
mod many;
mod passes;
mod place;
mod receiving;
mod replying;
mod shift;
mod slot;
mod staying;

pub use laws::each_has_its_share;
pub use many::{Duty, serve_many};
pub use place::Place;
