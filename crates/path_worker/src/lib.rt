//! The worker of one path of a lookup: it settles what the answers to the path gave (a path is one of S/Kademlia's
//! disjoint lookups), on the caller's own thread, or beside the workers of the other paths, each on a thread of its own,
//! over one book and one routing table behind a turn each. It opens no socket and reads no clock.
#![tactic(auto)]

mod alone;
mod assign;
mod calls;
mod pace;
mod pool;
mod together;
mod worker;

pub use alone::settle_alone;
pub use pace::PacedCheck;
pub use together::settle_together;
pub use worker::Worker;
