//! What a node keeps for others: the peers that announced themselves under a key (BEP 5). It has no clock and no socket,
//! and knows no message.
#![tactic(auto)]

mod adds;
mod calls;
mod drawing;
mod ends;
mod peers;
mod steps;

pub use aged_map::Stored;
pub use calls::{PeerCall, PeerReply};
pub use peers::{PeerFault, Peers};
