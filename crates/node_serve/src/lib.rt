//! A node that answers (BEP 5, BEP 44): its routing table, the peers and items that it keeps for others, its tokens, and
//! the reply to a datagram, written into bytes that are there; and the receive calls of such a node on a link. It opens no
//! socket and reads no clock.
//!
//! An answer has two steps. `read_query` reads the datagram. `respond` makes the calls that the query asks for, composes the
//! reply from what they gave, tells the table who asked, and writes the reply, with its tag if the node is sealed. It makes
//! its calls through `Hold`: `Node` has a table, peers and items of its own, and a worker shares them with others.
#![tactic(auto)]

mod asked;
mod composing;
mod gather;
mod holder;
mod lasting;
mod laws;
mod node;
mod nodes;
mod planning;
mod reply;
mod replying;
mod sealing;
mod service;
mod setting;
mod size_bound;
mod telling;

pub use asked::{Asked, read_query};
pub use composing::Gained;
pub use holder::Hold;
pub use lasting::{Lasting, end_of, is_over, waits_to};
pub use laws::{one_answer, same_answer, what_is_kept_passes, who_is_taken};
pub use node::{Answered, Node, Profile};
pub use nodes::Near;
pub use planning::Wants;
pub use replying::respond;
pub use service::{ServeCounts, ServeFault, serve_loop};
pub use setting::ServeSetting;
