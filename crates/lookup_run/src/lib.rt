//! One lookup over a link (S/Kademlia's disjoint paths, 2007, section 4.4, over Kademlia's, 2002, section 2.3): it asks,
//! receives and settles in rounds, begins with the closest contacts of a routing table and tells the table who answered
//! and who didn't. It opens no socket and reads no clock but the link's.
#![tactic(auto)]

mod ask;
mod driver;
mod laws;
mod on_reply;
mod receive;
mod round;
mod send;
mod settle;
mod together;
mod types;

pub use driver::{look_up, look_up_alone};
pub use laws::{one_journal, one_next_call};
pub use lookup_core::{AskKind, Item, ItemList, Token, Tokened};
pub use types::{LookFault, LookSetting, Outcome};
