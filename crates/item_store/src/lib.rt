//! The immutable items that a node keeps for others (BEP 44): bencoded values, each under the SHA-1 of its written form.
//! It has no clock and no socket, and knows no message.
#![tactic(auto)]

mod calls;
mod held;
mod items;
mod serial;

pub use aged_map::Stored;
pub use calls::{ItemCall, ItemReply};
pub use items::{ItemFault, Items, MAX_ITEM, item_key};
