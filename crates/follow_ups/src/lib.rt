//! Follow-ups of a lookup: what is said, with the token that each contact gave, to the contacts that it found. Whoever says it
//! chooses the contacts, and whether a message says that its sender answers no queries (BEP 43). It keeps no state, receives
//! nothing and waits for no answer.
#![tactic(auto)]

pub mod announce;
mod listed;

pub use announce::{Announcement, Said, announce_to, place_from, send_one};
pub use listed::announcements;
