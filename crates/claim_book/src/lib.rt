//! The book of claims of a lookup: the shortlists of its disjoint paths, which path's each contact is, who was asked, and what
//! came of it, as a journal that grows by one entry a call and stays legal whoever makes the calls.
//!
//! A lookup uses each node once (Baumgart and Mies, S/Kademlia, 2007, section 4.4). By `ClaimRule::Named` a contact is used once
//! a path has it on its shortlist: no other path takes it then. By `ClaimRule::Asked` it is used once a path queries it: until
//! then each path that is told of it may have it on its shortlist, and from then on the other paths leave it out.
//!
//! It has no clock, no socket and no thread. It takes memory where it is made, where an answer is heard, and for the list
//! of what was found; no other call does.
#![tactic(auto)]

mod calls;
mod changes;
mod claim_map;
mod laws;
mod path;
mod reads;
mod serial;
mod starting;
mod state;
mod types;
mod verdict;

pub use calls::{BookCall, BookReply};
pub use laws::{
    answered, bounded, contained, disjoint, few_of_a_host, lineage, lively, loses_none_to_names,
    one_asker, one_path, open_on_asker, past_the_last, seeds_stay, stable, taken_unless_held,
};
pub use state::Book;
pub use types::{Cause, Counts, Entry, Journal, Setting, Thing};
pub use verdict::Checked;
