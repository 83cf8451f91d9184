//! The routing table of a node: its buckets, beside them its siblings, and the proofs that its contacts showed. Its calls are
//! steps, so that who makes them and in what order can be told. It opens no socket and reads no clock.
#![tactic(auto)]

mod calls;
mod laws;
mod saved;
mod seats;
mod table;
mod threads;
mod vouchers;

pub use calls::{TableCall, TableReply};
pub use laws::{
    few_of_a_host, holds_what_it_was_told, names_none_of_none, one_outcome, stays_sound,
    vouches_for_whom_it_holds,
};
pub use saved::Saved;
pub use table::Table;
