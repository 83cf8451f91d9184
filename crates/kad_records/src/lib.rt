//! Compact records (BEP 5, BEP 32), both ways: nodes and peers as strings pack them one after another, and this project's
//! nodes with their proofs. It knows no message, and takes no memory but for a list that is asked for.
#![tactic(auto)]

mod into;
mod kinds;
mod record;
mod records;
mod well_typed;

pub use into::{put_peers, put_records};
pub use kinds::{Node, Node6, Proved, Proved6, Record};
pub use record::{read_addr, read_addr6, read_proof, split_record};
pub use records::{Records, with_room};
pub use well_typed::{law_addrs, law_contacts, law_id, law_proof, law_reports};
