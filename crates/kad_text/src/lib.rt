//! Texts of the node, both ways: identifiers, hex, numbers and addresses as they are read and printed, and the lines of an
//! input that name contacts. It knows no command, and opens nothing.
#![tactic(auto)]

pub mod cut;
mod ipv6;
pub mod lines;
pub mod print;
pub mod read;

pub use lines::{BadLine, LinesFault};
