//! The command `serve`, and what a node prints of itself. It makes its text, and writes nothing yet.
#![tactic(auto)]

pub mod printed;
pub mod serve;
