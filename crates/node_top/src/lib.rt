//! The top calls of the node: the words of a command and its input in, its text and its status out. They open no file
//! and no socket: the source, the sink and the link are handed in.
#![tactic(auto)]

mod asked;
mod commands;
mod laws;
mod top;

pub use laws::one_text;
pub use top::{run, run_plain};
