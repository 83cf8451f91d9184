//! The edge of the program: the standard streams, the words with the key of a group, and why the node isn't started. What the
//! node does with them is above.
#![tactic(auto)]

mod group;
mod refusal;
mod stdin;
mod stdout;
mod words;

pub use group::seal_of;
pub use refusal::Refusal;
pub use stdin::StandardInput;
pub use stdout::StandardOutput;
pub use words::words_of;
