//! The tokens by which whoever asks a node to keep something shows that it was asked for from its address before (BEP 5,
//! BEP 44). It has no clock and no socket, and knows no message.
#![tactic(auto)]

mod tokens;

pub use tokens::Tokens;
