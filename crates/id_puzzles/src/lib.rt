//! Drawn words, and the crypto puzzles of S/Kademlia (2007, section 4.1): which reports pass them, and how an
//! identifier is minted that solves both. Nothing here takes memory.
#![tactic(auto)]

mod bits;
mod minting;
mod puzzles;
#[cfg(test)]
mod tests;
mod words;

pub use minting::{Minted, Unminted, mint};
pub use puzzles::{Sha1Check, passes};
pub use words::Words;
