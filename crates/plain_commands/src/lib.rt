//! The commands that need no peer and no table: `check`, `mint` and `sim`. Each makes its text, and writes nothing yet.
#![tactic(auto)]

pub mod check;
pub mod mint;
pub mod sim;

pub use sim::{Simulation, Start};
