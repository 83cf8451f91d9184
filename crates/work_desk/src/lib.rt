//! Jobs that go to a thread which stays, and come back done. A desk lies between two threads: one gives orders and the
//! other helps, and at most one job is out at a time. What comes back is what the helper's contract makes of what was given.
#![tactic(auto)]

mod helping;
mod laying;
mod posting;
#[cfg(test)]
mod tests;
mod waiting;

pub use helping::Helper;
pub use laying::{Deed, Desk, Doer, Hand, InTurns, Mail};
pub use posting::{Vacant, open, work_out};
