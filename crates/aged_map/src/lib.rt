//! A map whose values know when they were last renewed: in order of its keys, with an index by age, so that what grew old
//! is dropped in the time of what is dropped. It has no clock.
#![tactic(auto)]

mod aged;
mod hosted;
mod map;

pub use aged::{Aged, Stored};
pub use hosted::{Hosted, HostedMap, Refused};
pub use map::AgedMap;
