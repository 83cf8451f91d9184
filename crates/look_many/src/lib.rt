//! Up to sixteen lookups at the same time on one link, while the node answers queries: where they begin in its table, what goes
//! out once all of them are over, how the node answers on after that, and what each found. It opens no socket and reads no clock.
#![tactic(auto)]

mod driver;
mod finish;
mod follow;
mod found;
mod given;
mod job;
mod opening;
mod plan;
mod serving;

pub use driver::look_many;
pub use found::{Many, ManySetting, One, Ones};
pub use given::{Given, Wanted};
pub use job::{Job, Jobs};
pub use lookup_crowd::{FollowUp, ManyFault};
