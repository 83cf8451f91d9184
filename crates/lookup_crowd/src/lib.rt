//! The rounds of several lookups on one link, while the node answers queries: what all ask, whose a datagram is, who is owed a
//! reply, whom the time has passed for, and what each settles. It opens no socket and reads no clock.
#![tactic(auto)]

mod ask;
mod due;
mod host;
mod legal;
mod receive;
mod round;
mod rounds;
mod seeker;
mod settle;
mod site;
mod take;
mod wait;

pub use due::FollowUp;
pub use legal::all_legal;
pub use receive::receive_until;
pub use rounds::go_rounds;
pub use seeker::{Driver, ManyFault, Progress, Seeker};
pub use site::{Buffers, Site};
