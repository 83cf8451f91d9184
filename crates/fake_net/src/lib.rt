//! Networks in memory, which tell what they did: a link that plays a script, and a whole network that follows from a seed.
//! They open no socket and read no clock.
#![tactic(auto)]

mod laws;
mod link;
mod nodes;
mod replies;
mod script;
mod sim_net;
mod telling;
mod waiting;

pub use laws::{none_next, one_course, one_next};
pub use link::ScriptLink;
pub use replies::Conduct;
pub use script::{Script, ScriptEvent, SentQuery};
pub use sim_net::SimNet;
pub use waiting::Waiting;
