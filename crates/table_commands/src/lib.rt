//! The commands that make the saved text of a routing table: `table`, and `refresh`, which pings its contacts. Each makes
//! its text, and writes nothing yet.
#![tactic(auto)]

pub mod refresh;
pub mod table;
