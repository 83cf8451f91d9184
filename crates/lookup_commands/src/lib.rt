//! The commands that look something up over a link, and no more: `lookup`, `peers`, `get` and `put`. Each makes its text, and
//! writes nothing yet.
#![tactic(auto)]

pub mod follow;
pub mod get;
pub mod item;
pub mod lookup;
pub mod peers;
pub mod printed;
pub mod put;
pub mod run_lookup;
pub mod spread;

pub use follow_ups::Said;
pub use run_lookup::Reached;
