//! The command `node`: a node that answers others and does jobs at the same time. It makes its text, and writes nothing yet.
#![tactic(auto)]

mod job_line;
mod job_text;
pub mod jobs;
pub mod node;

pub use jobs::{InputLine, NodeInput, one_bad_job, one_naming};
