//! A routing table as a text that can be read. It opens no file.
#![tactic(auto)]

mod draft;
mod laws;
mod line;
mod lines;
mod parts;
mod print;
mod reading;
mod writing;

pub use laws::{one_bad_line, one_saved};
pub use line::Line;
pub use reading::{SaveFault, read};
pub use writing::write;
