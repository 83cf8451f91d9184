//! The words of a command line: from the words after the program's name to a command and its options. The plain form is
//! this project's own: one command, and then pairs of an option and its value. It opens nothing, and knows no lookup.
#![tactic(auto)]

mod bind;
mod choice;
pub mod command;
mod grammar;
mod group;
mod matched;
mod options;
mod reading;
mod values;

pub use bind::{bind_of, takes_link};
pub use command::{
    Command, CommandKind, LookWords, MintWords, NodeWords, RefreshWords, ServeWords, SimWords,
    TableWords, WordsFault, plain_look,
};
pub use group::{group_of, lacks_group};
pub use reading::{one_command, read};
