//! What tests of several crates share: contacts by their numbers, lines that name them, scripted
//! links, and a check at which several contacts meet. The program uses none of it.
#![tactic(auto)]

mod contacts;
mod input;
mod meeting;
mod meeting_seal;
mod script;
mod strangers;
mod told;

pub use contacts::{at, at_in, at6, contact, contact6, local, number, port};
pub use input::{LINE_1, PROVED_LINES, lines, lines6};
pub use meeting::Meeting;
pub use meeting_seal::MeetingSeal;
pub use script::{
    Reply, answer, answer6, failing_link, link, link_at, link_from, link_over, link_with,
    with_replies,
};
pub use strangers::Strangers;
pub use told::{sent, tells};
