//! Workers that answer datagrams at the same time over one routing table, one store of peers and one of items, behind a
//! turn each. It opens no socket and reads no clock.
#![tactic(auto)]

mod desk;
mod turns;
mod worker;

pub use desk::Desk;
pub use turns::{Rows, Turns};
pub use worker::{Datagram, ServeWorker};
