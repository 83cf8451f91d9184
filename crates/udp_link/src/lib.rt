//! A datagram link over a UDP socket and the system's clock. It tells no transcript, and knows no message. Where it sends
//! much without a receive between, it takes what comes meanwhile into a room of its own, so that the socket's doesn't run over.
#![tactic(auto)]

mod addresses;
mod link;
mod room;
mod timed_socket;

pub use link::UdpLink;
