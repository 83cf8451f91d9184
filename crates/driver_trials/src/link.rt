//! The links in memory by hand: a script, and a network that follows from a seed; and the real link.
mod memory;
mod script;
mod sim;
mod udp;
