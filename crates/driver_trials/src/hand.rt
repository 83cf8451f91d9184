//! A counter and a routing table behind a turn, and paths that are settled.
mod turn;
mod worker;
