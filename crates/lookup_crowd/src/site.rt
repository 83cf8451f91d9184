//! What the lookups and the node that serves go by, and their room.

use kad_base::limits::{MAX_DATAGRAM, RECEIVE_ROOM};
use serve_crew::Desk;
use std::alloc::Global;

/// What stays the same while lookups go on: the runtime, the allocator, the desk at which the node serves, the check of what
/// an answer reports, and the seal of the group that the node is of.
#[derive(Drop)]
pub struct Site<'a, R, C, G> {
    pub rt: &'a R,
    pub alloc: Global,
    pub desk: Desk<'a>,
    pub check: &'a C,
    pub seal: &'a G,
}

/// Room for a datagram that comes, and for the reply that it is owed.
#[derive(Drop)]
pub struct Buffers {
    pub room: [u8; RECEIVE_ROOM],
    pub out: [u8; MAX_DATAGRAM],
}

impl Buffers {
    /// Room in which nothing stands yet.
    pub fn new() -> Buffers {
        Buffers {
            room: [0u8; RECEIVE_ROOM],
            out: [0u8; MAX_DATAGRAM],
        }
    }
}
