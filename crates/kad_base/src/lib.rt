//! The ground of a Kademlia node: identifiers, addresses and contacts, the lists of them, the limits, and the outside
//! as traits: a source and a sink of bytes, a datagram link with a clock, a check of identities, an object whose calls
//! are steps. It opens no file and no socket, and knows no message.
#![tactic(auto)]

pub mod bits;
pub mod bytes;
pub mod host;
pub mod laws;
pub mod limits;
pub mod list;
pub mod memory;
pub mod outside;
pub mod serial;
pub mod steady;
pub mod types;

pub use bits::{leading_zeros, xor};
pub use bytes::put_bytes;
pub use host::{Host, host_of};
pub use list::{Addrs, Bytes, Contacts, List, Numbers, Reports};
pub use memory::{BytesSink, BytesSource};
pub use outside::{Check, Link, Sink, Source};
pub use serial::{Made, Serial};
pub use steady::{SteadySink, SteadySource};
pub use types::{
    Addr, Came, ClaimRule, Contact, Event, Failed, Family, Id, Ip, NoMemory, Policy, Proof, Report,
    family_of, is_of, is_same, is_usable,
};
