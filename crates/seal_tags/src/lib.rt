//! Tags that show who may say something: how a node tags what it says, how a tag is judged, and the tag of a group whose
//! members share a key, by HMAC (RFC 2104) with SHA-1. It reads no message, and no call takes memory.
#![tactic(auto)]

mod group;
mod hmac;
mod seal;

pub use group::GroupSeal;
pub use hmac::hmac_sha1;
pub use seal::{Seal, SealCheck};
