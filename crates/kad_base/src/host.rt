//! Whose an address is, where contacts are limited by it.
ghost use Rattle.std.specs.Prelude.{◌≡◌, take};
ghost use Rattle.kad_base.specs.Hosts.{host};

use crate::types::{Addr, Ip};

/// Whom an address stands for where a limit counts contacts: its IPv4 address, or the first 64 bits of its IPv6 address,
/// since who has one address of a /64 has all of them (RFC 4291, section 2.5.1). Ports make no difference. An IPv6 address
/// that maps one of IPv4 is counted as an IPv6 address like any other.
#[derive(Clone, Copy, Debug, PartialEq, Eq, PartialOrd, Ord, Hash)]
pub enum Host {
    V4([u8; 4]),
    V6([u8; 8]),
}

/// The host of an address.
pub fn host_of(addr: &Addr) -> Host
    ensures { result ≡ host addr.now }
{
    match addr.ip {
        Ip::V4(bytes) => Host::V4(bytes),
        Ip::V6(bytes) => Host::V6(front_half(&bytes)),
    }
}

/// The first 64 bits.
fn front_half(bytes: &[u8; 16]) -> [u8; 8]
    ensures { result ≡ take 8 bytes.now }
{
    let mut front = [0; 8];
    front.copy_from_slice(&bytes[..8]);
    front
}
