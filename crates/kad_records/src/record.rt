//! Addresses and records at a place of a string.
ghost use Rattle.std.specs.Prelude.{◌≡◌, ◌+◌, ◌<◌, ◌≤◌, ◌↔◌, length, IfSome, IsNone};
ghost use Rattle.kad_base.specs.declared.types.Family.TheVariants.{Four, Six};
ghost use Rattle.kad_records.specs.Records.{part, port_at, addr_at, proof_at, record_at};

use kad_base::{Addr, Ip, Proof};

/// The bytes from a place on.
pub(crate) fn array_at<const N: usize>(bytes: &[u8], at: usize) -> [u8; N]
    requires { at + N ≤ length bytes.now }
    ensures { result ≡ part at N bytes.now }
{
    let mut array = [0u8; N];
    array.copy_from_slice(&bytes[at..at + N]);
    array
}

/// The port in network order at a place.
fn read_port(bytes: &[u8], at: usize) -> u16
    requires { at + 2 ≤ length bytes.now }
    ensures { result ≡ port_at at bytes.now }
{
    bytes[at] as u16 * 256 + bytes[at + 1] as u16
}

/// The IPv4 address and the port in network order that stand at a place: a peer of 6 bytes (BEP 5). Takes no memory.
pub fn read_addr(bytes: &[u8], at: usize) -> Addr
    requires { at + 6 ≤ length bytes.now }
    ensures { result ≡ addr_at Four at bytes.now }
{
    Addr {
        ip: Ip::V4(array_at(bytes, at)),
        port: read_port(bytes, at + 4),
    }
}

/// The IPv6 address and the port in network order that stand at a place: a peer of 18 bytes (BEP 32). Takes no memory.
pub fn read_addr6(bytes: &[u8], at: usize) -> Addr
    requires { at + 18 ≤ length bytes.now }
    ensures { result ≡ addr_at Six at bytes.now }
{
    Addr {
        ip: Ip::V6(array_at(bytes, at)),
        port: read_port(bytes, at + 16),
    }
}

/// The proof that stands at a place: public key and X, 52 bytes (this project's own). Takes no memory.
pub fn read_proof(bytes: &[u8], at: usize) -> Proof
    requires { at + 52 ≤ length bytes.now }
    ensures { result ≡ proof_at at bytes.now }
{
    Proof {
        key: array_at(bytes, at),
        x: array_at(bytes, at + 32),
    }
}

/// Reads one compact record from `at` on, with an address of `A` bytes: identifier, address, port in network order. Those
/// of BEP 5 have an IPv4 address (`A` = 4, 26 bytes), those of BEP 32 one of IPv6 (`A` = 16, 38 bytes). `None` if fewer
/// than 22 + `A` bytes stand there. Takes no memory.
pub fn split_record<const A: usize>(bytes: &[u8], at: usize) -> Option<([u8; 20], [u8; A], u16)>
    ensures none { IsNone result ↔ length bytes.now < at + (22 + A) }
    ensures record { IfSome result (λ r. r ≡ record_at A at bytes.now) }
{
    if bytes.len() < at || bytes.len() - at < 22 || bytes.len() - at - 22 < A {
        return None;
    }
    let id = array_at(bytes, at);
    let address = array_at(bytes, at + 20);
    let port = read_port(bytes, at + (20 + A));
    Some((id, address, port))
}
