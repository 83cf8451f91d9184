//! The list of a key's peers that begins at a point that is drawn, and goes round in the order of addresses.
ghost use Rattle.std.specs.Prelude.{◌≡◌, ◌+◌, ◌<◌, ◌≤◌, ◌^◌, IfOk};
ghost use Rattle.std.specs.Int.{w32, from_be_bytes, to_be_bytes};
ghost use Rattle.peer_store.specs.Between.{AreBetween};
ghost use Rattle.peer_store.specs.Peers.{peers_of, held_of, number_of, first_number, last_number, begins_at, point, drawn};

use crate::adds::{Adds, MAX_AGE, take_fresh};
use crate::ends::{FIRST, LAST, is_between};
use kad_base::{Addr, Addrs, Id, Ip, List, NoMemory};
use std::alloc::Global;
use std::collections::btree_map::Range;

/// The number of an IPv4 address; one of IPv6 is behind all of them.
fn number_of(ip: Ip) -> u32
    ensures { result ≡ number_of ip }
{
    match ip {
        Ip::V4(bytes) => u32::from_be_bytes(bytes),
        Ip::V6(_) => u32::MAX,
    }
}

/// The numbers of the first and of the last address, or zeros if there is none.
fn bounds(held: Range<'_, (Id, Addr), u64>) -> (u32, u32)
    ensures first { result.0 ≡ first_number 0 (peers_of held.entry) }
    ensures last { result.1 ≡ last_number 0 (peers_of held.entry) }
{
    let mut rest = held;
    let first = match rest.next() {
        Some(((_, peer), _)) => number_of(peer.ip),
        None => return (0, 0),
    };
    match rest.next_back() {
        Some(((_, peer), _)) => (first, number_of(peer.ip)),
        None => (first, first),
    }
}

/// The number of the address at which a list begins.
fn begins_at(low: u32, high: u32, n: u32) -> u32
    ensures { result ≡ begins_at low high n }
{
    let span = high.saturating_sub(low) as u64 + 1;
    let at = low as u64 + n as u64 % span;
    at as u32
}

/// The point at which the list of a key begins.
fn point_of(adds: &Adds, key: Id, first: [u8; 4]) -> Addr
    requires { AreBetween adds.now.held }
    ensures { result ≡ point (held_of adds.now.held key) first }
{
    let (low, high) = bounds(adds.range((key, FIRST), (key, LAST)));
    let number = begins_at(low, high, u32::from_be_bytes(first));
    Addr {
        ip: Ip::V4(number.to_be_bytes()),
        port: 0,
    }
}

/// The first peers of the key that are fresh at the moment, from a point on and round to it. Costs three searches more than
/// `first_fresh`.
pub(crate) fn first_drawn(
    adds: &Adds,
    alloc: Global,
    key: Id,
    at: u64,
    first: [u8; 4],
) -> Result<Addrs, NoMemory>
    requires { AreBetween adds.now.held }
    ensures { IfOk result (λ peers. peers ≡ drawn adds.now key at first) }
{
    if adds.is_all_old(MAX_AGE, at) {
        return Ok(List::new(alloc));
    }
    drawn_of(adds, alloc, key, at, first)
}

/// The same, where some may be fresh.
fn drawn_of(adds: &Adds, alloc: Global, key: Id, at: u64, first: [u8; 4]) -> Result<Addrs, NoMemory>
    requires { AreBetween adds.now.held }
    ensures { IfOk result (λ peers. peers ≡ drawn adds.now key at first) }
{
    let point = point_of(adds, key, first);
    is_between(&point);
    let none = List::new(alloc);
    let from = take_fresh(adds.range((key, point), (key, LAST)), none, at)?;
    take_fresh(adds.range_below((key, FIRST), (key, point)), from, at)
}
