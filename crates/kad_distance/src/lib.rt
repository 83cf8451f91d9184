//! The XOR distance, the order of contacts that it gives, and the k closest contacts of a list.
#![tactic(auto)]

ghost use Rattle.std.specs.Prelude.{◌≡◌, ◌↔◌, ◌+◌, ◌<◌, ◌≤◌, IsTrue};
ghost use Rattle.std.specs.Ordering.{nat_cmp};
ghost use Rattle.std.specs.Cmp.Lexicographic.{slice_cmp};
ghost use Rattle.kad_base.specs.Bits.{xor_bytes, BeginsWithZeros};
ghost use Rattle.kad_distance.specs.Order.{closeness, IsCloser};

mod closest;
mod laws;

pub use closest::{k_least, place, put_closest};
use kad_base::{Contact, Id, leading_zeros, xor};
pub use laws::{closest_laws, order_is_strict};
use std::cmp::Ordering;

/// The distance of two identifiers: x XOR y, read as an unsigned number, the highest bit first (Kademlia, section
/// 2.1).
pub fn distance(x: &Id, y: &Id) -> Id
    ensures { result.0 ≡ xor_bytes x.now.0 y.now.0 }
{
    Id(xor(&x.0, &y.0))
}

/// How many leading bits of the two agree, of 160. Takes no memory.
pub fn shared_bits(a: &Id, b: &Id) -> u8
    ensures within { result ≤ 160 }
    ensures agree { BeginsWithZeros result (xor_bytes a.now.0 b.now.0) }
    ensures differ { result < 160 → BeginsWithZeros (result + 1) (xor_bytes a.now.0 b.now.0) → ⊥ }
{
    leading_zeros(&distance(a, b).0)
}

/// Which of two identifiers is nearer to the target: by the first byte in which their distances differ. It is mostly one
/// of the first, so that neither distance is made whole.
#[inline(always)]
fn compare_distances(target: &Id, a: &Id, b: &Id) -> Ordering
    ensures { result ≡ slice_cmp nat_cmp (xor_bytes target.now.0 a.now.0)
        (xor_bytes target.now.0 b.now.0) }
{
    for at in 0..20usize {
        let one = target.0[at] ^ a.0[at];
        let two = target.0[at] ^ b.0[at];
        if one < two {
            return Ordering::Less;
        }
        if one > two {
            return Ordering::Greater;
        }
    }
    Ordering::Equal
}

/// Which of two contacts is closer to the target: by distance, then by address, IPv4 before IPv6, then by port. Mostly one
/// byte tells, so that a call would cost more than what it does: it is inlined.
#[inline(always)]
pub fn compare(target: &Id, a: &Contact, b: &Contact) -> Ordering
    ensures { result ≡ closeness target.now a.now b.now }
{
    match compare_distances(target, &a.id, &b.id) {
        Ordering::Less => Ordering::Less,
        Ordering::Equal => a.addr.cmp(&b.addr),
        Ordering::Greater => Ordering::Greater,
    }
}

/// Whether `a` is closer to the target than `b`. No contact is closer than itself.
#[inline(always)]
pub fn closer(target: &Id, a: &Contact, b: &Contact) -> bool
    ensures { IsTrue result ↔ IsCloser target.now a.now b.now }
{
    compare(target, a, b).is_lt()
}
