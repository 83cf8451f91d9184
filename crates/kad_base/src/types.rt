//! Plain data: identifiers, addresses, contacts, and what a link did.
ghost use Rattle.std.specs.Prelude.{◌≡◌, ◌↔◌, ◌+◌, [], ◌∷◌, ◌++◌, length, IsTrue};
ghost use Rattle.std.specs.Int.{w16, to_le_bytes};
ghost use Rattle.kad_base.specs.Contacts.{IsUsable, family, octets, of_family, same};

use crate::bytes::put_bytes;
use crate::list::Bytes;
use std::alloc::{AllocError, AllocFailed};
use std::hash::{Hash, Hasher};

/// A Kademlia identifier: 160 bits as 20 bytes, the highest bit first.
#[derive(Clone, Copy, Debug, PartialEq, Eq, PartialOrd, Ord)]
pub struct Id(pub [u8; 20]);

/// Feeds all bytes at once, where the derived one would feed their number and then each by itself.
impl Hash for Id {
    ghost use Rattle.std.specs.Cmp.Rules.{hashing};
    ghost use Rattle.std.proofs.Common.{rules};

    ghost hash_input = { λ id. id.0 ∷ [] };

    ghost respects_eq = { Prim.search (hashing, rules) };

    fn hash<H: Hasher>(&self, state: &mut H) {
        state.write(&self.0);
    }
}

/// An address of IPv4 or IPv6, in network order. Those of IPv4 come first.
#[derive(Clone, Copy, Debug, PartialEq, Eq, PartialOrd, Ord)]
pub enum Ip {
    V4([u8; 4]),
    V6([u8; 16]),
}

/// Feeds all bytes at once. Their number tells which of the two it is.
impl Hash for Ip {
    ghost use Rattle.kad_base.specs.Hashes.{ip_alike};

    ghost hash_input = { λ ip. octets ip ∷ [] };

    ghost respects_eq = { ip_alike };

    fn hash<H: Hasher>(&self, state: &mut H) {
        match self {
            Ip::V4(bytes) => state.write(bytes),
            Ip::V6(bytes) => state.write(bytes),
        }
    }
}

/// Which of the two networks: that of IPv4 or that of IPv6, which BEP 32 keeps apart.
#[derive(Clone, Copy, Debug, PartialEq, Eq, Hash)]
pub enum Family {
    Four,
    Six,
}

/// A UDP address.
#[derive(Clone, Copy, Debug, PartialEq, Eq, PartialOrd, Ord, Hash)]
pub struct Addr {
    pub ip: Ip,
    pub port: u16,
}

/// A node as others name it: Kademlia's triple of identifier, address and port. One identifier at two addresses is
/// two contacts.
#[derive(Clone, Copy, Debug, PartialEq, Eq, PartialOrd, Ord)]
pub struct Contact {
    pub id: Id,
    pub addr: Addr,
}

/// Feeds all of it as one run of bytes, where the derived one would feed the parts one after another. The number of bytes tells
/// which of the two networks it is.
impl Hash for Contact {
    ghost use Rattle.kad_base.specs.Hashes.{contact_bytes, contact_alike};

    ghost hash_input = { λ c. contact_bytes c ∷ [] };

    ghost respects_eq = { contact_alike };

    fn hash<H: Hasher>(&self, state: &mut H) {
        match &self.addr.ip {
            Ip::V4(octets) => {
                let mut run = [0; 26];
                put_contact(&mut run, self, octets);
                state.write(&run);
            }
            Ip::V6(octets) => {
                let mut run = [0; 38];
                put_contact(&mut run, self, octets);
                state.write(&run);
            }
        }
    }
}

/// Fills the buffer with identifier, address and port, the port's low byte first.
#[inline(always)]
fn put_contact(run: &mut [u8], contact: &Contact, octets: &[u8])
    requires { length run.old ≡ length contact.now.id.0 + length octets.now + 2 }
    ensures { run.new ≡ contact.now.id.0 ++ octets.now ++ to_le_bytes w16 contact.now.addr.port }
{
    let at = put_bytes(run, 0, &contact.id.0);
    let at = put_bytes(run, at, octets);
    put_bytes(run, at, &contact.addr.port.to_le_bytes());
}

/// What shows that an identifier was made and not chosen (S/Kademlia, section 4.1): the public key that hashes to it,
/// and the value X of the dynamic puzzle.
#[derive(Clone, Copy, Debug, PartialEq, Eq, Hash)]
pub struct Proof {
    pub key: [u8; 32],
    pub x: [u8; 20],
}

/// A contact as an answer names it, with or without its proof.
#[derive(Clone, Copy, Debug, PartialEq, Eq, Hash)]
pub struct Report {
    pub contact: Contact,
    pub proof: Option<Proof>,
}

/// Which reports pass: all, or those whose proof solves the static puzzle of `c1` bits and the dynamic puzzle of `c2`
/// bits, each 0 to 32 (S/Kademlia, section 4.1).
#[derive(Clone, Copy, Debug, PartialEq, Eq, Hash)]
pub enum Policy {
    Plain,
    Puzzled { c1: u8, c2: u8 },
}

/// From when on a contact is the path's that has it, so that a lookup uses each node once (S/Kademlia, section 4.4): once it is
/// named to the path, and no other path takes it then; or once the path asks it, and until then any path that is told of it
/// may have it too.
#[derive(Clone, Copy, Debug, PartialEq, Eq, Hash)]
pub enum ClaimRule {
    Named,
    Asked,
}

/// The allocator gave no memory.
#[derive(Clone, Copy, Debug, PartialEq, Eq)]
pub struct NoMemory;

impl From<AllocError> for NoMemory {
    fn from(_: AllocError) -> Self {
        NoMemory
    }
}

impl<T: Drop> From<AllocFailed<T>> for NoMemory {
    fn from(_: AllocFailed<T>) -> Self {
        NoMemory
    }
}

/// A source, a sink or a link failed, and counted it.
#[derive(Clone, Copy, Debug, PartialEq, Eq)]
pub struct Failed;

/// What a receive gave, and the moment that it told, in milliseconds: a datagram of `len` bytes, or none.
#[derive(Clone, Copy, Debug, PartialEq, Eq)]
pub enum Came {
    Packet { from: Addr, len: usize, at: u64 },
    Quiet { at: u64 },
}

/// What a link did, as its transcript has it. `until` is the argument of the receive, and each moment is in
/// milliseconds.
#[derive(Debug, Drop, PartialEq, Eq)]
pub enum Event {
    Now {
        at: u64,
    },
    Sent {
        to: Addr,
        bytes: Bytes,
    },
    Unsent {
        to: Addr,
        bytes: Bytes,
    },
    Got {
        from: Addr,
        bytes: Bytes,
        until: u64,
        at: u64,
    },
    Quiet {
        until: u64,
        at: u64,
    },
}

/// The network of an address. An IPv6 address that maps one of IPv4 is an IPv6 address like any other.
pub fn family_of(addr: &Addr) -> Family
    ensures { result ≡ family addr.now.ip }
{
    match addr.ip {
        Ip::V4(_) => Family::Four,
        Ip::V6(_) => Family::Six,
    }
}

/// Whether the address is of the network.
pub fn is_of(family: Family, addr: &Addr) -> bool
    ensures { result ≡ of_family family addr.now.ip }
{
    family_of(addr) == family
}

/// Whether a node with the identifier `own` may ask the contact: it isn't the node itself, and its port isn't 0.
pub fn is_usable(own: &Id, contact: &Contact) -> bool
    ensures { IsTrue result ↔ IsUsable own.now contact.now }
{
    contact.id != *own && contact.addr.port != 0
}

#[inline(always)]
fn are_equal(a: &Contact, b: &Contact) -> bool
    ensures { IsTrue result ↔ (a.now ≡ b.now) }
{
    a == b
}

/// Whether the two are one contact: identifier, address and port. Near ones begin alike, so that most differ in the last
/// byte of the identifier.
pub fn is_same(a: &Contact, b: &Contact) -> bool
    ensures { result ≡ same a.now b.now }
{
    if a.id.0[19] != b.id.0[19] {
        return false;
    }
    are_equal(a, b)
}
