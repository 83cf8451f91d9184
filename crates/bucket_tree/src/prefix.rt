//! Prefixes of identifiers.
ghost use Rattle.std.specs.Prelude.{◌≡◌, ◌↔◌, ◌-◌, ◌<◌, ◌≤◌, List, [], ◌∷◌, ◌++◌, length, replicate, false, IsTrue, get_or};
ghost use Rattle.bucket_tree.specs.Partition.{id_bits, begins};

use crate::bits::{bit, with_bit};
use kad_base::{Id, List};
use std::marker::Model;

/// The bits that the identifiers of a bucket begin with. The bits past its length are zero.
#[derive(Debug, Drop)]
pub struct Prefix {
    bits: Id,
    len: u8,
}

impl Model for Prefix {
    ghost use Rattle.std.specs.Prelude.{Bool, List};

    ghost Value = { List Bool };

    ghost use Rattle.bucket_tree.specs.Partition.{bits_from};
    ghost use Rattle.bucket_tree.specs.Stored.{IsPrefix};

    ghost view = { λ p. bits_from p.len 0 p.bits.0 };

    ghost invariant = { λ p. IsPrefix p.bits.0 p.len };
}

/// Prefixes in ascending order of their bits.
pub type Prefixes = List<Prefix>;

impl Prefix {
    /// How many bits it has, at most 160.
    pub fn len(&self) -> u8
        ensures count { result ≡ length self.now }
        ensures within { result ≤ 160 }
    {
        self.len
    }

    /// Its bits, the highest first, and zeros past its length.
    pub fn bits(&self) -> Id
        ensures { id_bits result ≡ self.now ++ replicate (160 - length self.now) false }
    {
        self.bits
    }

    /// Its bit at a place, counted from the highest.
    pub fn bit_at(&self, at: u8) -> bool
        requires { at < length self.now }
        ensures { result ≡ get_or self.now at false }
    {
        bit(&self.bits, at)
    }

    /// Whether the identifier begins with it.
    pub fn begins(&self, id: &Id) -> bool
        ensures { result ≡ begins self.now (id_bits id.now) }
    {
        let whole = self.len / 8;
        for byte in 0..whole as usize {
            if self.bits.0[byte] != id.0[byte] {
                return false;
            }
        }
        for at in whole * 8..self.len {
            if bit(&self.bits, at) != bit(id, at) {
                return false;
            }
        }
        true
    }

    /// The prefix of every identifier.
    pub fn empty() -> Prefix
        ensures { result ≡ [] }
    {
        Prefix {
            bits: Id([0; 20]),
            len: 0,
        }
    }

    /// It once more.
    pub fn copied(&self) -> Prefix
        ensures { result ≡ self.now }
    {
        Prefix {
            bits: self.bits,
            len: self.len,
        }
    }

    /// The prefix with one more bit, a 1 where `one`.
    pub fn child(&self, one: bool) -> Prefix
        requires { length self.now < 160 }
        ensures { result ≡ self.now ++ one ∷ [] }
    {
        if one {
            return Prefix {
                bits: with_bit(&self.bits, self.len),
                len: self.len + 1,
            };
        }
        Prefix {
            bits: self.bits,
            len: self.len + 1,
        }
    }

    /// Whether the two are one prefix.
    pub(crate) fn is(&self, other: &Prefix) -> bool
        ensures { IsTrue result ↔ (self.now ≡ other.now) }
    {
        self.len == other.len && self.begins(&other.bits)
    }
}
