//! Digests, bit by bit.
ghost use Rattle.std.specs.Prelude.{◌≡◌, ◌↔◌, IsTrue};
ghost use Rattle.kad_base.specs.Bits.{BeginsWithZeros};
ghost use Rattle.kad_base.specs.Puzzles.{hash};

use kad_base::leading_zeros;
use sha1::Sha1;

/// The hash of the puzzles: SHA-1 (FIPS 180-4).
#[tactic(auto, unfolding(kad_base::specs::Puzzles::hash))]
pub(crate) fn digest(bytes: &[u8]) -> [u8; 20]
    ensures { result ≡ hash bytes.now }
{
    Sha1::digest(bytes)
}

/// Whether the digest begins with that many zero bits. More than 160 bits ask for all of its 160.
pub(crate) fn begins_with_zeros(digest: &[u8; 20], bits: u8) -> bool
    ensures { IsTrue result ↔ BeginsWithZeros bits digest.now }
{
    leading_zeros(digest) >= bits.min(160)
}
