//! Which reports pass the puzzles.
ghost use Rattle.std.specs.Prelude.{◌↔◌, IsTrue};
ghost use Rattle.kad_base.specs.Bits.{xor_bytes, BeginsWithZeros};
ghost use Rattle.kad_base.specs.Puzzles.{hash, Passes, Solves};

use crate::bits::{begins_with_zeros, digest};
use kad_base::{Check, Policy, Proof, Report, xor};

/// Whether the report passes under the policy. One without a proof passes only under `Plain`.
pub fn passes(policy: Policy, report: &Report) -> bool
    ensures { IsTrue result ↔ Passes policy report.now }
{
    match policy {
        Policy::Plain => true,
        Policy::Puzzled { c1, c2 } => match &report.proof {
            Some(proof) => solves(c1, c2, &report.contact.id.0, proof),
            None => false,
        },
    }
}

fn solves(c1: u8, c2: u8, id: &[u8; 20], proof: &Proof) -> bool
    ensures { IsTrue result ↔ Solves c1 c2 id.now proof.now }
{
    *id == digest(&proof.key) && solves_static(id, c1) && solves_dynamic(&xor(id, &proof.x), c2)
}

/// The static puzzle, which keeps identifiers from being chosen: the hash of the identifier begins with `bits` zeros.
pub(crate) fn solves_static(id: &[u8; 20], bits: u8) -> bool
    ensures { IsTrue result ↔ BeginsWithZeros bits (hash id.now) }
{
    begins_with_zeros(&digest(id), bits)
}

/// The dynamic puzzle, of the identifier XOR X.
pub(crate) fn solves_dynamic(mixed: &[u8; 20], bits: u8) -> bool
    ensures { IsTrue result ↔ BeginsWithZeros bits (hash mixed.now) }
{
    begins_with_zeros(&digest(mixed), bits)
}

/// Judges a report by its puzzles.
#[derive(Clone, Copy, Debug)]
pub struct Sha1Check;

impl Check for Sha1Check {
    fn check(&self, policy: Policy, report: &Report) -> bool {
        passes(policy, report)
    }
}
