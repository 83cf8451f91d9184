//! Minting an identifier that solves both puzzles.
ghost use Rattle.std.specs.Prelude.{◌≡◌, ◌↔◌, IfOk, IfSome, IsNone};
ghost use Rattle.kad_base.specs.Puzzles.{hash, Solves};
ghost use Rattle.id_puzzles.specs.Minting.{IsFirstKey, IsFirstValue, HasNoKey, HasNoValue, value_at, HasNoFirstValue};

use crate::bits::digest;
use crate::puzzles::{solves_dynamic, solves_static};
use crate::words::Words;
use kad_base::{Id, Proof, xor};

/// An identifier that was made and not chosen, with what shows it.
#[derive(Clone, Copy, Debug, PartialEq, Eq, Hash)]
pub struct Minted {
    pub id: Id,
    pub proof: Proof,
}

/// Which puzzle the tries did not solve.
#[derive(Clone, Copy, Debug, PartialEq, Eq, Hash)]
pub enum Unminted {
    /// The static puzzle: no key was found.
    Keys,
    /// The dynamic puzzle of the first key: no X was found.
    Values,
}

/// Mints an identifier for the static puzzle of `c1` bits and the dynamic puzzle of `c2` bits. Its key is the first of
/// the seed's keys, each the bytes of eight drawn words, whose identifier solves the static puzzle. Its X is then the
/// first count from 0 that solves the dynamic puzzle, as 20 bytes in network order. Each of the two has `tries` tries.
/// A try costs two hashes, then one.
pub fn mint(seed: &[u8; 32], c1: u8, c2: u8, tries: u32) -> Result<Minted, Unminted>
    ensures key { IfOk result (λ m. IsFirstKey seed.now c1 tries m.proof.key) }
    ensures identifier { IfOk result (λ m. m.id.0 ≡ hash m.proof.key) }
    ensures value { IfOk result (λ m. IsFirstValue m.id.0 c2 tries m.proof.x) }
    ensures solves { IfOk result (λ m. Solves c1 c2 m.id.0 m.proof) }

    ensures no_key { (result ≡ Err Unminted.Keys) ↔ HasNoKey seed.now c1 tries }
    ensures no_value { (result ≡ Err Unminted.Values) ↔ HasNoValue seed.now c1 c2 tries }
{
    let Some(key) = first_key(seed, c1, tries) else {
        return Err(Unminted::Keys);
    };
    let id = digest(&key);
    let Some(x) = first_value(&id, c2, tries) else {
        return Err(Unminted::Values);
    };
    Ok(Minted {
        id: Id(id),
        proof: Proof { key, x },
    })
}

fn first_key(seed: &[u8; 32], bits: u8, tries: u32) -> Option<[u8; 32]>
    ensures some { IfSome result (IsFirstKey seed.now bits tries) }
    ensures none { IsNone result ↔ HasNoKey seed.now bits tries }
{
    let mut words = Words::new(seed, 0);
    let mut key = [0; 32];
    for _ in 0..tries {
        words.fill(&mut key);
        if solves_static(&digest(&key), bits) {
            return Some(key);
        }
    }
    None
}

fn first_value(id: &[u8; 20], bits: u8, tries: u32) -> Option<[u8; 20]>
    ensures some { IfSome result (IsFirstValue id.now bits tries) }
    ensures none { IsNone result ↔ HasNoFirstValue id.now bits tries }
{
    for n in 0..tries {
        let x = value(n);
        if solves_dynamic(&xor(id, &x), bits) {
            return Some(x);
        }
    }
    None
}

/// The count as X: 20 bytes in network order.
#[tactic(auto, unfolding(crate::specs::Minting::value_at))]
fn value(n: u32) -> [u8; 20]
    ensures { result ≡ value_at n }
{
    let mut x = [0; 20];
    x[16..].copy_from_slice(&n.to_be_bytes());
    x
}
