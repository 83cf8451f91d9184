//! The command `mint`: makes an identifier that solves both puzzles, from a seed. It reads nothing.
ghost use Rattle.std.specs.Prelude.{◌≡◌, IfOk, IfErr, string_bytes};
ghost use Rattle.plain_commands.specs.Minted.{seed_of, minted_line, MintText, MintCause};

use command_base::Status;
use id_puzzles::{Minted, Unminted};
use kad_base::{Bytes, List, NoMemory};
use kad_words::MintWords;
use std::alloc::{AllocError, Global};

/// The seed of the words, or the random bytes.
pub fn seed_for(seed: Option<[u8; 32]>, random: &[u8; 32]) -> [u8; 32]
    ensures { result ≡ seed_of seed random.now }
{
    match seed {
        Some(seed) => seed,
        None => *random,
    }
}

/// The identifier, its key and X in hex, as a line.
fn print_minted(alloc: Global, minted: &Minted) -> Result<String, AllocError>
    ensures { let proof = minted.now.proof in
        IfOk result (λ text. string_bytes text ≡ minted_line minted.now.id.0 proof.key proof.x) }
{
    let id = hex::encode(alloc, minted.id.0)?;
    let key = hex::encode(alloc, minted.proof.key)?;
    let x = hex::encode(alloc, minted.proof.x)?;
    format!(in alloc; "{id} {key} {x}\n")
}

/// The text of what was minted.
fn text_of(alloc: Global, minted: &Minted) -> Result<Bytes, NoMemory>
    ensures { let proof = minted.now.proof in
        IfOk result (λ text. text ≡ minted_line minted.now.id.0 proof.key proof.x) }
{
    let Ok(line) = print_minted(alloc, minted) else {
        return Err(NoMemory);
    };
    List::from_slice(alloc, line.as_bytes())
}

/// Mints from the seed of the words, or from the random bytes where they name none, and makes the text, or says why there is
/// none. Nothing is written yet.
pub fn mint(alloc: Global, words: &MintWords, random: &[u8; 32]) -> Result<Bytes, Status>
    ensures ok { IfOk result (MintText words.now random.now) }
    ensures cause { IfErr result (MintCause words.now random.now) }
{
    let seed = seed_for(words.seed, random);
    match id_puzzles::mint(&seed, words.c1, words.c2, words.tries) {
        Ok(minted) => Ok(text_of(alloc, &minted)?),
        Err(Unminted::Keys) => Err(Status::Unminted),
        Err(Unminted::Values) => Err(Status::Unminted),
    }
}
