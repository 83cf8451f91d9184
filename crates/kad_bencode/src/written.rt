//! The written form of a value that stands in a text.
ghost use Rattle.std.specs.Prelude.{◌≡◌, ◌≤◌, List, ◌++◌, Some, length, take, drop, IfOk};
ghost use Rattle.kad_bencode.specs.Keys.{IsAscending, value_of, without};
ghost use Rattle.kad_bencode.specs.Spelling.{Fits, Spells, text_of};
ghost use Rattle.kad_bencode.specs.declared.entries.Pair.{Pair};
ghost use Rattle.kad_bencode.specs.declared.value.Value.{Value as Ben};
ghost use Rattle.kad_bencode.specs.declared.value.Value.TheVariants as value;

use crate::find::first_pair;
use crate::form::form;
use crate::piece::Piece;
use crate::place::length_behind;
use kad_base::{Bytes, List, NoMemory};
use std::alloc::Global;

/// The written form of the value that bytes spell.
fn written_in(alloc: Global, bytes: &[u8]) -> Result<Bytes, NoMemory>
    ensures { (v : Ben) → Spells bytes.now v → IfOk result (λ form. form ≡ text_of v) }
{
    Ok(List::from_vec(form(alloc, bytes)?))
}

/// Where the pair of a key stands in the written form of a dictionary that has it, and where it ends.
fn pair_in(form: &[u8], key: &[u8]) -> (usize, usize)
    ensures order { result.0 ≤ result.1 }
    ensures within { result.1 ≤ length form.now }
    ensures parts { (ps : List (Pair Ben)) (v : Ben) → form.now ≡ text_of (value.Dict ps)
        → Fits 0 (value.Dict ps) → IsAscending ps → value_of ps key.now ≡ Some v
        → text_of (value.Dict (without ps key.now)) ≡ take result.0 form.now ++ drop result.1 form.now }
{
    if form.len() < 2 {
        return (0, 0);
    }
    let end = form.len() - 1;
    let from = end - length_behind(&form[1..end], key);
    match first_pair(&form[from..end]) {
        Some((_, _, others)) => (from, end - others.len()),
        None => (from, from),
    }
}

/// The written form of the dictionary that bytes spell, without the pair of a key that it has.
fn without_in(alloc: Global, bytes: &[u8], key: &[u8]) -> Result<Bytes, NoMemory>
    ensures { (ps : List (Pair Ben)) (v : Ben) → Spells bytes.now (value.Dict ps)
        → value_of ps key.now ≡ Some v
        → IfOk result (λ form. form ≡ text_of (value.Dict (without ps key.now))) }
{
    let whole = form(alloc, bytes)?;
    let (from, to) = pair_in(whole.as_slice(), key);
    let mut text = Vec::from_slice(alloc, &whole.as_slice()[..from])?;
    text.extend_from_slice(&whole.as_slice()[to..])?;
    Ok(List::from_vec(text))
}

impl<'a> Piece<'a> {
    /// The written form of the value, whatever order its text has the keys in. It takes memory in proportion to the text.
    pub fn written(&self, alloc: Global) -> Result<Bytes, NoMemory>
        ensures { IfOk result (λ form. form ≡ text_of self.now) }
    {
        written_in(alloc, self.bytes)
    }

    /// The written form of a dictionary without the pair of a key that it has; of any other value it is any text. It takes
    /// memory in proportion to the text.
    pub fn written_without(&self, alloc: Global, key: &[u8]) -> Result<Bytes, NoMemory>
        ensures { (ps : List (Pair Ben)) (v : Ben) → self.now ≡ value.Dict ps
            → value_of ps key.now ≡ Some v
            → IfOk result (λ form. form ≡ text_of (value.Dict (without ps key.now))) }
    {
        without_in(alloc, self.bytes, key)
    }
}
