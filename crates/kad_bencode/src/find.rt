//! Looks keys up in the text of a dictionary. No call takes memory.
ghost use Rattle.std.specs.Prelude.{◌≡◌, ◌↔◌, ℕ, ◌+◌, ◌<◌, ◌≤◌, List, [], ◌∷◌, ◌++◌, length, IsTrue, IfSome, MatchOption, option_copied, option_map};
ghost use Rattle.kad_bencode.specs.Keys.{value_of};
ghost use Rattle.kad_bencode.specs.Spelling.{Spells, string_text, text_of, pairs_text};
ghost use Rattle.kad_bencode.specs.Faults.{pairs_of};
ghost use Rattle.kad_bencode.specs.declared.entries.Pair.{Pair};
ghost use Rattle.kad_bencode.specs.declared.value.Value.{Value};
ghost use Rattle.kad_bencode.specs.declared.value.Value.TheVariants as value;
ghost use Rattle.kad_bencode.specs.Finding.{ArePairs, Shows};

use crate::scan::{past, string_at};

/// The string at the front, and how long its text is.
#[inline(always)]
pub(crate) fn string_in(bytes: &[u8]) -> Option<(&[u8], usize)>
    ensures within { IfSome result (λ x. (0 < x.1) × (x.1 ≤ length bytes.now)) }
    ensures reads { (s rest : List ℕ) → bytes.now ≡ string_text s ++ rest
        → MatchOption result ⊥ (λ x. (x.0.now ≡ s) × (x.1 ≡ length (string_text s))) }
{
    match string_at(bytes, 0) {
        Ok((string, next)) => Some((string, next)),
        Err(_) => None,
    }
}

/// The first pair: its key, the text of its value, and the pairs behind it.
pub(crate) fn first_pair(pairs: &[u8]) -> Option<(&[u8], &[u8], &[u8])>
    ensures within { IfSome result (λ x. length x.1.now ≤ length pairs.now) }
    ensures shorter { IfSome result (λ x. length x.2.now < length pairs.now) }
    ensures reads { (p : Pair Value) (ps : List (Pair Value)) → ArePairs pairs.now (p ∷ ps)
        → MatchOption result ⊥ (λ x. (x.0.now ≡ p.key) × (x.1.now ≡ text_of p.value)
        × ArePairs x.2.now ps) }
{
    match string_in(pairs) {
        Some((key, from)) => {
            let behind = &pairs[from..];
            let to = past(behind);
            Some((key, &behind[..to], &behind[to..]))
        }
        None => None,
    }
}

/// Whether two strings are the same.
pub(crate) fn same(a: &[u8], b: &[u8]) -> bool
    ensures { IsTrue result ↔ (a.now ≡ b.now) }
{
    a == b
}

/// The text of a key's value among pairs.
pub(crate) fn find<'a>(pairs: &'a [u8], key: &[u8]) -> Option<&'a [u8]>
    ensures { (ps : List (Pair Value)) → ArePairs pairs.now ps
        → option_copied result ≡ option_map text_of (value_of ps key.now) }
{
    let mut rest = pairs;
    while rest.len() > 0 {
        match first_pair(rest) {
            Some((name, text, others)) => {
                if same(name, key) {
                    return Some(text);
                }
                rest = others;
            }
            None => return None,
        }
    }
    None
}

/// The text of a key's value in the text of a dictionary.
pub fn value_in<'a>(bytes: &'a [u8], key: &[u8]) -> Option<&'a [u8]>
    ensures { (pairs : List (Pair Value)) → Spells bytes.now (value.Dict pairs)
        → Shows (option_copied result) (value_of pairs key.now) }
{
    if bytes.len() < 2 {
        return None;
    }
    find(&bytes[1..bytes.len() - 1], key)
}
