//! The pairs of a dictionary where their texts stand, in the order of the text. No call takes memory.
ghost use Rattle.std.specs.Prelude.{◌≡◌, ◌<◌, ◌≤◌, IfSome, length, List, [], ◌∷◌, MatchOption, None};
ghost use Rattle.kad_bencode.specs.Parts.{dict_of};
ghost use Rattle.kad_bencode.specs.Spelling.{Spells};
ghost use Rattle.kad_bencode.specs.Finding.{ArePairs};
ghost use Rattle.kad_bencode.specs.Naming.{IsFirstPair, IsDictOf, IsDictWith};
ghost use Rattle.kad_bencode.specs.declared.entries.Pair.{Pair};
ghost use Rattle.kad_bencode.specs.declared.value.Value.{Value};

use crate::find::first_pair;
use crate::piece::Piece;
use crate::scan::has_byte;
use std::marker::Model;

/// The pairs of a dictionary that are left; contracts see the list of them.
#[derive(Drop)]
pub struct Pairs<'a> {
    bytes: &'a [u8],
}

impl<'a> Model for Pairs<'a> {
    ghost use Rattle.std.specs.Prelude.{List};
    ghost use Rattle.std.specs.Coded.{codes};
    ghost use Rattle.kad_bencode.specs.declared.entries.Pair.{Pair as Entry};
    ghost use Rattle.kad_bencode.specs.contracts.entries.Pair as entry;
    ghost use Rattle.kad_bencode.specs.declared.value.Value.{Value as Ben};
    ghost use Rattle.kad_bencode.specs.contracts.value.Value as ben;
    ghost use Rattle.kad_bencode.specs.Finding.{ArePairs};
    ghost use Rattle.kad_bencode.specs.Naming.{named_pairs, pairs_in};

    ghost Value = { List (Entry Ben) };

    ghost coded = { Prim.hlevel (codes, (entry.the_row ben.the_row).coded) };

    ghost view = { λ p. named_pairs p.bytes.now };

    ghost invariant = { λ p. ArePairs p.bytes.now (pairs_in p.bytes.now) };
}

impl<'a> Pairs<'a> {
    /// The next pair: its key and its value.
    pub fn next(&mut self) -> Option<(&'a [u8], Piece<'a>)>
        ensures { MatchOption result ((self.old ≡ []) × (self.new ≡ []))
            (λ x. self.old ≡ record { key = x.0.now; value = x.1 } ∷ self.new) }
    {
        match next_pair(self.bytes) {
            Some((key, bytes, rest)) => {
                self.bytes = rest;
                Some((key, Piece { bytes }))
            }
            None => None,
        }
    }
}

/// The first pair, and those behind it.
pub(crate) fn next_pair(bytes: &[u8]) -> Option<(&[u8], &[u8], &[u8])>
    ensures within { IfSome result (λ x. length x.1.now ≤ length bytes.now) }
    ensures shorter { IfSome result (λ x. length x.2.now < length bytes.now) }
    ensures first { (ps : List (Pair Value)) → ArePairs bytes.now ps
        → MatchOption result (ps ≡ []) (λ x. IsFirstPair ps x.0.now x.1.now x.2.now) }
{
    if bytes.len() == 0 {
        return None;
    }
    match first_pair(bytes) {
        Some((key, text, rest)) => Some((key, text, rest)),
        None => None,
    }
}

/// The texts of a dictionary's pairs.
pub(crate) fn pairs_in(bytes: &[u8]) -> Option<&[u8]>
    ensures shorter { IfSome result (λ x. length x.now < length bytes.now) }
    ensures pairs { (v : Value) → Spells bytes.now v
        → MatchOption result (None ≡ dict_of v) (λ x. IsDictOf v x.now) }
{
    if !has_byte(bytes, 0, b'd') {
        return None;
    }
    if bytes.len() < 2 {
        return None;
    }
    Some(&bytes[1..bytes.len() - 1])
}

impl<'a> Piece<'a> {
    /// A dictionary's pairs, in the order of the text: each key has its value.
    pub fn pairs(&self) -> Option<Pairs<'a>>
        ensures { MatchOption result (None ≡ dict_of self.now) (IsDictWith self.now) }
    {
        match pairs_in(self.bytes) {
            Some(bytes) => Some(Pairs { bytes }),
            None => None,
        }
    }
}
