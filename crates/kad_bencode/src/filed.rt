//! A dictionary's keys by the places where they stand: the key at a place, whether it is above another, how a place is noted, and
//! whether a key is among pairs.
ghost use Rattle.std.specs.Prelude.{◌≡◌, ℕ, ◌≤◌, List, [], ◌∷◌, ◌++◌, length, take};
ghost use Rattle.kad_bencode.specs.Keys.{keys_of, key_cmp};
ghost use Rattle.kad_bencode.specs.Spelling.{has_key, string_text};
ghost use Rattle.kad_bencode.specs.Faults.{IsAt};
ghost use Rattle.kad_bencode.specs.Finding.{ArePairs, IsAbove};
ghost use Rattle.kad_bencode.specs.Filing.{own};
ghost use Rattle.kad_bencode.specs.declared.entries.Pair.{Pair};
ghost use Rattle.kad_bencode.specs.declared.value.Value.{Value};

use crate::find::{find, string_in};
use crate::scan::short_end;

/// How many keys are noted at most, of all dictionaries that are open: as many as a datagram of 4,096 bytes has room for, since a
/// pair takes four at least.
pub(crate) const MOST: usize = 1024;

/// How many of a short text: one of at most four times as many bytes.
pub(crate) const SHORT: usize = 64;

/// Whether a key comes after another. Keys are short as a rule, so their bytes are compared one by one.
pub(crate) fn is_above(a: &[u8], b: &[u8]) -> bool
    ensures { IsAbove (key_cmp a.now b.now) result }
{
    let both = a.len().min(b.len());
    let mut at = 0;
    while at < both {
        if a[at] > b[at] {
            return true;
        }
        if a[at] < b[at] {
            return false;
        }
        at += 1;
    }
    a.len() > b.len()
}

/// The key whose text stands at a place.
#[inline(always)]
pub(crate) fn key_at(bytes: &[u8], place: usize) -> &[u8]
    ensures { (key : List ℕ) → IsAt bytes.now place (string_text key) → result.now ≡ key }
{
    if place >= bytes.len() {
        return &bytes[..0];
    }
    let rest = &bytes[place..];
    if let Some(next) = short_end(rest, 0) {
        return &rest[2..next];
    }
    match string_in(rest) {
        Some((key, _)) => key,
        None => &bytes[..0],
    }
}

/// Notes a place behind the first so many, and answers how many are noted then: more than there is room for if there was none,
/// or the place is beyond 16 bits.
#[inline(always)]
pub(crate) fn note(places: &mut [u16], top: usize, at: usize) -> usize
    ensures order { top ≤ result }
    ensures frame { take top places.new ≡ take top places.old }
    ensures noted { result ≤ length places.old → (base : ℕ) → base ≤ top
        → own base result places.new ≡ own base top places.old ++ at ∷ [] }
{
    if top >= places.len() || at > 65535 {
        return top.max(places.len() + 1);
    }
    places[top] = at as u16;
    top + 1
}

/// Whether a key is among pairs.
pub(crate) fn has_key(pairs: &[u8], key: &[u8]) -> bool
    ensures { (ps : List (Pair Value)) → ArePairs pairs.now ps
        → result ≡ has_key (keys_of ps) key.now }
{
    find(pairs, key).is_some()
}
