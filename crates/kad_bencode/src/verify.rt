//! Whether bytes spell a value (BEP 3), without memory.
ghost use Rattle.std.specs.Prelude.{◌≡◌, ℕ, suc, ◌+◌, ◌-◌, ◌<◌, ◌≤◌, not, List, [], ◌∷◌, length, take, drop, IsTrue, IsOk, IfOk, IfErr, IfSome, OnOk, get_or, Err, MatchOption, true};
ghost use Rattle.kad_bencode.specs.Keys.{keys_of, key_cmp};
ghost use Rattle.kad_bencode.specs.Spelling.{Spells, has_key, string_text};
ghost use Rattle.kad_bencode.specs.Faults.{Open, InList, IsAt, IsFirstFault};
ghost use Rattle.kad_bencode.specs.Machine.{Awaits, ReadsValue, Reached, Ready, Keyless, FitsOpen, FitsPairs};
ghost use Rattle.kad_bencode.specs.declared.entries.Pair.{Pair};
ghost use Rattle.kad_bencode.specs.declared.value.Value.{Value};
ghost use Rattle.kad_bencode.specs.declared.value.Bad.{Bad};
ghost use Rattle.kad_bencode.specs.Scanning.{Scans};
ghost use Rattle.kad_bencode.specs.Finding.{ArePairs, IsNext};
ghost use Rattle.kad_bencode.specs.Filing.{own, Differ, AreKeys, Noted};

use crate::distinct::first_twice;
use crate::filed::{MOST, SHORT, has_key, is_above, key_at, note};
use crate::reader::MAX_DEPTH;
use crate::scan::{has_byte, has_digit, integer_at, short_end, string_at, text_at};
use crate::value::Bad;

/// Whether the bytes spell a value, all of them, or the fault that is seen first.
#[inline(always)]
pub fn check(bytes: &[u8]) -> Result<(), Bad>
    ensures spells { OnOk result ((v : Value) × Spells bytes.now v) }
    ensures fault { IfErr result (IsFirstFault bytes.now) }
    ensures only { (v : Value) → Spells bytes.now v → IsOk result }
    ensures refused { (bad : Bad) → IsFirstFault bytes.now bad → result ≡ Err bad }
{
    whole(bytes)
}

/// A value, and nothing behind it.
#[inline(always)]
fn whole(bytes: &[u8]) -> Result<(), Bad>
    ensures { Scans bytes.now result (λ _. (v : Value) × Spells bytes.now v) }
{
    if bytes.len() <= 4 * SHORT {
        return whole_of_short(bytes);
    }
    whole_of_long(bytes)
}

/// The same of a short text, whose row of places is short too: less is cleared.
#[inline(never)]
fn whole_of_short(bytes: &[u8]) -> Result<(), Bad>
    ensures { Scans bytes.now result (λ _. (v : Value) × Spells bytes.now v) }
{
    whole_in(bytes, &mut [0u16; SHORT])
}

/// The same of a long text.
#[inline(never)]
fn whole_of_long(bytes: &[u8]) -> Result<(), Bad>
    ensures { Scans bytes.now result (λ _. (v : Value) × Spells bytes.now v) }
{
    whole_in(bytes, &mut [0u16; MOST])
}

/// The same, with a row for the places of its keys.
#[inline(always)]
fn whole_in(bytes: &[u8], places: &mut [u16]) -> Result<(), Bad>
    ensures { Scans bytes.now result (λ _. (v : Value) × Spells bytes.now v) }
{
    let next = value_at(bytes, 0, 0, places, 0)?;
    if next < bytes.len() {
        return Err(Bad::Trailing { at: next });
    }
    Ok(())
}

/// Where the value at a place ends, where that many lists and dictionaries are open, and so many of their keys are noted.
#[cycle(checking)]
#[inline(always)]
fn value_at(
    bytes: &[u8],
    at: usize,
    depth: usize,
    places: &mut [u16],
    top: usize,
) -> Result<usize, Bad>
    requires within { at ≤ length bytes.now }
    requires depth { depth ≤ 16 }
    ensures moves { IfOk result (λ next. (at < next) × (next ≤ length bytes.now)) }
    ensures frame { take top places.new ≡ take top places.old }
    ensures reads { (os : List Open) → length os ≡ depth → Awaits bytes.now at os
        → Scans bytes.now result (ReadsValue bytes.now at os) }
{
    if has_byte(bytes, at, b'i') {
        let (_, next) = integer_at(bytes, at)?;
        return Ok(next);
    }
    if has_byte(bytes, at, b'l') {
        if depth == MAX_DEPTH {
            return Err(Bad::Deep { at });
        }
        return list_at(bytes, at + 1, depth + 1, places, top);
    }
    if has_byte(bytes, at, b'd') {
        if depth == MAX_DEPTH {
            return Err(Bad::Deep { at });
        }
        return dictionary_at(bytes, at + 1, depth + 1, places, top);
    }
    let (_, next) = text_at(bytes, at)?;
    Ok(next)
}

/// The same. Most values are short strings, or empty, and are passed without a call.
#[cycle(checking)]
#[inline(always)]
fn item_at(
    bytes: &[u8],
    at: usize,
    depth: usize,
    places: &mut [u16],
    top: usize,
) -> Result<usize, Bad>
    requires within { at ≤ length bytes.now }
    requires depth { depth ≤ 16 }
    ensures moves { IfOk result (λ next. (at < next) × (next ≤ length bytes.now)) }
    ensures frame { take top places.new ≡ take top places.old }
    ensures reads { (os : List Open) → length os ≡ depth → Awaits bytes.now at os
        → Scans bytes.now result (ReadsValue bytes.now at os) }
{
    if let Some(next) = text_end(bytes, at) {
        return Ok(next);
    }
    if depth < MAX_DEPTH {
        if let Some(next) = empty_end(bytes, at) {
            return Ok(next);
        }
    }
    value_at(bytes, at, depth, places, top)
}

/// Where a list ends whose first value comes next, if it has one.
#[cycle(checking)]
fn list_at(
    bytes: &[u8],
    from: usize,
    depth: usize,
    places: &mut [u16],
    top: usize,
) -> Result<usize, Bad>
    requires within { from ≤ length bytes.now }
    requires depth { depth ≤ 16 }
    ensures moves { IfOk result (λ next. (from < next) × (next ≤ length bytes.now)) }
    ensures frame { take top places.new ≡ take top places.old }
    ensures reads { (os : List Open) → suc (length os) ≡ depth
        → Reached bytes.now from (Ready (InList [] ∷ os)) → FitsOpen os
        → Scans bytes.now result (ReadsValue bytes.now from os) }
{
    let mut at = from;
    'values: while !has_byte(bytes, at, b'e') {
        at = item_at(bytes, at, depth, places, top)?;
    }
    Ok(at + 1)
}

/// Where a dictionary ends whose first key comes next, if it has one. Each key's place is noted before its value is read.
#[cycle(checking)]
fn dictionary_at(
    bytes: &[u8],
    from: usize,
    depth: usize,
    places: &mut [u16],
    base: usize,
) -> Result<usize, Bad>
    requires within { from ≤ length bytes.now }
    requires depth { depth ≤ 16 }
    ensures moves { IfOk result (λ next. (from < next) × (next ≤ length bytes.now)) }
    ensures frame { take base places.new ≡ take base places.old }
    ensures reads { (os : List Open) → suc (length os) ≡ depth
        → Reached bytes.now from (Keyless os []) → FitsOpen os
        → Scans bytes.now result (ReadsValue bytes.now from os) }
{
    let mut at = from;
    let mut top = base;
    let mut greatest = &bytes[from..from];
    'pairs: while !has_byte(bytes, at, b'e') {
        let (key, behind) = string_at(bytes, at)?;
        if !is_next(at == from, greatest, key) {
            return unsorted_at(bytes, from, at, depth, places, base, top);
        }
        greatest = key;
        top = note(places, top, at);
        at = item_at(bytes, behind, depth, places, top)?;
    }
    Ok(at + 1)
}

/// Where a dictionary ends that has pairs from `from` to `start`, whose keys' places are noted from `base` to `noted`, and whose
/// next key isn't above all of theirs. It notes the others too, and looks for one that stands twice when all are, or at the first
/// other fault.
#[cycle(checking)]
fn unsorted_at(
    bytes: &[u8],
    from: usize,
    start: usize,
    depth: usize,
    places: &mut [u16],
    base: usize,
    noted: usize,
) -> Result<usize, Bad>
    requires order { from ≤ start }
    requires within { start ≤ length bytes.now }
    requires depth { depth ≤ 16 }
    requires above { base ≤ noted }
    ensures moves { IfOk result (λ next. (start < next) × (next ≤ length bytes.now)) }
    ensures frame { take base places.new ≡ take base places.old }
    ensures reads { (os : List Open) (pairs : List (Pair Value)) → suc (length os) ≡ depth
        → Reached bytes.now from (Keyless os []) → FitsOpen os
        → Reached bytes.now start (Keyless os pairs) → FitsPairs os pairs
        → (noted ≤ length places.old → Noted bytes.now (own base noted places.old) os (keys_of pairs))
        → Scans bytes.now result (ReadsValue bytes.now from os) }
{
    let mut at = start;
    let mut top = noted;
    'loose: while !has_byte(bytes, at, b'e') {
        let behind = match string_at(bytes, at) {
            Ok((_, behind)) => behind,
            Err(bad) => {
                return judged(bytes, from, start, depth, places, base, top, Err(bad));
            }
        };
        top = note(places, top, at);
        if top > places.len() {
            return searched_at(bytes, from, start, depth, places, top);
        }
        match item_at(bytes, behind, depth, places, top) {
            Ok(next) => at = next,
            Err(bad) => {
                return judged(bytes, from, start, depth, places, base, top, Err(bad));
            }
        }
    }
    judged(bytes, from, start, depth, places, base, top, Ok(at + 1))
}

/// What is answered of a dictionary whose keys stand at the places from `base` to `top`: what is given, or that one of them
/// stands twice. Where the order of the keys shows neither, each is sought.
#[cycle(checking)]
fn judged(
    bytes: &[u8],
    from: usize,
    start: usize,
    depth: usize,
    places: &mut [u16],
    base: usize,
    top: usize,
    end: Result<usize, Bad>,
) -> Result<usize, Bad>
    requires order { from ≤ start }
    requires within { start ≤ length bytes.now }
    requires depth { depth ≤ 16 }
    requires above { base ≤ top }
    requires moves { IfOk end (λ next. (start < next) × (next ≤ length bytes.now)) }
    ensures moves { IfOk result (λ next. (start < next) × (next ≤ length bytes.now)) }
    ensures frame { take base places.new ≡ take base places.old }
    ensures reads { (os : List Open) (pairs : List (Pair Value)) → suc (length os) ≡ depth
        → Reached bytes.now from (Keyless os []) → FitsOpen os
        → Reached bytes.now start (Keyless os pairs) → FitsPairs os pairs
        → (top ≤ length places.old → AreKeys bytes.now (own base top places.old) os)
        → (top ≤ length places.old → Differ bytes.now (own base top places.old) → Scans bytes.now end (ReadsValue bytes.now from os))
        → Scans bytes.now result (ReadsValue bytes.now from os) }
{
    if top <= places.len() {
        let keys = &places[base..top];
        if let Some(i) = first_twice(bytes, keys) {
            if i >= keys.len() {
                return end;
            }
            let at = keys[i] as usize;
            if is_twice(bytes, from, at) {
                return Err(Bad::KeyTwice { at });
            }
        }
    }
    searched_at(bytes, from, start, depth, places, top)
}

/// The same for any dictionary, where each key is sought among all in front of it.
#[cycle(checking)]
#[inline(never)]
fn searched_at(
    bytes: &[u8],
    from: usize,
    start: usize,
    depth: usize,
    places: &mut [u16],
    top: usize,
) -> Result<usize, Bad>
    requires order { from ≤ start }
    requires within { start ≤ length bytes.now }
    requires depth { depth ≤ 16 }
    ensures moves { IfOk result (λ next. (start < next) × (next ≤ length bytes.now)) }
    ensures frame { take top places.new ≡ take top places.old }
    ensures reads { (os : List Open) (pairs : List (Pair Value)) → suc (length os) ≡ depth
        → Reached bytes.now from (Keyless os []) → FitsOpen os
        → Reached bytes.now start (Keyless os pairs) → FitsPairs os pairs
        → Scans bytes.now result (ReadsValue bytes.now from os) }
{
    let mut at = start;
    'sought: while !has_byte(bytes, at, b'e') {
        let (key, behind) = string_at(bytes, at)?;
        let before = &bytes[from..at];
        if has_key(before, key) {
            return Err(Bad::KeyTwice { at });
        }
        at = item_at(bytes, behind, depth, places, top)?;
    }
    Ok(at + 1)
}

/// Whether the key at a place is among the pairs from another place up to it.
fn is_twice(bytes: &[u8], from: usize, at: usize) -> bool
    ensures within { IsTrue result → (from ≤ at) × (at ≤ length bytes.now) }
    ensures twice { IsTrue result → (ps : List (Pair Value)) (key : List ℕ)
        → ArePairs (take (at - from) (drop from bytes.now)) ps
        → IsAt bytes.now at (string_text key) → has_key (keys_of ps) key ≡ true }
{
    if at < from || at > bytes.len() {
        return false;
    }
    has_key(&bytes[from..at], key_at(bytes, at))
}

/// Where the string at a place ends, as a value, if its length is one digit.
#[inline(always)]
fn text_end(bytes: &[u8], at: usize) -> Option<usize>
    ensures moves { IfSome result (λ next. (at < next) × (next ≤ length bytes.now)) }
    ensures reads { (os : List Open) → Awaits bytes.now at os
        → IfSome result (ReadsValue bytes.now at os) }
{
    if at < bytes.len() {
        if has_digit(bytes, at) {
            return short_end(bytes, at);
        }
    }
    None
}

/// Where the empty list or dictionary at a place ends, if one stands there.
#[inline(always)]
fn empty_end(bytes: &[u8], at: usize) -> Option<usize>
    requires { at ≤ length bytes.now }
    ensures moves { IfSome result (λ next. (at < next) × (next ≤ length bytes.now)) }
    ensures reads { (os : List Open) → length os < 16 → Awaits bytes.now at os
        → IfSome result (ReadsValue bytes.now at os) }
{
    if has_byte(bytes, at + 1, b'e') {
        if has_byte(bytes, at, b'l') {
            return Some(at + 2);
        }
        if has_byte(bytes, at, b'd') {
            return Some(at + 2);
        }
    }
    None
}

/// Whether a key is the first, or above the greatest.
fn is_next(first: bool, greatest: &[u8], key: &[u8]) -> bool
    ensures { IsNext first (key_cmp key.now greatest.now) result }
{
    first || is_above(key, greatest)
}
