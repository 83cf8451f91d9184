//! Turns texts into written forms where they stand (BEP 3: the keys of a dictionary are sorted as raw strings). Nothing
//! moves but the pairs of dictionaries, and a dictionary's pairs are sorted once. How long each value of a dictionary is
//! is kept as it is formed, so that nothing is scanned again for what stands around it.
ghost use Rattle.std.specs.Prelude.{◌≡◌, ℕ, ◌+◌, ◌<◌, ◌≤◌, List, [], ◌∷◌, ◌++◌, map, length, drop, flat_map, IfOk, MatchOption, OnOk, true};
ghost use Rattle.std.specs.List.{AllByRecursion, concat};
ghost use Rattle.std.specs.List.Sorted.{IsPermutation, IsSortedBy};
ghost use Rattle.kad_bencode.specs.Keys.{keys_of, IsAscending};
ghost use Rattle.kad_bencode.specs.Spelling.{Fits, Spells, each_once, in_order, pairs_text, put_all, string_text, text_of, values_of};
ghost use Rattle.kad_bencode.specs.Faults.{pairs_of};
ghost use Rattle.kad_bencode.specs.Finding.{ArePairs};
ghost use Rattle.kad_bencode.specs.Forming.{comes_before, dict_text, row_text, AreRows, AreSizes};
ghost use Rattle.kad_bencode.specs.Naming.{pairs_named};
ghost use Rattle.kad_bencode.specs.Written.{Puts};
ghost use Rattle.kad_bencode.specs.declared.entries.Pair.{Pair};
ghost use Rattle.kad_bencode.specs.declared.value.Value.{Value};

use crate::filed::is_above;
use crate::find::string_in;
use crate::heads::head_of;
use crate::into::{put_part, put_string};
use crate::scan::{has_byte, past};
use kad_base::NoMemory;
use std::alloc::Global;

/// A pair where it stands: its key with the head of it, and the text of its value.
#[derive(Clone, Copy)]
struct Row<'a> {
    head: u128,
    key: &'a [u8],
    text: &'a [u8],
}

/// The first pair, whose value's text has this size: its key, that text, and the pairs behind it.
fn cut_pair(pairs: &[u8], size: usize) -> Option<(&[u8], &[u8], &[u8])>
    ensures { (p : Pair Value) (ps : List (Pair Value)) → ArePairs pairs.now (p ∷ ps)
        → size ≡ length (text_of p.value)
        → MatchOption result ⊥ (λ x. (x.0.now ≡ p.key) × (x.1.now ≡ text_of p.value)
        × ArePairs x.2.now ps) }
{
    match string_in(pairs) {
        Some((key, from)) => {
            let behind = &pairs[from..];
            if size > behind.len() {
                return None;
            }
            Some((key, &behind[..size], &behind[size..]))
        }
        None => None,
    }
}

/// The pairs, in the order of the text.
fn rows_of<'a>(alloc: Global, pairs: &'a [u8], sizes: &[usize]) -> Result<Vec<Row<'a>>, NoMemory>
    ensures { (ps : List (Pair Value)) → ArePairs pairs.now ps → AreSizes sizes.now ps
        → IfOk result (λ rows. AreRows rows.items ps) }
{
    let mut rows = Vec::new(alloc);
    let mut rest = pairs;
    let mut i = 0;
    while i < sizes.len() {
        match cut_pair(rest, sizes[i]) {
            Some((key, text, others)) => {
                let head = head_of(key);
                rows.push(Row { head, key, text })?;
                rest = others;
                i += 1;
            }
            None => return Ok(rows),
        }
    }
    Ok(rows)
}

/// Sorts pairs by their keys: first by the heads, which are numbers, so that most keys are in order already.
fn sort_rows(rows: &mut Vec<Row<'_>>)
    ensures moved { IsPermutation rows.old.items rows.new.items }
    ensures sorted { IsSortedBy comes_before rows.new.items }
{
    rows.sort_unstable_by_key(|row| row.head);
    rows.sort_unstable_by(|a, b| a.key.cmp(b.key));
}

/// Puts a pair: the text of its key, and that of its value.
fn put_row(text: &mut [u8], at: usize, row: &Row<'_>) -> usize
    ensures { Puts text.old text.new at (row_text row.now) result }
{
    let at = put_string(text, at, row.key);
    put_part(text, at, row.text)
}

/// Puts pairs one behind another, from the front on.
fn put_rows(text: &mut [u8], rows: &[Row<'_>]) -> usize
    ensures { Puts text.old text.new 0 (flat_map row_text rows.now) result }
{
    let mut at = 0;
    for row in rows {
        at = put_row(text, at, row);
    }
    at
}

/// Whether the keys of some pairs ascend, as those of a written form do.
fn ascend(pairs: &[u8], sizes: &[usize]) -> bool
    ensures { (ps : List (Pair Value)) → ArePairs pairs.now ps → AreSizes sizes.now ps
        → result ≡ true → IsAscending ps }
{
    if sizes.len() < 2 {
        return true;
    }
    let (mut last, mut rest) = match cut_pair(pairs, sizes[0]) {
        Some((key, _, others)) => (key, others),
        None => return false,
    };
    let mut i = 1;
    while i < sizes.len() {
        match cut_pair(rest, sizes[i]) {
            Some((key, _, others)) => {
                if !is_above(key, last) {
                    return false;
                }
                last = key;
                rest = others;
                i += 1;
            }
            None => return false,
        }
    }
    true
}

/// Puts the pairs that stand there into the order of their keys, if they aren't in it.
fn order_pairs(alloc: Global, pairs: &mut [u8], sizes: &[usize]) -> Result<(), NoMemory>
    ensures { (ps : List (Pair Value)) → ArePairs pairs.old ps → AreSizes sizes.now ps → each_once (keys_of ps) ≡ true
        → OnOk result (pairs.new ≡ pairs_text (pairs_of (put_all [] ps))) }
{
    if ascend(pairs, sizes) {
        return Ok(());
    }
    let copy = Vec::from_slice(alloc, pairs)?;
    let mut rows = rows_of(alloc, copy.as_slice(), sizes)?;
    sort_rows(&mut rows);
    let _end = put_rows(pairs, rows.as_slice());
    Ok(())
}

/// Where the key at a place ends.
fn key_end(text: &[u8], at: usize) -> usize
    requires { at ≤ length text.now }
    ensures within { result ≤ length text.now }
    ensures moves { at < length text.now → at < result }
    ensures ends { (key rest : List ℕ) → drop at text.now ≡ string_text key ++ rest
        → result ≡ at + length (string_text key) }
{
    match string_in(&text[at..]) {
        Some((_, size)) => at + size,
        None => text.len(),
    }
}

/// Turns the value at the front into its written form, and answers how long it is.
#[cycle(forming)]
fn form_value(alloc: Global, text: &mut [u8]) -> Result<usize, NoMemory>
    ensures within { IfOk result (λ n. n ≤ length text.old) }
    ensures moves { IfOk result (λ n. 0 < length text.old → 0 < n) }
    ensures forms { (t : Value) (rest : List ℕ) → text.old ≡ text_of t ++ rest → Fits 0 t
        → IfOk result (λ n. (n ≡ length (text_of t)) × (text.new ≡ text_of (in_order t) ++ rest)) }
{
    if has_byte(text, 0, b'l') {
        return form_values(alloc, text);
    }
    if has_byte(text, 0, b'd') {
        return form_pairs(alloc, text);
    }
    Ok(past(text))
}

/// Turns a list into its written form, and answers where it ends.
#[cycle(forming)]
fn form_values(alloc: Global, text: &mut [u8]) -> Result<usize, NoMemory>
    requires { 0 < length text.old }
    ensures within { IfOk result (λ n. n ≤ length text.old) }
    ensures moves { IfOk result (λ n. 0 < n) }
    ensures forms { (b : ℕ) (ts : List Value) (rest : List ℕ)
        → text.old ≡ (b ∷ concat (map text_of ts) ++ 101 ∷ []) ++ rest → AllByRecursion (Fits 0) ts
        → IfOk result (λ n. (n ≡ length (b ∷ concat (map text_of ts) ++ 101 ∷ []))
        × (text.new ≡ (b ∷ concat (map text_of (map in_order ts)) ++ 101 ∷ []) ++ rest)) }
{
    let mut at = 1;
    'values: while at < text.len() {
        if has_byte(text, at, b'e') {
            return Ok(at + 1);
        }
        let size = form_value(alloc, &mut text[at..])?;
        at += size;
    }
    Ok(at)
}

/// Turns a dictionary into its written form, and answers where it ends.
#[cycle(forming)]
fn form_pairs(alloc: Global, text: &mut [u8]) -> Result<usize, NoMemory>
    requires { 0 < length text.old }
    ensures within { IfOk result (λ n. n ≤ length text.old) }
    ensures moves { IfOk result (λ n. 0 < n) }
    ensures forms { (ps : List (Pair Value)) (rest : List ℕ)
        → text.old ≡ dict_text ps ++ rest → AllByRecursion (Fits 0) (values_of ps) → each_once (keys_of ps) ≡ true
        → IfOk result (λ n. (n ≡ length (dict_text ps))
        × (text.new ≡ dict_text (put_all [] (pairs_named ps)) ++ rest)) }
{
    let mut sizes = Vec::new(alloc);
    let mut at = 1;
    'pairs: while at < text.len() {
        if has_byte(text, at, b'e') {
            order_pairs(alloc, &mut text[1..at], sizes.as_slice())?;
            return Ok(at + 1);
        }
        let behind = key_end(text, at);
        let size = form_value(alloc, &mut text[behind..])?;
        sizes.push(size)?;
        at = behind + size;
    }
    Ok(at)
}

/// The written form of the value that bytes spell, in memory of its own.
pub(crate) fn form(alloc: Global, bytes: &[u8]) -> Result<Vec<u8>, NoMemory>
    ensures { (v : Value) → Spells bytes.now v → IfOk result (λ text. text.items ≡ text_of v) }
{
    let mut text = Vec::from_slice(alloc, bytes)?;
    let _end = form_value(alloc, text.as_mut_slice())?;
    Ok(text)
}
