//! Which of a dictionary's keys is the first that stands twice. The keys are put in order once, when all are noted: as
//! numbers, which hold six bytes of each, and those that are alike so far by the next six. Nothing is claimed of that order: it
//! is looked at whether each key is above the one before it, and whether each that is noted is there. So a key costs a
//! share of one sort, and one comparison. A handful of keys are compared with one another instead, which clears no rows.
ghost use Rattle.std.specs.Prelude.{◌≡◌, ℕ, ◌<◌, ◌≤◌, List, get_or, length, take, true, false, IfSome};
ghost use Rattle.std.specs.declared.cmp.Ordering.TheVariants.{Greater};
ghost use Rattle.kad_bencode.specs.Keys.{key_cmp};
ghost use Rattle.kad_bencode.specs.Spelling.{string_text};
ghost use Rattle.kad_bencode.specs.Faults.{IsAt};
ghost use Rattle.kad_bencode.specs.Filing.{Ascends, Differ, HasAll, IsNowhere};

use crate::filed::{MOST, is_above, key_at};
use crate::find::same;
use crate::heads::word_of;
use std::cmp::Ordering;

/// How many keys are a handful.
const HANDFUL: usize = 4;

/// How many keys are few, and how many are some. Shorter rows are cleared for them.
const FEW: usize = 24;

const SOME: usize = 128;

/// How often keys are ordered by six bytes. Those that are alike so far are compared as a whole.
const LEVELS: usize = 8;

/// The six bytes of a key from a place on, as if zeros came after it, the first the highest; how many bytes it has there, or 7
/// if more; and which of the keys it is.
fn number_of(key: &[u8], from: usize, which: u64) -> u64 {
    let rest = &key[from.min(key.len())..];
    (word_of(rest) >> 16 << 16) | (rest.len().min(7) as u64) << 10 | which % 1024
}

/// The key that has a number.
#[inline(always)]
fn key_of<'a>(bytes: &'a [u8], places: &[u16], number: u64) -> &'a [u8] {
    key_in(bytes, places, (number % 1024) as u16)
}

/// The key that stands at one of the places.
#[inline(always)]
fn key_in<'a>(bytes: &'a [u8], places: &[u16], which: u16) -> &'a [u8]
    ensures { (key : List ℕ) → which < length places.now
        → IsAt bytes.now (get_or places.now which 0) (string_text key) → result.now ≡ key }
{
    if which as usize >= places.len() {
        return &bytes[..0];
    }
    key_at(bytes, places[which as usize] as usize)
}

/// How two keys are ordered, and of two that are alike the one that stands first.
fn compared(bytes: &[u8], places: &[u16], a: u64, b: u64) -> Ordering {
    let first = key_of(bytes, places, a);
    let second = key_of(bytes, places, b);
    first.cmp(second).then((a % 1024).cmp(&(b % 1024)))
}

/// Orders keys that have their first bytes in common.
#[cycle(ordering)]
fn order_alike(bytes: &[u8], places: &[u16], row: &mut [u64], level: usize)
    requires { level ≤ 8 }
{
    if level >= LEVELS {
        row.sort_unstable_by(|a, b| compared(bytes, places, *a, *b));
        return;
    }
    for number in row.iter_mut() {
        *number = number_of(key_of(bytes, places, *number), 6 * level, *number);
    }
    order_row(bytes, places, row, level);
}

/// Orders keys by their numbers, and those that are alike and go on by what comes next.
#[cycle(ordering)]
fn order_row(bytes: &[u8], places: &[u16], row: &mut [u64], level: usize)
    requires { level < 8 }
{
    row.sort_unstable();
    let mut i = 0;
    while i < row.len() {
        let number = row[i] / 1024;
        let mut end = i + 1;
        while end < row.len() && row[end] / 1024 == number {
            end += 1;
        }
        if end > i + 1 && number % 8 == 7 {
            order_alike(bytes, places, &mut row[i..end], level + 1);
        }
        i = end;
    }
}

/// Writes which of the keys come one after another, the lowest first.
fn put_in_order(bytes: &[u8], places: &[u16], row: &mut [u64], order: &mut [u16]) {
    for i in 0..row.len() {
        row[i] = number_of(key_of(bytes, places, i as u64), 0, i as u64);
    }
    order_row(bytes, places, row, 0);
    for i in 0..row.len().min(order.len()) {
        order[i] = (row[i] % 1024) as u16;
    }
}

/// Whether a key is the first, or above the one before it.
fn follows(i: usize, key: &[u8], last: &[u8]) -> bool
    ensures first { i ≡ 0 → result ≡ true }
    ensures above { result ≡ true → 0 < i → key_cmp key.now last.now ≡ Greater }
{
    if i == 0 {
        return true;
    }
    is_above(key, last)
}

/// Whether each key is above the one before it.
fn ascends(bytes: &[u8], places: &[u16], order: &[u16]) -> bool
    ensures { result ≡ true → Ascends bytes.now places.now order.now }
{
    let mut last = &bytes[..0];
    let mut i = 0;
    while i < order.len() {
        let key = key_in(bytes, places, order[i]);
        if !follows(i, key, last) {
            return false;
        }
        last = key;
        i += 1;
    }
    true
}

/// Writes where each key is in the order.
fn rank(order: &[u16], ranks: &mut [u16]) {
    let mut i = 0u16;
    for which in order {
        if (*which as usize) < ranks.len() {
            ranks[*which as usize] = i;
        }
        i = i.wrapping_add(1);
    }
}

/// Whether each of so many keys is in the order.
fn has_all(order: &[u16], ranks: &[u16], count: usize) -> bool
    ensures { result ≡ true → HasAll order.now count }
{
    if count > ranks.len() {
        return false;
    }
    let mut i = 0;
    while i < count {
        let rank = ranks[i] as usize;
        if rank >= order.len() {
            return false;
        }
        if order[rank] as usize != i {
            return false;
        }
        i += 1;
    }
    true
}

/// Whether no key stands at two of the places, as an order of them shows.
fn differ(bytes: &[u8], places: &[u16], order: &[u16], ranks: &mut [u16]) -> bool
    ensures { result ≡ true → Differ bytes.now places.now }
{
    if !ascends(bytes, places, order) {
        return false;
    }
    rank(order, ranks);
    has_all(order, ranks, places.len())
}

/// The first of the keys that stand behind one like them in the order, or how many keys there are.
fn least_twice(bytes: &[u8], places: &[u16], order: &[u16]) -> usize
    ensures { result ≤ length places.now }
{
    let mut least = places.len();
    let mut last = &bytes[..0];
    let mut i = 0;
    while i < order.len() {
        let key = key_in(bytes, places, order[i]);
        if !follows(i, key, last) {
            least = least.min(order[i - 1].max(order[i]) as usize);
        }
        last = key;
        i += 1;
    }
    least
}

/// Leaves out of the order all keys from one on, and answers how many are left.
fn leave_front(order: &mut [u16], count: usize) -> usize
    ensures { result ≤ length order.old }
{
    let mut kept = 0;
    let mut i = 0;
    while i < order.len() {
        if (order[i] as usize) < count {
            order[kept] = order[i];
            kept += 1;
        }
        i += 1;
    }
    kept
}

/// The first of the keys that stands twice, or how many there are, with rows for as many.
fn first_in(
    bytes: &[u8],
    places: &[u16],
    row: &mut [u64],
    order: &mut [u16],
    ranks: &mut [u16],
) -> Option<usize>
    ensures within { IfSome result (λ i. i ≤ length places.now) }
    ensures differ { IfSome result (λ i. Differ bytes.now (take i places.now)) }
{
    put_in_order(bytes, places, row, order);
    if differ(bytes, places, order, ranks) {
        return Some(places.len());
    }
    let first = least_twice(bytes, places, order);
    let kept = leave_front(order, first);
    if differ(bytes, &places[..first], &order[..kept], ranks) {
        return Some(first);
    }
    None
}

/// The same of few keys.
#[inline(never)]
fn first_of_few(bytes: &[u8], places: &[u16]) -> Option<usize>
    ensures within { IfSome result (λ i. i ≤ length places.now) }
    ensures differ { IfSome result (λ i. Differ bytes.now (take i places.now)) }
{
    let mut row = [0u64; FEW];
    let mut order = [0u16; FEW];
    let mut ranks = [0u16; FEW];
    let count = places.len().min(FEW);
    first_in(
        bytes,
        places,
        &mut row[..count],
        &mut order[..count],
        &mut ranks,
    )
}

/// The same of some keys.
#[inline(never)]
fn first_of_some(bytes: &[u8], places: &[u16]) -> Option<usize>
    ensures within { IfSome result (λ i. i ≤ length places.now) }
    ensures differ { IfSome result (λ i. Differ bytes.now (take i places.now)) }
{
    let mut row = [0u64; SOME];
    let mut order = [0u16; SOME];
    let mut ranks = [0u16; SOME];
    let count = places.len().min(SOME);
    first_in(
        bytes,
        places,
        &mut row[..count],
        &mut order[..count],
        &mut ranks,
    )
}

/// The same of many keys.
#[inline(never)]
fn first_of_many(bytes: &[u8], places: &[u16]) -> Option<usize>
    ensures within { IfSome result (λ i. i ≤ length places.now) }
    ensures differ { IfSome result (λ i. Differ bytes.now (take i places.now)) }
{
    let mut row = [0u64; MOST];
    let mut order = [0u16; MOST];
    let mut ranks = [0u16; MOST];
    let count = places.len().min(MOST);
    first_in(
        bytes,
        places,
        &mut row[..count],
        &mut order[..count],
        &mut ranks,
    )
}

/// Whether a key stands at one of the places.
fn is_among(bytes: &[u8], places: &[u16], key: &[u8]) -> bool
    ensures { result ≡ false → IsNowhere bytes.now places.now key.now }
{
    let mut i = 0;
    while i < places.len() {
        if same(key_at(bytes, places[i] as usize), key) {
            return true;
        }
        i += 1;
    }
    false
}

/// How many keys from the first on differ, where each is compared with all in front of it.
fn first_of_handful(bytes: &[u8], places: &[u16]) -> usize
    ensures within { result ≤ length places.now }
    ensures differ { Differ bytes.now (take result places.now) }
{
    let mut i = 0;
    while i < places.len() {
        let key = key_at(bytes, places[i] as usize);
        if is_among(bytes, &places[..i], key) {
            return i;
        }
        i += 1;
    }
    i
}

/// How many of the keys that stand at these places, from the first on, differ: up to the first that stands twice, or all. No
/// answer where the order of them doesn't show it.
pub(crate) fn first_twice(bytes: &[u8], places: &[u16]) -> Option<usize>
    ensures within { IfSome result (λ i. i ≤ length places.now) }
    ensures differ { IfSome result (λ i. Differ bytes.now (take i places.now)) }
{
    if places.len() <= HANDFUL {
        return Some(first_of_handful(bytes, places));
    }
    if places.len() <= FEW {
        return first_of_few(bytes, places);
    }
    if places.len() <= SOME {
        return first_of_some(bytes, places);
    }
    first_of_many(bytes, places)
}
