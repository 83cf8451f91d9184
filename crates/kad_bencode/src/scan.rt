//! Strings, integers and whole values of bencode where they stand: each call says where it ends, and takes no memory.
ghost use Rattle.std.specs.Prelude.{◌≡◌, ℕ, suc, ◌+◌, ◌-◌, ◌<◌, ◌≤◌, List, [], ◌∷◌, ◌++◌, length, take, drop, IsTrue, true, IfOk, IfSome, MatchOption, get_or};
ghost use Rattle.kad_bencode.specs.Spelling.{Fits, text_of};
ghost use Rattle.kad_bencode.specs.Faults.{Open};
ghost use Rattle.kad_bencode.specs.declared.value.Value.{Value};
ghost use Rattle.kad_bencode.specs.Machine.{HasByte, HasNumber, ReadsDigits, is_nonzero, ReadsInteger, ReadsString, AwaitsString, Place, AwaitsNumber, AwaitsInteger, IsSigned};
ghost use Rattle.kad_bencode.specs.Scanning.{Scans, FailsInside, IsAmid, IsBehind, Begins};

use crate::value::Bad;

/// The string at a place, and where it ends. Most are short, and are read without a call.
#[inline(always)]
pub(crate) fn string_at(bytes: &[u8], at: usize) -> Result<(&[u8], usize), Bad>
    requires { at ≤ length bytes.now }
    ensures moves { IfOk result (λ x. (at < x.1) × (x.1 ≤ length bytes.now)) }
    ensures inside { FailsInside result }
    ensures reads { (p : Place) → AwaitsString bytes.now at p
        → Scans bytes.now result (λ x. ReadsString bytes.now at p x.0.now x.1) }
{
    if has_six(bytes, at) {
        return Ok((&bytes[at + 2..at + 8], at + 8));
    }
    match short_end(bytes, at) {
        Some(next) => Ok((&bytes[at + 2..next], next)),
        None => any_string_at(bytes, at),
    }
}

/// The same of a value: the length of many has two digits, as that of an identifier has. These are read without a call too.
#[inline(always)]
pub(crate) fn text_at(bytes: &[u8], at: usize) -> Result<(&[u8], usize), Bad>
    requires { at ≤ length bytes.now }
    ensures moves { IfOk result (λ x. (at < x.1) × (x.1 ≤ length bytes.now)) }
    ensures inside { FailsInside result }
    ensures reads { (p : Place) → AwaitsString bytes.now at p
        → Scans bytes.now result (λ x. ReadsString bytes.now at p x.0.now x.1) }
{
    match two_end(bytes, at) {
        Some(next) => Ok((&bytes[at + 3..next], next)),
        None => string_at(bytes, at),
    }
}

/// The same of a string of any length.
#[inline(never)]
fn any_string_at(bytes: &[u8], at: usize) -> Result<(&[u8], usize), Bad>
    requires { at ≤ length bytes.now }
    ensures moves { IfOk result (λ x. (at < x.1) × (x.1 ≤ length bytes.now)) }
    ensures inside { FailsInside result }
    ensures reads { (p : Place) → AwaitsString bytes.now at p
        → Scans bytes.now result (λ x. ReadsString bytes.now at p x.0.now x.1) }
{
    if has_byte(bytes, at, b'0') {
        if !has_byte(bytes, at + 1, b':') {
            return Err(Bad::NotBencode { at: at + 1 });
        }
        return Ok((&bytes[at..at], at + 2));
    }
    if !has_number(bytes, at) {
        return Err(Bad::NotBencode { at });
    }
    let (length, end) = digits_from(bytes, at);
    if !has_byte(bytes, end, b':') {
        return Err(Bad::NotBencode { at: end });
    }
    let rest = bytes.len() - (end + 1);
    if length > rest as u64 {
        return Err(Bad::NotBencode { at: bytes.len() });
    }
    let next = end + 1 + length as usize;
    Ok((&bytes[end + 1..next], next))
}

/// Whether a string of six bytes stands at a place, as peers are written (BEP 5). Most strings of a long answer are such,
/// and where the next one begins needn't be computed from a length that was just read.
#[inline(always)]
fn has_six(bytes: &[u8], at: usize) -> bool
    requires { at ≤ length bytes.now }
    ensures long { IsTrue result → at + 8 ≤ length bytes.now }
    ensures six { IsTrue result → get_or bytes.now at 0 ≡ 54 }
    ensures colon { IsTrue result → get_or bytes.now (at + 1) 0 ≡ 58 }
{
    if bytes.len() - at < 8 {
        return false;
    }
    if bytes[at] != b'6' {
        return false;
    }
    bytes[at + 1] == b':'
}

/// Where a string at a place ends whose length is one digit, as that of most keys is. So no digit after it is looked for.
#[inline(always)]
pub(crate) fn short_end(bytes: &[u8], at: usize) -> Option<usize>
    requires { at ≤ length bytes.now }
    ensures within { IfSome result (λ next. (at + 2 ≤ next) × (next ≤ length bytes.now)) }
    ensures reads { (p : Place) → AwaitsString bytes.now at p
        → IfSome result (λ next. ReadsString bytes.now at p (take (next - (at + 2)) (drop (at + 2) bytes.now)) next) }
{
    if bytes.len() - at < 2 {
        return None;
    }
    let digit = bytes[at];
    if digit < b'0' || digit > b'9' {
        return None;
    }
    if bytes[at + 1] != b':' {
        return None;
    }
    let next = at + 2 + (digit - b'0') as usize;
    if next > bytes.len() {
        return None;
    }
    Some(next)
}

/// The same where the length has two digits, as that of an identifier has.
#[inline(always)]
fn two_end(bytes: &[u8], at: usize) -> Option<usize>
    requires { at ≤ length bytes.now }
    ensures within { IfSome result (λ next. (at + 3 ≤ next) × (next ≤ length bytes.now)) }
    ensures reads { (p : Place) → AwaitsString bytes.now at p
        → IfSome result (λ next. ReadsString bytes.now at p (take (next - (at + 3)) (drop (at + 3) bytes.now)) next) }
{
    if bytes.len() - at < 3 {
        return None;
    }
    let tens = bytes[at];
    if tens < b'1' || tens > b'9' {
        return None;
    }
    let ones = bytes[at + 1];
    if ones < b'0' || ones > b'9' {
        return None;
    }
    if bytes[at + 2] != b':' {
        return None;
    }
    let next = at + 3 + (tens - b'0') as usize * 10 + (ones - b'0') as usize;
    if next > bytes.len() {
        return None;
    }
    Some(next)
}

/// The integer at a place, where its `i` stands, and where it ends.
pub(crate) fn integer_at(bytes: &[u8], at: usize) -> Result<(i64, usize), Bad>
    requires within { at < length bytes.now }
    requires begins { get_or bytes.now at 0 ≡ 105 }
    ensures moves { IfOk result (λ x. (at < x.1) × (x.1 ≤ length bytes.now)) }
    ensures inside { FailsInside result }
    ensures reads { (os : List Open) → AwaitsInteger bytes.now at os
        → Scans bytes.now result (λ x. ReadsInteger bytes.now at os x.0 x.1) }
{
    if has_byte(bytes, at + 1, b'0') {
        if !has_byte(bytes, at + 2, b'e') {
            return Err(Bad::NotBencode { at: at + 2 });
        }
        return Ok((0, at + 3));
    }
    if has_byte(bytes, at + 1, b'-') {
        return number_at(bytes, at, at + 2, true);
    }
    number_at(bytes, at, at + 1, false)
}

/// The rest of the integer at `at`, whose number, not 0, begins at `first`.
fn number_at(bytes: &[u8], at: usize, first: usize, negative: bool) -> Result<(i64, usize), Bad>
    requires { first ≤ length bytes.now }
    ensures moves { IfOk result (λ x. (first < x.1) × (x.1 ≤ length bytes.now)) }
    ensures inside { FailsInside result }
    ensures reads { (os : List Open) → AwaitsNumber bytes.now at first negative os
        → Scans bytes.now result (λ x. ReadsInteger bytes.now at os x.0 x.1) }
{
    if !has_number(bytes, first) {
        return Err(Bad::NotBencode { at: first });
    }
    let (number, end) = digits_from(bytes, first);
    if !has_byte(bytes, end, b'e') {
        return Err(Bad::NotBencode { at: end });
    }
    match signed_of(negative, number) {
        Some(value) => Ok((value, end + 1)),
        None => Err(Bad::NumberTooBig { at }),
    }
}

/// A number that isn't 0 as a signed one, where it is one of 64 bits.
fn signed_of(negative: bool, number: u64) -> Option<i64>
    requires { 0 < number }
    ensures { IsSigned negative number result }
{
    if negative {
        if number <= 1 << 63 {
            Some(-((number - 1) as i64) - 1)
        } else {
            None
        }
    } else if number < 1 << 63 {
        Some(number as i64)
    } else {
        None
    }
}

/// The number whose digits begin at a place, the first of them not 0, and where they end. A number beyond u64 is held up
/// at its end.
fn digits_from(bytes: &[u8], first: usize) -> (u64, usize)
    requires within { first < length bytes.now }
    requires nonzero { IsTrue (is_nonzero (get_or bytes.now first 0)) }
    ensures { ReadsDigits bytes.now first result.0 result.1 }
{
    let mut number = (bytes[first] - b'0') as u64;
    let mut next = first + 1;
    while next < bytes.len() && bytes[next] >= b'0' && bytes[next] <= b'9' {
        let digit = (bytes[next] - b'0') as u64;
        number = number.saturating_mul(10).saturating_add(digit);
        next += 1;
    }
    (number, next)
}

/// Whether a digit that isn't 0 stands at a place.
fn has_number(bytes: &[u8], at: usize) -> bool
    ensures { HasNumber bytes.now at result }
{
    at < bytes.len() && bytes[at] >= b'1' && bytes[at] <= b'9'
}

/// Whether a byte stands at a place.
pub(crate) fn has_byte(bytes: &[u8], at: usize, byte: u8) -> bool
    ensures { HasByte bytes.now at byte result }
{
    at < bytes.len() && bytes[at] == byte
}

/// Whether a digit stands at a place.
pub(crate) fn has_digit(bytes: &[u8], at: usize) -> bool
    requires { at < length bytes.now }
    ensures least { IsTrue result → 48 ≤ get_or bytes.now at 0 }
    ensures most { IsTrue result → get_or bytes.now at 0 ≤ 57 }
{
    bytes[at] >= b'0' && bytes[at] <= b'9'
}

/// Where a string ends, which is the next part of a value; it opens and closes nothing.
#[inline(always)]
fn string_part(bytes: &[u8], at: usize, depth: usize) -> Option<(usize, usize)>
    requires within { at < length bytes.now }
    requires depth { depth ≤ at }
    ensures moves { IfSome result (λ x. (at < x.0) × (x.0 ≤ length bytes.now) × (x.1 ≤ x.0)) }
    ensures reads { (t : Value) → Begins bytes.now t → IsAmid bytes.now t at depth
        → (get_or bytes.now at 0 ≡ 105 → ⊥) → (get_or bytes.now at 0 ≡ 108 → ⊥)
        → (get_or bytes.now at 0 ≡ 100 → ⊥) → (get_or bytes.now at 0 ≡ 101 → ⊥)
        → MatchOption result ⊥ (λ x. IsBehind bytes.now t x.0 x.1) }
{
    if let Some(next) = short_end(bytes, at) {
        return Some((next, depth));
    }
    if let Some(next) = two_end(bytes, at) {
        return Some((next, depth));
    }
    match any_string_at(bytes, at) {
        Ok((_, next)) => Some((next, depth)),
        Err(_) => None,
    }
}

/// The next part of a value: a string, an integer, an empty list or dictionary, or where another opens or closes. It says where
/// the part ends, and how many are open there.
#[inline(always)]
fn part_at(bytes: &[u8], at: usize, depth: usize) -> Option<(usize, usize)>
    requires within { at < length bytes.now }
    requires depth { depth ≤ at }
    ensures moves { IfSome result (λ x. (at < x.0) × (x.0 ≤ length bytes.now) × (x.1 ≤ x.0)) }
    ensures reads { (t : Value) → Begins bytes.now t → IsAmid bytes.now t at depth
        → MatchOption result ⊥ (λ x. IsBehind bytes.now t x.0 x.1) }
{
    if has_digit(bytes, at) {
        return string_part(bytes, at, depth);
    }
    if has_byte(bytes, at, b'l') {
        if has_byte(bytes, at + 1, b'e') {
            return Some((at + 2, depth));
        }
        return Some((at + 1, depth + 1));
    }
    if has_byte(bytes, at, b'd') {
        if has_byte(bytes, at + 1, b'e') {
            return Some((at + 2, depth));
        }
        return Some((at + 1, depth + 1));
    }
    if has_byte(bytes, at, b'e') {
        if depth == 0 {
            return None;
        }
        return Some((at + 1, depth - 1));
    }
    if has_byte(bytes, at, b'i') {
        return match integer_at(bytes, at) {
            Ok((_, next)) => Some((next, depth)),
            Err(_) => None,
        };
    }
    string_part(bytes, at, depth)
}

/// Where the value at the front ends.
#[inline(always)]
pub(crate) fn past(bytes: &[u8]) -> usize
    ensures within { result ≤ length bytes.now }
    ensures moves { 0 < length bytes.now → 0 < result }
    ensures ends { (t : Value) → Begins bytes.now t → result ≡ length (text_of t) }
{
    let mut at = 0;
    let mut depth = 0;
    while at < bytes.len() {
        match part_at(bytes, at, depth) {
            Some((next, left)) => {
                if left == 0 {
                    return next;
                }
                at = next;
                depth = left;
            }
            None => return bytes.len(),
        }
    }
    bytes.len()
}
