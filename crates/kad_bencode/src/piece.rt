//! A value of bencode where its text stands: it borrows the text, and takes no memory.
ghost use Rattle.std.specs.Prelude.{◌≡◌, ◌<◌, ◌≤◌, IfErr, IfOk, IfSome, option_copied, is_some, Ok, Err, None, List, [], ◌∷◌, map, length, MatchOption};
ghost use Rattle.kad_bencode.specs.Parts.{bytes_of, integer_of, list_of, dict_of, member_of};
ghost use Rattle.kad_bencode.specs.Spelling.{Spells, in_order, text_of};
ghost use Rattle.std.specs.List.{concat};
ghost use Rattle.kad_bencode.specs.Faults.{IsFirstFault};
ghost use Rattle.kad_bencode.specs.declared.value.Bad.{Bad};
ghost use Rattle.kad_bencode.specs.declared.value.Value.{Value};
ghost use Rattle.kad_bencode.specs.Finding.{Shows};
ghost use Rattle.kad_bencode.specs.Naming.{AreItems, IsCut, IsListOf};

use crate::find::value_in;
use crate::scan::{has_byte, integer_at, past, text_at};
use crate::value::Bad;
use crate::verify::check;
use std::marker::Model;

/// A value in its text; contracts see the value.
#[derive(Drop)]
pub struct Piece<'a> {
    pub(crate) bytes: &'a [u8],
}

impl<'a> Model for Piece<'a> {
    ghost use Rattle.kad_bencode.specs.Spelling.{Spells};
    ghost use Rattle.kad_bencode.specs.declared.value.Value.{Value as Ben};
    ghost use Rattle.kad_bencode.specs.contracts.value.Value as ben;
    ghost use Rattle.std.specs.Coded.{codes};
    ghost use Rattle.kad_bencode.specs.Naming.{named};

    ghost Value = { Ben };

    ghost coded = { Prim.hlevel (codes, ben.the_row.coded) };

    ghost view = { λ p. named p.bytes.now };

    ghost invariant = { λ p. Spells p.bytes.now (named p.bytes.now) };
}

impl<'a> Piece<'a> {
    /// The value that the bytes spell, all of them, or the fault that is seen first. Takes no memory.
    #[inline(always)]
    pub fn parse(bytes: &'a [u8]) -> Result<Piece<'a>, Bad>
        ensures spells { IfOk result (Spells bytes.now) }
        ensures fault { IfErr result (IsFirstFault bytes.now) }
        ensures only { (v : Value) → Spells bytes.now v → result ≡ Ok v }
        ensures refused { (bad : Bad) → IsFirstFault bytes.now bad → result ≡ Err bad }
    {
        match check(bytes) {
            Ok(()) => Ok(Piece { bytes }),
            Err(bad) => Err(bad),
        }
    }

    /// The same value, where it stands.
    pub fn copied(&self) -> Piece<'a>
        ensures { result ≡ self.now }
    {
        Piece { bytes: self.bytes }
    }

    /// A dictionary's value of a key.
    pub fn get(&self, key: &[u8]) -> Option<Piece<'a>>
        ensures { result ≡ member_of self.now key.now }
    {
        match member_in(self.bytes, key) {
            Some(bytes) => Some(Piece { bytes }),
            None => None,
        }
    }

    /// Whether it is a list.
    pub fn is_list(&self) -> bool
        ensures { result ≡ is_some (list_of self.now) }
    {
        opens_list(self.bytes)
    }

    /// Whether it is a dictionary.
    pub fn is_dict(&self) -> bool
        ensures { result ≡ is_some (dict_of self.now) }
    {
        opens_dict(self.bytes)
    }

    /// A list's values.
    pub fn items(&self) -> Option<Items<'a>>
        ensures { result ≡ list_of self.now }
    {
        match items_in(self.bytes) {
            Some(bytes) => Some(Items { bytes }),
            None => None,
        }
    }

    /// A string's bytes.
    #[inline(always)]
    pub fn as_bytes(&self) -> Option<&'a [u8]>
        ensures { option_copied result ≡ bytes_of self.now }
    {
        text_in(self.bytes)
    }

    /// An integer.
    pub fn as_int(&self) -> Option<i64>
        ensures { result ≡ integer_of self.now }
    {
        int_in(self.bytes)
    }
}

/// The values of a list that are left; contracts see the list of them.
#[derive(Drop)]
pub struct Items<'a> {
    bytes: &'a [u8],
}

impl<'a> Model for Items<'a> {
    ghost use Rattle.std.specs.Prelude.{List};
    ghost use Rattle.std.specs.Coded.{codes};
    ghost use Rattle.kad_bencode.specs.declared.value.Value.{Value as Ben};
    ghost use Rattle.kad_bencode.specs.contracts.value.Value as ben;
    ghost use Rattle.kad_bencode.specs.Naming.{AreItems, named_items, trees_in};

    ghost Value = { List Ben };

    ghost coded = { Prim.hlevel (codes, ben.the_row.coded) };

    ghost view = { λ p. named_items p.bytes.now };

    ghost invariant = { λ p. AreItems p.bytes.now (trees_in p.bytes.now) };
}

impl<'a> Items<'a> {
    /// The next value.
    pub fn next(&mut self) -> Option<Piece<'a>>
        ensures { MatchOption result ((self.old ≡ []) × (self.new ≡ []))
            (λ v. self.old ≡ v ∷ self.new) }
    {
        match first_item(self.bytes) {
            Some((bytes, rest)) => {
                self.bytes = rest;
                Some(Piece { bytes })
            }
            None => None,
        }
    }

    /// How many bytes the texts of the values take together.
    pub fn text_len(&self) -> usize
        ensures { (trees : List Value) × (self.now ≡ map in_order trees)
            × (result ≡ length (concat (map text_of trees))) }
    {
        texts_length(self.bytes)
    }
}

/// How long the texts of values are together.
fn texts_length(bytes: &[u8]) -> usize
    ensures { (ts : List Value) → AreItems bytes.now ts
        → result ≡ length (concat (map text_of ts)) }
{
    bytes.len()
}

/// The text of the first value, and the texts behind it.
pub(crate) fn first_item(bytes: &[u8]) -> Option<(&[u8], &[u8])>
    ensures within { IfSome result (λ x. length x.0.now ≤ length bytes.now) }
    ensures shorter { IfSome result (λ x. length x.1.now < length bytes.now) }
    ensures cuts { (ts : List Value) → AreItems bytes.now ts
        → MatchOption result (ts ≡ []) (λ x. IsCut ts x.0.now x.1.now) }
{
    if bytes.len() == 0 {
        return None;
    }
    let to = past(bytes);
    Some((&bytes[..to], &bytes[to..]))
}

/// The texts of a list's values.
pub(crate) fn items_in(bytes: &[u8]) -> Option<&[u8]>
    ensures shorter { IfSome result (λ x. length x.now < length bytes.now) }
    ensures list { (v : Value) → Spells bytes.now v
        → MatchOption result (None ≡ list_of v) (λ x. IsListOf v x.now) }
{
    if !has_byte(bytes, 0, b'l') {
        return None;
    }
    if bytes.len() < 2 {
        return None;
    }
    Some(&bytes[1..bytes.len() - 1])
}

/// The text of a dictionary's value of a key.
fn member_in<'a>(bytes: &'a [u8], key: &[u8]) -> Option<&'a [u8]>
    ensures { (v : Value) → Spells bytes.now v
        → Shows (option_copied result) (member_of v key.now) }
{
    if !has_byte(bytes, 0, b'd') {
        return None;
    }
    value_in(bytes, key)
}

/// Whether a list stands there.
fn opens_list(bytes: &[u8]) -> bool
    ensures { (v : Value) → Spells bytes.now v → result ≡ is_some (list_of v) }
{
    has_byte(bytes, 0, b'l')
}

/// Whether a dictionary stands there.
fn opens_dict(bytes: &[u8]) -> bool
    ensures { (v : Value) → Spells bytes.now v → result ≡ is_some (dict_of v) }
{
    has_byte(bytes, 0, b'd')
}

/// The bytes of a string.
pub(crate) fn text_in(bytes: &[u8]) -> Option<&[u8]>
    ensures { (v : Value) → Spells bytes.now v → option_copied result ≡ bytes_of v }
{
    if has_byte(bytes, 0, b'i') {
        return None;
    }
    if has_byte(bytes, 0, b'l') {
        return None;
    }
    if has_byte(bytes, 0, b'd') {
        return None;
    }
    match text_at(bytes, 0) {
        Ok((string, _)) => Some(string),
        Err(_) => None,
    }
}

/// The number of an integer.
pub(crate) fn int_in(bytes: &[u8]) -> Option<i64>
    ensures { (v : Value) → Spells bytes.now v → result ≡ integer_of v }
{
    if !has_byte(bytes, 0, b'i') {
        return None;
    }
    match integer_at(bytes, 0) {
        Ok((number, _)) => Some(number),
        Err(_) => None,
    }
}
