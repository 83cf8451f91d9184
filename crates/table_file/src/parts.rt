//! How the parts of a line are read. What a part spells is what prints as that text and nothing else.
ghost use Rattle.std.specs.Prelude.{◌≡◌, ◌≢◌, ◌↔◌, ◌≤◌, ℕ, Bool, List, IsTrue, MatchOption, decimal, length, map};
ghost use Rattle.std.specs.Str.{str_to_ascii_lowercase};
ghost use Rattle.kad_base.specs.declared.types.Addr.{Addr};
ghost use Rattle.kad_base.specs.declared.types.Contact.{Contact};
ghost use Rattle.kad_base.specs.declared.types.Id.{Id};
ghost use Rattle.table_file.specs.Reading.{SpellsAddr, SpellsContact, SpellsLower};
ghost use Rattle.table_file.specs.SavedText.{bit_text, prefix_text};

use bucket_tree::Prefix;
use kad_base::{Addr, Contact, Id};
use kad_text::cut::{cut, is_same};
use kad_text::read::{read_addr, read_hex, read_number};

/// Reads a number in decimal digits without leading zeros, at most this.
pub(crate) fn number_of(text: &[u8], most: u16) -> Option<u16>
    ensures { MatchOption result ((n : ℕ) → n ≤ most → text.now ≢ decimal n)
        (λ n. (n ≤ most) × (text.now ≡ decimal n)) }
{
    let Ok(digits) = std::str::from_utf8(text) else {
        return None;
    };
    let number = read_number(digits, 0, u32::from(most))?;
    Some(number as u16)
}

/// Whether no letter is in upper case.
fn is_lower(text: &[u8]) -> bool
    ensures { IsTrue result ↔ (str_to_ascii_lowercase text.now ≡ text.now) }
{
    for byte in text {
        if byte.to_ascii_lowercase() != *byte {
            return false;
        }
    }
    true
}

/// Reads bytes in lower-case hex, two digits a byte.
fn hex_of<const N: usize>(text: &[u8]) -> Option<[u8; N]>
    ensures { MatchOption result ((bytes : List ℕ) → ¬ SpellsLower N text.now bytes)
        (λ bytes. SpellsLower N text.now bytes) }
{
    if !is_lower(text) {
        return None;
    }
    let Ok(digits) = std::str::from_utf8(text) else {
        return None;
    };
    read_hex(digits)
}

/// Reads an identifier in lower-case hex.
pub(crate) fn id_of(text: &[u8]) -> Option<Id>
    ensures { MatchOption result ((id : Id) → ¬ SpellsLower 20 text.now id.0)
        (λ id. SpellsLower 20 text.now id.0) }
{
    Some(Id(hex_of(text)?))
}

/// Reads an address with its port, whose hex digits are in lower case.
pub(crate) fn addr_of(text: &[u8]) -> Option<Addr>
    ensures { MatchOption result ((addr : Addr) → ¬ SpellsAddr text.now addr)
        (λ addr. SpellsAddr text.now addr) }
{
    if !is_lower(text) {
        return None;
    }
    let Ok(text) = std::str::from_utf8(text) else {
        return None;
    };
    read_addr(text)
}

/// Reads a contact: its identifier, a space, and its address.
pub(crate) fn contact_of(text: &[u8]) -> Option<Contact>
    ensures { MatchOption result ((contact : Contact) → ¬ SpellsContact text.now contact)
        (λ contact. SpellsContact text.now contact) }
{
    let (id, addr) = cut(text, b' ')?;
    let id = id_of(id)?;
    let addr = addr_of(addr)?;
    Some(Contact { id, addr })
}

/// Reads a bit.
fn bit_of(byte: u8) -> Option<bool>
    ensures { MatchOption result ((bit : Bool) → byte ≢ bit_text bit) (λ bit. byte ≡ bit_text bit) }
{
    match byte {
        b'0' => Some(false),
        b'1' => Some(true),
        _ => None,
    }
}

/// Reads the bits of a prefix, the highest first.
fn bits_of(text: &[u8]) -> Option<Prefix>
    requires { length text.now ≤ 160 }
    ensures { MatchOption result ((bits : List Bool) → text.now ≢ map bit_text bits)
        (λ bits. text.now ≡ map bit_text bits) }
{
    let mut prefix = Prefix::empty();
    for byte in text {
        let Some(bit) = bit_of(*byte) else {
            return None;
        };
        prefix = prefix.child(bit);
    }
    Some(prefix)
}

/// Reads the bits of a prefix, at most 160; a dash is the empty one.
pub(crate) fn prefix_of(text: &[u8]) -> Option<Prefix>
    ensures { MatchOption result ((bits : List Bool) → length bits ≤ 160 → text.now ≢ prefix_text bits)
        (λ bits. (length bits ≤ 160) × (text.now ≡ prefix_text bits)) }
{
    if is_same(text, b"-") {
        return Some(Prefix::empty());
    }
    if text.is_empty() || text.len() > 160 {
        return None;
    }
    bits_of(text)
}
