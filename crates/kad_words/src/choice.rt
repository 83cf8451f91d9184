//! An option: its name, what its value is, and what holds if it isn't given.
ghost use Rattle.std.specs.Prelude.{◌≡◌, ◌↔◌, Bool, IsTrue, MatchOption, option_map};
ghost use Rattle.kad_base.specs.declared.types.ClaimRule.{ClaimRule};
ghost use Rattle.kad_base.specs.declared.types.Proof.{Proof};
ghost use Rattle.kad_words.specs.Table.{option_word};
ghost use Rattle.kad_words.specs.Plain.{IsOfKind, IsThere, IsValue};
ghost use Rattle.kad_words.specs.Values.{SpellsClaim, SpellsProofWord, SpellsYes};

use kad_base::{ClaimRule, Proof};
use kad_text::read::{is_hex, read_addr, read_family, read_hex, read_id, read_number};

/// What the value of an option is.
#[derive(Clone, Copy, Debug, PartialEq, Eq)]
pub(crate) enum Kind {
    /// 20 bytes in hex.
    Identifier,
    /// 32 bytes in hex.
    Bytes32,
    /// Bytes in hex, however many.
    AnyBytes,
    /// A decimal number without leading zeros, within these bounds.
    Number { least: u32, most: u32 },
    /// A version of the Internet Protocol, 4 or 6.
    IpVersion,
    /// An address of IPv4 or IPv6 with its port.
    Address,
    /// `yes` or `no`.
    YesNo,
    /// From when on a contact is a path's: `named` or `asked`.
    Claim,
    /// A public key of 32 bytes and an X of 20, each in hex, with a comma between them.
    KeyAndX,
}

/// What holds if an option isn't given.
#[derive(Clone, Copy, Debug, PartialEq, Eq)]
pub(crate) enum Need {
    /// The words are not of the plain form.
    Required,
    /// It has no value.
    Optional,
    /// Its number is this.
    OrElse(u32),
    /// It is `no`.
    OrNo,
    /// It is `named`.
    OrNamed,
}

/// An option of a command. Its word is its name after two dashes.
#[derive(Clone, Copy, Debug, PartialEq, Eq)]
pub(crate) struct Choice {
    pub name: &'static str,
    pub kind: Kind,
    pub need: Need,
}

/// Whether a word is that of an option.
pub(crate) fn is_option(word: &str, name: &str) -> bool
    ensures { IsTrue result ↔ (word.now ≡ option_word name.now) }
{
    match word.as_bytes() {
        [b'-', b'-', rest @ ..] => is_same(rest, name.as_bytes()),
        _ => false,
    }
}

/// Whether two texts are one.
fn is_same(a: &[u8], b: &[u8]) -> bool
    ensures { IsTrue result ↔ (a.now ≡ b.now) }
{
    a == b
}

/// Whether a word may be a value: it isn't empty, and doesn't begin with a dash.
pub(crate) fn is_value(word: &str) -> bool
    ensures { IsTrue result ↔ IsValue word.now }
{
    match word.as_bytes() {
        [] => false,
        [first, ..] => *first != b'-',
    }
}

/// Whether a text is a value of a kind.
pub(crate) fn is_of_kind(kind: Kind, text: &str) -> bool
    ensures { IsTrue result ↔ IsOfKind kind text.now }
{
    match kind {
        Kind::Identifier => read_id(text).is_some(),
        Kind::Bytes32 => read_hex::<32>(text).is_some(),
        Kind::AnyBytes => is_hex(text),
        Kind::Number { least, most } => read_number(text, least, most).is_some(),
        Kind::IpVersion => read_family(text).is_some(),
        Kind::Address => read_addr(text).is_some(),
        Kind::YesNo => read_yes(text).is_some(),
        Kind::Claim => read_claim(text).is_some(),
        Kind::KeyAndX => read_proof(text).is_some(),
    }
}

/// Reads `yes`, which is true, or `no`.
pub(crate) fn read_yes(text: &str) -> Option<bool>
    ensures { MatchOption result ((said : Bool) → ¬ SpellsYes text.now said)
        (λ said. SpellsYes text.now said) }
{
    match text {
        "yes" => Some(true),
        "no" => Some(false),
        _ => None,
    }
}

/// Reads by which rule a contact is a path's.
pub(crate) fn read_claim(text: &str) -> Option<ClaimRule>
    ensures { MatchOption result ((rule : ClaimRule) → ¬ SpellsClaim text.now rule)
        (λ rule. SpellsClaim text.now rule) }
{
    match text {
        "named" => Some(ClaimRule::Named),
        "asked" => Some(ClaimRule::Asked),
        _ => None,
    }
}

/// Reads the key and X of a proof, with a comma between them.
pub(crate) fn read_proof(text: &str) -> Option<Proof>
    ensures { MatchOption result ((proof : Proof) → ¬ SpellsProofWord text.now proof)
        (λ proof. SpellsProofWord text.now proof) }
{
    let (key, x) = text.split_once(',')?;
    let key = read_hex(key)?;
    let x = read_hex(x)?;
    Some(Proof { key, x })
}

/// Whether what is needed of an option is there.
pub(crate) fn is_there(need: Need, value: Option<&str>) -> bool
    ensures { IsTrue result ↔ IsThere need (option_map (λ v. v.now) value.entry) }
{
    match need {
        Need::Required => value.is_some(),
        Need::Optional | Need::OrElse(_) | Need::OrNo | Need::OrNamed => true,
    }
}
