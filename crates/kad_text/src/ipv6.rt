//! How an address of IPv6 is read: eight groups of four hex digits in brackets, and a port (RFC 3986, section 3.2.2).
//! Forms that leave out digits or groups are refused.
ghost use Rattle.std.specs.Prelude.{◌≡◌, ◌≢◌, ◌<◌, ◌^◌, ◌∷◌, ◌++◌, [], ℕ, List, IsTrue, MatchOption, codes, decimal};
ghost use Rattle.std.specs.Str.{str_to_ascii_lowercase};
ghost use Rattle.kad_base.specs.Contacts.{of_family};
ghost use Rattle.kad_base.specs.declared.types.Addr.{Addr};
ghost use Rattle.kad_base.specs.declared.types.Family.TheVariants.{Six};
ghost use Rattle.kad_text.specs.Groups.{IsMark, SpellsGroup, SpellsGroups};
ghost use Rattle.kad_text.specs.Text.{SpellsAddr, SpellsHex};

use crate::read::read_number;
use hex::FromHex;
use kad_base::{Addr, Ip};

/// Reads an address with its port.
pub fn read_v6(text: &[u8]) -> Option<Addr>
    ensures { MatchOption result
        ((addr : Addr) → IsTrue (of_family Six addr.ip) → ¬ SpellsAddr text.now addr)
        (λ addr. SpellsAddr text.now addr) }
{
    let (ip, rest) = groups_of(text)?;
    let port = port_of(rest)?;
    Some(Addr {
        ip: Ip::V6(ip),
        port,
    })
}

/// Reads the eight groups, and hands out the rest.
fn groups_of(text: &[u8]) -> Option<([u8; 16], &[u8])>
    ensures { let lower = str_to_ascii_lowercase text.now in
        MatchOption result ((bytes rest : List ℕ) → ¬ SpellsGroups lower bytes rest)
        (λ x. SpellsGroups lower x.0 (str_to_ascii_lowercase x.1.now)) }
{
    let mut ip = [0; 16];
    let mut rest = text;
    let mut lead = b'[';
    for i in 0..8 {
        let Some((high, low, after)) = group_of(rest, lead) else {
            return None;
        };
        ip[2 * i] = high;
        ip[2 * i + 1] = low;
        rest = after;
        lead = b':';
    }
    Some((ip, rest))
}

/// Reads a group, its two bytes, after what stands in front of it, and hands out the rest.
fn group_of(text: &[u8], lead: u8) -> Option<(u8, u8, &[u8])>
    requires { IsMark lead }
    ensures { let lower = str_to_ascii_lowercase text.now in
        MatchOption result ((bytes rest : List ℕ) → ¬ SpellsGroup lead lower bytes rest)
        (λ x. SpellsGroup lead lower (x.0 ∷ x.1 ∷ []) (str_to_ascii_lowercase x.2.now)) }
{
    if text.len() < 5 || text[0] != lead {
        return None;
    }
    let bytes = pair_of(&text[1..5])?;
    Some((bytes[0], bytes[1], &text[5..]))
}

/// Reads two bytes in hex.
fn pair_of(digits: &[u8]) -> Option<[u8; 2]>
    ensures { MatchOption result ((bytes : List ℕ) → ¬ SpellsHex 2 digits.now bytes)
        (λ bytes. SpellsHex 2 digits.now bytes) }
{
    <[u8; 2]>::from_hex(digits).ok()
}

/// Reads what comes after the groups: a bracket, a colon and the port.
fn port_of(text: &[u8]) -> Option<u16>
    ensures { MatchOption result
        ((port : ℕ) → port < 2 ^ 16 → text.now ≢ codes "]:" ++ decimal port)
        (λ port. text.now ≡ codes "]:" ++ decimal port) }
{
    let [b']', b':', digits @ ..] = text else {
        return None;
    };
    let Ok(digits) = std::str::from_utf8(digits) else {
        return None;
    };
    let port = read_number(digits, 0, u32::from(u16::MAX))?;
    Some(port as u16)
}
