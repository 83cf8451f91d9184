//! How bytes, identifiers, numbers, addresses and families are read from text.
ghost use Rattle.std.specs.Prelude.{◌≡◌, ◌↔◌, ◌<◌, ◌^◌, ℕ, List, IfOk, IsTrue, MatchOption};
ghost use Rattle.std.specs.List.{list_all};
ghost use Rattle.hex.specs.Hex.{is_hex_digit};
ghost use Rattle.kad_base.specs.Contacts.{of_family};
ghost use Rattle.kad_base.specs.declared.types.Id.{Id};
ghost use Rattle.kad_base.specs.declared.types.Addr.{Addr};
ghost use Rattle.kad_base.specs.declared.types.Family.{Family};
ghost use Rattle.kad_base.specs.declared.types.Family.TheVariants.{Four};
ghost use Rattle.kad_text.specs.Text.{SpellsAddr, SpellsBytes, SpellsFamily, SpellsHex, SpellsId, SpellsNumber};

use crate::ipv6::read_v6;
use hex::{FromHex, FromHexError};
use itoa::Buffer;
use kad_base::{Addr, Bytes, Family, Id, Ip, List, NoMemory};
use std::alloc::Global;
use std::net::Ipv4Addr;

/// Reads bytes in hex, two digits a byte, of either case.
pub fn read_hex<const N: usize>(text: &str) -> Option<[u8; N]>
    ensures { MatchOption result ((bytes : List ℕ) → ¬ SpellsHex N text.now bytes)
        (λ bytes. SpellsHex N text.now bytes) }
{
    <[u8; N]>::from_hex(text).ok()
}

/// Whether a text is bytes in hex, however many.
pub fn is_hex(text: &str) -> bool
    ensures { IsTrue result ↔ ((bytes : List ℕ) × SpellsBytes text.now bytes) }
{
    if text.len() % 2 == 1 {
        return false;
    }
    are_digits(text.as_bytes())
}

/// Whether each of these is a hex digit, of either case.
fn are_digits(text: &[u8]) -> bool
    ensures { result ≡ list_all is_hex_digit text.now }
{
    text.iter().all(|digit| digit.is_ascii_hexdigit())
}

/// Reads bytes in hex, two digits a byte, of either case, however many there are. They are refused only if out of memory.
pub fn read_bytes(alloc: Global, text: &str) -> Result<Bytes, NoMemory>
    requires { (bytes : List ℕ) × SpellsBytes text.now bytes }
    ensures { IfOk result (λ bytes. SpellsBytes text.now bytes) }
{
    match hex::decode(alloc, text) {
        Ok(bytes) => Ok(List::from_vec(bytes)),
        Err(fault) => match fault {
            FromHexError::OutOfMemory => Err(NoMemory),
            _ => unreachable!(),
        },
    }
}

/// Reads an identifier of 40 hex digits.
pub fn read_id(text: &str) -> Option<Id>
    ensures { MatchOption result ((id : Id) → ¬ SpellsId text.now id) (λ id. SpellsId text.now id) }
{
    Some(Id(read_hex(text)?))
}

/// Reads a number in decimal digits without leading zeros: its one spelling, as it is printed.
pub fn read_number(text: &str, least: u32, most: u32) -> Option<u32>
    ensures { MatchOption result ((n : ℕ) → ¬ SpellsNumber least most text.now n)
        (λ n. SpellsNumber least most text.now n) }
{
    let number = text.parse::<u32>().ok()?;
    if number < least || most < number {
        return None;
    }
    let mut buffer = Buffer::new();
    (buffer.format(number) == text).then_some(number)
}

/// Reads an address with its port: `a.b.c.d:port`, or `[h:h:h:h:h:h:h:h]:port` where each h is four hex digits, of either
/// case. Shortened forms of IPv6 are refused.
pub fn read_addr(text: &str) -> Option<Addr>
    ensures { MatchOption result ((addr : Addr) → ¬ SpellsAddr text.now addr)
        (λ addr. SpellsAddr text.now addr) }
{
    match read_v6(text.as_bytes()) {
        Some(addr) => Some(addr),
        None => read_v4(text),
    }
}

/// Reads an IPv4 address with its port.
fn read_v4(text: &str) -> Option<Addr>
    ensures { MatchOption result
        ((addr : Addr) → IsTrue (of_family Four addr.ip) → ¬ SpellsAddr text.now addr)
        (λ addr. SpellsAddr text.now addr) }
{
    let (ip, port) = text.split_once(':')?;
    let ip = ip.parse::<Ipv4Addr>().ok()?;
    let port = read_number(port, 0, u32::from(u16::MAX))?;
    Some(Addr {
        ip: Ip::V4(ip.octets()),
        port: port as u16,
    })
}

/// Reads a family by its version of the Internet Protocol, `4` or `6`.
pub fn read_family(text: &str) -> Option<Family>
    ensures { MatchOption result ((family : Family) → ¬ SpellsFamily text.now family)
        (λ family. SpellsFamily text.now family) }
{
    match text {
        "4" => Some(Family::Four),
        "6" => Some(Family::Six),
        _ => None,
    }
}
