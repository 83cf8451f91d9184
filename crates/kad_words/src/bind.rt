//! What is known of the words before a command is read. It takes no memory.
ghost use Rattle.std.specs.Prelude.{◌≡◌, ◌↔◌, IsTrue, map, string_bytes};
ghost use Rattle.kad_words.specs.Bound.{IsBind, IsOverLink, TakesLink, any_address, bound_by, family_by, family_named};
ghost use Rattle.kad_words.specs.Plain.{pairs_of, value_of};
ghost use Rattle.kad_words.specs.Table.{family_option, option_word};

use crate::command::{kind_named, links};
use crate::grammar::value_of;
use kad_base::{Addr, Family, Ip};
use kad_text::read::read_addr;

/// The address to bind: the value of the first word pair `--bind`, pairs counted after the command. If there is none,
/// or its value is no address, zeros with port 0, by which the system chooses: those of IPv6 if the first word pair
/// `--family` has the value 6, and else those of IPv4.
pub fn bind_of(words: &[String]) -> Addr
    ensures { let texts = map (λ w. string_bytes w) words.now in
        IsBind (family_by texts) (bound_by texts) result }
{
    let [_, rest @ ..] = words else {
        return any_address(Family::Four);
    };
    let any = any_address(family_in(rest));
    match value_of(rest, "--bind") {
        Some(text) => read_addr(text).unwrap_or(any),
        None => any,
    }
}

/// The family that the words after the command name, whatever else they are.
fn family_in(words: &[String]) -> Family
    ensures { result ≡ family_named (value_of (option_word family_option.entry.name)
        (pairs_of (map (λ w. string_bytes w) words.now))) }
{
    match value_of(words, "--family") {
        Some("6") => Family::Six,
        _ => Family::Four,
    }
}

/// The address by which the system chooses, in the network of a family.
fn any_address(family: Family) -> Addr
    ensures { result ≡ any_address family }
{
    let ip = match family {
        Family::Four => Ip::V4([0; 4]),
        Family::Six => Ip::V6([0; 16]),
    };
    Addr { ip, port: 0 }
}

/// Whether the command asks over a link, as `lookup` does.
pub fn takes_link(words: &[String]) -> bool
    ensures { IsTrue result ↔ TakesLink (map (λ w. string_bytes w) words.now) }
{
    match words {
        [command, ..] => is_over_link(command.as_str()),
        [] => false,
    }
}

/// Whether a word is that of a command which asks over a link.
fn is_over_link(command: &str) -> bool
    ensures { IsTrue result ↔ IsOverLink command.now }
{
    match kind_named(command) {
        Some(kind) => links(kind),
        None => false,
    }
}
