//! The group of which only the answers are believed, and whose tag replies carry: what the words say of its key, before a
//! command is read. It takes no memory.
ghost use Rattle.std.specs.Prelude.{◌↔◌, ℕ, List, IsTrue, MatchOption, map, string_bytes};
ghost use Rattle.kad_words.specs.Grouped.{HasGroup, IsGroup, LacksGroup};

use crate::command::{kind_named, options};
use crate::grammar::{is_among, value_of};
use kad_text::read::read_hex;

/// The key of the group: the value of the first word pair `--group`, pairs counted after the command. `None` if there is
/// none, or its value isn't 64 hex digits.
pub fn group_of(words: &[String]) -> Option<[u8; 32]>
    ensures { let texts = map (λ w. string_bytes w) words.now in
        MatchOption result ((key : List ℕ) → ¬ IsGroup texts key) (λ key. IsGroup texts key) }
{
    let [_, rest @ ..] = words else {
        return None;
    };
    match value_of(rest, "--group") {
        Some(text) => read_hex(text),
        None => None,
    }
}

/// Whether the command has the option `--group`, and no word pair names it.
pub fn lacks_group(words: &[String]) -> bool
    ensures { IsTrue result ↔ LacksGroup (map (λ w. string_bytes w) words.now) }
{
    match words {
        [command, rest @ ..] => {
            has_group(command.as_str()) && value_of(rest, "--group").is_none()
        }
        [] => false,
    }
}

/// Whether a word is that of a command which has the option.
fn has_group(command: &str) -> bool
    ensures { IsTrue result ↔ HasGroup command.now }
{
    match kind_named(command) {
        Some(kind) => is_among("--group", options(kind)),
        None => false,
    }
}
