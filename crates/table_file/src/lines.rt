//! How a line is read. What a text spells is the one line that is printed so.
ghost use Rattle.std.specs.Prelude.{◌≡◌, ◌∷◌, ◌++◌, [], ℕ, MatchOption, codes};
ghost use Rattle.std.specs.Str.{byte};
ghost use Rattle.table_file.specs.declared.line.Line.{Line};
ghost use Rattle.kad_text.specs.Cut.{Lacks};
ghost use Rattle.table_file.specs.Reading.{Spells};

use crate::line::Line;
use crate::parts::{addr_of, contact_of, id_of, number_of, prefix_of};
use bucket_tree::Live;
use kad_base::Contact;
use kad_text::cut::{cut, is_same};

/// Reads a line, without its line feed.
pub(crate) fn read_line(line: &[u8]) -> Option<Line>
    ensures { MatchOption result ((l : Line) → ¬ Spells line.now l) (λ l. Spells line.now l) }
{
    match cut(line, b' ') {
        Some((word, text)) => read_named(word, text),
        None => read_word(line),
    }
}

/// Reads a line that is a word.
fn read_word(line: &[u8]) -> Option<Line>
    requires { Lacks (byte " ") line.now }
    ensures { MatchOption result ((l : Line) → ¬ Spells line.now l) (λ l. Spells line.now l) }
{
    if is_same(line, b"end") {
        return Some(Line::End);
    }
    None
}

/// Reads a line of a word, a space, and a text.
fn read_named(word: &[u8], text: &[u8]) -> Option<Line>
    requires { Lacks (byte " ") word.now }
    ensures { MatchOption result ((l : Line) → ¬ Spells (word.now ++ byte " " ∷ text.now) l)
        (λ l. Spells (word.now ++ byte " " ∷ text.now) l) }
{
    if is_same(word, b"table") {
        return read_table(text);
    }
    if is_same(word, b"row") {
        return read_row(text);
    }
    if is_same(word, b"live") {
        return read_live(text);
    }
    if is_same(word, b"spare") {
        return read_spare(text);
    }
    if is_same(word, b"sibling") {
        return read_sibling(text);
    }
    None
}

/// Reads the table's own identifier, and its setting.
fn read_table(text: &[u8]) -> Option<Line>
    ensures { MatchOption result ((l : Line) → ¬ Spells (codes "table " ++ text.now) l)
        (λ l. Spells (codes "table " ++ text.now) l) }
{
    let (own, setting) = cut(text, b' ')?;
    let (k, b) = cut(setting, b' ')?;
    let own = id_of(own)?;
    let k = number_of(k, 255)?;
    let b = number_of(b, 255)?;
    Some(Line::Table {
        own,
        k: k as u8,
        b: b as u8,
    })
}

/// Reads the prefix of a row.
fn read_row(text: &[u8]) -> Option<Line>
    ensures { MatchOption result ((l : Line) → ¬ Spells (codes "row " ++ text.now) l)
        (λ l. Spells (codes "row " ++ text.now) l) }
{
    let prefix = prefix_of(text)?;
    Some(Line::Row { prefix })
}

/// Reads a live contact, and how often it failed.
fn read_live(text: &[u8]) -> Option<Line>
    ensures { MatchOption result ((l : Line) → ¬ Spells (codes "live " ++ text.now) l)
        (λ l. Spells (codes "live " ++ text.now) l) }
{
    let (id, rest) = cut(text, b' ')?;
    let (addr, failures) = cut(rest, b' ')?;
    let id = id_of(id)?;
    let addr = addr_of(addr)?;
    let failures = number_of(failures, 1)?;
    let contact = Contact { id, addr };
    Some(Line::Live {
        entry: Live {
            contact,
            failures: failures as u8,
        },
    })
}

/// Reads a spare.
fn read_spare(text: &[u8]) -> Option<Line>
    ensures { MatchOption result ((l : Line) → ¬ Spells (codes "spare " ++ text.now) l)
        (λ l. Spells (codes "spare " ++ text.now) l) }
{
    let contact = contact_of(text)?;
    Some(Line::Spare { contact })
}

/// Reads a sibling.
fn read_sibling(text: &[u8]) -> Option<Line>
    ensures { MatchOption result ((l : Line) → ¬ Spells (codes "sibling " ++ text.now) l)
        (λ l. Spells (codes "sibling " ++ text.now) l) }
{
    let contact = contact_of(text)?;
    Some(Line::Sibling { contact })
}
