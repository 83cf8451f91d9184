//! A saved table from its text.
ghost use Rattle.std.specs.Prelude.{◌≡◌, ◌<◌, ◌-◌, ◌^◌, ℕ, Err, IfOk, length};
ghost use Rattle.table_file.specs.declared.reading.SaveFault.TheVariants as fault;
ghost use Rattle.table_file.specs.declared.draft.Misfit.TheVariants as misfit;
ghost use Rattle.table_file.specs.Drafts.{IsDraft, Refuses, Takes};
ghost use Rattle.table_file.specs.Reading.{IsBadLine};
ghost use Rattle.table_file.specs.SavedText.{FailedOnce, IsSavedText};

use crate::draft::{Draft, Misfit, take};
use crate::lines::read_line;
use contact_table::Saved;
use kad_text::cut::cut;
use std::alloc::Global;

/// Why a text gives no saved table.
#[derive(Clone, Copy, Debug, PartialEq, Eq)]
pub enum SaveFault {
    /// The number of the first line such that no saved text begins with the lines up to it, counted from 1. Where all lines
    /// may stand so it is the number of the line that is missing, or that has no line feed.
    BadLine { line: u32 },
    /// The allocator gave no memory.
    NoMemory,
}

/// Reads a saved text. It takes time in proportion to the text's length. What it gives may be written again.
pub fn read(alloc: Global, bytes: &[u8]) -> Result<Saved, SaveFault>
    requires { length bytes.now < 2 ^ 32 - 1 }
    ensures ok { IfOk result (λ saved. IsSavedText bytes.now saved) }
    ensures few { IfOk result (λ saved. FailedOnce saved.rows) }
    ensures bad { (number : ℕ) → result ≡ Err (fault.BadLine number)
        → IsBadLine bytes.now number }
{
    let mut draft = Draft::Empty;
    let mut rest = bytes;
    let mut number = 1;
    while let Some((line, after)) = cut(rest, b'\n') {
        match next(alloc, draft, line) {
            Ok(next) => draft = next,
            Err(Misfit::Misplaced) => return Err(SaveFault::BadLine { line: number }),
            Err(Misfit::NoMemory) => return Err(SaveFault::NoMemory),
        }
        rest = after;
        number += 1;
    }
    match draft {
        Draft::Ended { saved } if rest.is_empty() => Ok(saved),
        _ => Err(SaveFault::BadLine { line: number }),
    }
}

/// Takes the text of the next line.
fn next(alloc: Global, draft: Draft, text: &[u8]) -> Result<Draft, Misfit>
    requires { IsDraft draft }
    ensures ok { IfOk result (λ after. Takes draft text.now after) }
    ensures misplaced { result ≡ Err misfit.Misplaced → Refuses draft text.now }
{
    match read_line(text) {
        Some(line) => take(alloc, draft, line),
        None => Err(Misfit::Misplaced),
    }
}
