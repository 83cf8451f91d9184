//! A table that is being read, line by line.
ghost use Rattle.std.specs.Prelude.{◌≡◌, ◌∷◌, ◌++◌, [], IfOk, Err};
ghost use Rattle.bucket_tree.specs.declared.rows.Row.{Row};
ghost use Rattle.table_file.specs.declared.draft.Misfit.TheVariants as misfit;
ghost use Rattle.table_file.specs.declared.line.Line.TheVariants as line;
ghost use Rattle.table_file.specs.Drafts.{IsDraft, IsUnfit, lines_of_draft, whole_lines};

use crate::line::Line;
use bucket_tree::{Live, Prefix, Row, Rows};
use contact_table::Saved;
use kad_base::{Contact, Contacts, Id, List, NoMemory};
use std::alloc::Global;

/// Whose table it is, and its setting.
#[derive(Clone, Copy)]
pub(crate) struct Head {
    pub own: Id,
    pub k: u8,
    pub b: u8,
}

/// What was read of a table, by what its last line was.
#[derive(Drop)]
pub(crate) enum Draft {
    /// There was no line.
    Empty,
    /// The first line.
    Started {
        head: Head,
    },
    /// A line of a row, to which more may be added, after whole rows.
    InRow {
        head: Head,
        rows: Rows,
        row: Row,
    },
    /// A sibling, after all rows.
    InSiblings {
        head: Head,
        rows: Rows,
        siblings: Contacts,
    },
    /// The last line.
    Ended {
        saved: Saved,
    },
}

/// Why a line isn't taken.
#[derive(Clone, Copy)]
pub(crate) enum Misfit {
    /// No saved text has it after the lines before.
    Misplaced,
    NoMemory,
}

impl From<NoMemory> for Misfit {
    ghost use Rattle.std.specs.Prelude.{◌≡◌};
    ghost use Rattle.table_file.specs.declared.draft.Misfit.TheVariants as misfit;

    ghost from_gives = { λ _ e. e ≡ misfit.NoMemory };

    fn from(_: NoMemory) -> Self {
        Misfit::NoMemory
    }
}

/// Takes the next line.
pub(crate) fn take(alloc: Global, draft: Draft, line: Line) -> Result<Draft, Misfit>
    requires { IsDraft draft }
    ensures ok { IfOk result (λ after. IsDraft after
        × (lines_of_draft after ≡ lines_of_draft draft ++ line ∷ [])) }
    ensures misplaced { result ≡ Err misfit.Misplaced → IsUnfit (lines_of_draft draft) line }
{
    match line {
        Line::Table { own, k, b } => take_table(draft, Head { own, k, b }),
        Line::Row { prefix } => take_row(alloc, draft, prefix),
        Line::Live { entry } => take_live(draft, entry),
        Line::Spare { contact } => take_spare(draft, contact),
        Line::Sibling { contact } => take_sibling(alloc, draft, contact),
        Line::End => take_end(alloc, draft),
    }
}

/// Takes the line with which a table begins.
fn take_table(draft: Draft, head: Head) -> Result<Draft, Misfit>
    ensures ok { IfOk result (λ after. IsDraft after
        × (lines_of_draft after ≡ lines_of_draft draft ++ line.Table head.own head.k head.b ∷ [])) }
    ensures misplaced { result ≡ Err misfit.Misplaced
        → IsUnfit (lines_of_draft draft) (line.Table head.own head.k head.b) }
{
    match draft {
        Draft::Empty => Ok(Draft::Started { head }),
        _ => Err(Misfit::Misplaced),
    }
}

/// Rows, and one more.
fn with_row(rows: Rows, row: Row) -> Result<Rows, NoMemory>
    ensures { IfOk result (λ all. all ≡ rows ++ row ∷ []) }
{
    let mut rows = rows;
    rows.push(row)?;
    Ok(rows)
}

/// A bucket without contacts.
fn new_row(alloc: Global, prefix: Prefix) -> Row
    ensures prefix { result.prefix ≡ prefix }
    ensures live { result.live ≡ [] }
    ensures spare { result.spare ≡ [] }
{
    Row {
        prefix,
        live: List::new(alloc),
        spare: List::new(alloc),
    }
}

/// Takes the line with which a bucket begins.
fn take_row(alloc: Global, draft: Draft, prefix: Prefix) -> Result<Draft, Misfit>
    requires { IsDraft draft }
    ensures ok { IfOk result (λ after. IsDraft after
        × (lines_of_draft after ≡ lines_of_draft draft ++ line.Row prefix ∷ [])) }
    ensures misplaced { result ≡ Err misfit.Misplaced
        → IsUnfit (lines_of_draft draft) (line.Row prefix) }
{
    let next = new_row(alloc, prefix);
    match draft {
        Draft::Started { head } => Ok(Draft::InRow {
            head,
            rows: List::new(alloc),
            row: next,
        }),
        Draft::InRow { head, rows, row } => Ok(Draft::InRow {
            head,
            rows: with_row(rows, row)?,
            row: next,
        }),
        _ => Err(Misfit::Misplaced),
    }
}

/// A bucket with one more live contact.
fn with_live(row: Row, entry: Live) -> Result<Row, NoMemory>
    ensures { IfOk result (λ after. (after.prefix ≡ row.prefix)
        × (after.live ≡ row.live ++ entry ∷ []) × (after.spare ≡ row.spare)) }
{
    let Row {
        prefix,
        live,
        spare,
    } = row;
    let mut live = live;
    live.push(entry)?;
    Ok(Row {
        prefix,
        live,
        spare,
    })
}

/// Takes the line of a live contact.
fn take_live(draft: Draft, entry: Live) -> Result<Draft, Misfit>
    requires { IsDraft draft }
    ensures ok { IfOk result (λ after. IsDraft after
        × (lines_of_draft after ≡ lines_of_draft draft ++ line.Live entry ∷ [])) }
    ensures misplaced { result ≡ Err misfit.Misplaced
        → IsUnfit (lines_of_draft draft) (line.Live entry) }
{
    match draft {
        Draft::InRow { head, rows, row } => {
            if row.spare.len() > 0 {
                return Err(Misfit::Misplaced);
            }
            Ok(Draft::InRow {
                head,
                rows,
                row: with_live(row, entry)?,
            })
        }
        _ => Err(Misfit::Misplaced),
    }
}

/// A bucket with one more spare.
fn with_spare(row: Row, contact: Contact) -> Result<Row, NoMemory>
    ensures { IfOk result (λ after. (after.prefix ≡ row.prefix)
        × (after.live ≡ row.live) × (after.spare ≡ row.spare ++ contact ∷ [])) }
{
    let Row {
        prefix,
        live,
        spare,
    } = row;
    let mut spare = spare;
    spare.push(contact)?;
    Ok(Row {
        prefix,
        live,
        spare,
    })
}

/// Takes the line of a spare.
fn take_spare(draft: Draft, contact: Contact) -> Result<Draft, Misfit>
    requires { IsDraft draft }
    ensures ok { IfOk result (λ after. IsDraft after
        × (lines_of_draft after ≡ lines_of_draft draft ++ line.Spare contact ∷ [])) }
    ensures misplaced { result ≡ Err misfit.Misplaced
        → IsUnfit (lines_of_draft draft) (line.Spare contact) }
{
    match draft {
        Draft::InRow { head, rows, row } => Ok(Draft::InRow {
            head,
            rows,
            row: with_spare(row, contact)?,
        }),
        _ => Err(Misfit::Misplaced),
    }
}

/// Contacts, and one more.
fn with_sibling(siblings: Contacts, contact: Contact) -> Result<Contacts, NoMemory>
    ensures { IfOk result (λ all. all ≡ siblings ++ contact ∷ []) }
{
    let mut siblings = siblings;
    siblings.push(contact)?;
    Ok(siblings)
}

/// Takes the line of a sibling.
fn take_sibling(alloc: Global, draft: Draft, contact: Contact) -> Result<Draft, Misfit>
    requires { IsDraft draft }
    ensures ok { IfOk result (λ after. IsDraft after
        × (lines_of_draft after ≡ lines_of_draft draft ++ line.Sibling contact ∷ [])) }
    ensures misplaced { result ≡ Err misfit.Misplaced
        → IsUnfit (lines_of_draft draft) (line.Sibling contact) }
{
    match draft {
        Draft::Started { head } => Ok(Draft::InSiblings {
            head,
            rows: List::new(alloc),
            siblings: with_sibling(List::new(alloc), contact)?,
        }),
        Draft::InRow { head, rows, row } => Ok(Draft::InSiblings {
            head,
            rows: with_row(rows, row)?,
            siblings: with_sibling(List::new(alloc), contact)?,
        }),
        Draft::InSiblings {
            head,
            rows,
            siblings,
        } => Ok(Draft::InSiblings {
            head,
            rows,
            siblings: with_sibling(siblings, contact)?,
        }),
        _ => Err(Misfit::Misplaced),
    }
}

/// A whole table.
fn whole(head: Head, rows: Rows, siblings: Contacts) -> Draft
    ensures sound { IsDraft result }
    ensures lines { lines_of_draft result ≡ whole_lines head rows siblings }
{
    let saved = Saved {
        own: head.own,
        k: head.k,
        b: head.b,
        rows,
        siblings,
    };
    Draft::Ended { saved }
}

/// Takes the last line.
fn take_end(alloc: Global, draft: Draft) -> Result<Draft, Misfit>
    requires { IsDraft draft }
    ensures ok { IfOk result (λ after. IsDraft after
        × (lines_of_draft after ≡ lines_of_draft draft ++ line.End ∷ [])) }
    ensures misplaced { result ≡ Err misfit.Misplaced
        → IsUnfit (lines_of_draft draft) line.End }
{
    match draft {
        Draft::Started { head } => Ok(whole(head, List::new(alloc), List::new(alloc))),
        Draft::InRow { head, rows, row } => {
            Ok(whole(head, with_row(rows, row)?, List::new(alloc)))
        }
        Draft::InSiblings {
            head,
            rows,
            siblings,
        } => Ok(whole(head, rows, siblings)),
        _ => Err(Misfit::Misplaced),
    }
}
