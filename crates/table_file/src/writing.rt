//! A saved table as a text.
ghost use Rattle.std.specs.Prelude.{◌≡◌, ◌≤◌, ◌++◌, OnOk, IfOk, flat_map, length, map};
ghost use Rattle.std.specs.List.{All};
ghost use Rattle.table_file.specs.declared.line.Line.TheVariants as line;
ghost use Rattle.table_file.specs.SavedText.{FailedOnce, FitsRow, IsSavedText, ended, joined, row_lines};
ghost use Rattle.kad_text.specs.Text.{FitsContact, FitsId};

use crate::print::put_prefix;
use bucket_tree::{Live, Prefix, Row};
use contact_table::Saved;
use kad_base::{Bytes, Contact, Id, List, NoMemory};
use kad_text::print::{put_contact, put_id, put_number};
use std::alloc::Global;

/// The text of a saved table: its lines, each ended by a line feed. It can be read back.
pub fn write(alloc: Global, saved: &Saved) -> Result<Bytes, NoMemory>
    requires { FailedOnce saved.now.rows }
    ensures { IfOk result (λ text. IsSavedText text saved.now) }
{
    let mut output = List::new(alloc);
    put_table(&mut output, &saved.own, saved.k, saved.b)?;
    put_rows(&mut output, saved.rows.as_slice())?;
    put_siblings(&mut output, saved.siblings.as_slice())?;
    put_end(&mut output)?;
    Ok(output)
}

/// The first line: whose table it is, and its setting.
#[tactic(auto, using(crate::proofs::Printing::line7), unfolding(crate::specs::SavedText::text_of))]
fn put_table(output: &mut Bytes, own: &Id, k: u8, b: u8) -> Result<(), NoMemory>
    ensures fits { OnOk result (FitsId own.now) }
    ensures text { OnOk result (output.new ≡ output.old ++ ended (line.Table own.now k b)) }
{
    output.extend(b"table ")?;
    put_id(output, own)?;
    output.push(b' ')?;
    put_number(output, u16::from(k))?;
    output.push(b' ')?;
    put_number(output, u16::from(b))?;
    output.push(b'\n')
}

/// The line with which a bucket begins.
#[tactic(auto, using(crate::proofs::Printing::line3), unfolding(crate::specs::SavedText::text_of))]
fn put_prefix_line(output: &mut Bytes, prefix: &Prefix) -> Result<(), NoMemory>
    ensures within { OnOk result (length prefix.now ≤ 160) }
    ensures text { OnOk result (output.new ≡ output.old ++ ended (line.Row prefix.now)) }
{
    output.extend(b"row ")?;
    put_prefix(output, prefix)?;
    output.push(b'\n')
}

/// The line of a live contact.
#[tactic(auto, using(crate::proofs::Printing::line5), unfolding(crate::specs::SavedText::text_of))]
fn put_live(output: &mut Bytes, entry: &Live) -> Result<(), NoMemory>
    ensures fits { OnOk result (FitsContact entry.now.contact) }
    ensures text { OnOk result (output.new ≡ output.old ++ ended (line.Live entry.now)) }
{
    output.extend(b"live ")?;
    put_contact(output, &entry.contact)?;
    output.push(b' ')?;
    put_number(output, u16::from(entry.failures))?;
    output.push(b'\n')
}

/// The line of a spare.
#[tactic(auto, using(crate::proofs::Printing::line3), unfolding(crate::specs::SavedText::text_of))]
fn put_spare(output: &mut Bytes, contact: &Contact) -> Result<(), NoMemory>
    ensures fits { OnOk result (FitsContact contact.now) }
    ensures text { OnOk result (output.new ≡ output.old ++ ended (line.Spare contact.now)) }
{
    output.extend(b"spare ")?;
    put_contact(output, contact)?;
    output.push(b'\n')
}

/// The line of a sibling.
#[tactic(auto, using(crate::proofs::Printing::line3), unfolding(crate::specs::SavedText::text_of))]
fn put_sibling(output: &mut Bytes, contact: &Contact) -> Result<(), NoMemory>
    ensures fits { OnOk result (FitsContact contact.now) }
    ensures text { OnOk result (output.new ≡ output.old ++ ended (line.Sibling contact.now)) }
{
    output.extend(b"sibling ")?;
    put_contact(output, contact)?;
    output.push(b'\n')
}

/// The lines of the live contacts, in order.
fn put_lives(output: &mut Bytes, live: &[Live]) -> Result<(), NoMemory>
    ensures fits { OnOk result (All (λ e. FitsContact e.contact) live.now) }
    ensures text { OnOk result (output.new ≡ output.old ++ joined (map line.Live live.now)) }
{
    for entry in live {
        put_live(output, entry)?;
    }
    Ok(())
}

/// The lines of the spares, in order.
fn put_spares(output: &mut Bytes, spare: &[Contact]) -> Result<(), NoMemory>
    ensures fits { OnOk result (All FitsContact spare.now) }
    ensures text { OnOk result (output.new ≡ output.old ++ joined (map line.Spare spare.now)) }
{
    for contact in spare {
        put_spare(output, contact)?;
    }
    Ok(())
}

/// The lines of a row.
fn put_row(output: &mut Bytes, row: &Row) -> Result<(), NoMemory>
    ensures fits { OnOk result (FitsRow row.now) }
    ensures text { OnOk result (output.new ≡ output.old ++ joined (row_lines row.now)) }
{
    put_prefix_line(output, &row.prefix)?;
    put_lives(output, row.live.as_slice())?;
    put_spares(output, row.spare.as_slice())
}

/// The lines of all rows, in order.
fn put_rows(output: &mut Bytes, rows: &[Row]) -> Result<(), NoMemory>
    ensures fits { OnOk result (All FitsRow rows.now) }
    ensures text { OnOk result (output.new ≡ output.old ++ joined (flat_map row_lines rows.now)) }
{
    for row in rows {
        put_row(output, row)?;
    }
    Ok(())
}

/// The lines of the siblings, in order.
fn put_siblings(output: &mut Bytes, siblings: &[Contact]) -> Result<(), NoMemory>
    ensures fits { OnOk result (All FitsContact siblings.now) }
    ensures text { OnOk result (output.new ≡ output.old ++ joined (map line.Sibling siblings.now)) }
{
    for contact in siblings {
        put_sibling(output, contact)?;
    }
    Ok(())
}

/// The last line.
#[tactic(auto, unfolding(crate::specs::SavedText::text_of))]
fn put_end(output: &mut Bytes) -> Result<(), NoMemory>
    ensures { OnOk result (output.new ≡ output.old ++ ended line.End) }
{
    output.extend(b"end\n")
}
