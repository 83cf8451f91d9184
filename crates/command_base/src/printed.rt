//! What is printed.
ghost use Rattle.std.specs.Prelude.{◌≡◌, ◌++◌, IfOk, OnOk, string_bytes};
ghost use Rattle.command_base.specs.Printed.{printed, counts_text, line_of};
ghost use Rattle.kad_text.specs.Text.{contact_text};

use kad_base::{Bytes, Contact, List, NoMemory};
use kad_text::print::put_contact;
use std::alloc::{AllocError, Global};

/// The output of a lookup: each contact found, on a line of its own and in order, and a last line with the counts: the
/// queries made, refused sends included, the contacts that failed and the reports that were turned away.
pub fn print(
    alloc: Global,
    found: &[Contact],
    asked: u32,
    failed: u32,
    turned: u32,
) -> Result<Bytes, NoMemory>
    ensures { IfOk result (λ text. text ≡ printed found.now asked failed turned) }
{
    let mut output = List::new(alloc);
    for contact in found {
        add_contact(&mut output, contact)?;
    }
    let Ok(counts) = print_counts(alloc, found.len(), asked, failed, turned) else {
        return Err(NoMemory);
    };
    add_line(&mut output, counts.as_str())?;
    Ok(output)
}

/// The last line of a lookup.
pub fn print_counts(
    alloc: Global,
    found: usize,
    asked: u32,
    failed: u32,
    turned: u32,
) -> Result<String, AllocError>
    ensures { IfOk result (λ text. string_bytes text ≡ counts_text found asked failed turned) }
{
    format!(in alloc; "found {found} asked {asked} failed {failed} turned {turned}")
}

/// Adds a contact to an output, as a line.
fn add_contact(output: &mut Bytes, contact: &Contact) -> Result<(), NoMemory>
    ensures { OnOk result (output.new ≡ output.old ++ line_of (contact_text contact.now)) }
{
    put_contact(output, contact)?;
    output.push(b'\n')
}

/// Adds a text to an output, as a line.
pub fn add_line(output: &mut Bytes, text: &str) -> Result<(), NoMemory>
    ensures { OnOk result (output.new ≡ output.old ++ line_of text.now) }
{
    output.extend(text.as_bytes())?;
    output.push(b'\n')
}
