//! What a node prints of itself.
ghost use Rattle.std.specs.Prelude.{◌≡◌, IfOk, OnOk, string_bytes};
ghost use Rattle.serve_commands.specs.Printed.{IsTableText, WithTable, served_text};

use contact_table::Table;
use kad_base::{Bytes, NoMemory};
use std::alloc::{AllocError, Global};
use table_file::write;

/// The line of a node that served.
pub fn served_line(alloc: Global, received: u64, replied: u64) -> Result<String, AllocError>
    ensures { IfOk result (λ text. string_bytes text ≡ served_text received replied) }
{
    format!(in alloc; "received {received} replied {replied}")
}

/// The saved text of a table, which can be read back.
fn table_text(alloc: Global, table: &Table) -> Result<Bytes, NoMemory>
    ensures { IfOk result (IsTableText table.now) }
{
    table.sound();
    let saved = table.rows()?;
    write(alloc, &saved)
}

/// Adds the saved text of the table to the output, if it is wanted.
pub fn add_table(
    alloc: Global,
    wanted: bool,
    table: &Table,
    output: &mut Bytes,
) -> Result<(), NoMemory>
    ensures { OnOk result (WithTable wanted table.now output.old output.new) }
{
    if !wanted {
        return Ok(());
    }
    let text = table_text(alloc, table)?;
    output.extend(text.as_slice())
}
