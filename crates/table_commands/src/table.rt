//! The command `table`: makes the saved text of the routing table that the contacts of the input make. It asks nobody.
ghost use Rattle.std.specs.Prelude.{◌≡◌, IfOk, IfErr, IsErrOf};
ghost use Rattle.kad_base.specs.Failing.{FailsLast};
ghost use Rattle.kad_base.specs.declared.types.Event.{Event};
ghost use Rattle.command_base.specs.Called.{Called};
ghost use Rattle.command_base.specs.Input.{ReadsAtMost};
ghost use Rattle.table_commands.specs.Tabled.{IsTextOf, TableText, table_promise};
ghost use Rattle.command_base.specs.Started.{AreTableBounds};
ghost use Rattle.command_base.specs.Shown.{Shown, shown};

use command_base::bootstrap::{own_id, table_of};
use command_base::input::{admitted, read_reports};
use command_base::{Call, Status};
use contact_table::Table;
use kad_base::{Bytes, Check, Family, NoMemory, Source};
use kad_words::TableWords;
use seal_tags::{Seal, SealCheck};
use std::alloc::Global;
use table_file::write;

/// The saved text of a table.
pub fn text_of(alloc: Global, table: &Table) -> Result<Bytes, NoMemory>
    ensures { IfOk result (IsTextOf table.now) }
{
    table.sound();
    let saved = table.rows()?;
    write(alloc, &saved)
}

/// Reads the contacts of the input, tells a new routing table of those of IPv4, and makes its saved text, or says why there
/// is none. Nothing is written yet.
pub fn table<S: Source, C: Check, G: Seal + SealCheck>(
    alloc: Global,
    words: &TableWords,
    source: &mut S,
    call: &Call<'_, C, G>,
) -> Result<Bytes, Status>
    requires { AreTableBounds words.now.k words.now.bits }
    ensures ok { IfOk result (TableText words.now call.now.random
        (shown S.left S.faults source.old source.new)) }
    ensures cause { (called : Called) (link : Shown Event) → IfErr result
        ((table_promise words.now).cause called
        (shown S.left S.faults source.old source.new) link) }
    ensures at_most { ReadsAtMost (S.left source.old) (S.left source.new) }
    ensures reads_well { ¬ IsErrOf result Status.SourceFault
        → S.faults source.new ≡ S.faults source.old }
    ensures reads_last { IsErrOf result Status.SourceFault
        → FailsLast S.left S.faults source.old source.new }
{
    let id = own_id(words.own, &call.random);
    let reports = read_reports(alloc, source)?;
    let contacts = admitted(
        alloc,
        &id,
        Family::Four,
        words.policy,
        call.check,
        reports.as_slice(),
    )?;
    let table = table_of(alloc, id, words.k, words.bits, 0, contacts.as_slice())?;
    Ok(text_of(alloc, &table)?)
}
