//! The command `refresh`: pings the least recently seen contact of each bucket of a saved table, or each live one, and makes
//! the saved text of the table that results.
ghost use Rattle.std.specs.Prelude.{◌≡◌, ◌⊎◌, IfOk, IfErr, IsErrOf};
ghost use Rattle.kad_base.specs.Failing.{FailsLast};
ghost use Rattle.command_base.specs.Called.{called_with};
ghost use Rattle.table_commands.specs.Refreshing.{Restores, RefreshBegun, RefreshText, SavedCause, refresh_promise};
ghost use Rattle.command_base.specs.Endings.{EndsUnasked, number_of};
ghost use Rattle.command_base.specs.Input.{ReadsAtMost};
ghost use Rattle.command_base.specs.Shown.{shown, shown_link};

use crate::table::text_of;
use bucket_tree::TableFault;
use command_base::bootstrap::FIRST_TX;
use command_base::input::read_whole;
use command_base::{Call, Status};
use contact_table::Table;
use id_puzzles::Words;
use kad_base::{Bytes, Link, Source};
use kad_words::RefreshWords;
use path_worker::PacedCheck;
use seal_tags::{Seal, SealCheck};
use std::alloc::Global;
use table_file::{SaveFault, read};
use table_refresh::{RefreshFault, RefreshSetting};

/// Reads the saved text of a table, and makes the table that it tells.
fn read_table<S: Source>(alloc: Global, source: &mut S) -> Result<Table, Status>
    ensures ok { IfOk result (Restores (shown S.left S.faults source.old source.new)) }
    ensures cause { IfErr result (SavedCause (shown S.left S.faults source.old source.new)) }
    ensures at_most { ReadsAtMost (S.left source.old) (S.left source.new) }
    ensures reads_well { ¬ IsErrOf result Status.SourceFault
        → S.faults source.new ≡ S.faults source.old }
    ensures reads_last { IsErrOf result Status.SourceFault
        → FailsLast S.left S.faults source.old source.new }
{
    let input = read_whole(alloc, source)?;
    let saved = match read(alloc, input.as_slice()) {
        Ok(saved) => saved,
        Err(SaveFault::BadLine { line }) => {
            return Err(Status::BadLine {
                line: line as usize,
            });
        }
        Err(SaveFault::NoMemory) => return Err(Status::NoMemory),
    };
    match Table::of_rows(alloc, &saved) {
        Ok(table) => Ok(table),
        Err(TableFault::Unsound) => Err(Status::Unsound),
        Err(TableFault::NoMemory) => Err(Status::NoMemory),
    }
}

/// Refreshes the table of the input, and makes the saved text of the table that results, or says why there is none. Nothing
/// is written yet.
pub fn refresh<S: Source, L: Link, C: PacedCheck, G: Seal + SealCheck>(
    alloc: Global,
    words: &RefreshWords,
    source: &mut S,
    link: &mut L,
    call: &Call<'_, C, G>,
) -> Result<Bytes, Status>
    ensures ok { IfOk result (RefreshText words.now
        (called_with call.now.random (C.slow call.now.check.now) (G.accepted call.now.seal.now)
        (G.tag_of call.now.seal.now))
        (shown S.left S.faults source.old source.new)
        (shown_link L.told L.recv_faults L.send_faults link.old link.new)) }
    ensures cause { IfErr result ((refresh_promise words.now).cause
        (called_with call.now.random (C.slow call.now.check.now) (G.accepted call.now.seal.now)
        (G.tag_of call.now.seal.now))
        (shown S.left S.faults source.old source.new)
        (shown_link L.told L.recv_faults L.send_faults link.old link.new)) }
    ensures no_memory { IfErr result (λ status. status ≡ Status.NoMemory →
        RefreshBegun words.now
        (called_with call.now.random (C.slow call.now.check.now) (G.accepted call.now.seal.now)
        (G.tag_of call.now.seal.now))
        (shown S.left S.faults source.old source.new)
        (shown_link L.told L.recv_faults L.send_faults link.old link.new) ⊎ (link.new ≡ link.old)) }
    ensures early { IfErr result (λ status. EndsUnasked (number_of status) → link.new ≡ link.old) }
    ensures kept { L.kept link.new ≡ L.kept link.old }
    ensures hears_well { ¬ IsErrOf result Status.LinkFault
        → L.recv_faults link.new ≡ L.recv_faults link.old }
    ensures hears_last { IsErrOf result Status.LinkFault
        → FailsLast L.told L.recv_faults link.old link.new }
    ensures at_most { ReadsAtMost (S.left source.old) (S.left source.new) }
    ensures reads_well { ¬ IsErrOf result Status.SourceFault
        → S.faults source.new ≡ S.faults source.old }
    ensures reads_last { IsErrOf result Status.SourceFault
        → FailsLast S.left S.faults source.old source.new }
{
    let table = read_table(alloc, source)?;
    let mut drawn = Words::new(&call.random, FIRST_TX);
    let setting = RefreshSetting {
        timeout: words.timeout,
        sealed: words.sealed,
        all: words.all,
    };
    let (table, ended) = table_refresh::refresh(alloc, link, &mut drawn, table, setting, call.seal);
    match ended {
        Ok(()) => Ok(text_of(alloc, &table)?),
        Err(RefreshFault::LinkFault) => Err(Status::LinkFault),
        Err(RefreshFault::Strays) => Err(Status::Strays),
        Err(RefreshFault::NoMemory) => Err(Status::NoMemory),
    }
}
