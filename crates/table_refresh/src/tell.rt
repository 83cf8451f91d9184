//! Telling the table what came of a try.
ghost use Rattle.std.specs.Prelude.{◌≡◌, OnOk, OnErr};
ghost use Rattle.table_refresh.specs.Refreshed.{IsSeen};
ghost use Rattle.table_refresh.specs.inner.Steps.{FailsKept};

use bucket_tree::Gone;
use contact_table::{Table, TableCall, TableReply};
use kad_base::{Contact, NoMemory, Serial};

/// The role of who refreshes a table, which may make every call.
const REFRESHER: u8 = 0;

/// Tells the table that the contact answered. Without memory the table is as it was.
pub(crate) fn notify_seen(table: &mut Table, contact: Contact) -> Result<(), NoMemory>
    ensures ok { OnOk result (IsSeen contact table.old table.new) }
    ensures err { OnErr result (table.new ≡ table.old) }
{
    match table.apply(REFRESHER, TableCall::Seen { contact }) {
        TableReply::NoMemory => Err(NoMemory),
        _ => Ok(()),
    }
}

/// Tells the table that the contact didn't answer; true where the table keeps it. Takes no memory.
pub(crate) fn notify_failed(table: &mut Table, contact: Contact) -> bool
    ensures { FailsKept contact result table.old table.new }
{
    match table.apply(REFRESHER, TableCall::Failed { contact }) {
        TableReply::Gone { gone: Gone::Kept } => true,
        TableReply::Gone { .. } => false,
        TableReply::Seen { .. }
        | TableReply::List { .. }
        | TableReply::Reports { .. }
        | TableReply::Crowded
        | TableReply::NoMemory => unreachable!(),
    }
}
