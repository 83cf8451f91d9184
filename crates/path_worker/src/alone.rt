//! Settling a path on the caller's own thread.
ghost use Rattle.std.specs.Prelude.{◌≡◌, ◌<◌, true, false, Some, IfOk, OnOk, OnErr};
ghost use Rattle.kad_base.specs.Limits.{max_paths};
ghost use Rattle.claim_book.specs.declared.types.Thing.TheVariants.{Responder, Told};
ghost use Rattle.claim_book.specs.Journal.{first_unsettled};
ghost use Rattle.path_worker.specs.Settling.{SettlesAll, StopsAtResponder};
ghost use Rattle.path_worker.specs.WorkerSteps.{SettlesOne, SettlesReport, IsTold, IsSettled, IsStuck};

use claim_book::{Book, BookCall, BookReply, Checked};
use contact_table::{Table, TableCall, TableReply};
use kad_base::{Check, Contact, NoMemory, Policy, Report, Serial};

/// Settles all that the path has: tells the table of each contact that answered, and then notes it; checks each report
/// under the policy, and settles it. Answers how many things it settled. `NoMemory` comes where the table had none for
/// a contact that answered, who stays unsettled; what was done before stands.
pub fn settle_alone<C: Check>(
    path: u8,
    book: &mut Book,
    table: &mut Table,
    policy: Policy,
    check: &C,
) -> Result<u32, NoMemory>
    requires path { path < max_paths }
    requires policy { policy ≡ book.old.setting.policy }
    ensures ok { IfOk result (SettlesAll path book.old book.new table.old table.new) }
    ensures err { OnErr result (StopsAtResponder path book.old book.new table.old table.new) }
{
    book.few_unsettled();
    let mut count = 0;
    'settling: while settle_first(path, book, table, policy, check)? {
        count += 1;
    }
    Ok(count)
}

/// Settles the first thing that the path has; false where it has none.
fn settle_first<C: Check>(
    path: u8,
    book: &mut Book,
    table: &mut Table,
    policy: Policy,
    check: &C,
) -> Result<bool, NoMemory>
    requires path { path < max_paths }
    requires policy { policy ≡ book.old.setting.policy }
    ensures some { IfOk result (λ some. some ≡ true
        → SettlesOne path book.old book.new table.old table.new) }
    ensures none { IfOk result (λ some. some ≡ false
        → IsSettled path book.old book.new table.old table.new) }
    ensures err { OnErr result (IsStuck path book.old book.new table.old table.new) }
{
    match book.apply(path + 1, BookCall::Pull) {
        BookReply::Alive { contact } => {
            note_seen(path, book, table, contact)?;
            Ok(true)
        }
        BookReply::Report { report } => {
            settle_report(path, book, policy, report, check);
            Ok(true)
        }
        _ => Ok(false),
    }
}

/// Tells the table of the contact that answered, and then notes it.
fn note_seen(path: u8, book: &mut Book, table: &mut Table, contact: Contact) -> Result<(), NoMemory>
    requires path { path < max_paths }
    requires first { first_unsettled path book.old.journal ≡ Some (Responder contact) }
    ensures ok { OnOk result (SettlesOne path book.old book.new table.old table.new) }
    ensures err { OnErr result (IsStuck path book.old book.new table.old table.new) }
{
    notify_seen(path, table, contact)?;
    book.apply(path + 1, BookCall::Note { contact });
    Ok(())
}

/// Tells the table that the contact answered.
fn notify_seen(path: u8, table: &mut Table, contact: Contact) -> Result<(), NoMemory>
    requires { path < max_paths }
    ensures ok { OnOk result (IsTold path contact table.old table.new) }
    ensures err { OnErr result (table.new ≡ table.old) }
{
    match table.apply(path + 1, TableCall::Seen { contact }) {
        TableReply::NoMemory => Err(NoMemory),
        _ => Ok(()),
    }
}

/// Checks the report, and settles it.
fn settle_report<C: Check>(path: u8, book: &mut Book, policy: Policy, report: Report, check: &C)
    requires path { path < max_paths }
    requires policy { policy ≡ book.old.setting.policy }
    requires first { first_unsettled path book.old.journal ≡ Some (Told report) }
    ensures { SettlesReport path book.old book.new }
{
    let checked = Checked::of(check, policy, report);
    book.apply(path + 1, BookCall::Settle { checked });
}
