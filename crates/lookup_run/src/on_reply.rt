//! Who didn't answer is lost, and the table is told so.
ghost use Rattle.std.specs.Prelude.{◌∷◌, []};
ghost use Rattle.contact_table.specs.declared.calls.TableCall.TheVariants.{Failed};
ghost use Rattle.lookup_core.specs.LookupSteps.{Holds};
ghost use Rattle.lookup_run.specs.Lookup.{TableTold};
ghost use Rattle.lookup_run.specs.inner.RoundSteps.{Expires};

use crate::types::LookupState;
use contact_table::{Table, TableCall};
use kad_base::{Contact, Serial};

/// The role of the driver.
pub(crate) const DRIVER: u8 = 0;

/// Tells the table that the contact didn't answer.
fn notify_failed(table: &mut Table, contact: Contact)
    ensures { TableTold (record { role = 0; call = Failed contact } ∷ []) table.old table.new }
{
    table.apply(DRIVER, TableCall::Failed { contact });
}

/// Loses the contacts of the queries that are overdue at the moment, oldest first, and tells the table so.
pub(crate) fn expire(work: &mut LookupState, at: u64)
    requires { Holds work.old.lookup }
    ensures { Expires at work.old work.new }
{
    while let Some(contact) = work.lookup.overdue(at) {
        notify_failed(&mut work.table, contact);
    }
}
