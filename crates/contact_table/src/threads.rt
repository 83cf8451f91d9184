//! The table may be sent to another thread, and shared: these functions do nothing, and are checked as proof of it.
ghost use Rattle.std.specs.Prelude.{◌≡◌};

use crate::table::Table;

fn sent<T: Send>(thing: T) -> T
    ensures { result ≡ thing }
{
    thing
}

fn shared<T: Sync>(thing: &T) -> &T
    ensures { result.now ≡ thing.now }
{
    thing
}

/// The table, from whichever thread.
pub(crate) fn sent_table(table: Table) -> Table
    ensures { result ≡ table }
{
    shared(&table);
    sent(table)
}
