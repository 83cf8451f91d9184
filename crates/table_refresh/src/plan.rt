//! Whom a refresh pings.
ghost use Rattle.std.specs.Prelude.{◌≡◌, ◌++◌, IfOk, OnOk};
ghost use Rattle.bucket_tree.specs.Rows.{live_in};
ghost use Rattle.bucket_tree.specs.States.{state_of, states_of};
ghost use Rattle.table_refresh.specs.Refreshed.{head_in, pinged_in, pinged_of};

use bucket_tree::Row;
use contact_table::Table;
use kad_base::{Contacts, Id, List, NoMemory};
use std::alloc::Global;

/// Whose table it is, and whom a refresh pings, in order.
#[derive(Drop)]
pub(crate) struct Plan {
    pub own: Id,
    pub due: Contacts,
}

/// Appends the head of the row, its least recently seen live contact, where it has one.
fn put_head(due: &mut Contacts, row: &Row) -> Result<(), NoMemory>
    ensures { OnOk result (due.new ≡ due.old ++ head_in (state_of row.now)) }
{
    let live = row.live.as_slice();
    if live.len() == 0 {
        return Ok(());
    }
    due.push(live[0].contact)
}

/// Appends the live contacts of the row, the least recently seen first.
fn put_live(due: &mut Contacts, row: &Row) -> Result<(), NoMemory>
    ensures { OnOk result (due.new ≡ due.old ++ live_in (state_of row.now)) }
{
    let live = row.live.as_slice();
    for entry in live {
        due.push(entry.contact)?;
    }
    Ok(())
}

/// Appends whom a refresh pings of the row.
fn put_row(due: &mut Contacts, row: &Row, all: bool) -> Result<(), NoMemory>
    ensures { OnOk result (due.new ≡ due.old ++ pinged_in all (state_of row.now)) }
{
    if all {
        return put_live(due, row);
    }
    put_head(due, row)
}

/// Whom a refresh pings of the rows, in order.
fn due_in(alloc: Global, rows: &[Row], all: bool) -> Result<Contacts, NoMemory>
    ensures { IfOk result (λ due. due ≡ pinged_of all (states_of rows.now)) }
{
    let mut due = List::new(alloc);
    for row in rows {
        put_row(&mut due, row, all)?;
    }
    Ok(due)
}

/// Whom a refresh of the table pings: all its live contacts, or the head of each row alone.
pub(crate) fn plan_of(alloc: Global, table: &Table, all: bool) -> Result<Plan, NoMemory>
    ensures own { IfOk result (λ plan. plan.own ≡ table.now.own) }
    ensures due { IfOk result (λ plan. plan.due ≡ pinged_of all table.now.rows) }
{
    let saved = table.rows()?;
    let due = due_in(alloc, saved.rows.as_slice(), all)?;
    Ok(Plan {
        own: saved.own,
        due,
    })
}
