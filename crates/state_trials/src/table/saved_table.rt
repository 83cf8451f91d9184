//! Tables that are saved and made again. The node's own identifier is `number(0)`, and k and b are 1.
use crate::table::buckets::{Whom, who};
use crate::table::table::told;
use bucket_tree::TableFault;
use contact_table::{Saved, Table};
use kad_base::{Contacts, List, NoMemory};
use std::alloc::Global;
use std::process::Abort;
use std::test::Fail;

/// The contacts that are meant.
fn list_of(alloc: Global, named: &[Whom]) -> Result<Contacts, NoMemory> {
    let mut list = List::new(alloc);
    for whom in named {
        list.push(who(*whom))?;
    }
    Ok(list)
}

/// The same with other siblings.
fn with_siblings(alloc: Global, saved: Saved, siblings: &[Whom]) -> Result<Saved, NoMemory> {
    let siblings = list_of(alloc, siblings)?;
    Ok(Saved {
        own: saved.own,
        k: saved.k,
        b: saved.b,
        rows: saved.rows,
        siblings,
    })
}

/// How many rows and siblings a table has that is made of this.
fn counts(alloc: Global, saved: &Saved) -> Result<(usize, usize), TableFault> {
    let table = Table::of_rows(alloc, saved)?;
    let again = table.rows()?;
    Ok((again.rows.len(), again.siblings.len()))
}

/// The same, of that table with these siblings.
fn counts_with(
    alloc: Global,
    table: &Table,
    siblings: &[Whom],
) -> Result<(usize, usize), TableFault> {
    let saved = with_siblings(alloc, table.rows()?, siblings)?;
    counts(alloc, &saved)
}

/// Siblings, and the counts of rows and siblings or the fault that a table with them gives.
type Row = (&'static [Whom], Result<(usize, usize), TableFault>);

/// That each gives this, with the rows of a table that was told these contacts.
fn give(rt: &impl Abort, alloc: Global, contacts: &[Whom], rows: &[Row]) -> Result<(), Fail> {
    let table = told(alloc, contacts)?;
    for (siblings, answer) in rows {
        assert_eq!(rt;
            counts_with(alloc, &table, siblings),
            *answer,
            "{siblings:?}"
        );
    }
    Ok(())
}

const FEW: &[Row] = &[
    (&[], Ok((160, 0))),
    (
        &[Whom::Number(1), Whom::Number(2), Whom::At(2, 7000)],
        Ok((160, 3)),
    ),
    (
        &[Whom::Number(2), Whom::Number(1)],
        Err(TableFault::Unsound),
    ),
    (
        &[Whom::Number(1), Whom::Number(1)],
        Err(TableFault::Unsound),
    ),
    (
        &[Whom::At(0, 6000), Whom::Number(1)],
        Err(TableFault::Unsound),
    ),
];

#[test]
fn takes_and_refuses_siblings(rt: HostRuntime) -> Result<(), Fail> {
    give(&rt, rt.alloc(), &[Whom::Number(2), Whom::Number(1)], FEW)
}

const SIXTEEN: &[Whom] = &[
    Whom::Number(1),
    Whom::Number(2),
    Whom::Number(3),
    Whom::Number(4),
    Whom::Number(5),
    Whom::Number(6),
    Whom::Number(7),
    Whom::Number(8),
    Whom::Number(9),
    Whom::Number(10),
    Whom::Number(11),
    Whom::Number(12),
    Whom::Number(13),
    Whom::Number(14),
    Whom::Number(15),
    Whom::Number(16),
];

const SEVENTEEN: &[Whom] = &[
    Whom::Number(1),
    Whom::Number(2),
    Whom::Number(3),
    Whom::Number(4),
    Whom::Number(5),
    Whom::Number(6),
    Whom::Number(7),
    Whom::Number(8),
    Whom::Number(9),
    Whom::Number(10),
    Whom::Number(11),
    Whom::Number(12),
    Whom::Number(13),
    Whom::Number(14),
    Whom::Number(15),
    Whom::Number(16),
    Whom::Number(17),
];

const MANY: &[Row] = &[
    (SIXTEEN, Ok((1, 16))),
    (SEVENTEEN, Err(TableFault::Unsound)),
];

#[test]
fn refuses_a_seventeenth_sibling(rt: HostRuntime) -> Result<(), Fail> {
    give(&rt, rt.alloc(), &[Whom::Number(2)], MANY)
}
