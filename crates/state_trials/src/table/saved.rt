//! Rows that come back as buckets, and rows that are none. The node's own identifier is 20 zero bytes, and those of
//! contacts begin with the byte that names them.
use crate::table::buckets::{Whom, told, who};
use bucket_tree::{Buckets, Live, Lives, Prefix, Row, Rows, TableFault};
use kad_base::{Contacts, List, NoMemory};
use std::alloc::Global;
use std::process::Abort;
use std::test::Fail;
use trial_kit::number;

/// A row: the bits of its prefix, the first bytes of its live contacts with their failures, and those of its spares.
#[derive(Clone, Copy, Debug)]
struct Shown(&'static [u8], &'static [(u8, u8)], &'static [u8]);

fn prefix_of(bits: &[u8]) -> Prefix {
    let mut prefix = Prefix::empty();
    for bit in bits {
        if prefix.len() < 160 {
            prefix = prefix.child(*bit == 1);
        }
    }
    prefix
}

fn lives_of(alloc: Global, live: &[(u8, u8)]) -> Result<Lives, NoMemory> {
    let mut lives: Lives = List::new(alloc);
    for (n, failures) in live {
        lives.push(Live {
            contact: who(Whom::First(*n)),
            failures: *failures,
        })?;
    }
    Ok(lives)
}

fn spares_of(alloc: Global, spare: &[u8]) -> Result<Contacts, NoMemory> {
    let mut spares: Contacts = List::new(alloc);
    for n in spare {
        spares.push(who(Whom::First(*n)))?;
    }
    Ok(spares)
}

fn row_of(alloc: Global, shown: &Shown) -> Result<Row, NoMemory> {
    let Shown(bits, live, spare) = *shown;
    Ok(Row {
        prefix: prefix_of(bits),
        live: lives_of(alloc, live)?,
        spare: spares_of(alloc, spare)?,
    })
}

/// What buckets of these rows answer.
fn answer(alloc: Global, k: u8, b: u8, shown: &[Shown]) -> Result<(), TableFault> {
    let mut rows: Rows = List::new(alloc);
    for one in shown {
        rows.push(row_of(alloc, one)?)?;
    }
    let _buckets = Buckets::of_rows(alloc, number(0), k, b, &rows)?;
    Ok(())
}

/// The rows of all identifiers, of those that begin with 0, and with 1, with nothing in them.
const ALL: Shown = Shown(&[], &[], &[]);

const LOW: Shown = Shown(&[0], &[], &[]);

const HIGH: Shown = Shown(&[1], &[], &[]);

/// k, b and rows.
type Given = (u8, u8, &'static [Shown]);

/// That buckets of each of these answer so.
fn answer_all(rt: &impl Abort, alloc: Global, all: &[Given], wanted: Result<(), TableFault>) {
    for (k, b, rows) in all {
        assert_eq!(rt; answer(alloc, *k, *b, rows), wanted, "{k} {b} {rows:?}");
    }
}

const SOUND: &[Given] = &[
    (1, 1, &[LOW, HIGH]),
    (
        2,
        1,
        &[
            Shown(&[0], &[(1, 0), (2, 1)], &[]),
            Shown(&[1], &[(129, 0), (130, 1)], &[131, 132]),
        ],
    ),
    (20, 5, &[Shown(&[], &[(1, 1), (129, 0)], &[])]),
];

#[test]
fn takes_rows_that_calls_can_lead_to(rt: HostRuntime) {
    answer_all(&rt, rt.alloc(), SOUND, Ok(()));
}

const UNSOUND: &[Given] = &[
    (2, 1, &[]),
    (2, 1, &[LOW]),
    (2, 1, &[HIGH]),
    (2, 1, &[HIGH, LOW]),
    (2, 1, &[ALL, HIGH]),
    (2, 1, &[LOW, HIGH, Shown(&[1, 1], &[], &[])]),
    (2, 1, &[LOW, Shown(&[1], &[(129, 0), (129, 0)], &[])]),
    (2, 1, &[LOW, Shown(&[1], &[(1, 0)], &[])]),
    (2, 1, &[LOW, Shown(&[1], &[(129, 0), (130, 0)], &[1])]),
    (2, 1, &[Shown(&[0], &[(0, 0)], &[]), HIGH]),
    (2, 1, &[LOW, Shown(&[1], &[(129, 2)], &[])]),
    (
        2,
        1,
        &[LOW, Shown(&[1], &[(129, 0), (130, 0), (131, 0)], &[])],
    ),
    (2, 1, &[LOW, Shown(&[1], &[(129, 0)], &[131])]),
    (2, 1, &[Shown(&[0], &[(1, 0), (2, 0)], &[3]), HIGH]),
    (
        2,
        1,
        &[LOW, Shown(&[1], &[(129, 0), (130, 0)], &[131, 132, 133])],
    ),
    (2, 1, &[LOW, Shown(&[1], &[(129, 0), (130, 0)], &[129])]),
];

#[test]
fn refuses_other_rows(rt: HostRuntime) {
    answer_all(&rt, rt.alloc(), UNSOUND, Err(TableFault::Unsound));
}

const BEYOND: &[Given] = &[
    (0, 1, &[ALL]),
    (21, 1, &[ALL]),
    (1, 0, &[ALL]),
    (1, 6, &[ALL]),
];

#[test]
fn refuses_settings_beyond_their_limits(rt: HostRuntime) {
    answer_all(&rt, rt.alloc(), BEYOND, Err(TableFault::Unsound));
}

/// How many live contacts and spares the rows have, where these rows give buckets that have just these.
fn again(
    alloc: Global,
    k: u8,
    b: u8,
    buckets: &Buckets,
) -> Result<(usize, usize, bool), TableFault> {
    let rows = buckets.rows()?;
    let other = Buckets::of_rows(alloc, number(0), k, b, &rows)?;
    let others = other.rows()?;
    let mut counts = (0usize, 0usize, rows.len() == others.len());
    for (one, two) in rows.as_slice().iter().zip(others.as_slice()) {
        counts.0 = counts.0.saturating_add(one.live.len());
        counts.1 = counts.1.saturating_add(one.spare.len());
        if one.live != two.live || one.spare != two.spare {
            counts.2 = false;
        }
    }
    Ok(counts)
}

const SEVEN_FAR: &[Whom] = &[
    Whom::First(129),
    Whom::First(130),
    Whom::First(131),
    Whom::First(132),
    Whom::First(1),
    Whom::First(2),
    Whom::First(3),
];

#[test]
fn gives_rows_that_give_the_same_buckets(rt: HostRuntime) -> Result<(), Fail> {
    let buckets = told(rt.alloc(), 2, 1, SEVEN_FAR)?;
    assert_eq!(rt; again(rt.alloc(), 2, 1, &buckets), Ok((5, 2, true)));
    Ok(())
}
