//! Tables whose contacts showed proofs, worked by hand. The node's own identifier is `number(0)`, and k and b are 1: a row has
//! one live contact and one spare. A contact is named if it is live or one of the 16 siblings.
use crate::table::buckets::{Whom, who};
use crate::table::table::told;
use bucket_tree::{Gone, Seen};
use contact_table::{Table, TableCall, TableReply};
use kad_base::{Proof, Report, Serial};
use std::alloc::Global;
use std::process::Abort;
use std::test::Fail;
use trial_kit::number;

/// Proofs by their numbers, from 1 on. A table looks at none.
fn proof(n: u8) -> Proof {
    Proof {
        key: [n; 32],
        x: [n; 20],
    }
}

/// Whether a report names that contact with the proof of this number, or with none if it is 0.
fn is_report(report: &Report, whom: Whom, n: u8) -> bool {
    let wanted = if n == 0 { None } else { Some(proof(n)) };
    report.contact == who(whom) && report.proof == wanted
}

fn are_reports(reports: &[Report], wanted: &[(Whom, u8)]) -> bool {
    reports.len() == wanted.len()
        && reports
            .iter()
            .zip(wanted)
            .all(|(report, (whom, n))| is_report(report, *whom, *n))
}

/// A call of the table, and what it has to answer.
#[derive(Clone, Copy, Debug)]
enum Step {
    Seen(Whom, Seen),
    /// Is seen with the proof of this number.
    Shows(Whom, u8, Seen),
    /// Shows the proof of this number, and is turned away.
    Crowded(Whom, u8),
    Failed(Whom, Gone),
    /// These are seen, whatever becomes of them.
    Told(&'static [Whom]),
    /// The n closest to a contact's identifier, each with the number of its proof.
    Names(Whom, u8, &'static [(Whom, u8)]),
}

/// Whether the table has the memory to hear of each.
fn hears(table: &mut Table, contacts: &[Whom]) -> bool {
    for whom in contacts {
        let contact = who(*whom);
        if table.apply(1, TableCall::Seen { contact }) == TableReply::NoMemory {
            return false;
        }
    }
    true
}

fn shows(table: &mut Table, whom: Whom, n: u8) -> TableReply {
    let call = TableCall::Vouched {
        contact: who(whom),
        proof: proof(n),
    };
    table.apply(1, call)
}

fn names(table: &mut Table, target: Whom, n: u8, wanted: &[(Whom, u8)]) -> bool {
    let target = who(target).id;
    match table.apply(1, TableCall::Vouchers { target, n }) {
        TableReply::Reports { reports } => are_reports(reports.as_slice(), wanted),
        _ => false,
    }
}

fn answers(table: &mut Table, step: Step) -> bool {
    match step {
        Step::Seen(whom, seen) => {
            let contact = who(whom);
            table.apply(0, TableCall::Seen { contact }) == TableReply::Seen { seen }
        }
        Step::Shows(whom, n, seen) => shows(table, whom, n) == TableReply::Seen { seen },
        Step::Crowded(whom, n) => shows(table, whom, n) == TableReply::Crowded,
        Step::Failed(whom, gone) => {
            let contact = who(whom);
            table.apply(0, TableCall::Failed { contact }) == TableReply::Gone { gone }
        }
        Step::Told(contacts) => hears(table, contacts),
        Step::Names(target, n, wanted) => names(table, target, n, wanted),
    }
}

/// Takes the steps in order, over a table that was told these contacts.
fn take(rt: &impl Abort, alloc: Global, contacts: &[Whom], steps: &[Step]) -> Result<(), Fail> {
    let mut table = told(alloc, contacts)?;
    for step in steps {
        assert!(rt; answers(&mut table, *step), "{step:?}");
    }
    Ok(())
}

const WITH_AND_WITHOUT: &[Step] = &[
    Step::Shows(Whom::Number(2), 7, Seen::Added),
    Step::Seen(Whom::Number(1), Seen::Added),
    Step::Names(
        Whom::Number(0),
        9,
        &[(Whom::Number(1), 0), (Whom::Number(2), 7)],
    ),
];

#[test]
fn a_contact_is_named_with_the_proof_that_it_showed(rt: HostRuntime) -> Result<(), Fail> {
    take(&rt, rt.alloc(), &[], WITH_AND_WITHOUT)
}

const TWICE: &[Step] = &[
    Step::Shows(Whom::Number(2), 7, Seen::Added),
    Step::Shows(Whom::Number(2), 8, Seen::Moved),
    Step::Seen(Whom::Number(2), Seen::Moved),
    Step::Seen(Whom::Number(1), Seen::Added),
    Step::Shows(Whom::Number(1), 5, Seen::Moved),
    Step::Names(
        Whom::Number(0),
        9,
        &[(Whom::Number(1), 5), (Whom::Number(2), 7)],
    ),
];

#[test]
fn the_first_proof_of_a_contact_stays(rt: HostRuntime) -> Result<(), Fail> {
    take(&rt, rt.alloc(), &[], TWICE)
}

const FAILS: &[Step] = &[
    Step::Shows(Whom::Number(2), 7, Seen::Added),
    Step::Shows(Whom::Number(1), 5, Seen::Added),
    Step::Failed(Whom::Number(2), Gone::Kept),
    Step::Names(Whom::Number(2), 1, &[(Whom::Number(2), 7)]),
    Step::Failed(Whom::Number(2), Gone::Removed),
    Step::Names(Whom::Number(2), 9, &[(Whom::Number(1), 5)]),
    Step::Seen(Whom::Number(2), Seen::Added),
    Step::Names(Whom::Number(2), 1, &[(Whom::Number(2), 0)]),
    Step::Shows(Whom::Number(2), 9, Seen::Moved),
    Step::Names(Whom::Number(2), 1, &[(Whom::Number(2), 9)]),
];

#[test]
fn a_contact_that_fails_takes_its_proof_along(rt: HostRuntime) -> Result<(), Fail> {
    take(&rt, rt.alloc(), &[], FAILS)
}

const AGAIN_WITH_ANOTHER: &[Step] = &[
    Step::Shows(Whom::Number(2), 7, Seen::Added),
    Step::Failed(Whom::Number(2), Gone::Kept),
    Step::Failed(Whom::Number(2), Gone::Removed),
    Step::Shows(Whom::Number(2), 8, Seen::Added),
    Step::Names(Whom::Number(2), 1, &[(Whom::Number(2), 8)]),
];

#[test]
fn a_contact_that_comes_back_shows_a_new_first_proof(rt: HostRuntime) -> Result<(), Fail> {
    take(&rt, rt.alloc(), &[], AGAIN_WITH_ANOTHER)
}

/// The siblings, of which those with a higher first byte are none.
const SIXTEEN: &[Whom] = &[
    Whom::Number(1),
    Whom::Number(2),
    Whom::Number(3),
    Whom::Number(4),
    Whom::Number(5),
    Whom::Number(6),
    Whom::Number(7),
    Whom::Number(8),
    Whom::Number(9),
    Whom::Number(10),
    Whom::Number(11),
    Whom::Number(12),
    Whom::Number(13),
    Whom::Number(14),
    Whom::Number(15),
    Whom::Number(16),
];

const A_SPARE: &[Step] = &[
    Step::Seen(Whom::First(128), Seen::Added),
    Step::Shows(Whom::First(129), 7, Seen::Spared),
    Step::Names(Whom::First(129), 1, &[(Whom::First(128), 0)]),
    Step::Failed(Whom::First(128), Gone::Kept),
    Step::Failed(Whom::First(128), Gone::Replaced),
    Step::Names(Whom::First(129), 1, &[(Whom::First(129), 7)]),
];

#[test]
fn a_spare_that_takes_a_place_has_its_proof(rt: HostRuntime) -> Result<(), Fail> {
    take(&rt, rt.alloc(), SIXTEEN, A_SPARE)
}

const PUSHED_OUT: &[Step] = &[
    Step::Seen(Whom::First(128), Seen::Added),
    Step::Shows(Whom::First(129), 7, Seen::Spared),
    Step::Seen(Whom::First(130), Seen::Spared),
    Step::Seen(Whom::First(129), Seen::Spared),
    Step::Failed(Whom::First(128), Gone::Kept),
    Step::Failed(Whom::First(128), Gone::Replaced),
    Step::Names(Whom::First(129), 1, &[(Whom::First(129), 0)]),
];

#[test]
fn a_spare_that_is_pushed_out_takes_its_proof_along(rt: HostRuntime) -> Result<(), Fail> {
    take(&rt, rt.alloc(), SIXTEEN, PUSHED_OUT)
}

const A_SIBLING: &[Step] = &[
    Step::Seen(Whom::Number(4), Seen::Added),
    Step::Shows(Whom::Number(5), 7, Seen::Spared),
    Step::Seen(Whom::Number(6), Seen::Spared),
    Step::Names(
        Whom::Number(5),
        9,
        &[
            (Whom::Number(5), 7),
            (Whom::Number(4), 0),
            (Whom::Number(6), 0),
        ],
    ),
];

#[test]
fn a_sibling_that_no_row_holds_keeps_its_proof(rt: HostRuntime) -> Result<(), Fail> {
    take(&rt, rt.alloc(), &[], A_SIBLING)
}

/// Contact 17 is a sibling alone when the fifteen nearer ones come.
const NO_SIBLING: &[Step] = &[
    Step::Seen(Whom::Number(16), Seen::Added),
    Step::Shows(Whom::Number(17), 7, Seen::Spared),
    Step::Seen(Whom::Number(18), Seen::Spared),
    Step::Names(Whom::Number(17), 1, &[(Whom::Number(17), 7)]),
    Step::Told(SIXTEEN),
    Step::Names(Whom::Number(17), 1, &[(Whom::Number(16), 0)]),
    Step::Seen(Whom::Number(17), Seen::Spared),
    Step::Failed(Whom::Number(16), Gone::Kept),
    Step::Failed(Whom::Number(16), Gone::Replaced),
    Step::Names(Whom::Number(17), 1, &[(Whom::Number(17), 0)]),
];

#[test]
fn a_sibling_that_nearer_ones_push_out_takes_its_proof_along(rt: HostRuntime) -> Result<(), Fail> {
    take(&rt, rt.alloc(), &[], NO_SIBLING)
}

const OF_MORE: &[Step] = &[
    Step::Shows(Whom::Number(8), 8, Seen::Added),
    Step::Shows(Whom::Number(1), 1, Seen::Added),
    Step::Shows(Whom::Number(4), 4, Seen::Added),
    Step::Shows(Whom::Number(2), 2, Seen::Added),
    Step::Names(
        Whom::Number(0),
        2,
        &[(Whom::Number(1), 1), (Whom::Number(2), 2)],
    ),
    Step::Names(
        Whom::Number(9),
        3,
        &[
            (Whom::Number(8), 8),
            (Whom::Number(1), 1),
            (Whom::Number(2), 2),
        ],
    ),
    Step::Names(Whom::Number(9), 0, &[]),
];

#[test]
fn so_many_are_named_as_were_asked_for(rt: HostRuntime) -> Result<(), Fail> {
    take(&rt, rt.alloc(), &[], OF_MORE)
}

/// Takes the steps in order, over a new table that takes two contacts of one host.
fn take_two(rt: &impl Abort, alloc: Global, steps: &[Step]) -> Result<(), Fail> {
    let mut table = Table::limited(alloc, number(0), 1, 1, 2)?;
    for step in steps {
        assert!(rt; answers(&mut table, *step), "{step:?}");
    }
    Ok(())
}

const NOT_TAKEN_IN: &[Step] = &[
    Step::Shows(Whom::Number(2), 7, Seen::Added),
    Step::Shows(Whom::Number(1), 8, Seen::Added),
    Step::Crowded(Whom::Number(3), 9),
    Step::Shows(Whom::At(2, 7000), 10, Seen::Conflict),
    Step::Shows(Whom::At(0, 6000), 11, Seen::Own),
    Step::Names(
        Whom::Number(3),
        9,
        &[(Whom::Number(2), 7), (Whom::Number(1), 8)],
    ),
    Step::Failed(Whom::Number(2), Gone::Kept),
    Step::Failed(Whom::Number(2), Gone::Removed),
    Step::Seen(Whom::At(2, 7000), Seen::Added),
    Step::Failed(Whom::Number(1), Gone::Kept),
    Step::Failed(Whom::Number(1), Gone::Removed),
    Step::Seen(Whom::Number(3), Seen::Spared),
    Step::Names(
        Whom::Number(3),
        9,
        &[(Whom::Number(3), 0), (Whom::At(2, 7000), 0)],
    ),
];

#[test]
fn a_contact_that_is_not_taken_in_leaves_no_proof(rt: HostRuntime) -> Result<(), Fail> {
    take_two(&rt, rt.alloc(), NOT_TAKEN_IN)
}

/// Whether the table answers a step, at the second time if it is out of memory at the first.
fn answers_again(table: &mut Table, step: Step) -> bool {
    answers(table, step) || answers(table, step)
}

/// Steps that answer the same when they are taken again after memory ran out.
const WITH_LITTLE_MEMORY: &[Step] = &[
    Step::Shows(Whom::Number(2), 7, Seen::Added),
    Step::Shows(Whom::Number(3), 8, Seen::Spared),
    Step::Shows(Whom::Number(1), 5, Seen::Added),
    Step::Names(
        Whom::Number(3),
        9,
        &[
            (Whom::Number(3), 8),
            (Whom::Number(2), 7),
            (Whom::Number(1), 5),
        ],
    ),
];

/// One allocation may fail in it (`rt try --test --fail-alloc N`): the call that needed it answers so, and leaves all as it was.
#[test]
fn an_allocation_that_fails_changes_nothing(rt: HostRuntime) -> Result<(), Fail> {
    let mut table = Table::new(rt.alloc(), number(0), 1, 1)?;
    for step in WITH_LITTLE_MEMORY {
        assert!(rt; answers_again(&mut table, *step), "{step:?}");
    }
    Ok(())
}
