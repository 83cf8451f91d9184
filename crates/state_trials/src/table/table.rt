//! Examples worked by hand. The node's own identifier is `number(0)`, and k and b are 1.
use crate::table::buckets::{Whom, are, who};
use bucket_tree::{Gone, Seen};
use contact_table::{Table, TableCall, TableReply};
use kad_base::{Addr, Contact, Contacts, Id, Ip, Serial};
use std::alloc::Global;
use std::process::Abort;
use std::test::Fail;
use trial_kit::number;

/// A table that was told these contacts by role 1.
pub(crate) fn told(alloc: Global, contacts: &[Whom]) -> Result<Table, Fail> {
    let mut table = Table::new(alloc, number(0), 1, 1)?;
    for whom in contacts {
        let contact = who(*whom);
        let _reply = table.apply(1, TableCall::Seen { contact });
    }
    Ok(table)
}

/// A call of the table, and what it has to answer.
#[derive(Clone, Copy, Debug)]
enum Step {
    Seen(Whom, Seen),
    /// Is turned away.
    Crowded(Whom),
    Failed(Whom, Gone),
    /// The n closest to the number.
    Closest(u8, u8, &'static [Whom]),
    /// So many are the n closest to the number.
    Count(u8, u8, usize),
}

/// The closest contacts, where the table has the memory to list them.
fn closest(table: &mut Table, target: u8, n: u8) -> Option<Contacts> {
    let target = number(target);
    match table.apply(1, TableCall::Closest { target, n }) {
        TableReply::List { list } => Some(list),
        _ => None,
    }
}

fn answers(table: &mut Table, step: Step) -> bool {
    match step {
        Step::Seen(whom, seen) => {
            let contact = who(whom);
            table.apply(0, TableCall::Seen { contact }) == TableReply::Seen { seen }
        }
        Step::Crowded(whom) => {
            let contact = who(whom);
            table.apply(0, TableCall::Seen { contact }) == TableReply::Crowded
        }
        Step::Failed(whom, gone) => {
            let contact = who(whom);
            table.apply(0, TableCall::Failed { contact }) == TableReply::Gone { gone }
        }
        Step::Closest(target, n, wanted) => closest(table, target, n).is_some_and(|found| are(
            found.as_slice(),
            wanted,
        )),
        Step::Count(target, n, count) => closest(table, target, n).is_some_and(|found| found.len()
            == count),
    }
}

/// Takes the steps in order, over a table that was told these contacts.
fn take(rt: &impl Abort, alloc: Global, contacts: &[Whom], steps: &[Step]) -> Result<(), Fail> {
    let mut table = told(alloc, contacts)?;
    for step in steps {
        assert!(rt; answers(&mut table, *step), "{step:?}");
    }
    Ok(())
}

const TWO_AND_ONE: &[Whom] = &[Whom::Number(2), Whom::Number(1)];

const WHAT_BECAME: &[Step] = &[
    Step::Seen(Whom::Number(3), Seen::Spared),
    Step::Seen(Whom::At(2, 7000), Seen::Conflict),
    Step::Seen(Whom::At(0, 6000), Seen::Own),
    Step::Seen(Whom::Number(1), Seen::Moved),
];

#[test]
fn tells_what_became_of_a_contact(rt: HostRuntime) -> Result<(), Fail> {
    take(&rt, rt.alloc(), TWO_AND_ONE, WHAT_BECAME)
}

const TWO_ONE_THREE: &[Whom] = &[Whom::Number(2), Whom::Number(1), Whom::Number(3)];

const FAILURES: &[Step] = &[
    Step::Failed(Whom::Number(2), Gone::Kept),
    Step::Failed(Whom::Number(2), Gone::Replaced),
    Step::Failed(Whom::Number(3), Gone::Kept),
    Step::Failed(Whom::Number(3), Gone::Removed),
    Step::Failed(Whom::Number(9), Gone::Unknown),
];

#[test]
fn forgets_a_contact_that_failed_twice(rt: HostRuntime) -> Result<(), Fail> {
    take(&rt, rt.alloc(), TWO_ONE_THREE, FAILURES)
}

const AMONG_THE_SIBLINGS: &[Step] = &[
    Step::Closest(3, 2, &[Whom::Number(3), Whom::Number(2)]),
    Step::Count(0, 9, 3),
];

#[test]
fn finds_spares_among_the_siblings(rt: HostRuntime) -> Result<(), Fail> {
    take(&rt, rt.alloc(), TWO_ONE_THREE, AMONG_THE_SIBLINGS)
}

/// Takes the steps in order, over a new table that takes two contacts of one host.
fn take_two(rt: &impl Abort, alloc: Global, steps: &[Step]) -> Result<(), Fail> {
    let mut table = Table::limited(alloc, number(0), 1, 1, 2)?;
    for step in steps {
        assert!(rt; answers(&mut table, *step), "{step:?}");
    }
    Ok(())
}

const TWO_OF_A_HOST: &[Step] = &[
    Step::Seen(Whom::Number(2), Seen::Added),
    Step::Seen(Whom::Number(1), Seen::Added),
    Step::Crowded(Whom::Number(3)),
    Step::Crowded(Whom::At(3, 7000)),
    Step::Seen(Whom::Number(2), Seen::Moved),
    Step::Seen(Whom::At(2, 7000), Seen::Conflict),
    Step::Seen(Whom::At(0, 6000), Seen::Own),
    Step::Failed(Whom::Number(2), Gone::Kept),
    Step::Crowded(Whom::Number(3)),
    Step::Failed(Whom::Number(2), Gone::Removed),
    Step::Seen(Whom::Number(3), Seen::Added),
    Step::Crowded(Whom::Number(2)),
    Step::Closest(3, 9, &[Whom::Number(3), Whom::Number(1)]),
];

#[test]
fn turns_away_a_third_contact_of_a_host(rt: HostRuntime) -> Result<(), Fail> {
    take_two(&rt, rt.alloc(), TWO_OF_A_HOST)
}

/// Whether a table that takes so many contacts of a subnet of IPv6 takes that many of ten, each with an address of its own.
fn takes_of_a_subnet(alloc: Global, limit: u8) -> Option<usize> {
    let mut table = Table::limited(alloc, number(0), 20, 5, limit).ok()?;
    for i in 1..=10u8 {
        let mut ip = [7; 16];
        ip[15] = i;
        let contact = Contact {
            id: Id([i; 20]),
            addr: Addr {
                ip: Ip::V6(ip),
                port: 6881,
            },
        };
        if table.apply(1, TableCall::Seen { contact }) == TableReply::NoMemory {
            return None;
        }
    }
    Some(closest(&mut table, 1, 255)?.len())
}

#[test]
fn a_subnet_of_ipv6_is_one_host(rt: HostRuntime) -> Result<(), Fail> {
    for (limit, count) in [(0, 10), (1, 1), (9, 9), (10, 10), (255, 10)] {
        assert_eq!(rt;
            takes_of_a_subnet(rt.alloc(), limit),
            Some(count),
            "limit {limit}"
        );
    }
    Ok(())
}

/// A contact of either family, with the identifier of 20 bytes n.
fn uniform(n: u8, port: u16) -> Contact {
    let ip = if n % 4 == 0 {
        Ip::V4([n; 4])
    } else {
        Ip::V6([n; 16])
    };
    Contact {
        id: Id([n; 20]),
        addr: Addr { ip, port },
    }
}

/// How many of 40 contacts that a role tells of at that port are among the n closest, if there is memory throughout.
fn found(alloc: Global, role: u8, port: u16, n: u8) -> Option<usize> {
    let mut table = Table::new(alloc, number(0), 20, 5).ok()?;
    for i in 1..=40u8 {
        let contact = uniform(i.wrapping_mul(6), port);
        if table.apply(role, TableCall::Seen { contact }) == TableReply::NoMemory {
            return None;
        }
    }
    let target = number(1);
    match table.apply(role, TableCall::Closest { target, n }) {
        TableReply::List { list } => Some(list.len()),
        _ => None,
    }
}

#[test]
fn answers_at_both_ends_of_each_parameter(rt: HostRuntime) -> Result<(), Fail> {
    for role in [0, 1, 9, 255u8] {
        for port in [0, 7001, 65535] {
            for (n, count) in [(1, 1), (8, 8), (9, 9), (20, 20), (255, 40)] {
                let answer = found(rt.alloc(), role, port, n);
                assert_eq!(rt; answer, Some(count), "role {role}, port {port}, n {n}");
            }
        }
    }
    Ok(())
}
