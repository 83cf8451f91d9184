//! Examples worked by hand. The node's own identifier is `number(0)`.
ghost use Rattle.std.specs.Prelude.{◌<◌, ◌≤◌};

use bucket_tree::{Buckets, Gone, Prefixes, Seen};
use kad_base::{Contact, Id, NoMemory};
use std::alloc::Global;
use std::process::Abort;
use std::test::Fail;
use trial_kit::{at, contact, local, number};

/// The identifier whose first byte is n, and whose others are zero.
fn high(n: u8) -> Id {
    let mut bytes = [0; 20];
    bytes[0] = n;
    Id(bytes)
}

fn far(n: u8) -> Contact {
    Contact {
        id: high(n),
        addr: local(6000),
    }
}

/// A contact by its number, the same at another port, or one by the first byte of its identifier.
#[derive(Clone, Copy, Debug)]
pub(crate) enum Whom {
    Number(u8),
    At(u8, u16),
    First(u8),
}

pub(crate) fn who(whom: Whom) -> Contact {
    match whom {
        Whom::Number(n) => contact(n),
        Whom::At(n, port) => at(n, port),
        Whom::First(n) => far(n),
    }
}

/// Whether these are the contacts, in order.
pub(crate) fn are(contacts: &[Contact], wanted: &[Whom]) -> bool {
    contacts.len() == wanted.len()
        && contacts
            .iter()
            .zip(wanted)
            .all(|(contact, whom)| *contact == who(*whom))
}

/// Buckets that were told these contacts, in order.
pub(crate) fn told(alloc: Global, k: u8, b: u8, contacts: &[Whom]) -> Result<Buckets, Fail>
    requires some_live { 0 < k }
    requires few_live { k ≤ 20 }
    requires some_bits { 0 < b }
    requires few_bits { b ≤ 5 }
{
    let mut buckets = Buckets::new(alloc, number(0), k, b)?;
    for whom in contacts {
        buckets.seen(who(*whom))?;
    }
    Ok(buckets)
}

/// The bits and the length of the prefix at a place.
fn prefix_at(prefixes: &Prefixes, place: usize) -> Option<(Id, u8)> {
    let prefix = prefixes.as_slice().get(place)?;
    Some((prefix.bits(), prefix.len()))
}

/// Whether a prefix at that place has that length and the bits of that contact.
fn has_prefix(prefixes: &Prefixes, place: usize, whom: Whom, len: u8) -> bool {
    prefix_at(prefixes, place) == Some((who(whom).id, len))
}

/// Whether there are so many prefixes, and at each of these places one with these bits and this length.
fn splits(buckets: &Buckets, count: usize, wanted: &[(usize, Whom, u8)]) -> bool {
    match buckets.prefixes() {
        Ok(prefixes) => {
            prefixes.len() == count
                && wanted.iter().all(|(place, whom, len)| has_prefix(
                    &prefixes, *place, *whom, *len,
                ))
        }
        Err(NoMemory) => false,
    }
}

/// Whether these are the live contacts, in order.
fn lives(buckets: &Buckets, wanted: &[Whom]) -> bool {
    match buckets.live() {
        Ok(live) => are(live.as_slice(), wanted),
        Err(NoMemory) => false,
    }
}

/// Whether these are the n closest to the target, nearest first.
pub(crate) fn finds(buckets: &Buckets, target: &Id, n: u8, wanted: &[Contact]) -> bool {
    match buckets.closest(target, n) {
        Ok(near) => near.as_slice() == wanted,
        Err(NoMemory) => false,
    }
}

/// The same of contacts by their names.
fn finds_named(buckets: &Buckets, target: &Id, n: u8, wanted: &[Whom]) -> bool {
    match buckets.closest(target, n) {
        Ok(near) => are(near.as_slice(), wanted),
        Err(NoMemory) => false,
    }
}

/// A call of the buckets, and what it has to answer.
#[derive(Clone, Copy, Debug)]
enum Step {
    Seen(Whom, Seen),
    Failed(Whom, Gone),
    /// So many prefixes, and at each of these places one with the bits of that contact and this length.
    Splits(usize, &'static [(usize, Whom, u8)]),
    Lives(&'static [Whom]),
    /// The n closest to the number.
    Finds(u8, u8, &'static [Whom]),
}

fn answers(buckets: &mut Buckets, step: &Step) -> bool {
    match *step {
        Step::Seen(whom, seen) => buckets.seen(who(whom)) == Ok(seen),
        Step::Failed(whom, gone) => buckets.failed(&who(whom)) == gone,
        Step::Splits(count, wanted) => splits(buckets, count, wanted),
        Step::Lives(wanted) => lives(buckets, wanted),
        Step::Finds(target, n, wanted) => finds_named(buckets, &number(target), n, wanted),
    }
}

/// Takes the steps in order, over buckets that were told these contacts.
fn take(
    rt: &impl Abort,
    alloc: Global,
    k: u8,
    b: u8,
    contacts: &[Whom],
    steps: &[Step],
) -> Result<(), Fail>
    requires some_live { 0 < k }
    requires few_live { k ≤ 20 }
    requires some_bits { 0 < b }
    requires few_bits { b ≤ 5 }
{
    let mut buckets = told(alloc, k, b, contacts)?;
    for step in steps {
        assert!(rt; answers(&mut buckets, step), "{step:?}");
    }
    Ok(())
}

const TWO_AND_ONE: &[Whom] = &[Whom::Number(2), Whom::Number(1)];

const ALONG_ITSELF: &[Step] = &[Step::Splits(
    160,
    &[
        (0, Whom::Number(0), 159),
        (1, Whom::Number(2), 159),
        (2, Whom::Number(4), 158),
        (6, Whom::Number(64), 154),
        (152, Whom::First(1), 8),
        (159, Whom::First(128), 1),
    ],
)];

#[test]
fn splits_along_its_own_identifier(rt: HostRuntime) -> Result<(), Fail> {
    take(&rt, rt.alloc(), 1, 1, TWO_AND_ONE, ALONG_ITSELF)
}

const THREE_FAR: &[Whom] = &[Whom::First(128), Whom::First(192), Whom::First(160)];

const BY_TWO_BITS: &[Step] = &[
    Step::Splits(3, &[(1, Whom::First(128), 2), (2, Whom::First(192), 2)]),
    Step::Lives(&[Whom::First(128), Whom::First(192)]),
];

#[test]
fn splits_by_two_bits(rt: HostRuntime) -> Result<(), Fail> {
    take(&rt, rt.alloc(), 1, 2, THREE_FAR, BY_TWO_BITS)
}

const WHAT_BECAME: &[Step] = &[
    Step::Seen(Whom::Number(1), Seen::Added),
    Step::Seen(Whom::Number(3), Seen::Spared),
    Step::Seen(Whom::At(2, 7000), Seen::Conflict),
    Step::Seen(Whom::At(0, 6000), Seen::Own),
    Step::Seen(Whom::Number(1), Seen::Moved),
];

#[test]
fn answers_what_became_of_a_contact(rt: HostRuntime) -> Result<(), Fail> {
    take(&rt, rt.alloc(), 1, 1, &[Whom::Number(2)], WHAT_BECAME)
}

const CLOSEST: &[Step] = &[
    Step::Finds(0, 2, &[Whom::Number(1), Whom::Number(2)]),
    Step::Finds(3, 1, &[Whom::Number(2)]),
];

#[test]
fn finds_the_closest_of_all_buckets(rt: HostRuntime) -> Result<(), Fail> {
    take(&rt, rt.alloc(), 1, 1, TWO_AND_ONE, CLOSEST)
}

const TWO_ONE_THREE: &[Whom] = &[Whom::Number(2), Whom::Number(1), Whom::Number(3)];

const FAILURES: &[Step] = &[
    Step::Failed(Whom::Number(2), Gone::Kept),
    Step::Failed(Whom::Number(2), Gone::Replaced),
    Step::Failed(Whom::Number(3), Gone::Kept),
    Step::Failed(Whom::Number(3), Gone::Removed),
    Step::Failed(Whom::Number(9), Gone::Unknown),
    Step::Lives(&[Whom::Number(1)]),
];

#[test]
fn removes_at_the_second_failure(rt: HostRuntime) -> Result<(), Fail> {
    take(&rt, rt.alloc(), 1, 1, TWO_ONE_THREE, FAILURES)
}

const SEEN_AGAIN: &[Step] = &[
    Step::Failed(Whom::Number(2), Gone::Kept),
    Step::Seen(Whom::Number(2), Seen::Moved),
    Step::Failed(Whom::Number(2), Gone::Kept),
    Step::Lives(&[Whom::Number(1), Whom::Number(2)]),
];

#[test]
fn forgets_a_failure_of_a_contact_that_is_seen(rt: HostRuntime) -> Result<(), Fail> {
    take(&rt, rt.alloc(), 2, 1, TWO_AND_ONE, SEEN_AGAIN)
}

const FIVE_FAR: &[Whom] = &[
    Whom::First(129),
    Whom::First(130),
    Whom::First(131),
    Whom::First(132),
    Whom::First(133),
];

const REPLACED: &[Step] = &[
    Step::Failed(Whom::First(129), Gone::Kept),
    Step::Failed(Whom::First(129), Gone::Replaced),
    Step::Failed(Whom::First(130), Gone::Kept),
    Step::Failed(Whom::First(130), Gone::Replaced),
    Step::Lives(&[Whom::First(133), Whom::First(132)]),
];

#[test]
fn keeps_the_newest_spares(rt: HostRuntime) -> Result<(), Fail> {
    take(&rt, rt.alloc(), 2, 1, FIVE_FAR, REPLACED)
}
