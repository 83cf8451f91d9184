//! The list of a node of zeros, put in from far to near.
use kad_base::{Contact, Id, NoMemory};
use sibling_list::Siblings;
use std::alloc::Global;
use std::process::Abort;
use std::test::Fail;
use trial_kit::contact;

/// A call on the siblings, or what they have to show. Contacts go by their numbers.
#[derive(Clone, Copy, Debug)]
enum Step {
    Insert(u8),
    Remove(u8),
    /// There are so many.
    Count(usize),
    /// At this place stands that contact.
    At(usize, u8),
}

/// Makes the call, or tells whether it is as the step says.
fn holds(siblings: &mut Siblings, step: Step) -> bool {
    match step {
        Step::Insert(n) => {
            siblings.insert(contact(n));
            true
        }
        Step::Remove(n) => {
            siblings.remove(&contact(n));
            true
        }
        Step::Count(count) => siblings.list().len() == count,
        Step::At(place, n) => siblings.list().get(place) == Some(&contact(n)),
    }
}

/// Takes the steps in order, over the siblings of the node of zeros, after contacts were put in.
fn take(rt: &impl Abort, alloc: Global, put: &[u8], steps: &[Step]) -> Result<(), Fail> {
    let mut siblings = Siblings::new(alloc, Id([0; 20]))?;
    for n in put {
        siblings.insert(contact(*n));
    }
    for step in steps {
        assert!(rt; holds(&mut siblings, *step), "{step:?}");
    }
    Ok(())
}

const SEVENTEEN: &[u8] = &[17, 16, 15, 14, 13, 12, 11, 10, 9, 8, 7, 6, 5, 4, 3, 2, 1];

const KEPT: &[Step] = &[Step::Count(16), Step::At(0, 1), Step::At(15, 16)];

#[test]
fn the_16_closest_are_kept(rt: HostRuntime) -> Result<(), Fail> {
    take(&rt, rt.alloc(), SEVENTEEN, KEPT)
}

const OUT_AND_IN: &[Step] = &[
    Step::Remove(4),
    Step::Count(15),
    Step::Insert(4),
    Step::Insert(4),
    Step::Count(16),
    Step::At(3, 4),
];

#[test]
fn one_is_taken_out_and_put_in_once(rt: HostRuntime) -> Result<(), Fail> {
    take(&rt, rt.alloc(), SEVENTEEN, OUT_AND_IN)
}

const ITSELF: &[Step] = &[Step::Insert(0), Step::Count(0)];

#[test]
fn the_node_is_no_sibling_of_its_own(rt: HostRuntime) -> Result<(), Fail> {
    take(&rt, rt.alloc(), &[], ITSELF)
}

/// How many siblings the node of zeros has that are made of this list, and how many it gives, where the list is one.
fn made_of(alloc: Global, list: &[Contact]) -> Option<(usize, usize)> {
    match Siblings::of_list(alloc, Id([0; 20]), list) {
        Ok(Some(siblings)) => match siblings.contacts() {
            Ok(contacts) => Some((siblings.list().len(), contacts.len())),
            Err(NoMemory) => None,
        },
        _ => None,
    }
}

#[test]
fn a_list_in_strict_order_comes_back(rt: HostRuntime) {
    let mut many = [contact(1); 17];
    for n in 0..17u8 {
        many[n as usize] = contact(n + 1);
    }
    for (list, counts) in [
        ([].as_slice(), Some((0, 0))),
        (&many[..16], Some((16, 16))),
        (&many, None),
        (&[contact(2), contact(1)], None),
        (&[contact(1), contact(1)], None),
        (&[contact(0), contact(1)], None),
    ] {
        assert_eq!(&rt; made_of(rt.alloc(), list), counts);
    }
}
