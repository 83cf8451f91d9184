//! Lists that are merged, by hand.
use super::first_false;
use kad_base::{Contact, Contacts, Id, NoMemory};
use kad_distance::k_least;
use lookup_merge::merge;
use std::alloc::Global;
use trial_kit::contact;

/// The k closest to the target of two lists, once those are sorted.
fn merged(
    alloc: Global,
    target: &Id,
    k: u8,
    a: &[Contact],
    b: &[Contact],
) -> Result<Contacts, NoMemory> {
    let first = k_least(alloc, target, 20, a)?;
    let second = k_least(alloc, target, 20, b)?;
    merge(alloc, target, k, &[first, second])
}

/// Whether the k closest to 0 of two lists are these.
fn merges(alloc: Global, k: u8, a: &[Contact], b: &[Contact], wanted: &[Contact]) -> bool {
    match merged(alloc, &Id([0; 20]), k, a, b) {
        Ok(list) => list.as_slice() == wanted,
        Err(NoMemory) => false,
    }
}

/// Whether no lists are merged to nothing.
fn merges_none(alloc: Global) -> bool {
    match merge(alloc, &Id([0; 20]), 2, &[]) {
        Ok(list) => list.len() == 0,
        Err(NoMemory) => false,
    }
}

#[test]
fn takes_the_closest_of_all_lists(rt: HostRuntime) {
    let alloc = rt.alloc();
    let (c1, c2, c3, c4) = (contact(1), contact(2), contact(3), contact(4));
    let held = [
        merges(alloc, 2, &[c1, c4], &[c2, c3], &[c1, c2]),
        merges(alloc, 20, &[c1, c4], &[c2, c3], &[c1, c2, c3, c4]),
        merges(alloc, 2, &[c3, c4], &[c3], &[c3, c4]),
        merges_none(alloc),
    ];
    assert_eq!(rt; first_false(&held), None);
}
