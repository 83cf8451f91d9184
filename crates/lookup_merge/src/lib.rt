//! The k closest contacts of several lists that stand in order, by merging them.
#![tactic(auto)]

ghost use Rattle.std.specs.Prelude.{◌≡◌, List, length, map, flat_map, replicate, slice_get, Option, None, IfOk};
ghost use Rattle.std.specs.List.{All};
ghost use Rattle.std.specs.List.Sorted.{IsStrictlySortedBy};
ghost use Rattle.kad_distance.specs.Order.{closeness};
ghost use Rattle.kad_distance.specs.KClosest.{k_closest};
ghost use Rattle.lookup_merge.specs.Rests.{rests, nearer_of, nearest_of, after, place_after};

use kad_base::{Contact, Contacts, Id, List, NoMemory};
use kad_distance::compare;
use std::alloc::Global;

/// The k closest contacts of all lists, nearest first, each once also where several lists have it (Kademlia, section
/// 2.3). Each of at most k steps looks at the next contact of each list.
pub fn merge(alloc: Global, target: &Id, k: u8, lists: &[Contacts]) -> Result<Contacts, NoMemory>
    requires { All (IsStrictlySortedBy (closeness target.now)) lists.now }
    ensures { IfOk result (λ found. found ≡ k_closest target.now k
        (flat_map (λ list. list) lists.now)) }
{
    let mut places = starts(alloc, lists.len())?;
    let mut found = List::new(alloc);
    for _ in 0..k {
        match nearest(target, lists, places.as_slice()) {
            None => return Ok(found),
            Some(contact) => {
                found.push(contact)?;
                advance(target, lists, places.as_mut_slice(), &contact);
            }
        }
    }
    Ok(found)
}

/// The first place of each list.
fn starts(alloc: Global, count: usize) -> Result<Vec<usize>, NoMemory>
    ensures { IfOk result (λ places. places.items ≡ replicate count 0) }
{
    Ok(vec![in alloc; 0usize; count]?)
}

/// The closest of the contacts that stand at the places of the lists, and none where each place is its list's end.
fn nearest(target: &Id, lists: &[Contacts], places: &[usize]) -> Option<Contact>
    requires { length places.now ≡ length lists.now }
    ensures { result ≡ nearest_of (closeness target.now) None (rests lists.now places.now) }
{
    let mut best = None;
    for (i, list) in lists.iter().enumerate() {
        best = nearer(target, best, next(list, places[i]));
    }
    best
}

/// The contact at that place, and none past the end.
fn next(list: &Contacts, place: usize) -> Option<Contact>
    ensures { result ≡ slice_get list.now place }
{
    list.as_slice().get(place).copied()
}

/// The closer of what was found and the next one.
fn nearer(target: &Id, best: Option<Contact>, next: Option<Contact>) -> Option<Contact>
    ensures { result ≡ nearer_of (closeness target.now) best next }
{
    match (best, next) {
        (best, None) => best,
        (None, next) => next,
        (Some(held), Some(contact)) => {
            if compare(target, &contact, &held).is_lt() {
                Some(contact)
            } else {
                Some(held)
            }
        }
    }
}

/// Goes on to the next place in each list that has the contact at its place.
fn advance(target: &Id, lists: &[Contacts], places: &mut [usize], contact: &Contact)
    requires { length places.old ≡ length lists.now }
    ensures same { length places.new ≡ length lists.now }
    ensures passed { rests lists.now places.new ≡ map (after (closeness target.now) contact.now)
        (rests lists.now places.old) }
{
    for (i, list) in lists.iter().enumerate() {
        places[i] = passed(target, list, places[i], contact);
    }
}

fn passed(target: &Id, list: &Contacts, place: usize, contact: &Contact) -> usize
    ensures { result ≡ place_after (closeness target.now) contact.now list.now place }
{
    let contacts = list.as_slice();
    if place < contacts.len() && compare(target, &contacts[place], contact).is_eq() {
        return place + 1;
    }
    place
}
