//! The k closest contacts of a list, as a sorted list that each contact is put into.
ghost use Rattle.std.specs.Prelude.{◌≡◌, ◌≤◌, ◌<◌, [], ◌∷◌, ◌++◌, length, take, insert, filter, IfOk, IsTrue, vec_len, vec_capacity};
ghost use Rattle.std.specs.List.Sorted.{IsStrictlySortedBy};
ghost use Rattle.std.specs.Ordering.{is_lt};
ghost use Rattle.kad_distance.specs.Order.{closeness};
ghost use Rattle.kad_distance.specs.KClosest.{new_at, k_closest};

use crate::{closer, compare};
use kad_base::{Contact, Contacts, Id, List, NoMemory};
use std::alloc::Global;

/// How many contacts of a sorted list are closer to the target, which is the contact's own place where the list has
/// it. Takes no memory.
#[inline(always)]
pub fn place(target: &Id, list: &[Contact], contact: &Contact) -> usize
    requires { IsStrictlySortedBy (closeness target.now) list.now }
    ensures within { result ≤ length list.now }
    ensures count { result ≡ length (filter (λ other. is_lt
        (closeness target.now other contact.now)) list.now) }
{
    list.partition_point(|other| compare(target, other, contact).is_lt())
}

/// The same place, sought from the end: what comes among the k closest mostly comes near it.
#[inline(always)]
fn place_from_end(target: &Id, list: &[Contact], contact: &Contact) -> usize
    requires { IsStrictlySortedBy (closeness target.now) list.now }
    ensures within { result ≤ length list.now }
    ensures count { result ≡ length (filter (λ other. is_lt
        (closeness target.now other contact.now)) list.now) }
{
    let mut at = list.len();
    while at > 0 {
        if closer(target, &list[at - 1], contact) {
            return at;
        }
        at -= 1;
    }
    at
}

/// Puts a contact in its place among the k closest, if it isn't there, and drops what is then past the first k.
/// Takes no memory: there is room for k.
pub fn put_closest(near: &mut Vec<Contact>, target: &Id, k: usize, contact: &Contact)
    requires sorted { IsStrictlySortedBy (closeness target.now) near.old.items }
    requires few { vec_len near.old ≤ k }
    requires room { k ≤ vec_capacity near.old }
    ensures items { near.new.items ≡ k_closest target.now k (near.old.items ++ contact.now ∷ []) }
    ensures sorted { IsStrictlySortedBy (closeness target.now) near.new.items }
    ensures few { vec_len near.new ≤ k }
    ensures room { k ≤ vec_capacity near.new }
{
    if is_past(target, near.as_slice(), k, contact) {
        return;
    }
    let at = place_from_end(target, near.as_slice(), contact);
    if at >= k {
        return;
    }
    if is_new(target, near.as_slice(), at, contact) {
        insert_at(near, k, at, contact);
    }
}

/// The contacts of the list that have fewer than k others of the list closer to the target, each once, nearest first
/// (Kademlia, section 2.3). Takes memory for k contacts, at once.
pub fn k_least(alloc: Global, target: &Id, k: u8, list: &[Contact]) -> Result<Contacts, NoMemory>
    ensures { IfOk result (λ found. found ≡ k_closest target.now k list.now) }
{
    let mut found = Vec::with_capacity(alloc, k as usize)?;
    for contact in list {
        put_closest(&mut found, target, k as usize, contact);
    }
    Ok(List::from_vec(found))
}

/// Whether there are k, of which the last is closer than the contact, as of a long list most contacts are.
#[inline(always)]
fn is_past(target: &Id, near: &[Contact], k: usize, contact: &Contact) -> bool
    requires { IsStrictlySortedBy (closeness target.now) near.now }
    ensures { IsTrue result → near.now ≡ k_closest target.now k (near.now ++ contact.now ∷ []) }
{
    if k == 0 {
        return false;
    }
    if near.len() != k {
        return false;
    }
    closer(target, &near[near.len() - 1], contact)
}

/// The contact isn't the one at that place.
fn is_new(target: &Id, list: &[Contact], at: usize, contact: &Contact) -> bool
    requires { at ≤ length list.now }
    ensures { result ≡ new_at (closeness target.now) list.now at contact.now }
{
    at == list.len() || !compare(target, &list[at], contact).is_eq()
}

/// Puts a contact at one of the first k places and keeps the first k, in room for k.
fn insert_at(near: &mut Vec<Contact>, k: usize, at: usize, contact: &Contact)
    requires at { at ≤ vec_len near.old }
    requires within { at < k }
    requires room { k ≤ vec_capacity near.old }
    ensures items { near.new.items ≡ take k (insert near.old.items at contact.now) }
    ensures few { vec_len near.new ≤ k }
    ensures room { k ≤ vec_capacity near.new }
{
    near.truncate(k - 1);
    match near.insert(at, *contact) {
        Ok(()) => {}
        Err(_) => unreachable!(),
    }
}
