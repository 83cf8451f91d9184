//! The live contacts that are closest to a target, nearest subtree first.
ghost use Rattle.std.specs.Prelude.{◌≡◌, ◌≤◌, ◌++◌, ◌∷◌, [], length, IsTrue, IfOk, vec_len, vec_capacity};
ghost use Rattle.std.specs.Ordering.{nat_cmp};
ghost use Rattle.std.specs.Cmp.Lexicographic.{slice_cmp};
ghost use Rattle.std.specs.declared.cmp.Ordering.TheVariants.{Less};
ghost use Rattle.kad_base.specs.Bits.{xor_bytes};
ghost use Rattle.kad_base.specs.Contacts.{among};
ghost use Rattle.std.specs.List.{All};
ghost use Rattle.std.specs.List.Sorted.{IsStrictlySortedBy};
ghost use Rattle.kad_distance.specs.Order.{closeness, IsCloser};
ghost use Rattle.kad_distance.specs.KClosest.{k_closest};
ghost use Rattle.bucket_tree.specs.Rows.{live_of};
ghost use Rattle.bucket_tree.specs.Trees.{rows_of, IsUnder, IsShort, IsTidy, HangsAt, AllCloser};

use crate::bits::bit;
use crate::bucket::Bucket;
use crate::node::Node;
use kad_base::{Contact, Contacts, Id, List, NoMemory, is_same};
use kad_distance::put_closest;
use std::alloc::Global;

/// Whether one identifier is nearer to the target than another: by the first byte in which their distances differ.
#[inline(always)]
fn is_nearer(target: &Id, a: &Id, b: &Id) -> bool
    ensures { IsTrue result → slice_cmp nat_cmp (xor_bytes target.now.0 a.now.0)
        (xor_bytes target.now.0 b.now.0) ≡ Less }
{
    for at in 0..20usize {
        let one = target.0[at] ^ a.0[at];
        let two = target.0[at] ^ b.0[at];
        if one < two {
            return true;
        }
        if one > two {
            return false;
        }
    }
    false
}

/// Whether there are k, of which the last is nearer than the contact. It is asked of most contacts of a table, and inlined.
#[inline(always)]
fn is_beyond(near: &[Contact], target: &Id, k: usize, contact: &Contact) -> bool
    requires sorted { IsStrictlySortedBy (closeness target.now) near.now }
    ensures full { IsTrue result → length near.now ≡ k }
    ensures farther { IsTrue result → All (λ c. IsCloser target.now c contact.now) near.now }
{
    if k == 0 {
        return false;
    }
    if near.len() != k {
        return false;
    }
    let last = near[near.len() - 1];
    is_nearer(target, &last.id, &contact.id)
}

/// Puts a contact among the k closest. One that is beyond them is passed over at once.
#[inline(always)]
fn offer(near: &mut Vec<Contact>, target: &Id, k: usize, contact: &Contact)
    requires sorted { IsStrictlySortedBy (closeness target.now) near.old.items }
    requires few { vec_len near.old ≤ k }
    requires room { k ≤ vec_capacity near.old }
    ensures items { near.new.items ≡ k_closest target.now k (near.old.items ++ contact.now ∷ []) }
    ensures room { k ≤ vec_capacity near.new }
{
    if is_beyond(near.as_slice(), target, k, contact) {
        return;
    }
    put_closest(near, target, k, contact);
}

/// Whether the contact is one of those.
fn is_there(near: &[Contact], contact: &Contact) -> bool
    ensures { result ≡ among near.now contact.now }
{
    near.iter().any(|other| is_same(contact, other))
}

/// Puts a contact among the k closest that may be one of them already. One that is, or that is beyond them, is passed over
/// at once.
fn offer_again(near: &mut Vec<Contact>, target: &Id, k: usize, contact: &Contact)
    requires sorted { IsStrictlySortedBy (closeness target.now) near.old.items }
    requires few { vec_len near.old ≤ k }
    requires room { k ≤ vec_capacity near.old }
    ensures items { near.new.items ≡ k_closest target.now k (near.old.items ++ contact.now ∷ []) }
    ensures room { k ≤ vec_capacity near.new }
{
    if is_beyond(near.as_slice(), target, k, contact) {
        return;
    }
    if is_there(near.as_slice(), contact) {
        return;
    }
    put_closest(near, target, k, contact);
}

/// Puts the live contacts of a row among the k closest.
fn put_row(near: &mut Vec<Contact>, target: &Id, k: usize, row: &Bucket)
    requires sorted { IsStrictlySortedBy (closeness target.now) near.old.items }
    requires few { vec_len near.old ≤ k }
    requires room { k ≤ vec_capacity near.old }
    ensures items { near.new.items ≡ k_closest target.now k
        (near.old.items ++ live_of (row.now ∷ [])) }
    ensures room { k ≤ vec_capacity near.new }
{
    for entry in row.live() {
        offer(near, target, k, &entry.contact);
    }
}

/// Puts the live contacts of a tree among the k closest, the nearer side of each fork first, until there are k: what is
/// still to come is farther.
fn gather(near: &mut Vec<Contact>, target: &Id, k: usize, node: &Node, at: u8)
    requires hangs { HangsAt at node.now }
    requires short { All IsShort (rows_of node.now) }
    requires tidy { All IsTidy (rows_of node.now) }
    requires closer { AllCloser target.now near.old.items (live_of (rows_of node.now)) }
    requires sorted { IsStrictlySortedBy (closeness target.now) near.old.items }
    requires few { vec_len near.old ≤ k }
    requires room { k ≤ vec_capacity near.old }
    ensures items { near.new.items ≡ k_closest target.now k
        (near.old.items ++ live_of (rows_of node.now)) }
    ensures room { k ≤ vec_capacity near.new }
{
    if near.len() == k {
        return;
    }
    match node {
        Node::Leaf(row) => put_row(near, target, k, row),
        Node::Fork(low, high) => {
            if bit(target, at) {
                gather(near, target, k, high, at + 1);
                gather(near, target, k, low, at + 1);
            } else {
                gather(near, target, k, low, at + 1);
                gather(near, target, k, high, at + 1);
            }
        }
    }
}

/// Puts the contacts of a slice, of which many may be there, among the k closest.
fn put_all(near: &mut Vec<Contact>, target: &Id, k: usize, others: &[Contact])
    requires sorted { IsStrictlySortedBy (closeness target.now) near.old.items }
    requires few { vec_len near.old ≤ k }
    requires room { k ≤ vec_capacity near.old }
    ensures { near.new.items ≡ k_closest target.now k (near.old.items ++ others.now) }
{
    for contact in others {
        offer_again(near, target, k, contact);
    }
}

/// The k contacts that are closest to the target, nearest first, of all live ones of the tree and the others. Takes memory
/// for k contacts, at once.
pub(crate) fn closest(
    root: &Node,
    alloc: Global,
    target: &Id,
    k: u8,
    others: &[Contact],
) -> Result<Contacts, NoMemory>
    requires under { IsUnder [] root.now }
    requires short { All IsShort (rows_of root.now) }
    requires tidy { All IsTidy (rows_of root.now) }
    ensures { IfOk result (λ found. found ≡ k_closest target.now k
        (live_of (rows_of root.now) ++ others.now)) }
{
    let Ok(mut near) = Vec::with_capacity(alloc, k as usize) else {
        return Err(NoMemory);
    };
    gather(&mut near, target, k as usize, root, 0);
    put_all(&mut near, target, k as usize, others);
    Ok(List::from_vec(near))
}
