//! A contact that was seen: its bucket takes it in, split as often as it needs.
ghost use Rattle.std.specs.Prelude.{◌≡◌, ◌<◌, ◌≤◌, Bool, List, ◌∷◌, [], length, IfOk, OnErr, false, true};
ghost use Rattle.std.specs.List.{All};
ghost use Rattle.bucket_tree.specs.Partition.{begins, id_bits};
ghost use Rattle.bucket_tree.specs.Rows.{IsRow, same_id};
ghost use Rattle.bucket_tree.specs.BucketSteps.{SeenStep, NeedsSplit};
ghost use Rattle.bucket_tree.specs.Trees.{rows_of, IsLeaf, IsUnder, IsShort, path};

use crate::bits::bit;
use crate::bucket::Bucket;
use crate::node::{Node, fork, leaf};
use crate::types::{Seen, Setting};
use kad_base::{Contact, NoMemory};
use std::alloc::Global;

/// The row as a tree that has taken the contact in, split as often as it needs.
#[cycle(grown)]
fn grown(
    alloc: Global,
    setting: &Setting,
    mut row: Bucket,
    contact: &Contact,
) -> Result<(Node, Seen), NoMemory>
    requires some_live { 0 < setting.now.k }
    requires few_live { setting.now.k ≤ 20 }
    requires some_bits { 0 < setting.now.b }
    requires others { same_id contact.now.id setting.now.own ≡ false }
    requires short { length row.prefix ≤ 160 }
    requires covers { begins row.prefix (id_bits contact.now.id) ≡ true }
    requires each { IsRow setting.now.own setting.now.k setting.now.b row }
    ensures step { IfOk result (λ r. SeenStep setting.now.own setting.now.k setting.now.b
        contact.now (row ∷ []) r.1 (rows_of r.0)) }
    ensures under { IfOk result (λ r. IsUnder row.prefix r.0) }
{
    if row.needs_split(setting, &contact.id) {
        return forked(alloc, setting, &row, contact);
    }
    let seen = row.take(setting.k, contact)?;
    let node = leaf(alloc, row)?;
    Ok((node, seen))
}

/// A row that needs a split as such a tree.
#[cycle(grown)]
fn forked(
    alloc: Global,
    setting: &Setting,
    row: &Bucket,
    contact: &Contact,
) -> Result<(Node, Seen), NoMemory>
    requires some_live { 0 < setting.now.k }
    requires few_live { setting.now.k ≤ 20 }
    requires some_bits { 0 < setting.now.b }
    requires others { same_id contact.now.id setting.now.own ≡ false }
    requires short { length row.now.prefix < 160 }
    requires covers { begins row.now.prefix (id_bits contact.now.id) ≡ true }
    requires each { IsRow setting.now.own setting.now.k setting.now.b row.now }
    requires needs { NeedsSplit setting.now.own setting.now.k setting.now.b contact.now.id row.now }
    ensures step { IfOk result (λ r. SeenStep setting.now.own setting.now.k setting.now.b
        contact.now (row.now ∷ []) r.1 (rows_of r.0)) }
    ensures under { IfOk result (λ r. IsUnder row.now.prefix r.0) }
{
    let low = row.half(alloc, setting.k, false)?;
    let high = row.half(alloc, setting.k, true)?;
    if high.covers(&contact.id) {
        let low = leaf(alloc, low)?;
        let (high, seen) = grown(alloc, setting, high, contact)?;
        Ok((fork(alloc, low, high)?, seen))
    } else {
        let high = leaf(alloc, high)?;
        let (low, seen) = grown(alloc, setting, low, contact)?;
        Ok((fork(alloc, low, high)?, seen))
    }
}

/// Puts the tree that has taken a contact in, in the place of a leaf whose row needs a split for it. The row is left until
/// the whole tree stands, so that without memory all is as before.
#[inline(never)]
fn split(
    node: &mut Node,
    alloc: Global,
    setting: &Setting,
    contact: &Contact,
) -> Result<Seen, NoMemory>
    requires leaf { IsLeaf node.old }
    requires some_live { 0 < setting.now.k }
    requires few_live { setting.now.k ≤ 20 }
    requires some_bits { 0 < setting.now.b }
    requires others { same_id contact.now.id setting.now.own ≡ false }
    requires short { All (λ row. length row.prefix < 160) (rows_of node.old) }
    requires covers { All (λ row. begins row.prefix (id_bits contact.now.id) ≡ true)
        (rows_of node.old) }
    requires each { All (IsRow setting.now.own setting.now.k setting.now.b) (rows_of node.old) }
    requires needs { All (NeedsSplit setting.now.own setting.now.k setting.now.b contact.now.id)
        (rows_of node.old) }
    ensures ok { IfOk result (λ seen. SeenStep setting.now.own setting.now.k setting.now.b
        contact.now (rows_of node.old) seen (rows_of node.new)) }
    ensures under { (p : List Bool) → IsUnder p node.old → IsUnder p node.new }
    ensures err { OnErr result (rows_of node.new ≡ rows_of node.old) }
{
    match node {
        Node::Leaf(row) => {
            let (tree, seen) = forked(alloc, setting, row, contact)?;
            *node = tree;
            Ok(seen)
        }
        Node::Fork(_, _) => unreachable!(),
    }
}

/// Tells the tree that a contact was seen. The splitting stands in a function of its own, so that the way down needs no
/// room on the stack and is compiled to a loop.
pub(crate) fn see(
    node: &mut Node,
    alloc: Global,
    setting: &Setting,
    contact: &Contact,
    at: u8,
) -> Result<Seen, NoMemory>
    requires some_live { 0 < setting.now.k }
    requires few_live { setting.now.k ≤ 20 }
    requires some_bits { 0 < setting.now.b }
    requires others { same_id contact.now.id setting.now.own ≡ false }
    requires under { IsUnder (path at contact.now.id) node.old }
    requires short { All IsShort (rows_of node.old) }
    requires each { All (IsRow setting.now.own setting.now.k setting.now.b) (rows_of node.old) }
    ensures ok { IfOk result (λ seen. SeenStep setting.now.own setting.now.k setting.now.b
        contact.now (rows_of node.old) seen (rows_of node.new)) }
    ensures under { IsUnder (path at contact.now.id) node.new }
    ensures err { OnErr result (rows_of node.new ≡ rows_of node.old) }
{
    match node {
        Node::Leaf(row) => {
            if !row.needs_split(setting, &contact.id) {
                return row.take(setting.k, contact);
            }
            split(node, alloc, setting, contact)
        }
        Node::Fork(low, high) => {
            if bit(&contact.id, at) {
                see(high, alloc, setting, contact, at + 1)
            } else {
                see(low, alloc, setting, contact, at + 1)
            }
        }
    }
}
