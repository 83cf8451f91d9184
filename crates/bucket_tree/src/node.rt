//! A tree whose forks stand for a bit and whose leaves are buckets.
ghost use Rattle.std.specs.Prelude.{◌≡◌, ◌≤◌, ◌++◌, ◌∷◌, [], Bool, List, IfOk, OnOk, true, false};
ghost use Rattle.std.specs.List.{All};
ghost use Rattle.bucket_tree.specs.Rows.{live_of, prefixes_of};
ghost use Rattle.bucket_tree.specs.States.{states_of};
ghost use Rattle.bucket_tree.specs.Trees.{rows_of, IsUnder, IsShort, HangsAt};

use crate::bucket::Bucket;
use crate::prefix::Prefixes;
use crate::rows::Rows;
use kad_base::{Contacts, NoMemory};
use std::alloc::Global;

/// Rows as a tree: a fork has the rows whose next bit is 0, and those whose next bit is 1.
#[derive(Drop)]
pub(crate) enum Node {
    Leaf(Box<Bucket>),
    Fork(Box<Node>, Box<Node>),
}

/// A row as a tree.
pub(crate) fn leaf(alloc: Global, row: Bucket) -> Result<Node, NoMemory>
    ensures rows { IfOk result (λ node. rows_of node ≡ row ∷ []) }
    ensures under { IfOk result (λ node. IsUnder row.prefix node) }
{
    Ok(Node::Leaf(Box::new(alloc, row)?))
}

/// A tree on the heap.
fn boxed(alloc: Global, node: Node) -> Result<Box<Node>, NoMemory>
    ensures { IfOk result (λ whole. whole.value ≡ node) }
{
    Ok(Box::new(alloc, node)?)
}

/// The tree of two halves.
pub(crate) fn fork(alloc: Global, low: Node, high: Node) -> Result<Node, NoMemory>
    ensures rows { IfOk result (λ node. rows_of node ≡ rows_of low ++ rows_of high) }
    ensures under { (p : List Bool) → IsUnder (p ++ false ∷ []) low → IsUnder (p ++ true ∷ []) high
        → IfOk result (λ node. IsUnder p node) }
{
    Ok(Node::Fork(boxed(alloc, low)?, boxed(alloc, high)?))
}

/// Appends the live contacts of a tree to a list, row by row. If out of memory the list may have some of them.
pub(crate) fn list_live(node: &Node, list: &mut Contacts, at: u8) -> Result<(), NoMemory>
    requires hangs { HangsAt at node.now }
    requires short { All IsShort (rows_of node.now) }
    ensures { OnOk result (list.new ≡ list.old ++ live_of (rows_of node.now)) }
{
    match node {
        Node::Leaf(row) => row.list_live(list),
        Node::Fork(low, high) => {
            list_live(low, list, at + 1)?;
            list_live(high, list, at + 1)
        }
    }
}

/// Appends the prefixes of a tree to a list, in ascending order. If out of memory the list may have some of them.
pub(crate) fn list_prefixes(node: &Node, list: &mut Prefixes, at: u8) -> Result<(), NoMemory>
    requires hangs { HangsAt at node.now }
    requires short { All IsShort (rows_of node.now) }
    ensures { OnOk result (list.new ≡ list.old ++ prefixes_of (rows_of node.now)) }
{
    match node {
        Node::Leaf(row) => list.push(row.prefix()),
        Node::Fork(low, high) => {
            list_prefixes(low, list, at + 1)?;
            list_prefixes(high, list, at + 1)
        }
    }
}

/// Appends the rows of a tree to a list, in memory of their own. If out of memory the list may have some of them.
pub(crate) fn list_rows(node: &Node, alloc: Global, list: &mut Rows, at: u8) -> Result<(), NoMemory>
    requires hangs { HangsAt at node.now }
    requires short { All IsShort (rows_of node.now) }
    ensures { OnOk result (states_of list.new ≡ states_of list.old ++ rows_of node.now) }
{
    match node {
        Node::Leaf(row) => list.push(row.row(alloc)?),
        Node::Fork(low, high) => {
            list_rows(low, alloc, list, at + 1)?;
            list_rows(high, alloc, list, at + 1)
        }
    }
}
