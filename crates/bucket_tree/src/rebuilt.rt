//! Rows as a tree again. They are read from the front: a row that is the bucket of where the tree has come to is a leaf
//! there, and one with a longer prefix means a fork.
ghost use Rattle.std.specs.Prelude.{◌≡◌, ◌<◌, ◌≤◌, [], ◌∷◌, List, IfOk, Err, drop, length};
ghost use Rattle.bucket_tree.specs.Rows.{RowState, SoundRows};
ghost use Rattle.bucket_tree.specs.States.{HasFront, IsGrown, states_of, state_of};
ghost use Rattle.bucket_tree.specs.Trees.{rows_of, IsTree};

use crate::bucket::Bucket;
use crate::node::{Node, fork, leaf};
use crate::prefix::Prefix;
use crate::rows::{Row, TableFault};
use crate::sound::is_row;
use crate::types::Setting;
use std::alloc::Global;

/// A row as a leaf under a prefix that is as long as its own at least, where a bucket can be this row.
fn leaf_of(alloc: Global, setting: &Setting, row: &Row, path: &Prefix) -> Result<Node, TableFault>
    requires some_bits { 0 < setting.now.b }
    requires within { length path.now ≤ 160 }
    requires short { length row.now.prefix ≤ length path.now }
    ensures grown { let s = setting.now in IfOk result (λ node. IsGrown s.own s.k s.b path.now
        (state_of row.now ∷ []) node []) }
    ensures unsound { let s = setting.now in (rest : List RowState)
        → result ≡ Err TableFault.Unsound
        → ¬ HasFront s.own s.k s.b path.now (state_of row.now ∷ rest) }
{
    if !row.prefix.is(path) {
        return Err(TableFault::Unsound);
    }
    if !is_row(alloc, setting, row)? {
        return Err(TableFault::Unsound);
    }
    let bucket = Bucket::of_row(alloc, setting.k, row)?;
    Ok(leaf(alloc, bucket)?)
}

/// The tree under a prefix that has the first rows from a place on, and the place after them.
fn tree_of(
    alloc: Global,
    setting: &Setting,
    rows: &[Row],
    at: usize,
    path: &Prefix,
) -> Result<(Node, usize), TableFault>
    requires { 0 < setting.now.b }
    ensures grown { let s = setting.now in IfOk result (λ r. IsGrown s.own s.k s.b path.now
        (drop at (states_of rows.now)) r.0 (drop r.1 (states_of rows.now))) }
    ensures unsound { let s = setting.now in result ≡ Err TableFault.Unsound
        → ¬ HasFront s.own s.k s.b path.now (drop at (states_of rows.now)) }
{
    if at >= rows.len() {
        return Err(TableFault::Unsound);
    }
    let row = &rows[at];
    if row.prefix.len() <= path.len() {
        let node = leaf_of(alloc, setting, row, path)?;
        return Ok((node, at + 1));
    }
    let (low, at) = tree_of(alloc, setting, rows, at, &path.child(false))?;
    let (high, at) = tree_of(alloc, setting, rows, at, &path.child(true))?;
    Ok((fork(alloc, low, high)?, at))
}

/// The tree that has these rows, where calls can lead to them.
pub(crate) fn whole_tree(alloc: Global, setting: &Setting, rows: &[Row]) -> Result<Node, TableFault>
    requires some_live { 0 < setting.now.k }
    requires few_live { setting.now.k ≤ 20 }
    requires some_bits { 0 < setting.now.b }
    requires few_bits { setting.now.b ≤ 5 }
    ensures tree { let s = setting.now in IfOk result (λ root. IsTree s.own s.k s.b root) }
    ensures rows { IfOk result (λ root. rows_of root ≡ states_of rows.now) }
    ensures unsound { let s = setting.now in result ≡ Err TableFault.Unsound
        → ¬ SoundRows s.own s.k s.b (states_of rows.now) }
{
    let (root, used) = tree_of(alloc, setting, rows, 0, &Prefix::empty())?;
    if used < rows.len() {
        return Err(TableFault::Unsound);
    }
    Ok(root)
}
