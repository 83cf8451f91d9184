//! The row of an identifier.
ghost use Rattle.std.specs.List.{All};
ghost use Rattle.bucket_tree.specs.Trees.{rows_of, IsUnder, IsShort, IsRowOf, path};

use crate::bits::bit;
use crate::bucket::Bucket;
use crate::node::Node;
use kad_base::Id;

/// The row whose prefix begins the identifier.
pub(crate) fn row_of<'a>(node: &'a Node, id: &Id, at: u8) -> &'a Bucket
    requires under { IsUnder (path at id.now) node.now }
    requires short { All IsShort (rows_of node.now) }
    ensures { IsRowOf id.now (rows_of node.now) result.now }
{
    match node {
        Node::Leaf(row) => row,
        Node::Fork(low, high) => {
            if bit(id, at) {
                row_of(high, id, at + 1)
            } else {
                row_of(low, id, at + 1)
            }
        }
    }
}
