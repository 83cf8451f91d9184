//! A contact that didn't answer.
ghost use Rattle.std.specs.Prelude.{◌≡◌, ◌≤◌};
ghost use Rattle.std.specs.List.{All};
ghost use Rattle.bucket_tree.specs.BucketSteps.{InItsRow};
ghost use Rattle.bucket_tree.specs.Trees.{rows_of, IsUnder, IsShort, IsFailable, path};

use crate::bits::bit;
use crate::node::Node;
use crate::types::Gone;
use kad_base::Contact;

/// The row of the contact counts a failure of it.
pub(crate) fn fail_in(node: &mut Node, contact: &Contact, at: u8) -> Gone
    requires under { IsUnder (path at contact.now.id) node.old }
    requires short { All IsShort (rows_of node.old) }
    requires each { All IsFailable (rows_of node.old) }
    ensures step { InItsRow contact.now result (rows_of node.old) (rows_of node.new) }
    ensures under { IsUnder (path at contact.now.id) node.new }
{
    match node {
        Node::Leaf(row) => row.fail(contact),
        Node::Fork(low, high) => {
            if bit(&contact.id, at) {
                fail_in(high, contact, at + 1)
            } else {
                fail_in(low, contact, at + 1)
            }
        }
    }
}
