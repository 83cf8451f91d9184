//! The tags of a group, whose members share a key.
ghost use Rattle.std.specs.Prelude.{◌≡◌, ◌↔◌, IsTrue, length};
ghost use Rattle.seal_tags.specs.Seals.{group_tag, is_group_tag};

use crate::hmac::hmac_of_two;
use crate::seal::{Seal, SealCheck};
use kad_base::Id;
use std::marker::Model;

/// The length of a tag, in bytes.
const TAG: usize = 20;

/// Makes and judges the tags of a group, whose members share a key. The tag of what a node says is the HMAC-SHA-1 of the
/// 20 bytes of its identifier and then what it says, under the key (RFC 2104). So nobody outside of the group can make
/// one, and a tag of one node is none of another.
#[derive(Clone, Copy)]
pub struct GroupSeal {
    key: [u8; 32],
}

impl Model for GroupSeal {
    ghost use Rattle.std.specs.Prelude.{List, ℕ};

    ghost Value = { List ℕ };

    ghost view = { λ s. s.key };

    ghost inverse = { λ key. record { key = key } };
}

impl GroupSeal {
    /// The seal of the group with this key.
    pub fn new(key: [u8; 32]) -> GroupSeal
        ensures { result ≡ key }
    {
        GroupSeal { key }
    }
}

impl Seal for GroupSeal {
    ghost tag_of = { group_tag };

    fn tag(&self, id: &Id, body: &[u8], out: &mut [u8; 64]) -> usize {
        out[..TAG].copy_from_slice(&tag_under(&self.key, id, body));
        TAG
    }
}

impl SealCheck for GroupSeal {
    ghost accepted = { is_group_tag };

    /// Costs nothing where the tag isn't of 20 bytes, else as much as making one.
    fn accepts(&self, id: &Id, body: &[u8], tag: &[u8]) -> bool {
        tag.len() == TAG && is_same(&tag_under(&self.key, id, body), tag)
    }
}

/// The tag of what the node says.
fn tag_under(key: &[u8; 32], id: &Id, body: &[u8]) -> [u8; 20]
    ensures { result ≡ group_tag key.now id.now body.now }
{
    hmac_of_two(key, &id.0, body)
}

/// Whether the tags are the same. All twenty bytes are compared whatever differs, so that the time doesn't say where two
/// tags differ.
fn is_same(ours: &[u8; 20], theirs: &[u8]) -> bool
    requires { length theirs.now ≡ 20 }
    ensures { IsTrue result ↔ (theirs.now ≡ ours.now) }
{
    let mut differing = 0;
    for i in 0..TAG {
        differing |= theirs[i] ^ ours[i];
    }
    differing == 0
}
