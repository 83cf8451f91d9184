//! The tag of a reply.
ghost use Rattle.std.specs.Prelude.{◌≡◌, ◌≤◌, take};
ghost use Rattle.kad_krpc.specs.Form.{HasForms, form};
ghost use Rattle.node_serve.specs.Sealing.{sealed_form, sent_form};
ghost use Rattle.node_serve.specs.Sizes.{max_reply};

use crate::setting::ServeSetting;
use kad_base::Id;
use kad_base::limits::MAX_DATAGRAM;
use kad_krpc::{Message, form_is_untagged, message_is_well_typed, tag_into};
use seal_tags::Seal;

/// Puts the tag of what the node with this identifier says into the reply's written form, which the first `length` bytes of
/// `out` are, and answers the new length.
fn put_tag<G: Seal>(
    seal: &G,
    own: &Id,
    reply: &Message,
    length: usize,
    out: &mut [u8; MAX_DATAGRAM],
) -> usize
    requires room { length ≤ max_reply }
    requires written { take length out.old ≡ form reply.now }
    requires forms { HasForms reply.now }
    ensures room { result ≤ 4096 }
    ensures form { take result out.new ≡ sealed_form (G.tag_of seal.now) own.now reply.now }
{
    message_is_well_typed(reply);
    form_is_untagged();
    let mut tag = [0u8; 64];
    let size = seal.tag(own, &out[..length], &mut tag);
    match tag_into(out, length, &tag[..size]) {
        Some(tagged) => tagged,
        None => unreachable!(),
    }
}

/// Puts the seal's tag into a written reply where the node is sealed: it is the reply that `write` put in front of `out`,
/// in this many bytes. Answers how many the reply has then. Takes no memory.
pub(crate) fn seal_reply<G: Seal>(
    setting: &ServeSetting,
    seal: &G,
    reply: &Message,
    length: usize,
    out: &mut [u8; MAX_DATAGRAM],
) -> usize
    requires room { length ≤ max_reply }
    requires written { take length out.old ≡ form reply.now }
    requires forms { HasForms reply.now }
    ensures room { result ≤ 4096 }
    ensures form { take result out.new ≡
        sent_form (G.tag_of seal.now) setting.now.sealed setting.now.own reply.now }
{
    if !setting.sealed {
        return length;
    }
    put_tag(seal, &setting.own, reply, length, out)
}
