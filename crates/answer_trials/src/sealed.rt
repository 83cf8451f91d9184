//! Replies of sealed nodes. Their tags are HMAC-SHA-1 of the node's identifier and the reply without the tag, under 32 zero
//! bytes, as another program makes them.
use crate::replies::{PING, first_false, node, over, pong, replies, sealed_node, tagged_pong};
use kad_base::Policy;
use node_serve::Node;
use std::test::Fail;
use trial_kit::local;

const VOTE: &[u8] = b"d1:ad2:id20:abcdefghij0123456789e1:q4:vote1:t2:aa1:y1:qe";

fn tags_both(node: &mut Node) -> Option<usize> {
    let unknown =
        b"d1:eli204e14:Method Unknowne2:sg20:\x12\x05\x12\xe4\xa9\xf7\xdf\x94\x49\xbd\xf8\x40\x52\xd6\x9c\x32\xae\xce\x37\x0e1:t2:aa1:y1:ee";
    first_false(&[
        replies(node, local(7000), PING, 0, tagged_pong().as_slice()),
        replies(node, local(7000), VOTE, 0, unknown),
    ])
}

#[test]
fn a_sealed_node_tags_answers_and_error_messages(rt: HostRuntime) -> Result<(), Fail> {
    over(&rt, sealed_node(rt.alloc(), 8, Policy::Plain), tags_both)
}

fn tags_neither(node: &mut Node) -> Option<usize> {
    let unknown = b"d1:eli204e14:Method Unknowne1:t2:aa1:y1:ee";
    first_false(&[
        replies(node, local(7000), PING, 0, pong().as_slice()),
        replies(node, local(7000), VOTE, 0, unknown),
    ])
}

#[test]
fn an_unsealed_node_tags_neither(rt: HostRuntime) -> Result<(), Fail> {
    over(&rt, node(rt.alloc(), 8, Policy::Plain), tags_neither)
}
