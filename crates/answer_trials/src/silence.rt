//! What is answered, and what isn't.
use crate::replies::{
    OWN, PING, TOKEN, Text, first_false, is_silent, joined, node, over, pong, replies,
};
use kad_base::{Addr, Ip, Policy};
use node_serve::Node;
use std::test::Fail;
use trial_kit::local;

fn answers_by_hand(node: &mut Node) -> Option<usize> {
    let vote = b"d1:ad2:id20:abcdefghij0123456789e1:q4:vote1:t2:aa1:y1:qe";
    let unknown = b"d1:eli204e14:Method Unknowne1:t2:aa1:y1:ee";
    let forged =
        b"d1:ad2:id20:abcdefghij01234567899:info_hash20:mnopqrstuvwxyz1234564:porti6881e5:token1:xe1:q13:announce_peer1:t2:aa1:y1:qe";
    let refused = b"d1:eli203e9:Bad Tokene1:t2:aa1:y1:ee";
    first_false(&[
        replies(node, local(7000), PING, 0, pong().as_slice()),
        replies(node, local(7000), vote, 0, unknown),
        replies(node, local(7000), b"d1:q0:1:t2:aa1:y1:qe", 0, unknown),
        replies(node, local(7000), forged, 0, refused),
    ])
}

#[test]
fn answers_as_worked_by_hand(rt: HostRuntime) -> Result<(), Fail> {
    over(&rt, node(rt.alloc(), 8, Policy::Plain), answers_by_hand)
}

/// Whether none of these is answered.
fn all_silent(node: &mut Node, datagrams: &[&[u8]]) -> bool {
    for bytes in datagrams {
        if !is_silent(node, local(7000), bytes) {
            return false;
        }
    }
    true
}

fn is_silent_to_no_query(node: &mut Node) -> Option<usize> {
    let silent = all_silent(
        node,
        &[
            b"x",
            b"",
            b"d1:rd2:id20:mnopqrstuvwxyz123456e1:t2:aa1:y1:re",
            b"d1:eli201e1:xe1:t2:aa1:y1:ee",
            b"d1:ad2:id19:abcdefghij012345678e1:q4:ping1:t2:aa1:y1:qe",
            b"d1:ad2:id20:abcdefghij0123456789e1:q4:ping1:y1:qe",
        ],
    );
    let sixth = Addr {
        ip: Ip::V6([1; 16]),
        port: 7000,
    };
    first_false(&[
        silent,
        is_silent(node, local(0), PING),
        is_silent(node, sixth, PING),
    ])
}

#[test]
fn is_silent_to_what_is_no_query(rt: HostRuntime) -> Result<(), Fail> {
    over(
        &rt,
        node(rt.alloc(), 8, Policy::Plain),
        is_silent_to_no_query,
    )
}

/// What a read-only query asks for.
#[derive(Clone, Copy)]
enum Method {
    Ping,
    FindNode,
    GetPeers,
    AnnouncePeer,
    Vote,
}

/// The query up to its transaction id.
fn query(method: Method) -> Text {
    let rest: &[u8] = match method {
        Method::Ping => b"e1:q4:ping",
        Method::FindNode => b"6:target20:mnopqrstuvwxyz123456e1:q9:find_node",
        Method::GetPeers => b"9:info_hash20:mnopqrstuvwxyz123456e1:q9:get_peers",
        Method::AnnouncePeer => {
            b"9:info_hash20:klmnopqrstuvwxyz12344:porti6881e5:token8:\xe0\x12\x69\xe8\xd2\x6b\x81\x7ee1:q13:announce_peer"
        }
        Method::Vote => b"e1:q4:vote",
    };
    joined(&[b"d1:ad2:id20:abcdefghij0123456789", rest, b"2:roi1e1:t"])
}

/// The reply up to its transaction id.
fn reply(method: Method) -> Text {
    let answer = joined(&[b"d1:rd2:id20:", &OWN.0]);
    match method {
        Method::Ping | Method::AnnouncePeer => answer.then(b"e1:t"),
        Method::FindNode => answer.then(b"5:nodes0:e1:t"),
        Method::GetPeers => answer
            .then(b"5:nodes0:5:token8:")
            .then(&TOKEN)
            .then(b"e1:t"),
        Method::Vote => joined(&[b"d1:eli204e14:Method Unknowne1:t"]),
    }
}

/// How the reply ends.
fn end(method: Method) -> &'static [u8] {
    match method {
        Method::Vote => b"1:y1:ee",
        _ => b"1:y1:re",
    }
}

/// Whether a query with a transaction id of n bytes is answered under it.
fn repeats(node: &mut Node, method: Method, n: usize) -> bool {
    let tx = &[b'.'; 40][..n.min(40)];
    let query = query(method).number(n).then(b":").then(tx).then(b"1:y1:qe");
    let reply = reply(method)
        .number(n)
        .then(b":")
        .then(tx)
        .then(end(method));
    replies(node, local(7000), query.as_slice(), 0, reply.as_slice())
}

/// Whether it is for each number of bytes up to 32, and not for 33.
fn repeats_all(node: &mut Node, method: Method) -> bool {
    for n in 0..=32 {
        if !repeats(node, method, n) {
            return false;
        }
    }
    !repeats(node, method, 33)
}

fn repeats_each(node: &mut Node) -> Option<usize> {
    first_false(&[
        repeats_all(node, Method::Ping),
        repeats_all(node, Method::FindNode),
        repeats_all(node, Method::GetPeers),
        repeats_all(node, Method::AnnouncePeer),
        repeats_all(node, Method::Vote),
    ])
}

#[test]
fn repeats_transaction_ids_of_at_most_32_bytes(rt: HostRuntime) -> Result<(), Fail> {
    over(&rt, node(rt.alloc(), 1, Policy::Plain), repeats_each)
}

/// Whether a ping of 4,064 bytes and so many more, at most 100, is answered.
fn reads(node: &mut Node, more: usize) -> bool {
    let more = more.min(100);
    let ping = joined(&[b"d1:ad2:id20:abcdefghij0123456789e1:q4:ping1:t2:aa1:y1:q1:z"])
        .number(4000 + more)
        .then(b":")
        .then(&[b'.'; 4100][..4000 + more])
        .then(b"e");
    !is_silent(node, local(7000), ping.as_slice())
}

fn reads_4096(node: &mut Node) -> Option<usize> {
    first_false(&[reads(node, 0), reads(node, 32), !reads(node, 33)])
}

#[test]
fn reads_datagrams_of_at_most_4096_bytes(rt: HostRuntime) -> Result<(), Fail> {
    over(&rt, node(rt.alloc(), 20, Policy::Plain), reads_4096)
}
