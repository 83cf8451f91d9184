//! Announcements, and the peers that are named.
use crate::replies::{
    NEXT_TOKEN, OWN, TOKEN, Text, ends, first_false, joined, node, over, pong, replies,
};
use kad_base::{Addr, Ip, Policy};
use node_serve::Node;
use std::test::Fail;
use trial_kit::local;

const HALF_AN_HOUR: u64 = 1_800_000;

const REFUSED: &[u8] = b"d1:eli203e9:Bad Tokene1:t2:aa1:y1:ee";

/// Who announces a peer: its token, and what it says of its port.
#[derive(Clone, Copy)]
struct Words<'a> {
    token: &'a [u8],
    implied: &'a [u8],
    port: &'a [u8],
}

/// The words that name the port 6881.
fn given(token: &[u8]) -> Words<'_> {
    Words {
        token,
        implied: b"",
        port: b"4:porti6881e",
    }
}

fn implied(token: &[u8]) -> Words<'_> {
    Words {
        token,
        implied: b"12:implied_porti1e",
        port: b"",
    }
}

/// The read-only announcement under the key `mnopqrstuvwxyz123456`.
fn announcement(words: Words) -> Text {
    joined(&[
        b"d1:ad2:id20:abcdefghij0123456789",
        words.implied,
        b"9:info_hash20:mnopqrstuvwxyz123456",
        words.port,
        b"5:token",
    ])
    .number(words.token.len())
    .then(b":")
    .then(words.token)
    .then(b"e1:q13:announce_peer2:roi1e1:t2:aa1:y1:qe")
}

/// Whether the peer is held then.
fn adds(node: &mut Node, from: Addr, words: Words, at: u64) -> bool {
    let datagram = announcement(words);
    replies(node, from, datagram.as_slice(), at, pong().as_slice())
}

/// Whether the token is refused.
fn refuses(node: &mut Node, from: Addr, token: &[u8], at: u64) -> bool {
    let datagram = announcement(given(token));
    replies(node, from, datagram.as_slice(), at, REFUSED)
}

fn other(port: u16) -> Addr {
    Addr {
        ip: Ip::V4([127, 0, 0, 2]),
        port,
    }
}

fn takes_tokens(node: &mut Node) -> Option<usize> {
    first_false(&[
        adds(node, local(7000), given(&TOKEN), 0),
        adds(node, local(7000), given(&TOKEN), 299_999),
        adds(node, local(7000), given(&TOKEN), 599_999),
        refuses(node, local(7000), &TOKEN, 600_000),
        refuses(node, local(7000), &TOKEN, u64::MAX),
        refuses(node, local(7000), &NEXT_TOKEN, 299_999),
        adds(node, local(7000), given(&NEXT_TOKEN), 600_000),
    ])
}

#[test]
fn takes_a_token_of_this_epoch_or_the_last(rt: HostRuntime) -> Result<(), Fail> {
    over(&rt, node(rt.alloc(), 8, Policy::Plain), takes_tokens)
}

fn takes_whole_tokens(node: &mut Node) -> Option<usize> {
    first_false(&[
        refuses(node, other(7000), &TOKEN, 0),
        refuses(node, local(7000), &TOKEN[..7], 0),
        refuses(node, local(7000), b"", 0),
        adds(node, local(1), given(&TOKEN), 0),
    ])
}

#[test]
fn takes_a_token_from_its_address_alone_and_whole(rt: HostRuntime) -> Result<(), Fail> {
    over(&rt, node(rt.alloc(), 8, Policy::Plain), takes_whole_tokens)
}

/// A query for the peers under the key.
const WANTED: &[u8] =
    b"d1:ad2:id20:abcdefghij01234567899:info_hash20:mnopqrstuvwxyz123456e1:q9:get_peers2:roi1e1:t2:aa1:y1:qe";

/// The reply to it in the first epoch, which ends so.
fn given_peers(end: &[u8]) -> Text {
    joined(&[b"d1:rd2:id20:", &OWN.0, b"5:nodes0:5:token8:", &TOKEN, end])
}

fn gives_peers(node: &mut Node) -> Option<usize> {
    let none = given_peers(b"e1:t2:aa1:y1:re");
    let two = given_peers(b"6:valuesl6:\x7f\0\0\x01\x1a\xe16:\x7f\0\0\x01\x1b\x58ee1:t2:aa1:y1:re");
    let one = b"6:valuesl6:\x7f\0\0\x01\x1b\x58ee1:t2:aa1:y1:re";
    first_false(&[
        replies(node, local(9), WANTED, 299_999, none.as_slice()),
        adds(node, local(7000), implied(&TOKEN), 1),
        adds(node, local(7000), given(&TOKEN), 0),
        replies(node, local(9), WANTED, 5, two.as_slice()),
        ends(node, local(9), WANTED, HALF_AN_HOUR, 91, one),
        ends(
            node,
            local(9),
            WANTED,
            HALF_AN_HOUR + 1,
            73,
            b"e1:t2:aa1:y1:re",
        ),
    ])
}

#[test]
fn gives_a_token_and_the_peers_of_the_key(rt: HostRuntime) -> Result<(), Fail> {
    over(&rt, node(rt.alloc(), 8, Policy::Plain), gives_peers)
}

/// Adds the peers of 127.0.0.1 with the ports 1 to n, the last one first, and says whether each reply was this.
pub fn add_ports(node: &mut Node, n: u16, wanted: &[u8]) -> bool {
    let datagram = announcement(implied(&TOKEN));
    for i in 0..n {
        if !replies(node, local(n - i), datagram.as_slice(), 0, wanted) {
            return false;
        }
    }
    true
}

fn names_50(node: &mut Node) -> Option<usize> {
    let all = b"6:\x7f\0\0\x01\0\x31ee1:t2:aa1:y1:re";
    let first = b"6:\x7f\0\0\x01\0\x32ee1:t2:aa1:y1:re";
    first_false(&[
        add_ports(node, 49, pong().as_slice()),
        ends(node, local(9), WANTED, 0, 475, all),
        add_ports(node, 51, pong().as_slice()),
        ends(node, local(9), WANTED, 0, 483, first),
    ])
}

#[test]
fn names_the_first_50_peers(rt: HostRuntime) -> Result<(), Fail> {
    over(&rt, node(rt.alloc(), 8, Policy::Plain), names_50)
}

fn holds_65536(node: &mut Node) -> Option<usize> {
    let token = [15, 197, 79, 164, 210, 200, 79, 22];
    let refused = b"d1:eli202e12:Server Errore1:t2:aa1:y1:ee";
    let datagram = announcement(implied(&token));
    first_false(&[
        add_ports(node, 65_535, pong().as_slice()),
        adds(node, other(1), implied(&token), 0),
        replies(node, other(2), datagram.as_slice(), 0, refused),
        adds(node, other(1), implied(&token), 0),
        adds(node, local(7), implied(&TOKEN), 0),
    ])
}

#[test]
fn refuses_a_peer_where_65536_are_held(rt: HostRuntime) -> Result<(), Fail> {
    over(&rt, node(rt.alloc(), 8, Policy::Plain), holds_65536)
}
