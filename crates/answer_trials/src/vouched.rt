//! Who asks a node under puzzles and brings a proof, and who is named then. The keys are the first and the 202nd that a seed of
//! 32 zero bytes draws. Their identifiers, how many zero bits these solve (1 and 8 of the static puzzle), and the values X (of
//! 14 and 8 of the dynamic one) are another program's.
ghost use Rattle.answer_trials.specs.declared.replies.TheConstants.{OWN};

use crate::replies::{
    OWN, Text, first_false, is_silent, joined, mark, node, over, random, replies,
};
use crate::whole::keep;
use contact_table::Table;
use kad_base::{List, NoMemory, Policy};
use node_serve::{Node, Profile};
use std::alloc::Global;
use std::test::Fail;
use trial_kit::local;

/// Who asks, and what shows that its identifier was made.
struct Asker {
    id: [u8; 20],
    key: [u8; 32],
    x: [u8; 20],
    port: u16,
}

const FIRST: &Asker = &Asker {
    id: *b"\xc2\x7d\x85\xce\xc2\xa3\x1b\x5c\x03\xe1\x3a\xf0\xdb\xac\x44\xb2\x0e\x0a\x91\x12",
    key: *b"\x76\xb8\xe0\xad\xa0\xf1\x3d\x90\x40\x5d\x6a\xe5\x53\x86\xbd\x28\xbd\xd2\x19\xb8\xa0\x8d\xed\x1a\xa8\x36\xef\xcc\x8b\x77\x0d\xc7",
    x: *b"\0\0\0\0\0\0\0\0\0\0\0\0\0\0\0\0\0\0\x10\xeb",
    port: 7000,
};

const SECOND: &Asker = &Asker {
    id: *b"\x9e\x1d\x43\x43\x7e\x2a\x90\x08\x93\xe5\x86\x27\x7c\xa7\xbb\xa1\x1d\x2f\x80\xca",
    key: *b"\xe2\xdb\xa9\xf1\x11\x0f\xc3\x92\xed\x89\x1d\x13\xde\x44\xf2\xe7\xf2\xc8\x14\xd9\x91\xe6\xd6\x12\x52\x59\x6e\x9e\x37\x26\x40\xe6",
    x: [0; 20],
    port: 7001,
};

/// What both solve.
const EASY: Policy = Policy::Puzzled { c1: 1, c2: 8 };

/// What a query says of a proof.
fn shown(key: &[u8], x: &[u8]) -> Text {
    joined(&[b"2:sk52:", key, x])
}

/// An asker's own.
fn own_proof(who: &Asker) -> Text {
    shown(&who.key, &who.x)
}

/// What a query asks for.
#[derive(Clone, Copy)]
enum Method {
    Ping,
    FindNode,
    GetPeers,
    AnnouncePeer,
    Get,
    Put,
    Vote,
}

/// The arguments between the identifier and the proof.
fn between(method: Method) -> &'static [u8] {
    match method {
        Method::GetPeers => b"9:info_hash20:mnopqrstuvwxyz123456",
        Method::AnnouncePeer => b"9:info_hash20:mnopqrstuvwxyz1234564:porti6881e",
        _ => b"",
    }
}

/// Those behind the proof, and the method.
fn behind(method: Method) -> &'static [u8] {
    match method {
        Method::Ping => b"e1:q4:ping",
        Method::FindNode => b"6:target20:mnopqrstuvwxyz123456e1:q9:find_node",
        Method::GetPeers => b"e1:q9:get_peers",
        Method::AnnouncePeer => { b"5:token8:\xe0\x12\x69\xe8\xd2\x6b\x81\x7ee1:q13:announce_peer" }
        Method::Get => b"6:target20:mnopqrstuvwxyz123456e1:q3:get",
        Method::Put => b"5:token8:\xe0\x12\x69\xe8\xd2\x6b\x81\x7e1:v5:helloe1:q3:put",
        Method::Vote => b"e1:q4:vote",
    }
}

/// Whether a query by this method that says this of a proof, read-only or not, is answered.
fn asks(node: &mut Node, who: &Asker, method: Method, proof: &[u8], read_only: bool) -> bool {
    let query = joined(&[b"d1:ad2:id20:", &who.id])
        .then(between(method))
        .then(proof)
        .then(behind(method))
        .then(mark(read_only))
        .then(b"1:t2:aa1:y1:qe");
    !is_silent(node, local(who.port), query.as_slice())
}

/// Whether one with the asker's own proof is.
fn shows(node: &mut Node, who: &Asker, method: Method) -> bool {
    asks(node, who, method, own_proof(who).as_slice(), false)
}

/// A record of the asker, with what stands between its identifier and its address.
fn record(who: &Asker, proof: &[&[u8]]) -> Text {
    joined(&[&who.id])
        .then(joined(proof).as_slice())
        .then(b"\x7f\0\0\x01")
        .then(&who.port.to_be_bytes())
}

/// Whether a read-only query for the identifier `mnopqrstuvwxyz123456` is answered with these `nodes`, and this behind them.
fn finds(node: &mut Node, nodes: &Text, rest: &Text) -> bool {
    let find =
        b"d1:ad2:id20:abcdefghij01234567896:target20:mnopqrstuvwxyz123456e1:q9:find_node2:roi1e1:t2:aa1:y1:qe";
    let found = joined(&[b"d1:rd2:id20:", &OWN.0, b"5:nodes"])
        .number(nodes.as_slice().len())
        .then(b":")
        .then(nodes.as_slice())
        .then(rest.as_slice())
        .then(b"e1:t2:aa1:y1:re");
    replies(node, local(7009), find, 0, found.as_slice())
}

/// These `snodes`.
fn snodes(records: &Text) -> Text {
    joined(&[b"6:snodes"])
        .number(records.as_slice().len())
        .then(b":")
        .then(records.as_slice())
}

/// Whether it names nobody.
fn names_nobody(node: &mut Node) -> bool {
    finds(node, &Text::new(), &snodes(&Text::new()))
}

/// Whether it names the asker, and this value X of its proof.
fn names_with(node: &mut Node, who: &Asker, x: &[u8]) -> bool {
    let proved = record(who, &[&who.key, x]);
    finds(node, &record(who, &[]), &snodes(&proved))
}

/// Whether it names the asker and its own proof.
fn names(node: &mut Node, who: &Asker) -> bool {
    names_with(node, who, &who.x)
}

/// Whether it names both, the nearer one first, with their proofs.
fn names_both(node: &mut Node) -> bool {
    let nodes = record(FIRST, &[]).then(record(SECOND, &[]).as_slice());
    let proved = record(FIRST, &[&FIRST.key, &FIRST.x]).then(record(
        SECOND,
        &[&SECOND.key, &SECOND.x],
    ).as_slice());
    finds(node, &nodes, &snodes(&proved))
}

fn takes_by_ping(node: &mut Node) -> Option<usize> {
    first_false(&[
        names_nobody(node),
        shows(node, FIRST, Method::Ping),
        names(node, FIRST),
        shows(node, SECOND, Method::Ping),
        names_both(node),
    ])
}

#[test]
fn who_pings_with_a_proof_is_named_with_it(rt: HostRuntime) -> Result<(), Fail> {
    over(&rt, node(rt.alloc(), 8, EASY), takes_by_ping)
}

fn takes_by_find_node(node: &mut Node) -> Option<usize> {
    first_false(&[shows(node, FIRST, Method::FindNode), names(node, FIRST)])
}

#[test]
fn who_asks_for_nodes_with_a_proof_is_named(rt: HostRuntime) -> Result<(), Fail> {
    over(&rt, node(rt.alloc(), 8, EASY), takes_by_find_node)
}

fn takes_by_get_peers(node: &mut Node) -> Option<usize> {
    first_false(&[shows(node, FIRST, Method::GetPeers), names(node, FIRST)])
}

#[test]
fn who_asks_for_peers_with_a_proof_is_named(rt: HostRuntime) -> Result<(), Fail> {
    over(&rt, node(rt.alloc(), 8, EASY), takes_by_get_peers)
}

fn takes_by_announce_peer(node: &mut Node) -> Option<usize> {
    first_false(&[shows(node, FIRST, Method::AnnouncePeer), names(node, FIRST)])
}

#[test]
fn who_announces_with_a_proof_is_named(rt: HostRuntime) -> Result<(), Fail> {
    over(&rt, node(rt.alloc(), 8, EASY), takes_by_announce_peer)
}

/// The first key with another last bit, and the first X with another last bit, which solves no bit.
const OTHER_KEY: &[u8] =
    b"\x76\xb8\xe0\xad\xa0\xf1\x3d\x90\x40\x5d\x6a\xe5\x53\x86\xbd\x28\xbd\xd2\x19\xb8\xa0\x8d\xed\x1a\xa8\x36\xef\xcc\x8b\x77\x0d\xc6";

const OTHER_X: &[u8] = b"\0\0\0\0\0\0\0\0\0\0\0\0\0\0\0\0\0\0\x10\xea";

/// Whether a ping of the first that says this of a proof is answered.
fn pings(node: &mut Node, proof: &Text) -> bool {
    asks(node, FIRST, Method::Ping, proof.as_slice(), false)
}

fn takes_no_other_proof(node: &mut Node) -> Option<usize> {
    first_false(&[
        pings(node, &Text::new()),
        pings(node, &own_proof(SECOND)),
        pings(node, &shown(OTHER_KEY, &FIRST.x)),
        pings(node, &shown(&FIRST.key, OTHER_X)),
        pings(node, &joined(&[b"2:sk51:", &FIRST.key, &FIRST.x[..19]])),
        pings(node, &joined(&[b"2:sk53:", &FIRST.key, &FIRST.x, b"\0"])),
        pings(node, &joined(&[b"2:ski52e"])),
        names_nobody(node),
        pings(node, &own_proof(FIRST)),
        names(node, FIRST),
    ])
}

#[test]
fn nobody_is_taken_by_a_proof_that_is_not_its_own(rt: HostRuntime) -> Result<(), Fail> {
    over(&rt, node(rt.alloc(), 8, EASY), takes_no_other_proof)
}

/// Whether a read-only query by this method is answered.
fn shows_read_only(node: &mut Node, method: Method) -> bool {
    asks(node, FIRST, method, own_proof(FIRST).as_slice(), true)
}

fn takes_nobody_else(node: &mut Node) -> Option<usize> {
    first_false(&[
        shows_read_only(node, Method::Ping),
        shows_read_only(node, Method::FindNode),
        shows_read_only(node, Method::GetPeers),
        shows_read_only(node, Method::AnnouncePeer),
        shows(node, FIRST, Method::Get),
        shows(node, FIRST, Method::Put),
        shows(node, FIRST, Method::Vote),
        names_nobody(node),
    ])
}

#[test]
fn no_read_only_query_and_no_other_method_is_taken(rt: HostRuntime) -> Result<(), Fail> {
    over(&rt, node(rt.alloc(), 8, EASY), takes_nobody_else)
}

/// The first solves 1 bit of the static puzzle, and the second 8.
fn takes_the_second(node: &mut Node) -> Option<usize> {
    first_false(&[
        shows(node, FIRST, Method::Ping),
        names_nobody(node),
        shows(node, SECOND, Method::Ping),
        names(node, SECOND),
    ])
}

#[test]
fn the_static_puzzle_is_the_node_s_own(rt: HostRuntime) -> Result<(), Fail> {
    over(
        &rt,
        node(rt.alloc(), 8, Policy::Puzzled { c1: 2, c2: 8 }),
        takes_the_second,
    )
}

/// The first solves 14 bits of the dynamic puzzle, and the second 8.
fn takes_the_first(node: &mut Node) -> Option<usize> {
    first_false(&[
        shows(node, SECOND, Method::Ping),
        names_nobody(node),
        shows(node, FIRST, Method::Ping),
        names(node, FIRST),
    ])
}

#[test]
fn the_dynamic_puzzle_is_the_node_s_own(rt: HostRuntime) -> Result<(), Fail> {
    over(
        &rt,
        node(rt.alloc(), 8, Policy::Puzzled { c1: 1, c2: 14 }),
        takes_the_first,
    )
}

/// Under `Plain` a proof that is wrong is no less than none.
fn passes_proofs_over(node: &mut Node) -> Option<usize> {
    let nodes = record(FIRST, &[]);
    first_false(&[
        pings(node, &shown(OTHER_KEY, OTHER_X)),
        finds(node, &nodes, &Text::new()),
        pings(node, &own_proof(FIRST)),
        finds(node, &nodes, &Text::new()),
    ])
}

#[test]
fn a_node_that_asks_for_no_puzzles_passes_proofs_over(rt: HostRuntime) -> Result<(), Fail> {
    over(&rt, node(rt.alloc(), 8, Policy::Plain), passes_proofs_over)
}

/// A node that keeps the first's proof with an X of no bits, which is that of its key's first try.
fn keeping(alloc: Global) -> Result<Node, NoMemory> {
    let mut table = Table::new(alloc, OWN, 8, 1)?;
    let mut proofs = List::new(alloc);
    keep(&mut table, &mut proofs, 0, local(FIRST.port))?;
    let policy = Policy::Puzzled { c1: 0, c2: 0 };
    let profile = Profile {
        own: OWN,
        k: 8,
        policy,
        began: 0,
        sealed: false,
    };
    Ok(Node::new(alloc, profile, table, proofs, &random()))
}

fn names_the_kept_proof(node: &mut Node) -> Option<usize> {
    first_false(&[
        shows(node, FIRST, Method::Ping),
        names_with(node, FIRST, &[0; 20]),
    ])
}

#[test]
fn a_kept_proof_is_named_before_one_that_was_shown(rt: HostRuntime) -> Result<(), Fail> {
    over(&rt, keeping(rt.alloc()), names_the_kept_proof)
}
