//! A node serves in the network of IPv4 alone, whatever BEP 32 lets a query want.
ghost use Rattle.std.specs.Prelude.{◌<◌, ◌≤◌};
ghost use Rattle.answer_trials.specs.declared.replies.TheConstants.{OWN};

use crate::replies::{OWN, TOKEN, first_false, is_silent, joined, node, over, random, replies};
use crate::whole::{keep, tell};
use contact_table::Table;
use kad_base::{List, NoMemory, Policy};
use node_serve::{Node, Profile};
use std::alloc::Global;
use std::test::Fail;
use trial_kit::{contact, contact6, local, number};

/// What a query may say that it wants.
const WANTS: [&[u8]; 4] = [b"", b"4:wantl2:n4e", b"4:wantl2:n6e", b"4:wantl2:n42:n6e"];

/// Contact 2 in `nodes`.
const SECOND: &[u8] =
    b"26:\x00\x00\x00\x00\x00\x00\x00\x00\x00\x00\x00\x00\x00\x00\x00\x00\x00\x00\x00\x02\x7f\x00\x00\x01\x17\x72";

/// A node whose table was told of contact 1 at an IPv6 address, and of contact 2.
fn mixed(alloc: Global, k: u8) -> Result<Node, NoMemory>
    requires some_nodes { 0 < k }
    requires few_nodes { k ≤ 20 }
{
    let mut table = Table::new(alloc, OWN, k, 1)?;
    tell(&mut table, contact6(1));
    tell(&mut table, contact(2));
    let proofs = List::new(alloc);
    let profile = Profile {
        own: OWN,
        k,
        policy: Policy::Plain,
        began: 0,
        sealed: false,
    };
    Ok(Node::new(alloc, profile, table, proofs, &random()))
}

/// Whether a query for contact 1's identifier that wants this is answered with these `nodes`.
fn names(node: &mut Node, want: &[u8], nodes: &[u8]) -> bool {
    let find = joined(&[
        b"d1:ad2:id20:abcdefghij01234567896:target20:",
        &number(1).0,
        want,
        b"e1:q9:find_node2:roi1e1:t2:aa1:y1:qe",
    ]);
    let found = joined(&[
        b"d1:rd2:id20:",
        &OWN.0,
        b"5:nodes",
        nodes,
        b"e1:t2:aa1:y1:re",
    ]);
    replies(node, local(7000), find.as_slice(), 0, found.as_slice())
}

/// Whether it is answered with these `nodes` whatever is wanted.
fn names_for_all(node: &mut Node, nodes: &[u8]) -> bool {
    for want in WANTS {
        if !names(node, want, nodes) {
            return false;
        }
    }
    true
}

fn names_the_second(node: &mut Node) -> Option<usize> {
    first_false(&[names_for_all(node, SECOND)])
}

#[test]
fn contacts_of_ipv4_are_named_whatever_is_wanted(rt: HostRuntime) -> Result<(), Fail> {
    over(&rt, mixed(rt.alloc(), 2), names_the_second)
}

/// No other comes in the place of one that is left out.
fn names_none(node: &mut Node) -> Option<usize> {
    first_false(&[names_for_all(node, b"0:")])
}

#[test]
fn of_the_closest_those_of_ipv6_are_left_out(rt: HostRuntime) -> Result<(), Fail> {
    over(&rt, mixed(rt.alloc(), 1), names_none)
}

/// Whether a query for peers that wants this is answered with a token and no contact.
fn gives_a_token(node: &mut Node, want: &[u8]) -> bool {
    let get = joined(&[
        b"d1:ad2:id20:abcdefghij01234567899:info_hash20:mnopqrstuvwxyz123456",
        want,
        b"e1:q9:get_peers2:roi1e1:t2:aa1:y1:qe",
    ]);
    let given = joined(&[
        b"d1:rd2:id20:",
        &OWN.0,
        b"5:nodes0:5:token8:",
        &TOKEN,
        b"e1:t2:aa1:y1:re",
    ]);
    replies(node, local(7000), get.as_slice(), 0, given.as_slice())
}

fn gives_each_a_token(node: &mut Node) -> Option<usize> {
    for (place, want) in WANTS.iter().enumerate() {
        if !gives_a_token(node, want) {
            return Some(place);
        }
    }
    None
}

#[test]
fn peers_are_given_whatever_is_wanted(rt: HostRuntime) -> Result<(), Fail> {
    over(&rt, node(rt.alloc(), 8, Policy::Plain), gives_each_a_token)
}

/// A node that keeps the proof of a contact with an IPv6 address.
fn proved(alloc: Global) -> Result<Node, NoMemory> {
    let mut table = Table::new(alloc, OWN, 20, 5)?;
    let mut proofs = List::new(alloc);
    keep(&mut table, &mut proofs, 0, contact6(1).addr)?;
    let policy = Policy::Puzzled { c1: 0, c2: 0 };
    let profile = Profile {
        own: OWN,
        k: 20,
        policy,
        began: 0,
        sealed: false,
    };
    Ok(Node::new(alloc, profile, table, proofs, &random()))
}

fn names_no_proof(node: &mut Node) -> Option<usize> {
    first_false(&[names_for_all(node, b"0:6:snodes0:")])
}

#[test]
fn no_proof_of_a_contact_of_ipv6_is_named(rt: HostRuntime) -> Result<(), Fail> {
    over(&rt, proved(rt.alloc()), names_no_proof)
}

/// A query for contacts of IPv6, from one.
const ASKED: &[u8] =
    b"d1:ad2:id20:abcdefghij01234567896:target20:mnopqrstuvwxyz1234564:wantl2:n6ee1:q9:find_node1:t2:aa1:y1:qe";

fn answers_ipv4_alone(node: &mut Node) -> Option<usize> {
    first_false(&[
        is_silent(node, contact6(1).addr, ASKED),
        !is_silent(node, contact(1).addr, ASKED),
    ])
}

#[test]
fn nobody_is_answered_at_an_ipv6_address(rt: HostRuntime) -> Result<(), Fail> {
    over(&rt, mixed(rt.alloc(), 2), answers_ipv4_alone)
}
