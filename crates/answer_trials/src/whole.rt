//! Nodes that keep proofs, and the greatest reply, plain and tagged.
ghost use Rattle.std.specs.Prelude.{◌≡◌};
ghost use Rattle.std.specs.List.{All};
ghost use Rattle.kad_base.specs.Puzzles.{Passes};
ghost use Rattle.kad_base.specs.declared.types.Policy.TheVariants.{Puzzled};
ghost use Rattle.answer_trials.specs.declared.replies.TheConstants.{OWN};

use crate::peers::add_ports;
use crate::replies::{
    OWN, TOKEN, ends, first_false, joined, over, pong, random, replies, tagged_pong,
};
use contact_table::{Table, TableCall};
use id_puzzles::{Minted, mint};
use kad_base::{Addr, Contact, List, NoMemory, Policy, Report, Reports, Serial};
use node_serve::{Node, Profile};
use std::alloc::Global;
use std::test::Fail;
use trial_kit::{contact, local};

/// Tells the table that the contact was seen.
pub fn tell(table: &mut Table, contact: Contact)
    ensures { table.new.own ≡ table.old.own }
{
    let _reply = table.apply(0, TableCall::Seen { contact });
}

/// The contact of a minted identifier.
fn known(minted: &Minted, addr: Addr) -> Contact
    ensures { result.id ≡ minted.now.id }
{
    Contact {
        id: minted.id,
        addr,
    }
}

/// Tells the table of a contact at this address that was minted from 32 bytes n, and keeps its proof.
pub fn keep(table: &mut Table, proofs: &mut Reports, n: u8, addr: Addr) -> Result<(), NoMemory>
    requires { All (Passes (Puzzled 0 0)) proofs.old }
    ensures own { table.new.own ≡ table.old.own }
    ensures passes { All (Passes (Puzzled 0 0)) proofs.new }
{
    let Ok(minted) = mint(&[n; 32], 0, 0, 1) else {
        return Ok(());
    };
    let contact = known(&minted, addr);
    tell(table, contact);
    proofs.push(Report {
        contact,
        proof: Some(minted.proof),
    })
}

/// A node whose table was told of so many contacts without proofs, and of n whose proofs it keeps.
fn proved_node(alloc: Global, bare: u8, n: u8, sealed: bool) -> Result<Node, NoMemory> {
    let mut table = Table::new(alloc, OWN, 20, 5)?;
    let mut proofs = List::new(alloc);
    for i in 0..bare {
        tell(&mut table, contact(i));
    }
    for i in 0..n {
        keep(&mut table, &mut proofs, i, local(7000 + u16::from(i)))?;
    }
    let policy = Policy::Puzzled { c1: 0, c2: 0 };
    let profile = Profile {
        own: OWN,
        k: 20,
        policy,
        began: 0,
        sealed,
    };
    Ok(Node::new(alloc, profile, table, proofs, &random()))
}

/// The first minted identifier.
fn first() -> Option<Minted> {
    mint(&[0; 32], 0, 0, 1).ok()
}

/// Whether a query for the minted identifier is answered with it, its proof, and contact 0, which has none.
fn names_both(node: &mut Node, one: &Minted) -> bool {
    let find = joined(&[
        b"d1:ad2:id20:abcdefghij01234567896:target20:",
        &one.id.0,
        b"e1:q9:find_node1:t2:aa1:y1:qe",
    ]);
    let found = joined(&[
        b"d1:rd2:id20:",
        &OWN.0,
        b"5:nodes52:",
        &one.id.0,
        b"\x7f\0\0\x01\x1b\x58",
        &contact(0).id.0,
        b"\x7f\0\0\x01\x17\x70",
        b"6:snodes78:",
        &one.id.0,
        &one.proof.key,
        &one.proof.x,
        b"\x7f\0\0\x01\x1b\x58e1:t2:aa1:y1:re",
    ]);
    replies(node, local(7000), find.as_slice(), 0, found.as_slice())
}

fn names_the_proof(node: &mut Node) -> Option<usize> {
    let named = match first() {
        Some(one) => names_both(node, &one),
        None => false,
    };
    first_false(&[named])
}

#[test]
fn names_the_proofs_that_it_keeps(rt: HostRuntime) -> Result<(), Fail> {
    over(&rt, proved_node(rt.alloc(), 1, 1, false), names_the_proof)
}

/// A query for peers, with the longest transaction id that is answered.
const WANTED: &[u8] =
    b"d1:ad2:id20:abcdefghij01234567899:info_hash20:mnopqrstuvwxyz123456e1:q9:get_peers1:t32:012345678901234567890123456789011:y1:qe";

fn is_greatest(node: &mut Node) -> Option<usize> {
    let last = b"6:\x7f\0\0\x01\0\x32ee1:t32:012345678901234567890123456789011:y1:re";
    first_false(&[
        add_ports(node, 51, pong().as_slice()),
        ends(node, local(9), WANTED, 0, 2609, last),
    ])
}

#[test]
fn writes_the_greatest_reply(rt: HostRuntime) -> Result<(), Fail> {
    over(&rt, proved_node(rt.alloc(), 0, 20, false), is_greatest)
}

/// The tag is that of the whole reply, which another program made of the twenty minted contacts.
fn is_greatest_tagged(node: &mut Node) -> Option<usize> {
    let last =
        b"6:\x7f\0\0\x01\0\x32ee2:sg20:\xa6\x1a\xea\xac\xf9\xd1\x4b\x4e\x4e\xc0\x71\xed\xbd\x3f\x32\xb4\x32\x2f\x5c\xf31:t32:012345678901234567890123456789011:y1:re";
    first_false(&[
        add_ports(node, 51, tagged_pong().as_slice()),
        ends(node, local(9), WANTED, 0, 2636, last),
    ])
}

#[test]
fn tags_the_greatest_reply(rt: HostRuntime) -> Result<(), Fail> {
    over(
        &rt,
        proved_node(rt.alloc(), 0, 20, true),
        is_greatest_tagged,
    )
}

/// A query for the item of a string of 996 bytes `x`, whose key is another program's, with such a transaction id.
const SOUGHT: &[u8] =
    b"d1:ad2:id20:abcdefghij01234567896:target20:\x36\x05\x92\x53\x5a\x3b\x3a\xa6\x74\xdd\x44\xd3\x35\x9b\x19\xf5\xfd\xab\xa9\xe8e1:q3:get1:t32:012345678901234567890123456789011:y1:qe";

/// Whether that item is held then.
fn keeps_a_long_item(node: &mut Node, wanted: &[u8]) -> bool {
    let put = joined(&[
        b"d1:ad2:id20:abcdefghij01234567895:token8:",
        &TOKEN,
        b"1:v996:",
        &[b'x'; 996],
        b"e1:q3:put1:t2:aa1:y1:qe",
    ]);
    replies(node, local(9), put.as_slice(), 0, wanted)
}

fn is_greatest_with_item(node: &mut Node) -> Option<usize> {
    let last = b"xxxe1:t32:012345678901234567890123456789011:y1:re";
    first_false(&[
        keeps_a_long_item(node, pong().as_slice()),
        ends(node, local(9), SOUGHT, 0, 3202, last),
    ])
}

#[test]
fn writes_the_greatest_reply_with_an_item(rt: HostRuntime) -> Result<(), Fail> {
    over(
        &rt,
        proved_node(rt.alloc(), 0, 20, false),
        is_greatest_with_item,
    )
}

fn is_greatest_tagged_with_item(node: &mut Node) -> Option<usize> {
    let last = b"1:t32:012345678901234567890123456789011:y1:re";
    first_false(&[
        keeps_a_long_item(node, tagged_pong().as_slice()),
        ends(node, local(9), SOUGHT, 0, 3229, last),
    ])
}

#[test]
fn tags_the_greatest_reply_with_an_item(rt: HostRuntime) -> Result<(), Fail> {
    over(
        &rt,
        proved_node(rt.alloc(), 0, 20, true),
        is_greatest_tagged_with_item,
    )
}
