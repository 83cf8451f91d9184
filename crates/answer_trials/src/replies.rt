//! Datagrams and replies worked by hand. The node's own identifier is 20 bytes of 255, and who asks has the identifier
//! `abcdefghij0123456789`. The random bytes are 0 to 31, and the seal's key is 32 zero bytes: the tokens and tags of them are
//! another program's.
ghost use Rattle.std.specs.Prelude.{◌<◌, ◌≤◌};

use contact_table::Table;
use kad_base::{Addr, Id, List, NoMemory, Policy};
use node_serve::{Answered, Node, Profile};
use seal_tags::GroupSeal;
use std::alloc::Global;
use std::process::Abort;
use std::test::Fail;
use trial_kit::contact;

pub const OWN: Id = Id([255; 20]);

pub const PING: &[u8] = b"d1:ad2:id20:abcdefghij0123456789e1:q4:ping1:t2:aa1:y1:qe";

/// The token of 127.0.0.1 in the first epoch, and in the second.
pub const TOKEN: [u8; 8] = [224, 18, 105, 232, 210, 107, 129, 126];

pub const NEXT_TOKEN: [u8; 8] = [73, 127, 223, 109, 63, 37, 29, 201];

/// The bytes 0 to 31.
pub fn random() -> [u8; 32] {
    let mut bytes = [0; 32];
    for i in 0..32u8 {
        bytes[i as usize] = i;
    }
    bytes
}

/// The seal that each node is handed, whether it is sealed or not.
fn seal() -> GroupSeal {
    GroupSeal::new([0; 32])
}

/// A node with no contacts and no proofs.
fn bare_node(alloc: Global, k: u8, policy: Policy, sealed: bool) -> Result<Node, NoMemory>
    requires some_nodes { 0 < k }
    requires few_nodes { k ≤ 20 }
{
    let table = Table::new(alloc, OWN, k, 1)?;
    let proofs = List::new(alloc);
    let profile = Profile {
        own: OWN,
        k,
        policy,
        began: 0,
        sealed,
    };
    Ok(Node::new(alloc, profile, table, proofs, &random()))
}

/// One that tags nothing.
pub fn node(alloc: Global, k: u8, policy: Policy) -> Result<Node, NoMemory>
    requires some_nodes { 0 < k }
    requires few_nodes { k ≤ 20 }
{
    bare_node(alloc, k, policy, false)
}

/// One that is sealed.
pub fn sealed_node(alloc: Global, k: u8, policy: Policy) -> Result<Node, NoMemory>
    requires some_nodes { 0 < k }
    requires few_nodes { k ≤ 20 }
{
    bare_node(alloc, k, policy, true)
}

/// The number of the first that is false, from 0.
pub fn first_false(held: &[bool]) -> Option<usize> {
    held.iter().position(|is| !*is)
}

/// Plays a trial over a node: nothing that it says is false. A function that owns a node is dear to prove, so this one alone
/// does.
pub fn over<R: Abort, F: FnOnce(&mut Node) -> Option<usize>>(
    rt: &R,
    made: Result<Node, NoMemory>,
    trial: F,
) -> Result<(), Fail>
    requires { F.IsAlwaysCallable trial }
{
    let mut node = made?;
    assert_eq!(rt; trial(&mut node), None);
    Ok(())
}

/// The last digit of a number.
fn digit(n: usize) -> u8 {
    b'0' + (n % 10) as u8
}

/// A text of at most 5,000 bytes.
#[derive(Clone, Copy)]
pub struct Text {
    bytes: [u8; 5000],
    len: usize,
}

impl Text {
    pub fn new() -> Text {
        Text {
            bytes: [0; 5000],
            len: 0,
        }
    }

    /// The text with a part after it, if there is room.
    pub fn then(mut self, part: &[u8]) -> Text {
        for byte in part {
            if self.len < 5000 {
                self.bytes[self.len] = *byte;
                self.len += 1;
            }
        }
        self
    }

    /// The text with a number below 10,000 after it, in base ten.
    pub fn number(self, n: usize) -> Text {
        let mut text = self;
        if n >= 1000 {
            text = text.then(&[digit(n / 1000)]);
        }
        if n >= 100 {
            text = text.then(&[digit(n / 100)]);
        }
        if n >= 10 {
            text = text.then(&[digit(n / 10)]);
        }
        text.then(&[digit(n)])
    }

    pub fn as_slice(&self) -> &[u8] {
        &self.bytes[..self.len.min(5000)]
    }
}

/// The parts, one after another.
pub fn joined(parts: &[&[u8]]) -> Text {
    let mut text = Text::new();
    for part in parts {
        text = text.then(part);
    }
    text
}

/// Whether the reply is this.
pub fn replies(node: &mut Node, from: Addr, bytes: &[u8], at: u64, wanted: &[u8]) -> bool {
    let mut out = [0; 4096];
    match node.answer(from, bytes, at, &seal(), &mut out) {
        Answered::Reply(length) => &out[..length] == wanted,
        _ => false,
    }
}

/// Whether the reply has this many bytes and ends with these.
pub fn ends(node: &mut Node, from: Addr, bytes: &[u8], at: u64, length: usize, end: &[u8]) -> bool {
    let mut out = [0; 4096];
    match node.answer(from, bytes, at, &seal(), &mut out) {
        Answered::Reply(n) => n == length && out[..n].ends_with(end),
        _ => false,
    }
}

/// Whether there is no reply.
pub fn is_silent(node: &mut Node, from: Addr, bytes: &[u8]) -> bool {
    let mut out = [0; 4096];
    node.answer(from, bytes, 0, &seal(), &mut out) == Answered::Silent
}

/// How a query says that it is read-only, where it is.
pub fn mark(read_only: bool) -> &'static [u8] {
    if read_only {
        return b"2:roi1e";
    }
    b""
}

/// The answer to a ping.
pub fn pong() -> Text {
    joined(&[b"d1:rd2:id20:", &OWN.0, b"e1:t2:aa1:y1:re"])
}

/// That of a sealed node.
pub fn tagged_pong() -> Text {
    joined(&[
        b"d1:rd2:id20:",
        &OWN.0,
        b"e2:sg20:\x2d\x9e\xe4\x59\x1b\x44\x13\xbe\x74\xf1\x94\x2d\x3d\x30\x1f\x43\x40\xfa\x0a\x67",
        b"1:t2:aa1:y1:re",
    ])
}

/// Whether contact n's ping is answered. Unless it is read-only the table is told of it.
pub fn pings(node: &mut Node, n: u8, read_only: bool) -> bool {
    let who = contact(n);
    let ping = joined(&[
        b"d1:ad2:id20:",
        &who.id.0,
        b"e1:q4:ping",
        mark(read_only),
        b"1:t2:aa1:y1:qe",
    ]);
    replies(node, who.addr, ping.as_slice(), 0, pong().as_slice())
}
