//! Items that are put and handed out (BEP 44), and those that are refused. The keys are another program's SHA-1.
use crate::replies::{
    OWN, TOKEN, Text, first_false, is_silent, joined, mark, node, over, pong, random, replies,
};
use contact_table::Table;
use kad_base::{Addr, Ip, List, NoMemory, Policy};
use node_serve::{Node, Profile};
use std::alloc::Global;
use std::test::Fail;
use trial_kit::{contact, local};

const TWO_HOURS: u64 = 7_200_000;

const BAD_TOKEN: &[u8] = b"d1:eli203e9:Bad Tokene1:t2:aa1:y1:ee";

const NO_MUTABLE: &[u8] = b"d1:eli203e25:Mutable Items Unsupportede1:t2:aa1:y1:ee";

const TOO_BIG: &[u8] = b"d1:eli205e13:Value Too Bige1:t2:aa1:y1:ee";

const NO_PLACE: &[u8] = b"d1:eli202e12:Server Errore1:t2:aa1:y1:ee";

/// The SHA-1 of `5:hello`.
const HELLO: [u8; 20] =
    *b"\xe2\x89\x10\xea\x0a\xdb\x94\xdd\x45\xce\xd7\x5f\xbf\xf3\xe1\x35\xc0\x1b\xc4\x37";

/// The SHA-1 of `d1:a0:1:b0:e`, and of the same with its keys the other way round.
const IN_ORDER: [u8; 20] =
    *b"\xdd\x0d\x01\x68\x07\x8a\xbf\x76\x01\x32\x01\xbe\xfd\x6f\x42\x3f\x73\x7a\x2b\xe2";

const AS_IT_STOOD: [u8; 20] =
    *b"\xf1\x52\x45\xb5\x85\x7a\xdd\x79\x5e\xff\xd9\x31\x6e\x29\x4d\x47\xfe\xd9\x7a\xae";

/// A node whose tokens are those of the first epoch for two hours and five minutes.
fn long_epoch(alloc: Global) -> Result<Node, NoMemory> {
    let table = Table::new(alloc, OWN, 8, 1)?;
    let proofs = List::new(alloc);
    let profile = Profile {
        own: OWN,
        k: 8,
        policy: Policy::Plain,
        began: TWO_HOURS,
        sealed: false,
    };
    Ok(Node::new(alloc, profile, table, proofs, &random()))
}

/// The read-only put of a value, with what stands in front of its token.
fn putting(token: &[u8; 8], k: &[u8], v: &[u8]) -> Text {
    joined(&[
        b"d1:ad2:id20:abcdefghij0123456789",
        k,
        b"5:token8:",
        token,
        b"1:v",
        v,
        b"e1:q3:put2:roi1e1:t2:aa1:y1:qe",
    ])
}

/// Whether the reply to an immutable put from 127.0.0.1 is this.
fn put(node: &mut Node, v: &[u8], at: u64, wanted: &[u8]) -> bool {
    let datagram = putting(&TOKEN, b"", v);
    replies(node, local(7000), datagram.as_slice(), at, wanted)
}

/// Whether the item is held then.
fn keeps(node: &mut Node, v: &[u8], at: u64) -> bool {
    put(node, v, at, pong().as_slice())
}

/// The query for the item of a key, which may be read-only.
fn getting(key: &[u8; 20], read_only: bool) -> Text {
    joined(&[
        b"d1:ad2:id20:abcdefghij01234567896:target20:",
        key,
        b"e1:q3:get",
    ])
    .then(mark(read_only))
    .then(b"1:t2:aa1:y1:qe")
}

/// Whether the reply to that query has a token, no nodes, and then this.
fn get(node: &mut Node, key: &[u8; 20], at: u64, item: &[u8]) -> bool {
    let found = joined(&[
        b"d1:rd2:id20:",
        &OWN.0,
        b"5:nodes0:5:token8:",
        &TOKEN,
        item,
        b"e1:t2:aa1:y1:re",
    ]);
    let datagram = getting(key, true);
    replies(node, local(7000), datagram.as_slice(), at, found.as_slice())
}

fn hands_out(node: &mut Node) -> Option<usize> {
    first_false(&[
        get(node, &HELLO, 0, b""),
        keeps(node, b"5:hello", 0),
        get(node, &HELLO, 0, b"1:v5:hello"),
        get(node, &IN_ORDER, 0, b""),
        get(node, &HELLO, TWO_HOURS - 1, b"1:v5:hello"),
        get(node, &HELLO, TWO_HOURS, b""),
        keeps(node, b"5:hello", 1),
        get(node, &HELLO, TWO_HOURS, b"1:v5:hello"),
    ])
}

#[test]
fn an_item_is_handed_out_for_two_hours(rt: HostRuntime) -> Result<(), Fail> {
    over(&rt, long_epoch(rt.alloc()), hands_out)
}

fn finds_by_key(node: &mut Node) -> Option<usize> {
    first_false(&[
        keeps(node, b"d1:b0:1:a0:e", 0),
        get(node, &IN_ORDER, 0, b"1:vd1:a0:1:b0:e"),
        get(node, &AS_IT_STOOD, 0, b""),
    ])
}

#[test]
fn an_item_stands_under_the_key_of_its_written_form(rt: HostRuntime) -> Result<(), Fail> {
    over(&rt, node(rt.alloc(), 8, Policy::Plain), finds_by_key)
}

/// The written form of a string of 990 to 999 bytes.
fn long(count: usize) -> Text {
    joined(&[b"99"])
        .number(count % 10)
        .then(b":")
        .then(&[b'x'; 999][..count.min(999)])
}

/// Whether the reply to a put with that token, and with what stands in front of it, is this.
fn refuses(node: &mut Node, token: &[u8; 8], k: &[u8], v: &[u8], wanted: &[u8]) -> bool {
    let datagram = putting(token, k, v);
    replies(node, local(7000), datagram.as_slice(), 0, wanted)
}

const MUTABLE: &[u8] = b"1:k32:012345678901234567890123456789013:seqi1e3:sig0:";

fn tells_reasons(node: &mut Node) -> Option<usize> {
    let longer = long(997);
    let other = [0; 8];
    first_false(&[
        refuses(node, &other, MUTABLE, longer.as_slice(), BAD_TOKEN),
        refuses(node, &other, b"", longer.as_slice(), BAD_TOKEN),
        refuses(node, &other, b"", b"5:hello", BAD_TOKEN),
        refuses(node, &TOKEN, MUTABLE, longer.as_slice(), NO_MUTABLE),
        refuses(node, &TOKEN, MUTABLE, b"5:hello", NO_MUTABLE),
        refuses(node, &TOKEN, b"1:k0:", b"5:hello", NO_MUTABLE),
        refuses(node, &TOKEN, b"", longer.as_slice(), TOO_BIG),
        get(node, &HELLO, 0, b""),
    ])
}

#[test]
fn the_first_reason_to_refuse_is_told(rt: HostRuntime) -> Result<(), Fail> {
    over(&rt, node(rt.alloc(), 8, Policy::Plain), tells_reasons)
}

fn takes_1000_bytes(node: &mut Node) -> Option<usize> {
    first_false(&[
        keeps(node, long(996).as_slice(), 0),
        put(node, long(997).as_slice(), 0, TOO_BIG),
    ])
}

#[test]
fn an_item_has_at_most_1000_bytes(rt: HostRuntime) -> Result<(), Fail> {
    over(&rt, node(rt.alloc(), 8, Policy::Plain), takes_1000_bytes)
}

fn refuses_another(node: &mut Node) -> Option<usize> {
    let other = Addr {
        ip: Ip::V4([127, 0, 0, 2]),
        port: 7000,
    };
    let datagram = putting(&TOKEN, b"", b"5:hello");
    first_false(&[replies(node, other, datagram.as_slice(), 0, BAD_TOKEN)])
}

#[test]
fn the_token_of_another_address_is_refused(rt: HostRuntime) -> Result<(), Fail> {
    over(&rt, node(rt.alloc(), 8, Policy::Plain), refuses_another)
}

/// So many lists, one in another.
fn nested(depth: usize) -> Text {
    let depth = depth.min(20);
    joined(&[&[b'l'; 20][..depth], &[b'e'; 20][..depth]])
}

fn nests(node: &mut Node) -> Option<usize> {
    let deeper = putting(&TOKEN, b"", nested(15).as_slice());
    first_false(&[
        keeps(node, nested(14).as_slice(), 0),
        is_silent(node, local(7000), deeper.as_slice()),
    ])
}

#[test]
fn an_item_that_nests_fifteen_deep_is_no_message(rt: HostRuntime) -> Result<(), Fail> {
    over(&rt, node(rt.alloc(), 8, Policy::Plain), nests)
}

/// Puts strings of two bytes, so many, and says whether each is held then.
fn fill(node: &mut Node, count: u16) -> bool {
    for i in 0..count {
        let [high, low] = i.to_be_bytes();
        if !keeps(node, &[b'2', b':', high, low], 0) {
            return false;
        }
    }
    true
}

fn holds_4096(node: &mut Node) -> Option<usize> {
    first_false(&[
        fill(node, 4_096),
        put(node, b"5:hello", 0, NO_PLACE),
        keeps(node, b"2:\0\x07", TWO_HOURS - 1),
        put(node, b"5:hello", TWO_HOURS - 1, NO_PLACE),
        // Two hours later all but one are old.
        keeps(node, b"5:hello", TWO_HOURS),
        get(node, &HELLO, TWO_HOURS, b"1:v5:hello"),
    ])
}

#[test]
fn at_most_4096_items_are_held(rt: HostRuntime) -> Result<(), Fail> {
    over(&rt, long_epoch(rt.alloc()), holds_4096)
}

/// Whether the table knows nobody.
fn is_lonely(node: &mut Node) -> bool {
    let find =
        b"d1:ad2:id20:abcdefghij01234567896:target20:mnopqrstuvwxyz123456e1:q9:find_node2:roi1e1:t2:aa1:y1:qe";
    let found = joined(&[b"d1:rd2:id20:", &OWN.0, b"5:nodes0:e1:t2:aa1:y1:re"]);
    replies(node, local(7000), find, 0, found.as_slice())
}

fn tells_no_table(node: &mut Node) -> Option<usize> {
    let unmarked = joined(&[
        b"d1:ad2:id20:abcdefghij01234567895:token8:",
        &TOKEN,
        b"1:v5:helloe1:q3:put1:t2:aa1:y1:qe",
    ]);
    first_false(&[
        !is_silent(node, contact(1).addr, getting(&HELLO, false).as_slice()),
        replies(node, local(7000), unmarked.as_slice(), 0, pong().as_slice()),
        is_lonely(node),
    ])
}

#[test]
fn the_table_is_not_told_who_gets_and_puts(rt: HostRuntime) -> Result<(), Fail> {
    over(&rt, node(rt.alloc(), 8, Policy::Plain), tells_no_table)
}
