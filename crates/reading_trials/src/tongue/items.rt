//! Items of BEP 44 in messages: what is got and put, values of any kind and hostile ones.
use super::asking::{ASKING, Method, Query, all_written};
use super::said::{ABC, Asked, BARE, NOTHING, Row, Said, again, all_refused, both_ways, refuses};
use super::text::{Text, joined, repeated};
use kad_bencode::Bad;
use kad_krpc::{Answer, Ask, Key, KrpcFault, Message, decode};
use std::alloc::Global;
use std::process::Abort;

/// The text of a put with that value.
fn putting(v: &[u8]) -> Text {
    joined(&[
        b"d1:ad2:id20:abcdefghij01234567895:token8:aoeusnth1:v",
        v,
        b"e1:q3:put1:t2:aa1:y1:qe",
    ])
}

/// The text of an answer with that value.
fn answering(v: &[u8]) -> Text {
    joined(&[
        b"d1:rd2:id20:abcdefghij01234567891:v",
        v,
        b"e1:t2:aa1:y1:re",
    ])
}

/// That a query puts an item of this written form.
fn is_put(rt: &impl Abort, ask: &Ask, form: &[u8], is_mutable: bool) {
    match ask {
        Ask::Put {
            id,
            token,
            v,
            mutable,
        } => {
            assert!(rt; *id == ABC);
            assert_eq!(rt; token.as_slice(), b"aoeusnth".as_slice());
            assert_eq!(rt; v.as_slice(), form);
            assert!(rt; *mutable == is_mutable);
        }
        _ => assert!(rt; false, "no put"),
    }
}

/// That a message puts an item of this written form.
fn is_put_in(rt: &impl Abort, message: &Message, form: &[u8], is_mutable: bool) {
    match message {
        Message::Query { ask, .. } => is_put(rt, ask, form, is_mutable),
        _ => assert!(rt; false, "no query"),
    }
}

/// That an answer has an item of this written form.
fn has_form(rt: &impl Abort, answer: &Answer, form: &[u8]) {
    match &answer.v {
        Some(v) => assert_eq!(rt; v.as_slice(), form),
        None => assert!(rt; false, "no value"),
    }
}

/// That a message answers with an item of this written form.
fn is_answer(rt: &impl Abort, message: &Message, form: &[u8]) {
    match message {
        Message::Answer { answer, .. } => has_form(rt, answer, form),
        _ => assert!(rt; false, "no answer"),
    }
}

/// What a datagram does with an item.
#[derive(Clone, Copy)]
enum Deed {
    /// It puts a mutable one, or not.
    Puts(bool),
    Answers,
}

/// That a datagram does this with an item of this written form.
fn does(rt: &impl Abort, alloc: Global, text: &[u8], form: &[u8], deed: Deed) {
    match decode(alloc, text) {
        Ok(message) => match deed {
            Deed::Puts(is_mutable) => is_put_in(rt, &message, form, is_mutable),
            Deed::Answers => is_answer(rt, &message, form),
        },
        Err(_) => assert!(rt; false, "refused"),
    }
}

/// That a datagram puts an item of this written form.
fn puts_form(rt: &impl Abort, alloc: Global, text: &[u8], form: &[u8], is_mutable: bool) {
    does(rt, alloc, text, form, Deed::Puts(is_mutable));
}

/// That a datagram answers with an item of this written form.
fn answers_form(rt: &impl Abort, alloc: Global, text: &[u8], form: &[u8]) {
    does(rt, alloc, text, form, Deed::Answers);
}

const GET: Row = (
    b"d1:ad2:id20:abcdefghij01234567896:target20:mnopqrstuvwxyz123456e1:q3:get1:t2:aa1:y1:qe",
    Said::Query {
        read_only: false,
        brings: false,
        ask: Asked::Get(NOTHING),
    },
);

#[test]
fn a_get_is_read_and_written(rt: HostRuntime) {
    both_ways(&rt, rt.alloc(), &GET);
}

const GETS: &[Query] = &[
    Query {
        method: Method::Get,
        read_only: true,
        text: b"d1:ad2:id20:abcdefghij01234567896:target20:mnopqrstuvwxyz123456e1:q3:get2:roi1e1:t4:\xa0\x8d\xed\x1a1:y1:qe",
        ..ASKING
    },
    Query {
        method: Method::Get,
        six: true,
        read_only: true,
        text: b"d1:ad2:id20:abcdefghij01234567896:target20:mnopqrstuvwxyz1234564:wantl2:n6ee1:q3:get2:roi1e1:t4:\xa0\x8d\xed\x1a1:y1:qe",
        ..ASKING
    },
];

#[test]
fn a_lookups_get_is_written(rt: HostRuntime) {
    all_written(&rt, GETS);
}

#[test]
fn a_put_is_read_and_written(rt: HostRuntime) {
    let text = putting(b"5:hello");
    puts_form(&rt, rt.alloc(), text.as_slice(), b"5:hello", false);
    again(&rt, rt.alloc(), text.as_slice());
}

const WITH_A_KEY: &[u8] =
    b"d1:ad2:id20:abcdefghij01234567891:k1:x3:seqi1e3:sig1:x5:token8:aoeusnth1:v5:helloe1:q3:put1:t2:aa1:y1:qe";

/// The key may be of any kind.
const WITH_A_LIST: &[u8] =
    b"d1:ad2:id20:abcdefghij01234567891:kle5:token8:aoeusnth1:v5:helloe1:q3:put1:t2:aa1:y1:qe";

#[test]
fn an_item_with_a_key_is_mutable(rt: HostRuntime) {
    puts_form(&rt, rt.alloc(), WITH_A_KEY, b"5:hello", true);
    puts_form(&rt, rt.alloc(), WITH_A_LIST, b"5:hello", true);
}

const WITH_A_VALUE: &[u8] =
    b"d1:rd2:id20:abcdefghij01234567895:token8:aoeusnth1:v5:hello6:valueslee1:t2:aa1:y1:re";

const WITHOUT: Row = (
    b"d1:rd2:id20:abcdefghij0123456789e1:t2:aa1:y1:re",
    Said::Answer(BARE),
);

#[test]
fn an_answer_with_a_value_is_read_and_written(rt: HostRuntime) {
    answers_form(&rt, rt.alloc(), WITH_A_VALUE, b"5:hello");
    again(&rt, rt.alloc(), WITH_A_VALUE);
    both_ways(&rt, rt.alloc(), &WITHOUT);
}

/// That a put and an answer of this value are read, and written again in both ways.
fn value_again(rt: &impl Abort, alloc: Global, v: &[u8]) {
    let text = putting(v);
    again(rt, alloc, text.as_slice());
    let text = answering(v);
    again(rt, alloc, text.as_slice());
}

/// A value of each kind, in its written form.
const VALUES: &[&[u8]] = &[b"i-7e", b"0:", b"le", b"de", b"li1e1:xe", b"d1:ad0:leee"];

#[test]
fn a_value_may_be_of_any_kind(rt: HostRuntime) {
    for v in VALUES {
        value_again(&rt, rt.alloc(), v);
    }
}

#[test]
fn keys_out_of_order_are_put_in_order(rt: HostRuntime) {
    let text = putting(b"d1:bi1e1:ad1:zle1:xi0eee");
    let form = b"d1:ad1:xi0e1:zlee1:bi1ee";
    puts_form(&rt, rt.alloc(), text.as_slice(), form, false);
    let text = answering(b"ld1:b0:1:a0:ee");
    answers_form(&rt, rt.alloc(), text.as_slice(), b"ld1:a0:1:b0:ee");
}

/// A value in which so many lists stand one in another.
fn nested(depth: u32) -> Text {
    let ends = repeated(b"", b"e", depth, b"");
    repeated(b"", b"l", depth, ends.as_slice())
}

#[test]
fn a_value_nests_fourteen_deep_and_no_deeper(rt: HostRuntime) {
    let deep = nested(14);
    value_again(&rt, rt.alloc(), deep.as_slice());
    let deeper = nested(15);
    // The fifteenth list comes after 52 bytes of the put, or 35 of the answer, and 14 more.
    let text = putting(deeper.as_slice());
    let fault = KrpcFault::Bad(Bad::Deep { at: 66 });
    refuses(&rt, rt.alloc(), text.as_slice(), fault);
    let text = answering(deeper.as_slice());
    let fault = KrpcFault::Bad(Bad::Deep { at: 49 });
    refuses(&rt, rt.alloc(), text.as_slice(), fault);
}

/// A leading zero, a number that is too big, and a key that stands twice.
const NO_BENCODE: &[(&[u8], Bad)] = &[
    (b"i01e", Bad::NotBencode { at: 54 }),
    (b"i9223372036854775808e", Bad::NumberTooBig { at: 52 }),
    (b"d1:a0:1:a0:e", Bad::KeyTwice { at: 58 }),
];

/// That a put of this value is refused so.
fn put_is_refused(rt: &impl Abort, alloc: Global, v: &[u8], bad: Bad) {
    let text = putting(v);
    refuses(rt, alloc, text.as_slice(), KrpcFault::Bad(bad));
}

#[test]
fn a_value_is_bencode(rt: HostRuntime) {
    for (v, bad) in NO_BENCODE {
        put_is_refused(&rt, rt.alloc(), v, *bad);
    }
}

#[test]
fn a_message_bounds_no_value(rt: HostRuntime) {
    // 1,001 bytes are more than an item may have, but a message may carry them.
    let v = repeated(b"997:", b"x", 997, b"");
    let text = putting(v.as_slice());
    puts_form(&rt, rt.alloc(), text.as_slice(), v.as_slice(), false);
    let text = answering(v.as_slice());
    again(&rt, rt.alloc(), text.as_slice());
}

/// The token comes before the value.
const FAULTS: &[(&[u8], KrpcFault)] = &[
    (
        b"d1:ad2:id20:abcdefghij0123456789e1:q3:get1:t2:aa1:y1:qe",
        KrpcFault::Missing { key: Key::Target },
    ),
    (
        b"d1:ad6:target20:mnopqrstuvwxyz123456e1:q3:get1:t2:aa1:y1:qe",
        KrpcFault::Missing { key: Key::Id },
    ),
    (
        b"d1:ad2:id20:abcdefghij0123456789e1:q3:put1:t2:aa1:y1:qe",
        KrpcFault::Missing { key: Key::Token },
    ),
    (
        b"d1:ad2:id20:abcdefghij01234567895:tokeni1ee1:q3:put1:t2:aa1:y1:qe",
        KrpcFault::Shape { key: Key::Token },
    ),
    (
        b"d1:ad2:id20:abcdefghij01234567895:token1:xe1:q3:put1:t2:aa1:y1:qe",
        KrpcFault::Missing { key: Key::V },
    ),
];

#[test]
fn refusals_of_gets_and_puts_name_the_key(rt: HostRuntime) {
    all_refused(&rt, rt.alloc(), FAULTS);
}
