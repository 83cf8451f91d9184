//! Rows from outside: refusals with their places, and the examples of BEP 3 and BEP 5.
use super::text::{Text, joined, repeated};
use kad_base::Bytes;
use kad_bencode::{Bad, BenFault, Entries, Piece, Value, check, put_string, read, write};
use std::alloc::Global;
use std::process::Abort;
use std::test::Fail;

fn refused(rt: &impl Abort, alloc: Global, bytes: &[u8], bad: Bad) {
    match read(alloc, bytes) {
        Ok(_) => assert!(rt; false, "read"),
        Err(fault) => assert_eq!(rt; fault, BenFault::Bad(bad)),
    }
    match check(bytes) {
        Ok(()) => assert!(rt; false, "taken"),
        Err(found) => assert_eq!(rt; found, bad),
    }
}

/// A text, and how it is refused.
type Refused = (&'static [u8], Bad);

fn are_refused(rt: &impl Abort, alloc: Global, rows: &[Refused]) {
    for (text, bad) in rows {
        refused(rt, alloc, text, *bad);
    }
}

fn written(rt: &impl Abort, alloc: Global, bytes: &[u8], form: &[u8]) {
    assert!(rt; check(bytes).is_ok());
    match read(alloc, bytes) {
        Ok(value) => {
            let mut out = Vec::new(alloc);
            assert!(rt; write(&value, &mut out).is_ok());
            assert_eq!(rt; out.as_slice(), form);
        }
        Err(_) => assert!(rt; false, "refused"),
    }
}

/// A text, and the form in which what it says is written.
type Form = (&'static [u8], &'static [u8]);

/// Texts that are in that form.
fn are_same(rt: &impl Abort, alloc: Global, texts: &[&[u8]]) {
    for text in texts {
        written(rt, alloc, text, text);
    }
}

const FAULTS: &[Refused] = &[
    (b"i-0e", Bad::NotBencode { at: 2 }),
    (b"i03e", Bad::NotBencode { at: 2 }),
    (b"02:ab", Bad::NotBencode { at: 1 }),
    (b"", Bad::NotBencode { at: 0 }),
    (b"9:ab", Bad::NotBencode { at: 4 }),
    (b"99999999999999999999999:ab", Bad::NotBencode { at: 26 }),
    (b"i1ex", Bad::Trailing { at: 3 }),
    (b"d1:a0:1:a0:e", Bad::KeyTwice { at: 6 }),
    (b"i9223372036854775808e", Bad::NumberTooBig { at: 0 }),
    (b"llllllllllllllllleeeeeeeeeeeeeeeee", Bad::Deep { at: 16 }),
];

#[test]
fn refusals_name_the_fault_and_its_place(rt: HostRuntime) {
    are_refused(&rt, rt.alloc(), FAULTS);
}

const EXAMPLES: &[&[u8]] = &[
    b"4:spam",
    b"i3e",
    b"i-3e",
    b"i-9223372036854775808e",
    b"i9223372036854775807e",
    b"lllllllllllllllleeeeeeeeeeeeeeee",
    b"l4:spam4:eggse",
    b"d3:cow3:moo4:spam4:eggse",
    b"d4:spaml1:a1:bee",
    b"d1:ad2:id20:abcdefghij0123456789e1:q4:ping1:t2:aa1:y1:qe",
    b"d1:rd2:id20:mnopqrstuvwxyz123456e1:t2:aa1:y1:re",
    b"d1:ad2:id20:abcdefghij01234567896:target20:mnopqrstuvwxyz123456e1:q9:find_node1:t2:aa1:y1:qe",
    b"d1:rd2:id20:0123456789abcdefghij5:nodes9:def456...e1:t2:aa1:y1:re",
    b"d1:ad2:id20:abcdefghij01234567899:info_hash20:mnopqrstuvwxyz123456e1:q9:get_peers1:t2:aa1:y1:qe",
    b"d1:rd2:id20:abcdefghij01234567895:token8:aoeusnth6:valuesl6:axje.u6:idhtnmee1:t2:aa1:y1:re",
    b"d1:ad2:id20:abcdefghij012345678912:implied_porti1e9:info_hash20:mnopqrstuvwxyz1234564:porti6881e5:token8:aoeusnthe1:q13:announce_peer1:t2:aa1:y1:qe",
    b"d1:eli201e23:A Generic Error Ocurrede1:t2:aa1:y1:ee",
];

#[test]
fn examples_are_read_and_written(rt: HostRuntime) {
    written(&rt, rt.alloc(), b"d1:bi1e1:a0:e", b"d1:a0:1:bi1ee");
    are_same(&rt, rt.alloc(), EXAMPLES);
}

/// The written form of a value where it stands, and that of the value that is read. Memory is ample.
fn formed(rt: &impl Abort, alloc: Global, bytes: &[u8], form: &[u8]) {
    written(rt, alloc, bytes, form);
    match Piece::parse(bytes) {
        Ok(piece) => match piece.written(alloc) {
            Ok(text) => assert_eq!(rt; text.as_slice(), form),
            Err(_) => assert!(rt; false, "no memory"),
        },
        Err(_) => assert!(rt; false, "refused"),
    }
}

fn are_formed(rt: &impl Abort, alloc: Global, rows: &[Form]) {
    for (text, form) in rows {
        formed(rt, alloc, text, form);
    }
}

const ORDERS: &[Form] = &[
    (b"d1:c0:1:b0:1:a0:e", b"d1:a0:1:b0:1:c0:e"),
    (b"d1:a0:1:c0:1:b0:e", b"d1:a0:1:b0:1:c0:e"),
    (b"d2:ab0:1:b0:1:a0:0:0:e", b"d0:0:1:a0:2:ab0:1:b0:e"),
    (
        b"d1:bd1:bi1e1:ai2ee1:al1:xd1:dle1:cdeee0:i-3ee",
        b"d0:i-3e1:al1:xd1:cde1:dleee1:bd1:ai2e1:bi1eee",
    ),
    (
        b"d26:abcdefghijklmnopqrstuvwxyz1:126:abcdefghijklmnopqrstuvwxya1:2e",
        b"d26:abcdefghijklmnopqrstuvwxya1:226:abcdefghijklmnopqrstuvwxyz1:1e",
    ),
    (
        b"lllllllllllllld1:bd1:b0:1:a0:e1:a0:eeeeeeeeeeeeeee",
        b"lllllllllllllld1:a0:1:bd1:a0:1:b0:eeeeeeeeeeeeeeee",
    ),
];

#[test]
fn keys_in_any_order_are_written_ascending(rt: HostRuntime) {
    are_formed(&rt, rt.alloc(), ORDERS);
}

const TWICE: &[Refused] = &[
    (b"d1:b0:1:a0:1:b0:e", Bad::KeyTwice { at: 11 }),
    (b"d1:b0:1:ad1:d0:1:c0:1:d0:ee", Bad::KeyTwice { at: 20 }),
    (
        b"d1:ad1:ad1:ad1:ad1:ad1:ad1:ad1:ad1:ad1:ad1:ad1:ad1:ad1:ad1:ad1:ad",
        Bad::Deep { at: 64 },
    ),
];

#[test]
fn keys_in_any_order_are_refused_where_one_is_there_twice(rt: HostRuntime) {
    are_refused(&rt, rt.alloc(), TWICE);
}

/// A dictionary of 640 keys, which rise or fall.
fn many_keys(falls: bool) -> Text {
    let mut text = joined(&[b"d"]);
    for i in 0..640u32 {
        let key = if falls { 639 - i } else { i };
        text = text.then(&[b'2', b':', (key / 32) as u8, (key % 32) as u8, b'0', b':']);
    }
    text.then(b"e")
}

#[test]
fn falling_keys_of_a_whole_datagram_are_written_ascending(rt: HostRuntime) {
    let falling = many_keys(true);
    let rising = many_keys(false);
    formed(&rt, rt.alloc(), falling.as_slice(), rising.as_slice());
    formed(&rt, rt.alloc(), rising.as_slice(), rising.as_slice());
}

/// A dictionary to which the keys `b`, `a` and `b` were added.
fn dictionary(alloc: Global) -> Result<Entries, Fail> {
    let mut entries = Entries::new(alloc);
    entries.set(Bytes::from_slice(alloc, b"b")?, Value::Int(1))?;
    entries.set(Bytes::from_slice(alloc, b"a")?, Value::Int(2))?;
    entries.set(Bytes::from_slice(alloc, b"b")?, Value::Int(3))?;
    Ok(entries)
}

fn has_two(entries: &Entries) -> bool {
    entries.as_slice().len() == 2 && entries.get(b"c").is_none()
}

/// Whether it gives up a key once.
fn gives_up(entries: &mut Entries, key: &[u8]) -> bool {
    let first = entries.remove(key).is_some();
    let second = entries.remove(key).is_some();
    first && !second
}

/// Whether a value is a dictionary with the key `b` and without `a`, and nothing else.
fn has_b_alone(value: &Value) -> bool {
    value.get(b"b").is_some()
        && value.get(b"a").is_none()
        && value.as_list().is_none()
        && value.as_bytes().is_none()
        && value.as_int().is_none()
}

#[test]
fn a_dictionary_keeps_its_keys(rt: HostRuntime) -> Result<(), Fail> {
    let mut entries = dictionary(rt.alloc())?;
    assert!(rt; has_two(&entries));
    assert!(rt; gives_up(&mut entries, b"a"));
    assert!(rt; has_b_alone(&Value::Dict(entries)));
    Ok(())
}

/// Memory is ample, so all of it is read, and written again.
#[test]
fn a_text_of_4096_bytes_is_read_and_written(rt: HostRuntime) {
    let text = repeated(b"4091:", b"x", 4091, b"");
    assert_eq!(rt; text.as_slice().len(), 4096);
    written(&rt, rt.alloc(), text.as_slice(), text.as_slice());
}

#[test]
fn a_text_is_written_behind_bytes_that_are_there(rt: HostRuntime) -> Result<(), Fail> {
    let alloc = rt.alloc();
    let mut out = Vec::new(alloc);
    out.extend_from_slice(b"abc")?;
    match read(alloc, b"d1:a1:be") {
        Ok(value) => {
            assert!(rt; write(&value, &mut out).is_ok());
            assert_eq!(rt; out.as_slice(), b"abcd1:a1:be".as_slice());
        }
        Err(_) => assert!(rt; false, "refused"),
    }
    Ok(())
}

/// Each key has its value where it stands, whatever the order of the keys.
#[test]
fn a_value_is_found_where_it_stands(rt: HostRuntime) {
    match Piece::parse(b"d1:bd2:idi2ee2:idi1e1:al1:x0:ee") {
        Ok(top) => {
            assert!(rt; top.is_dict());
            assert!(rt; top.get(b"c").is_none());
            match top.get(b"id") {
                Some(id) => assert_eq!(rt; id.as_int(), Some(1)),
                None => assert!(rt; false, "no id"),
            }
            match top.get(b"a") {
                Some(list) => assert!(rt; list.is_list()),
                None => assert!(rt; false, "no list"),
            }
        }
        Err(_) => assert!(rt; false, "refused"),
    }
}

/// Puts a string, and holds what then stands there against its form.
fn put(rt: &impl Abort, room: &mut [u8], text: &[u8], form: &[u8]) {
    let end = put_string(room, 0, text);
    assert!(rt; end == form.len());
    assert!(rt; room.starts_with(form));
}

/// A text of 8 bytes fits into 8.
#[test]
fn a_string_is_put_where_it_has_room(rt: HostRuntime) {
    put(&rt, &mut [b'-'; 8], b"abcdef", b"6:abcdef");
    put(&rt, &mut [b'-'; 32], b"abcdefghijkl", b"12:abcdefghijkl");
}
