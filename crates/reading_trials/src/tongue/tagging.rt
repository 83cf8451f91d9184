//! Messages with a tag, beside values of Python's `hmac`, and datagrams that are taken apart.
ghost use Rattle.std.specs.Prelude.{IfOk};
ghost use Rattle.kad_krpc.specs.Form.{IsWritable};

use kad_base::{Id, List, NoMemory};
use kad_bencode::Piece;
use kad_krpc::{
    Answer, Message, SealParts, encode, encode_into, form_is_untagged, message_is_well_typed,
    parts_of, tag_into, with_tag,
};
use seal_tags::{GroupSeal, Seal};
use std::alloc::Global;
use std::process::Abort;
use std::test::Fail;

/// The answer to a ping of the node whose identifier is twenty bytes ff.
const BODY: &[u8; 47] =
    b"d1:rd2:id20:\xff\xff\xff\xff\xff\xff\xff\xff\xff\xff\xff\xff\xff\xff\xff\xff\xff\xff\xff\xffe1:t2:aa1:y1:re";

/// The same with its tag under 32 zero bytes, as Python's `hmac` makes it.
const TAGGED: &[u8; 74] =
    b"d1:rd2:id20:\xff\xff\xff\xff\xff\xff\xff\xff\xff\xff\xff\xff\xff\xff\xff\xff\xff\xff\xff\xffe2:sg20:-\x9e\xe4Y\x1bD\x13\xbet\xf1\x94-=0\x1fC@\xfa\x0ag1:t2:aa1:y1:re";

/// That tag.
const TAG: &[u8; 20] = b"-\x9e\xe4Y\x1bD\x13\xbet\xf1\x94-=0\x1fC@\xfa\x0ag";

fn reply(alloc: Global) -> Result<Message, Fail>
    ensures { IfOk result IsWritable }
{
    let tx = List::from_slice(alloc, b"aa")?;
    let answer = Answer {
        id: Id([0xff; 20]),
        nodes: None,
        snodes: None,
        nodes6: None,
        snodes6: None,
        token: None,
        v: None,
        values: None,
    };
    Ok(Message::Answer { tx, answer })
}

fn fault(alloc: Global) -> Result<Message, Fail>
    ensures { IfOk result IsWritable }
{
    let tx = List::from_slice(alloc, b"aa")?;
    let text = List::from_slice(alloc, b"no")?;
    Ok(Message::Fault {
        tx,
        code: 201,
        text,
    })
}

/// That the written form of a message has this text with a tag, in memory of its own.
#[tactic(auto, using(kad_krpc::proofs::Writable::writable_forms, kad_krpc::proofs::Writable::writable_immutable))]
fn is_tagged_apart(
    rt: &impl Abort,
    alloc: Global,
    message: &Message,
    tag: &[u8],
    text: &[u8],
) -> Result<(), Fail>
    requires { IsWritable message.now }
{
    message_is_well_typed(message);
    form_is_untagged();
    let written = encode(alloc, message)?;
    let tagged = with_tag(alloc, written.as_slice(), tag)?;
    assert!(rt; tagged.as_slice() == text);
    Ok(())
}

/// The same where it stands.
#[tactic(auto, using(kad_krpc::proofs::Writable::writable_forms, kad_krpc::proofs::Writable::writable_immutable))]
fn is_tagged_in_place(rt: &impl Abort, message: &Message, tag: &[u8], text: &[u8])
    requires { IsWritable message.now }
{
    message_is_well_typed(message);
    form_is_untagged();
    let mut room = [0; 4096];
    match encode_into(message, &mut room) {
        Some(length) => match tag_into(&mut room, length, tag) {
            Some(end) => assert!(rt; &room[..end] == text),
            None => assert!(rt; false, "no room for the tag"),
        },
        None => assert!(rt; false, "no room"),
    }
}

/// The same in both ways.
fn is_tagged(
    rt: &impl Abort,
    alloc: Global,
    message: &Message,
    tag: &[u8],
    text: &[u8],
) -> Result<(), Fail>
    requires { IsWritable message.now }
{
    is_tagged_in_place(rt, message, tag, text);
    is_tagged_apart(rt, alloc, message, tag, text)
}

#[test]
fn a_reply_is_tagged_as_by_another_program(rt: HostRuntime) -> Result<(), Fail> {
    let alloc = rt.alloc();
    let message = reply(alloc)?;
    let mut out = [0; 64];
    let length = GroupSeal::new([0; 32]).tag(&Id([0xff; 20]), BODY, &mut out);
    is_tagged(&rt, alloc, &message, &out[..length], TAGGED)
}

#[test]
fn an_error_message_is_tagged(rt: HostRuntime) -> Result<(), Fail> {
    let alloc = rt.alloc();
    let message = fault(alloc)?;
    is_tagged(
        &rt,
        alloc,
        &message,
        b"xyz",
        b"d1:eli201e2:noe2:sg3:xyz1:t2:aa1:y1:ee",
    )
}

/// A datagram taken apart; `None` if it is no bencode, or has no tag.
fn parts_in(alloc: Global, datagram: &[u8]) -> Result<Option<SealParts>, NoMemory> {
    match Piece::parse(datagram) {
        Ok(top) => parts_of(alloc, &top),
        Err(_) => Ok(None),
    }
}

/// That a datagram is taken apart so.
fn comes_apart(
    rt: &impl Abort,
    alloc: Global,
    datagram: &[u8],
    body: &[u8],
    tag: &[u8],
) -> Result<(), Fail> {
    match parts_in(alloc, datagram)? {
        Some(parts) => {
            assert!(rt; parts.body.as_slice() == body);
            assert!(rt; parts.tag.as_slice() == tag);
        }
        None => assert!(rt; false, "no tag"),
    }
    Ok(())
}

#[test]
fn a_tagged_datagram_comes_apart(rt: HostRuntime) -> Result<(), Fail> {
    let alloc = rt.alloc();
    comes_apart(&rt, alloc, TAGGED, BODY, TAG)?;
    comes_apart(&rt, alloc, b"d2:sg3:abce", b"de", b"abc")?;
    comes_apart(
        &rt,
        alloc,
        b"d1:y1:r2:sg2:xy1:t2:aae",
        b"d1:t2:aa1:y1:re",
        b"xy",
    )?;
    comes_apart(
        &rt,
        alloc,
        b"d2:sg0:1:rd1:bi1e1:ai2eee",
        b"d1:rd1:ai2e1:bi1eee",
        b"",
    )
}

fn has_no_tag(rt: &impl Abort, alloc: Global, datagram: &[u8]) -> Result<(), Fail> {
    match parts_in(alloc, datagram)? {
        Some(_) => assert!(rt; false, "a tag"),
        None => {}
    }
    Ok(())
}

#[test]
fn a_datagram_without_a_tag_has_no_parts(rt: HostRuntime) -> Result<(), Fail> {
    let alloc = rt.alloc();
    has_no_tag(&rt, alloc, b"")?;
    has_no_tag(&rt, alloc, b"de")?;
    has_no_tag(&rt, alloc, b"2:sg")?;
    has_no_tag(&rt, alloc, b"l2:sg1:xe")?;
    has_no_tag(&rt, alloc, b"d2:sgi1ee")?;
    has_no_tag(&rt, alloc, b"d2:sgl1:xee")?;
    has_no_tag(&rt, alloc, b"d2:sgdee")?;
    has_no_tag(&rt, alloc, b"d1:rd2:sg1:xee")?;
    has_no_tag(&rt, alloc, b"d2:sg1:x2:sg1:ye")?;
    has_no_tag(&rt, alloc, b"d2:sg1:xe1:")?;
    has_no_tag(&rt, alloc, BODY)
}
