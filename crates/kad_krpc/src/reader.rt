//! Reads a message, step by step: the first step that fails is the refusal.
ghost use Rattle.std.specs.Prelude.{◌≡◌, option_copied, IfOk, IfErr, Ok, Err};
ghost use Rattle.kad_krpc.specs.declared.message.Message.{Message};
ghost use Rattle.kad_krpc.specs.declared.message.KrpcFault.{KrpcFault};
ghost use Rattle.kad_bencode.specs.Parts.{member_of};
ghost use Rattle.kad_bencode.specs.Spelling.{Spells};
ghost use Rattle.kad_krpc.specs.Fields.{needed};
ghost use Rattle.kad_krpc.specs.Reading.{kind_in, kind_of, code_text_of, query_by, answer_message_by, fault_by, message_at, said, Says, Refuses, Gives, IfRefused};
ghost use Rattle.kad_krpc.specs.Views.{lent_code, lent_error, decoded_view, viewed, message_seen};

use crate::answer::read_answer;
use crate::ask::{kept_arguments, read_ask, read_only};
use crate::borrowed::View;
use crate::fields::{needed_dict, needed_text};
use crate::members::{keys, members};
use crate::message::{Key, Kind, KrpcFault, Message};
use crate::owned::message_of;
use kad_bencode::Piece;
use std::alloc::Global;

/// `q`, `r` or `e`.
fn kind(name: Option<&[u8]>) -> Option<Kind>
    ensures { result ≡ kind_in (option_copied name.entry) }
{
    let name = name?;
    if name == b"q".as_slice() {
        return Some(Kind::Query);
    }
    if name == b"r".as_slice() {
        return Some(Kind::Answer);
    }
    if name == b"e".as_slice() {
        return Some(Kind::Fault);
    }
    None
}

fn needed_kind(value: Option<Piece>, key: Key) -> Result<Kind, KrpcFault>
    ensures { result ≡ needed kind_of key value.entry }
{
    match value {
        None => Err(KrpcFault::Missing { key }),
        Some(value) => match kind(value.as_bytes()) {
            None => Err(KrpcFault::Shape { key }),
            Some(kind) => Ok(kind),
        },
    }
}

/// The code and the text of an error message, at the front of its list.
fn code_text<'a>(value: &Piece<'a>) -> Option<(i64, &'a [u8])>
    ensures { lent_code result ≡ code_text_of value.now }
{
    let mut values = value.items()?;
    let code = values.next()?;
    let text = values.next()?;
    let code = code.as_int()?;
    let text = text.as_bytes()?;
    Some((code, text))
}

fn needed_code_text<'a>(value: Option<Piece<'a>>, key: Key) -> Result<(i64, &'a [u8]), KrpcFault>
    ensures { lent_error result ≡ needed code_text_of key value.entry }
{
    match value {
        None => Err(KrpcFault::Missing { key }),
        Some(value) => match code_text(&value) {
            None => Err(KrpcFault::Shape { key }),
            Some((code, text)) => Ok((code, text)),
        },
    }
}

fn read_query<'a>(
    tx: &'a [u8],
    q: Option<Piece<'a>>,
    a: Option<Piece<'a>>,
    ro: Option<Piece<'a>>,
) -> Result<View<'a>, KrpcFault>
    ensures { viewed result ≡ query_by tx.now q.entry a.entry ro.entry }
{
    let method = needed_text(q, Key::Q)?;
    let ask = read_ask(method, &a)?;
    let arguments = kept_arguments(&ask, a);
    let read_only = read_only(ro);
    Ok(View::Query {
        tx,
        read_only,
        arguments,
        ask,
    })
}

fn read_answer_message<'a>(tx: &'a [u8], r: Option<Piece<'a>>) -> Result<View<'a>, KrpcFault>
    ensures { viewed result ≡ answer_message_by tx.now r.entry }
{
    let r = needed_dict(r, Key::R)?;
    let answer = read_answer(&r)?;
    Ok(View::Answer { tx, answer })
}

fn read_fault<'a>(tx: &'a [u8], e: Option<Piece<'a>>) -> Result<View<'a>, KrpcFault>
    ensures { viewed result ≡ fault_by tx.now e.entry }
{
    let (code, text) = needed_code_text(e, Key::E)?;
    Ok(View::Fault { tx, code, text })
}

/// What a message's dictionary says.
fn read_top<'a>(top: &Piece<'a>) -> Result<View<'a>, KrpcFault>
    ensures { viewed result ≡ message_at (member_of top.now) }
{
    let slots = keys!(b"t", b"y", b"r", b"q", b"a", b"ro", b"e");
    let (t, slots) = members(top, slots).take();
    let (y, slots) = slots.take();
    let (r, slots) = slots.take();
    let (q, slots) = slots.take();
    let (a, slots) = slots.take();
    let (ro, slots) = slots.take();
    let (e, _) = slots.take();
    let tx = needed_text(t, Key::T)?;
    match needed_kind(y, Key::Y)? {
        Kind::Query => read_query(tx, q, a, ro),
        Kind::Answer => read_answer_message(tx, r),
        Kind::Fault => read_fault(tx, e),
    }
}

/// What a value says.
fn read_value<'a>(top: &Piece<'a>) -> Result<View<'a>, KrpcFault>
    ensures { viewed result ≡ said top.now }
{
    let top = needed_dict(Some(top.copied()), Key::Top)?;
    read_top(&top)
}

/// A datagram that says a message, read where it stands.
#[derive(Drop)]
pub struct Decoded<'a> {
    /// The value that the datagram spells.
    pub top: Piece<'a>,
    /// What that value says.
    pub view: View<'a>,
}

/// Reads a datagram of any length where it stands: the value that it spells and what that says, or the first step of the
/// reading that fails. Keys that BEP 5 and BEP 43 don't name are passed over. Takes no memory.
#[inline(always)]
pub fn decode_top(bytes: &[u8]) -> Result<Decoded<'_>, KrpcFault>
    ensures spells { IfOk result (λ s. Spells bytes.now s.top) }
    // What is read is said so, and what is refused fails so.
    ensures says { IfOk result (λ s. Says bytes.now (message_seen s.view)) }
    ensures refuses { IfErr result (Refuses bytes.now) }
    // What says a message is read, and what fails is refused.
    ensures only { (m : Message) → Says bytes.now m → decoded_view result ≡ Ok m }
    ensures refused { (fault : KrpcFault) → Refuses bytes.now fault → result ≡ Err fault }
{
    match Piece::parse(bytes) {
        Ok(top) => match read_value(&top) {
            Ok(view) => Ok(Decoded { top, view }),
            Err(fault) => Err(fault),
        },
        Err(bad) => Err(KrpcFault::Bad(bad)),
    }
}

/// Reads a datagram of any length where it stands: what it says, or the first step of the reading that fails. Keys that
/// BEP 5 and BEP 43 don't name are passed over. Takes no memory.
#[inline(always)]
pub fn decode_view(bytes: &[u8]) -> Result<View<'_>, KrpcFault>
    // What is read is said so, and what is refused fails so.
    ensures says { IfOk result (λ v. Says bytes.now (message_seen v)) }
    ensures refuses { IfErr result (Refuses bytes.now) }
    // What says a message is read, and what fails is refused.
    ensures only { (m : Message) → Says bytes.now m → viewed result ≡ Ok m }
    ensures refused { (fault : KrpcFault) → Refuses bytes.now fault → result ≡ Err fault }
{
    match decode_top(bytes) {
        Ok(decoded) => Ok(decoded.view),
        Err(fault) => Err(fault),
    }
}

/// Reads a datagram of any length: what it says, or the first step of the reading that fails. Keys that none of BEP 5, 32,
/// 43 and 44 names are passed over, but this project's own. Each string is copied once, and the memory taken is in
/// proportion to the datagram.
pub fn decode(alloc: Global, bytes: &[u8]) -> Result<Message, KrpcFault>
    // What is read is said so, and what is refused fails so.
    ensures says { IfOk result (Says bytes.now) }
    ensures refuses { IfRefused result (Refuses bytes.now) }
    // What says a message is read, and what fails is refused, unless memory runs out.
    ensures only { (m : Message) → Says bytes.now m → Gives (Ok m) result }
    ensures refused { (fault : KrpcFault) → Refuses bytes.now fault → Gives (Err fault) result }
{
    match decode_view(bytes) {
        Ok(view) => match message_of(alloc, view) {
            Ok(message) => Ok(message),
            Err(_) => Err(KrpcFault::NoMemory),
        },
        Err(fault) => Err(fault),
    }
}
