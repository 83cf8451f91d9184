//! Writes a message in its one written form, by puts into bytes that are there; what is put into none is measured.
ghost use Rattle.std.specs.Prelude.{◌≡◌, false, ◌<◌, ◌∷◌, [], ◌↔◌, length, take, IfOk, IsNone, IfSome};
ghost use Rattle.kad_bencode.specs.declared.value.Value.TheVariants as value;
ghost use Rattle.kad_bencode.specs.Spelling.{text_of};
ghost use Rattle.kad_bencode.specs.Written.{Puts};
ghost use Rattle.kad_krpc.specs.Form.{BearsForm, CarriesForm, HasForms, IsWritable, is_mutable, message_pairs, form};
ghost use Rattle.kad_krpc.specs.Reading.{Says};
ghost use Rattle.kad_krpc.specs.declared.message.Message.TheVariants as Message;

use crate::answer::put_answer;
use crate::ask::{name, put_arguments, put_ro};
use crate::fields::put_text;
use crate::message::{Answer, Ask, Message};
use crate::well_typed::message_is_well_typed;
use kad_base::{Bytes, List, NoMemory, Proof};
use kad_bencode::{put_integer, put_part, put_string};
use std::alloc::Global;

#[inline(always)]
fn put_query(
    buf: &mut [u8],
    at: usize,
    tx: &[u8],
    read_only: bool,
    proof: &Option<Proof>,
    ask: &Ask,
) -> usize
    requires { CarriesForm ask.now }
    ensures { Puts buf.old buf.new at (text_of
        (value.Dict (message_pairs (Message.Query tx.now read_only proof.now ask.now)))) result }
{
    let at = put_part(buf, at, b"d1:a");
    let at = put_arguments(buf, at, proof, ask);
    let at = put_text(buf, at, b"q", name(ask));
    let at = put_ro(buf, at, read_only);
    let at = put_text(buf, at, b"t", tx);
    put_part(buf, at, b"1:y1:qe")
}

#[inline(always)]
fn put_answer_message(buf: &mut [u8], at: usize, tx: &[u8], answer: &Answer) -> usize
    requires { BearsForm answer.now }
    ensures { Puts buf.old buf.new at (text_of
        (value.Dict (message_pairs (Message.Answer tx.now answer.now)))) result }
{
    let at = put_part(buf, at, b"d1:r");
    let at = put_answer(buf, at, answer);
    let at = put_text(buf, at, b"t", tx);
    put_part(buf, at, b"1:y1:re")
}

/// Puts the list of a code and a text.
fn put_error(buf: &mut [u8], at: usize, code: i64, said: &[u8]) -> usize
    ensures { Puts buf.old buf.new at (text_of
        (value.List (value.Int code ∷ value.Text said.now ∷ []))) result }
{
    let at = put_part(buf, at, b"l");
    let at = put_integer(buf, at, code);
    let at = put_string(buf, at, said);
    put_part(buf, at, b"e")
}

fn put_fault(buf: &mut [u8], at: usize, tx: &[u8], code: i64, said: &[u8]) -> usize
    ensures { Puts buf.old buf.new at (text_of
        (value.Dict (message_pairs (Message.Fault tx.now code said.now)))) result }
{
    let at = put_part(buf, at, b"d1:e");
    let at = put_error(buf, at, code, said);
    let at = put_text(buf, at, b"t", tx);
    put_part(buf, at, b"1:y1:ee")
}

#[inline(always)]
fn put_message(buf: &mut [u8], message: &Message) -> usize
    requires { HasForms message.now }
    ensures { Puts buf.old buf.new 0 (form message.now) result }
{
    match message {
        Message::Query {
            tx,
            read_only,
            proof,
            ask,
        } => put_query(buf, 0, tx.as_slice(), *read_only, proof, ask),
        Message::Answer { tx, answer } => put_answer_message(buf, 0, tx.as_slice(), answer),
        Message::Fault { tx, code, text } => {
            put_fault(buf, 0, tx.as_slice(), *code, text.as_slice())
        }
    }
}

/// Writes the written form of a message in front of `buf`, and answers its length; `None` if it is longer than `buf`,
/// whose bytes are then any. Takes no memory.
pub fn encode_into(message: &Message, buf: &mut [u8; 4096]) -> Option<usize>
    requires forms { HasForms message.now }
    requires immutable { is_mutable message.now ≡ false }
    ensures none { IsNone result ↔ 4096 < length (form message.now) }
    ensures length { IfSome result (λ n. n ≡ length (form message.now)) }
    ensures form { IfSome result (λ n. take n buf.new ≡ form message.now) }
{
    let end = put_message(buf, message);
    if end > 4096 {
        return None;
    }
    Some(end)
}

/// The written form of a message, which `decode` gives back, in memory of its own: measured first, then written once.
pub fn encode(alloc: Global, message: &Message) -> Result<Bytes, NoMemory>
    requires { IsWritable message.now }
    ensures form { IfOk result (λ bytes. bytes ≡ form message.now) }
    ensures says { IfOk result (λ bytes. Says bytes message.now) }
{
    message_is_well_typed(message);
    let mut nowhere = [0u8; 0];
    let length = put_message(&mut nowhere, message);
    let mut bytes = vec![in alloc; 0u8; length]?;
    let _end = put_message(bytes.as_mut_slice(), message);
    Ok(List::from_vec(bytes))
}
