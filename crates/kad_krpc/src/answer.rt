//! The dictionary `r` of an answer: each of its keys is read, written, copied and told of here.
ghost use Rattle.std.specs.Prelude.{◌≡◌, IfOk};
ghost use Rattle.kad_bencode.specs.Parts.{member_of};
ghost use Rattle.kad_bencode.specs.Spelling.{text_of};
ghost use Rattle.kad_bencode.specs.Written.{Puts};
ghost use Rattle.kad_bencode.specs.declared.value.Value.TheVariants as value;
ghost use Rattle.kad_krpc.specs.Answering.{answer_by, answer_at, answer_pairs, answer_seen, answered, BearsForm, IsWellAnswer};

use crate::fields::{
    needed_id, optional_list, optional_records, optional_text, put_id, put_maybe_form,
    put_maybe_peers, put_maybe_records, put_maybe_text,
};
use crate::members::{keys, members};
use crate::message::{Answer, Key, KrpcFault};
use crate::owned::{maybe_form, maybe_peers, maybe_records, maybe_text};
use crate::well_typed::{law_nodes, law_snodes, law_values};
use kad_base::{Id, NoMemory};
use kad_bencode::{Items, Piece, put_part};
use kad_records::{Node, Node6, Proved, Proved6, Records, law_id};
use std::alloc::Global;

/// What an answer gives, as `Answer` does. Of `values` those that are no strings of 6 or 18 bytes are still among them.
#[derive(Drop)]
pub struct AnswerView<'a> {
    pub id: Id,
    pub nodes: Option<Records<'a, Node>>,
    pub snodes: Option<Records<'a, Proved>>,
    pub nodes6: Option<Records<'a, Node6>>,
    pub snodes6: Option<Records<'a, Proved6>>,
    pub token: Option<&'a [u8]>,
    pub v: Option<Piece<'a>>,
    pub values: Option<Items<'a>>,
}

/// The answer of these values.
fn read_parts<'a>(
    id: Option<Piece<'a>>,
    nodes: Option<Piece<'a>>,
    snodes: Option<Piece<'a>>,
    nodes6: Option<Piece<'a>>,
    snodes6: Option<Piece<'a>>,
    token: Option<Piece<'a>>,
    v: Option<Piece<'a>>,
    values: Option<Piece<'a>>,
) -> Result<AnswerView<'a>, KrpcFault>
    ensures { answered result ≡ answer_by id.entry nodes.entry snodes.entry nodes6.entry
        snodes6.entry token.entry v.entry values.entry }
{
    let id = needed_id(id, Key::Id)?;
    let nodes = optional_records(nodes, Key::Nodes)?;
    let snodes = optional_records(snodes, Key::Snodes)?;
    let nodes6 = optional_records(nodes6, Key::Nodes6)?;
    let snodes6 = optional_records(snodes6, Key::Snodes6)?;
    let token = optional_text(token, Key::Token)?;
    let values = optional_list(values, Key::Values)?;
    Ok(AnswerView {
        id,
        nodes,
        snodes,
        nodes6,
        snodes6,
        token,
        v,
        values,
    })
}

/// The answer of the dictionary `r`.
pub(crate) fn read_answer<'a>(r: &Piece<'a>) -> Result<AnswerView<'a>, KrpcFault>
    ensures { answered result ≡ answer_at (member_of r.now) }
{
    let slots = keys!(
        b"id", b"nodes", b"snodes", b"nodes6", b"snodes6", b"token", b"v", b"values"
    );
    let (id, slots) = members(r, slots).take();
    let (nodes, slots) = slots.take();
    let (snodes, slots) = slots.take();
    let (nodes6, slots) = slots.take();
    let (snodes6, slots) = slots.take();
    let (token, slots) = slots.take();
    let (v, slots) = slots.take();
    let (values, _) = slots.take();
    read_parts(id, nodes, snodes, nodes6, snodes6, token, v, values)
}

/// Puts the dictionary `r` of an answer. Takes no memory.
#[inline(always)]
pub(crate) fn put_answer(buf: &mut [u8], at: usize, answer: &Answer) -> usize
    requires { BearsForm answer.now }
    ensures { Puts buf.old buf.new at (text_of (value.Dict (answer_pairs answer.now))) result }
{
    let at = put_id(buf, at, &answer.id);
    let at = put_maybe_records::<Node>(buf, at, b"nodes", &answer.nodes);
    let at = put_maybe_records::<Node6>(buf, at, b"nodes6", &answer.nodes6);
    let at = put_maybe_records::<Proved>(buf, at, b"snodes", &answer.snodes);
    let at = put_maybe_records::<Proved6>(buf, at, b"snodes6", &answer.snodes6);
    let at = put_maybe_text(buf, at, b"token", &answer.token);
    let at = put_maybe_form(buf, at, b"v", &answer.v);
    let at = put_maybe_peers(buf, at, b"values", &answer.values);
    put_part(buf, at, b"e")
}

/// The answer that a view is of, in memory of its own: each part is copied once.
pub fn own_answer(alloc: Global, answer: AnswerView) -> Result<Answer, NoMemory>
    ensures { IfOk result (λ a. a ≡ answer_seen answer.entry) }
{
    let nodes = maybe_records(alloc, answer.nodes)?;
    let snodes = maybe_records(alloc, answer.snodes)?;
    let nodes6 = maybe_records(alloc, answer.nodes6)?;
    let snodes6 = maybe_records(alloc, answer.snodes6)?;
    let token = maybe_text(alloc, answer.token)?;
    let v = maybe_form(alloc, answer.v)?;
    let values = maybe_peers(alloc, answer.values)?;
    Ok(Answer {
        id: answer.id,
        nodes,
        snodes,
        nodes6,
        snodes6,
        token,
        v,
        values,
    })
}

/// The parts of an answer are as long as their types say.
pub(crate) fn law_answer(answer: &Answer)
    ensures { IsWellAnswer answer.now }
{
    law_id(&answer.id);
    law_nodes(&answer.nodes);
    law_snodes(&answer.snodes);
    law_nodes(&answer.nodes6);
    law_snodes(&answer.snodes6);
    law_values(&answer.values);
}
