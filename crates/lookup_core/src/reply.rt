//! What a datagram says, and to the query of which transaction id. It is read where it stands, and nothing is copied.
ghost use Rattle.std.specs.Prelude.{◌≡◌, ℕ, List, IfSome, MatchOption};
ghost use Rattle.kad_base.specs.Words.{word_bytes};
ghost use Rattle.kad_krpc.specs.Views.{answer_seen, message_seen};
ghost use Rattle.kad_krpc.specs.declared.message.Message.TheVariants as Message;
ghost use Rattle.lookup_core.specs.Reply.{said_seen};
ghost use Rattle.lookup_core.specs.Says.{SaysAll, SaysNothing, IsNoReply, IsNoId, IsRead};

use kad_base::limits::MAX_DATAGRAM;
use kad_bencode::Piece;
use kad_krpc::{AnswerView, Decoded, View, decode_top};

/// What a datagram says to an open query (BEP 5).
#[derive(Drop)]
pub enum ReplyView<'a> {
    Answer(AnswerView<'a>),
    /// An error message. Its text is passed over.
    Error { code: i64 },
}

/// A reply, and the transaction id of the query that it is to.
#[derive(Drop)]
pub struct SaidView<'a> {
    pub tx: u32,
    pub reply: ReplyView<'a>,
    /// The value that the datagram spells, in which its tag is sought.
    pub top: Piece<'a>,
}

/// The word whose four bytes the transaction id is; `None` if it has another length.
fn id_of(bytes: &[u8]) -> Option<u32>
    ensures { MatchOption result (IsNoId bytes.now) (λ w. bytes.now ≡ word_bytes w) }
{
    match bytes {
        [a, b, c, d] => Some(u32::from_le_bytes([*a, *b, *c, *d])),
        _ => None,
    }
}

/// An answer under this transaction id; `None` if no query of ours has it.
fn answer_to<'a>(tx: &[u8], answer: AnswerView<'a>, top: Piece<'a>) -> Option<SaidView<'a>>
    ensures says { MatchOption result (SaysNothing (Message.Answer tx.now (answer_seen answer.entry)))
        (λ said. SaysAll (Message.Answer tx.now (answer_seen answer.entry)) (said_seen said)) }
    ensures top { IfSome result (λ said. said.top ≡ top.entry) }
{
    match id_of(tx) {
        Some(word) => Some(SaidView {
            tx: word,
            reply: ReplyView::Answer(answer),
            top,
        }),
        None => None,
    }
}

/// An error message under this transaction id; `None` if no query of ours has it. Its text is passed over.
fn error_to<'a>(tx: &[u8], code: i64, top: Piece<'a>) -> Option<SaidView<'a>>
    ensures says { (text : List ℕ) → MatchOption result (SaysNothing (Message.Fault tx.now code text))
        (λ said. SaysAll (Message.Fault tx.now code text) (said_seen said)) }
    ensures top { IfSome result (λ said. said.top ≡ top.entry) }
{
    match id_of(tx) {
        Some(word) => Some(SaidView {
            tx: word,
            reply: ReplyView::Error { code },
            top,
        }),
        None => None,
    }
}

/// What a message says, and to whom; `None` if it is a query, or has a transaction id that no query of ours has.
fn reply_in<'a>(decoded: Decoded<'a>) -> Option<SaidView<'a>>
    ensures says { MatchOption result (SaysNothing (message_seen decoded.entry.view))
        (λ said. SaysAll (message_seen decoded.entry.view) (said_seen said)) }
    ensures top { IfSome result (λ said. said.top ≡ decoded.entry.top) }
{
    let Decoded { top, view } = decoded;
    match view {
        View::Query { .. } => None,
        View::Answer { tx, answer } => answer_to(tx, answer, top),
        View::Fault { tx, code, .. } => error_to(tx, code, top),
    }
}

/// What the datagram says, whoever asks; `None` if it is no reply at all, or may not be believed. Takes no memory.
pub fn read_reply<'a>(bytes: &'a [u8]) -> Option<SaidView<'a>>
    ensures { MatchOption result (IsNoReply bytes.now) (IsRead bytes.now) }
{
    if bytes.len() > MAX_DATAGRAM {
        return None;
    }
    match decode_top(bytes) {
        Ok(decoded) => reply_in(decoded),
        Err(_) => None,
    }
}
