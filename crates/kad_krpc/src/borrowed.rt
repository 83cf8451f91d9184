//! A message in the datagram that it came in: its strings, records and peers stay there.
use crate::answer::AnswerView;
use crate::ask::AskView;
use kad_bencode::Piece;

/// What a datagram says, as `Message` does.
#[derive(Drop)]
pub enum View<'a> {
    /// The arguments stay as they are, so that the proof of who asks is read only where it is wanted (`proof_in`). There are
    /// none of a method that isn't known.
    Query {
        tx: &'a [u8],
        read_only: bool,
        arguments: Option<Piece<'a>>,
        ask: AskView<'a>,
    },
    Answer {
        tx: &'a [u8],
        answer: AnswerView<'a>,
    },
    Fault {
        tx: &'a [u8],
        code: i64,
        text: &'a [u8],
    },
}
