//! What messages say, as constants, and what datagrams are held against.
ghost use Rattle.std.specs.Prelude.{◌≡◌};
ghost use Rattle.kad_krpc.specs.Form.{IsWritable, is_mutable};

use kad_base::{Addr, Contact, Id, Ip, List, Proof, Report};
use kad_krpc::{
    Answer, Ask, KrpcFault, Message, Port, Want, decode, decode_view, encode, encode_into,
    said_is_writable,
};
use std::alloc::Global;
use std::process::Abort;

pub(crate) const ABC: Id = Id(*b"abcdefghij0123456789");

pub(crate) const MNO: Id = Id(*b"mnopqrstuvwxyz123456");

/// Nothing is said of whose contacts are wanted.
pub(crate) const NOTHING: Want = Want {
    four: false,
    six: false,
};

/// 127.0.0.1:6881.
pub(crate) const HERE: Addr = Addr {
    ip: Ip::V4([127, 0, 0, 1]),
    port: 6881,
};

pub(crate) const NODE: Contact = Contact {
    id: MNO,
    addr: HERE,
};

pub(crate) const PROOF: Proof = Proof {
    key: *b"kkkkkkkkkkkkkkkkkkkkkkkkkkkkkkkk",
    x: *b"xxxxxxxxxxxxxxxxxxxx",
};

/// The proof of who asks.
pub(crate) const SENDER: Proof = Proof {
    key: *b"ABCDEFGHIJKLMNOPQRSTUVWXYZ!?+-*/",
    x: *b"0123456789abcdefghij",
};

/// What a message with the transaction id `aa` says.
#[derive(Clone, Copy)]
pub(crate) enum Said {
    /// `brings`: whether it brings `SENDER`.
    Query {
        read_only: bool,
        brings: bool,
        ask: Asked,
    },
    Answer(Parts),
    Fault {
        code: i64,
        text: &'static [u8],
    },
}

/// What `ABC` asks, about `MNO` if it is about somebody. The token is `aoeusnth`.
#[derive(Clone, Copy)]
pub(crate) enum Asked {
    Ping,
    FindNode(Want),
    GetPeers(Want),
    AnnouncePeer(Port),
    Get(Want),
    /// Of an immutable item, by its written form.
    Put(&'static [u8]),
    Other(&'static [u8]),
}

/// The parts of an answer without a value.
#[derive(Clone, Copy)]
pub(crate) struct Parts {
    pub(crate) id: Id,
    pub(crate) nodes: Option<&'static [Contact]>,
    pub(crate) snodes: Option<&'static [Report]>,
    pub(crate) nodes6: Option<&'static [Contact]>,
    pub(crate) snodes6: Option<&'static [Report]>,
    pub(crate) token: Option<&'static [u8]>,
    pub(crate) values: Option<&'static [Addr]>,
}

/// An answer of `ABC` with the identifier alone.
pub(crate) const BARE: Parts = Parts {
    id: ABC,
    nodes: None,
    snodes: None,
    nodes6: None,
    snodes6: None,
    token: None,
    values: None,
};

/// A datagram and what it says.
pub(crate) type Row = (&'static [u8], Said);

fn asks(ask: &Ask, asked: &Asked) -> bool {
    match (ask, asked) {
        (Ask::Ping { id }, Asked::Ping) => *id == ABC,
        (Ask::FindNode { id, target, want }, Asked::FindNode(wanted)) => {
            *id == ABC && *target == MNO && want == wanted
        }
        (
            Ask::GetPeers {
                id,
                info_hash,
                want,
            },
            Asked::GetPeers(wanted),
        ) => *id == ABC && *info_hash == MNO && want == wanted,
        (
            Ask::AnnouncePeer {
                id,
                info_hash,
                port,
                token,
            },
            Asked::AnnouncePeer(given),
        ) => {
            *id == ABC
                && *info_hash == MNO
                && port == given
                && token.as_slice() == b"aoeusnth".as_slice()
        }
        (Ask::Get { id, target, want }, Asked::Get(wanted)) => {
            *id == ABC && *target == MNO && want == wanted
        }
        (
            Ask::Put {
                id,
                token,
                v,
                mutable,
            },
            Asked::Put(form),
        ) => {
            *id == ABC
                && token.as_slice() == b"aoeusnth".as_slice()
                && v.as_slice() == *form
                && !*mutable
        }
        (Ask::Other { method }, Asked::Other(name)) => method.as_slice() == *name,
        _ => false,
    }
}

/// Whether a part has these items, or isn't there.
fn has<T: PartialEq + Copy + Drop>(part: &Option<List<T>>, items: Option<&[T]>) -> bool {
    match (part, items) {
        (Some(list), Some(items)) => list.as_slice() == items,
        (None, None) => true,
        _ => false,
    }
}

fn answers(answer: &Answer, parts: &Parts) -> bool {
    answer.id == parts.id
        && has(&answer.nodes, parts.nodes)
        && has(&answer.snodes, parts.snodes)
        && has(&answer.nodes6, parts.nodes6)
        && has(&answer.snodes6, parts.snodes6)
        && has(&answer.token, parts.token)
        && answer.v.is_none()
        && has(&answer.values, parts.values)
}

/// Whether a proof is `SENDER`, where it is brought, or isn't there.
fn is_brought(proof: &Option<Proof>, brings: bool) -> bool {
    match proof {
        Some(proof) => brings && *proof == SENDER,
        None => !brings,
    }
}

/// Whether a message says just this.
fn says(message: &Message, said: &Said) -> bool {
    match (message, said) {
        (
            Message::Query {
                tx,
                read_only,
                proof,
                ask,
            },
            Said::Query {
                read_only: only,
                brings,
                ask: asked,
            },
        ) => {
            tx.as_slice() == b"aa".as_slice()
                && read_only == only
                && is_brought(proof, *brings)
                && asks(ask, asked)
        }
        (Message::Answer { tx, answer }, Said::Answer(parts)) => {
            tx.as_slice() == b"aa".as_slice() && answers(answer, parts)
        }
        (
            Message::Fault { tx, code, text },
            Said::Fault {
                code: number,
                text: words,
            },
        ) => tx.as_slice() == b"aa".as_slice() && code == number && text.as_slice() == *words,
        _ => false,
    }
}

/// That a datagram is read, and says this.
pub(crate) fn reads(rt: &impl Abort, alloc: Global, text: &[u8], said: &Said) {
    assert!(rt; decode_view(text).is_ok());
    match decode(alloc, text) {
        Ok(message) => assert!(rt; says(&message, said)),
        Err(_) => assert!(rt; false, "refused"),
    }
}

/// Whether a message puts a mutable item.
fn is_mutable(message: &Message) -> bool
    ensures { result ≡ is_mutable message.now }
{
    match message {
        Message::Query { ask, .. } => match ask {
            Ask::Put { mutable, .. } => *mutable,
            Ask::Ping { .. } => false,
            Ask::FindNode { .. } => false,
            Ask::GetPeers { .. } => false,
            Ask::AnnouncePeer { .. } => false,
            Ask::Get { .. } => false,
            Ask::Other { .. } => false,
        },
        Message::Answer { .. } => false,
        Message::Fault { .. } => false,
    }
}

/// That a message is put so into bytes that are there.
#[tactic(auto, using(kad_krpc::proofs::Writable::writable_forms, kad_krpc::proofs::Writable::writable_immutable))]
fn puts(rt: &impl Abort, message: &Message, text: &[u8])
    requires { IsWritable message.now }
{
    let mut room = [0u8; 4096];
    match encode_into(message, &mut room) {
        Some(length) => {
            assert_eq!(rt; length, text.len());
            for i in 0..text.len() {
                if i < 4096 {
                    assert_eq!(rt; room[i], text[i]);
                }
            }
        }
        None => assert!(rt; false, "no room"),
    }
}

/// That a message has this text, in memory of its own and where it stands.
fn writes(rt: &impl Abort, alloc: Global, message: &Message, text: &[u8])
    requires { IsWritable message.now }
{
    puts(rt, message, text);
    match encode(alloc, message) {
        Ok(written) => assert_eq!(rt; written.as_slice(), text),
        Err(_) => assert!(rt; false, "no memory"),
    }
}

/// That a message has no room in 4,096 bytes.
#[tactic(auto, using(kad_krpc::proofs::Writable::writable_forms, kad_krpc::proofs::Writable::writable_immutable))]
fn overflows(rt: &impl Abort, message: &Message)
    requires { IsWritable message.now }
{
    let mut room = [0u8; 4096];
    assert!(rt; encode_into(message, &mut room).is_none());
}

/// That a datagram is read, and the message that it is fits and is written again in both ways, or doesn't fit.
fn is_read(rt: &impl Abort, alloc: Global, text: &[u8], fits: bool) {
    match decode(alloc, text) {
        Ok(message) => {
            let mutable = is_mutable(&message);
            assert!(rt; !mutable);
            said_is_writable();
            if fits {
                writes(rt, alloc, &message, text);
            } else {
                overflows(rt, &message);
            }
        }
        Err(_) => assert!(rt; false, "refused"),
    }
}

/// That a datagram is read, and the message that it is written again in both ways.
pub(crate) fn again(rt: &impl Abort, alloc: Global, text: &[u8]) {
    is_read(rt, alloc, text, true);
}

/// That a datagram is read, and has no room in 4,096 bytes.
pub(crate) fn has_no_room(rt: &impl Abort, alloc: Global, text: &[u8]) {
    is_read(rt, alloc, text, false);
}

/// That a datagram says this, and the message that says it is written so.
pub(crate) fn both_ways(rt: &impl Abort, alloc: Global, row: &Row) {
    let (text, said) = row;
    reads(rt, alloc, text, said);
    again(rt, alloc, text);
}

/// That a datagram says this.
pub(crate) fn one_way(rt: &impl Abort, alloc: Global, row: &Row) {
    let (text, said) = row;
    reads(rt, alloc, text, said);
}

pub(crate) fn refuses(rt: &impl Abort, alloc: Global, text: &[u8], fault: KrpcFault) {
    match decode(alloc, text) {
        Ok(_) => assert!(rt; false, "read"),
        Err(found) => assert_eq!(rt; found, fault),
    }
    match decode_view(text) {
        Ok(_) => assert!(rt; false, "seen"),
        Err(found) => assert_eq!(rt; found, fault),
    }
}

/// That each of these datagrams is refused so.
pub(crate) fn all_refused(rt: &impl Abort, alloc: Global, rows: &[(&[u8], KrpcFault)]) {
    for (text, fault) in rows {
        refuses(rt, alloc, text, *fault);
    }
}
