//! A message in memory of its own, made of a view.
ghost use Rattle.std.specs.Prelude.{◌≡◌, ◌++◌, option_copied, option_map, option_to_list, IfOk, OnOk};
ghost use Rattle.kad_bencode.specs.Parts.{bytes_of};
ghost use Rattle.kad_bencode.specs.Spelling.{text_of};
ghost use Rattle.kad_krpc.specs.Fields.{peer_of, peer_in, peers_among, peers_in};
ghost use Rattle.kad_krpc.specs.Views.{message_seen};

use crate::answer::own_answer;
use crate::ask::own_ask;
use crate::borrowed::View;
use crate::message::Message;
use crate::sender::proof_in;
use kad_base::{Addr, Addrs, Bytes, List, NoMemory};
use kad_bencode::{Items, Piece};
use kad_records::{Record, Records, read_addr, read_addr6, with_room};
use std::alloc::Global;

/// How long the text of a peer is at least: `6:` and six bytes.
const PEER: usize = 8;

/// The peer of a string of 6 bytes (BEP 5), or of 18 (BEP 32).
fn peer(bytes: &[u8]) -> Option<Addr>
    ensures { result ≡ peer_of bytes.now }
{
    match bytes.len() {
        6 => Some(read_addr(bytes, 0)),
        18 => Some(read_addr6(bytes, 0)),
        _ => None,
    }
}

/// Appends the peer of a value, if it is a string of one.
fn push_peer(peers: &mut Addrs, value: &Piece) -> Result<(), NoMemory>
    ensures { OnOk result (peers.new ≡ peers.old ++ option_to_list (peer_in (bytes_of value.now))) }
{
    match value.as_bytes() {
        Some(bytes) => match peer(bytes) {
            Some(peer) => peers.push(peer),
            None => Ok(()),
        },
        None => Ok(()),
    }
}

/// Appends the peers among the values, in order: of each that is a string of 6 or 18 bytes one.
pub fn push_peers(peers: &mut Addrs, mut values: Items) -> Result<(), NoMemory>
    ensures { OnOk result (peers.new ≡ peers.old ++ peers_among values.entry) }
{
    while let Some(value) = values.next() {
        push_peer(peers, &value)?;
    }
    Ok(())
}

/// The peers among the values, in order. There is room for as many as their text may hold.
fn peers_of(alloc: Global, values: Items) -> Result<Addrs, NoMemory>
    ensures { IfOk result (λ peers. peers ≡ peers_among values.entry) }
{
    let mut peers = with_room(alloc, values.text_len() / PEER)?;
    push_peers(&mut peers, values)?;
    Ok(peers)
}

/// What records say, if there are any.
pub(crate) fn maybe_records<R: Record>(
    alloc: Global,
    records: Option<Records<R>>,
) -> Result<Option<List<R::Item>>, NoMemory>
    ensures { IfOk result (λ o. o ≡ records.entry) }
{
    match records {
        Some(records) => Ok(Some(records.to_list(alloc)?)),
        None => Ok(None),
    }
}

pub(crate) fn maybe_text(alloc: Global, text: Option<&[u8]>) -> Result<Option<Bytes>, NoMemory>
    ensures { IfOk result (λ o. o ≡ option_copied text.entry) }
{
    match text {
        Some(text) => Ok(Some(List::from_slice(alloc, text)?)),
        None => Ok(None),
    }
}

/// The written form of a value, if there is one.
pub(crate) fn maybe_form(alloc: Global, value: Option<Piece>) -> Result<Option<Bytes>, NoMemory>
    ensures { IfOk result (λ o. o ≡ option_map text_of value.entry) }
{
    match value {
        Some(value) => Ok(Some(value.written(alloc)?)),
        None => Ok(None),
    }
}

pub(crate) fn maybe_peers(alloc: Global, values: Option<Items>) -> Result<Option<Addrs>, NoMemory>
    ensures { IfOk result (λ o. o ≡ peers_in values.entry) }
{
    match values {
        Some(values) => Ok(Some(peers_of(alloc, values)?)),
        None => Ok(None),
    }
}

/// The message that a view is of.
pub(crate) fn message_of(alloc: Global, view: View) -> Result<Message, NoMemory>
    ensures { IfOk result (λ m. m ≡ message_seen view.entry) }
{
    match view {
        View::Query {
            tx,
            read_only,
            arguments,
            ask,
        } => {
            let tx = List::from_slice(alloc, tx)?;
            let proof = proof_in(&arguments);
            let ask = own_ask(alloc, ask)?;
            Ok(Message::Query {
                tx,
                read_only,
                proof,
                ask,
            })
        }
        View::Answer { tx, answer } => {
            let tx = List::from_slice(alloc, tx)?;
            let answer = own_answer(alloc, answer)?;
            Ok(Message::Answer { tx, answer })
        }
        View::Fault { tx, code, text } => {
            let tx = List::from_slice(alloc, tx)?;
            let text = List::from_slice(alloc, text)?;
            Ok(Message::Fault { tx, code, text })
        }
    }
}
