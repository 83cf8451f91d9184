//! What a node of the network answers to a datagram, and when.
ghost use Rattle.std.specs.Prelude.{◌≡◌, ◌%◌, ◌<◌, ◌≤◌, ℕ, List, map, codes, IfOk, IfSome, Some, None, option_to_list};
ghost use Rattle.kad_base.specs.declared.types.Id.{Id};
ghost use Rattle.kad_krpc.specs.Views.{ask_seen, message_seen};
ghost use Rattle.fake_net.specs.Network.{numbers};
ghost use Rattle.fake_net.specs.Replies.{SaysFindNode, asked_for, find_node_of, lent_query, misconduct, conduct_of, invented, naming, reply_of, comes_at, on_its_way, BringsAbout};

use crate::nodes::{Nodes, address_of};
use crate::waiting::Waiting;
use kad_base::{Addr, Bytes, Contact, Contacts, Id, Ip, List, NoMemory};
use kad_krpc::{Answer, AskView, Message, View, decode_view, encode};
use std::alloc::Global;

/// How many contacts a node invents.
const INVENTED: u8 = 16;

/// What a node does with a query.
#[derive(Clone, Copy, Debug, PartialEq, Eq)]
pub enum Conduct {
    /// Names the closest nodes that it knows.
    Honest,
    /// Names contacts near the target where nobody is.
    Inventing,
    /// Answers nothing.
    Silent,
    /// Answers as an honest node, in the name of the target.
    Posing,
    /// Answers with an error message.
    Failing,
}

/// What a hostile node does, by its number.
fn misconduct(i: u32) -> Conduct
    ensures { result ≡ misconduct (i % 4) }
{
    match i % 4 {
        0 => Conduct::Inventing,
        1 => Conduct::Silent,
        2 => Conduct::Posing,
        _ => Conduct::Failing,
    }
}

fn conduct_of(nodes: &Nodes, i: u32) -> Conduct
    ensures { result ≡ conduct_of nodes.now.hostile i }
{
    if nodes.is_hostile(i) {
        return misconduct(i);
    }
    Conduct::Honest
}

/// Contact `r` that node `i` invents near the target.
fn invented(target: &Id, i: u32, r: u8) -> Contact
    requires i { i < 20000 }
    requires r { r < 16 }
    ensures { result ≡ invented target.now i r }
{
    let low = (i % 256) as u8;
    let mut id = *target;
    id.0[18] ^= low;
    id.0[19] ^= r + 1;
    Contact {
        id,
        addr: Addr {
            ip: Ip::V4([127, (i / 256) as u8, low, r]),
            port: 1,
        },
    }
}

/// All contacts that node `i` invents near the target.
fn all_invented(alloc: Global, target: &Id, i: u32) -> Result<Contacts, NoMemory>
    requires { i < 20000 }
    ensures { IfOk result (λ contacts. contacts ≡ map (invented target.now i) (numbers 16)) }
{
    let mut contacts = List::new(alloc);
    for r in 0..INVENTED {
        contacts.push(invented(target, i, r))?;
    }
    Ok(contacts)
}

/// An answer that names contacts.
fn naming(tx: Bytes, id: Id, nodes: Contacts) -> Message
    ensures { result ≡ naming tx id nodes }
{
    Message::Answer {
        tx,
        answer: Answer {
            id,
            nodes: Some(nodes),
            snodes: None,
            nodes6: None,
            snodes6: None,
            token: None,
            v: None,
            values: None,
        },
    }
}

/// What node `i` says to a query for the target, if anything.
fn reply(
    alloc: Global,
    nodes: &Nodes,
    i: u32,
    tx: Bytes,
    target: &Id,
) -> Result<Option<Message>, NoMemory>
    requires node { i < nodes.now.count }
    requires few { nodes.now.count ≤ 20000 }
    ensures { IfOk result (λ said. said ≡ reply_of nodes.now i tx target.now) }
{
    match conduct_of(nodes, i) {
        Conduct::Honest => {
            let near = nodes.closest_known(alloc, i, target)?;
            Ok(Some(naming(tx, nodes.id(i), near)))
        }
        Conduct::Inventing => {
            let contacts = all_invented(alloc, target, i)?;
            Ok(Some(naming(tx, nodes.id(i), contacts)))
        }
        Conduct::Silent => Ok(None),
        Conduct::Posing => {
            let near = nodes.closest_known(alloc, i, target)?;
            Ok(Some(naming(tx, *target, near)))
        }
        Conduct::Failing => Ok(Some(Message::Fault {
            tx,
            code: 202,
            text: List::from_slice(alloc, b"Server Error")?,
        })),
    }
}

/// When an answer of node `i` comes to what was sent at the moment: 10 to 49 milliseconds later, by the node's number, and
/// at the last moment of all if the sum is past it.
fn comes_at(moment: u64, i: u32) -> u64
    ensures { result ≡ comes_at moment i }
{
    moment.saturating_add(u64::from(10 + i % 40))
}

/// The answer of node `i` to a query, on its way, if it answers.
fn answer_of(
    alloc: Global,
    nodes: &Nodes,
    moment: u64,
    i: u32,
    tx: &[u8],
    target: &Id,
) -> Result<Option<Waiting>, NoMemory>
    requires node { i < nodes.now.count }
    requires few { nodes.now.count ≤ 20000 }
    ensures { IfOk result (λ answer. option_to_list answer ≡ on_its_way moment i
        (reply_of nodes.now i tx.now target.now)) }
{
    let tx = List::from_slice(alloc, tx)?;
    match reply(alloc, nodes, i, tx, target)? {
        Some(message) => {
            let bytes = encode(alloc, &message)?;
            Ok(Some(Waiting {
                at: comes_at(moment, i),
                from: address_of(i),
                bytes,
            }))
        }
        None => Ok(None),
    }
}

/// The transaction id and the target, where the query is `find_node`.
fn asked_for<'a>(tx: &'a [u8], ask: AskView<'a>) -> Option<(&'a [u8], Id)>
    ensures { lent_query result ≡ asked_for tx.now (ask_seen ask.entry) }
{
    match ask {
        AskView::Ping { .. } => None,
        AskView::FindNode { target, .. } => Some((tx, target)),
        AskView::GetPeers { .. } => None,
        AskView::AnnouncePeer { .. } => None,
        AskView::Get { .. } => None,
        AskView::Put { .. } => None,
        AskView::Other { .. } => None,
    }
}

/// The transaction id and the target of a `find_node` query.
fn find_node_of<'a>(view: View<'a>) -> Option<(&'a [u8], Id)>
    ensures { lent_query result ≡ find_node_of (message_seen view.entry) }
{
    match view {
        View::Query { tx, ask, .. } => asked_for(tx, ask),
        View::Answer { .. } => None,
        View::Fault { .. } => None,
    }
}

/// The transaction id and the target of the `find_node` query that the bytes say, if they say one. Takes no memory.
fn find_node_in(bytes: &[u8]) -> Option<(&[u8], Id)>
    ensures some { IfSome (lent_query result) (λ q. SaysFindNode bytes.now q.0 q.1) }
    ensures only { (tx : List ℕ) (target : Id) → SaysFindNode bytes.now tx target
        → lent_query result ≡ Some (tx, target) }
{
    match decode_view(bytes) {
        Ok(view) => find_node_of(view),
        Err(_) => None,
    }
}

/// The answer that a datagram to an address brings about, if one. Takes memory only for the answer.
pub(crate) fn answer(
    alloc: Global,
    nodes: &Nodes,
    moment: u64,
    to: &Addr,
    bytes: &[u8],
) -> Result<Option<Waiting>, NoMemory>
    ensures { IfOk result (λ answer. BringsAbout nodes.now moment to.now bytes.now
        (option_to_list answer)) }
{
    let Some(i) = nodes.number_at(to) else {
        return Ok(None);
    };
    match find_node_in(bytes) {
        Some((tx, target)) => answer_of(alloc, nodes, moment, i, tx, &target),
        None => Ok(None),
    }
}
