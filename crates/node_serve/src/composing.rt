//! The reply to a query, from what its calls gave.
ghost use Rattle.std.specs.Prelude.{◌≡◌, IfOk, OnErr};
ghost use Rattle.kad_krpc.specs.Records.{ip_bytes};
ghost use Rattle.node_serve.specs.Calls.{found_from, item_from, peers_from, tokened_from};
ghost use Rattle.node_serve.specs.Gains.{MayFail, reply_gained};

use crate::asked::Asked;
use crate::nodes::{Near, Parts, parts_of};
use crate::reply::{
    name, refuse_big, refuse_full, refuse_method, refuse_mutable, refuse_token, some_peers,
};
use crate::setting::ServeSetting;
use aged_map::Stored;
use kad_base::{Addrs, Bytes, List, NoMemory};
use kad_krpc::{Answer, Message};
use std::alloc::Global;

/// What the calls of a query gave.
#[derive(Debug, Drop)]
pub enum Gained {
    /// The node's identifier alone is wanted.
    Name,
    /// The closest contacts.
    Nodes { nodes: Near },
    /// The peers of the key, and the closest contacts.
    Peers { list: Addrs, nodes: Near },
    /// The peer is held.
    Placed { stored: Stored },
    /// The peer has no place: as many of its host are held as may be.
    HostFull,
    /// The peer has no place.
    Full,
    /// The item of the key, where one is handed out, and the closest contacts.
    Item { v: Option<Bytes>, nodes: Near },
    /// The item is held.
    Kept { stored: Stored },
    /// The item has no place: as many that its host put are held as may be.
    HostCrowded,
    /// The item has no place.
    Crowded,
    /// The token isn't one of its source.
    RefuseToken,
    /// The item is mutable.
    RefuseMutable,
    /// The item's written form is too long.
    RefuseBig,
    /// The method isn't known.
    RefuseMethod,
}

/// The reply to a `find_node`.
fn found(
    alloc: Global,
    setting: &ServeSetting,
    tx: Bytes,
    closest: Near,
) -> Result<Message, NoMemory>
    ensures { IfOk result (λ m. m ≡ found_from tx setting.now closest) }
{
    let Parts { nodes, snodes } = parts_of(alloc, setting.proofs.as_slice(), closest)?;
    let answer = Answer {
        id: setting.own,
        nodes: Some(nodes),
        snodes,
        nodes6: None,
        snodes6: None,
        token: None,
        v: None,
        values: None,
    };
    Ok(Message::Answer { tx, answer })
}

/// An answer that names nodes, with a token for whoever asks, and a value or peers.
#[inline(always)]
fn tokened(
    alloc: Global,
    setting: &ServeSetting,
    asked: &Asked,
    at: u64,
    closest: Near,
    v: Option<Bytes>,
    values: Option<Addrs>,
) -> Result<Answer, NoMemory>
    requires { ip_bytes asked.now.from.ip ≡ asked.now.ip }
    ensures { IfOk result (λ a. a ≡
        tokened_from setting.now asked.now.from at closest v values) }
{
    let Parts { nodes, snodes } = parts_of(alloc, setting.proofs.as_slice(), closest)?;
    let token = List::from_slice(alloc, &setting.tokens.make(asked.ip, at))?;
    Ok(Answer {
        id: setting.own,
        nodes: Some(nodes),
        snodes,
        nodes6: None,
        snodes6: None,
        token: Some(token),
        v,
        values,
    })
}

/// The reply to a `get_peers`.
fn peers_found(
    alloc: Global,
    setting: &ServeSetting,
    asked: &Asked,
    at: u64,
    tx: Bytes,
    list: Addrs,
    closest: Near,
) -> Result<Message, NoMemory>
    requires { ip_bytes asked.now.from.ip ≡ asked.now.ip }
    ensures { IfOk result (λ m. m ≡ peers_from tx setting.now asked.now.from at list closest) }
{
    let answer = tokened(alloc, setting, asked, at, closest, None, some_peers(list))?;
    Ok(Message::Answer { tx, answer })
}

/// The reply to a `get`.
fn item_found(
    alloc: Global,
    setting: &ServeSetting,
    asked: &Asked,
    at: u64,
    tx: Bytes,
    v: Option<Bytes>,
    closest: Near,
) -> Result<Message, NoMemory>
    requires { ip_bytes asked.now.from.ip ≡ asked.now.ip }
    ensures { IfOk result (λ m. m ≡ item_from tx setting.now asked.now.from at v closest) }
{
    let answer = tokened(alloc, setting, asked, at, closest, v, None)?;
    Ok(Message::Answer { tx, answer })
}

/// The reply to a query that came at this moment, under its transaction id, from what its calls gave. It makes no call.
#[inline(always)]
pub(crate) fn compose(
    alloc: Global,
    setting: &ServeSetting,
    asked: &Asked,
    at: u64,
    tx: Bytes,
    gained: Gained,
) -> Result<Message, NoMemory>
    requires { ip_bytes asked.now.from.ip ≡ asked.now.ip }
    ensures message { IfOk result (λ m. m ≡
        reply_gained setting.now asked.now.from at tx gained) }
    ensures err { OnErr result (MayFail gained) }
{
    match gained {
        Gained::Name => Ok(name(tx, setting.own)),
        Gained::Nodes { nodes } => found(alloc, setting, tx, nodes),
        Gained::Peers { list, nodes } => peers_found(alloc, setting, asked, at, tx, list, nodes),
        Gained::Placed { .. } => Ok(name(tx, setting.own)),
        Gained::HostFull => refuse_full(alloc, tx),
        Gained::Full => refuse_full(alloc, tx),
        Gained::Item { v, nodes } => item_found(alloc, setting, asked, at, tx, v, nodes),
        Gained::Kept { .. } => Ok(name(tx, setting.own)),
        Gained::HostCrowded => refuse_full(alloc, tx),
        Gained::Crowded => refuse_full(alloc, tx),
        Gained::RefuseToken => refuse_token(alloc, tx),
        Gained::RefuseMutable => refuse_mutable(alloc, tx),
        Gained::RefuseBig => refuse_big(alloc, tx),
        Gained::RefuseMethod => refuse_method(alloc, tx),
    }
}
