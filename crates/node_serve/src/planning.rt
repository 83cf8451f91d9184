//! What a query wants, before anything is asked for it.
ghost use Rattle.std.specs.Prelude.{◌≡◌, ◌≤◌, true, false, cond, length, IfOk};
ghost use Rattle.item_store.specs.Items.{max_length};
ghost use Rattle.kad_bencode.specs.Spelling.{text_of};
ghost use Rattle.kad_krpc.specs.Form.{IsCarried};
ghost use Rattle.kad_krpc.specs.Records.{ip_bytes};
ghost use Rattle.kad_krpc.specs.Views.{ask_seen};
ghost use Rattle.node_serve.specs.Replies.{point_for, peer_for};
ghost use Rattle.node_serve.specs.Calls.{is_accepted};
ghost use Rattle.node_serve.specs.Asked.{IsSaid};
ghost use Rattle.node_serve.specs.Gains.{KeepsItem, put_wants, wants_of};
ghost use Rattle.node_serve.specs.declared.planning.Wants.{Wants};

use crate::asked::Asked;
use crate::setting::ServeSetting;
use item_store::MAX_ITEM;
use kad_base::{Addr, Bytes, Id, NoMemory};
use kad_bencode::Piece;
use kad_krpc::{AskView, Port};
use node_tokens::Tokens;
use std::alloc::Global;

/// What a query wants of the table, the peers and the items.
#[derive(Debug, Drop, PartialEq, Eq)]
pub enum Wants {
    /// The node's identifier alone.
    Name,
    /// The nodes that are closest to the target.
    Nodes { target: Id },
    /// The peers of the key, and the nodes that are closest to it. Where the peers have a limit of one host, the list begins
    /// at this point.
    Peers { key: Id, first: [u8; 4] },
    /// That the peer is held under the key.
    Place { key: Id, peer: Addr },
    /// The item of the key, and the nodes that are closest to it.
    Item { key: Id },
    /// That the item with this written form, which came from the address, is held.
    Keep { v: Bytes, from: Addr },
    /// Nothing: its token isn't one of its source.
    RefuseToken,
    /// Nothing: its item is mutable.
    RefuseMutable,
    /// Nothing: its item's written form has more than 1,000 bytes.
    RefuseBig,
    /// Nothing: its method isn't known.
    RefuseMethod,
}

/// Whether the token is one of the address.
fn is_token_of(tokens: &Tokens, ip: [u8; 4], at: u64, token: &[u8]) -> bool
    ensures { result ≡ is_accepted tokens.now ip at token.now }
{
    tokens.accepts(ip, at, token)
}

/// What a query for peers wants. The point is drawn for whoever asks.
fn plan_peers(tokens: &Tokens, asked: &Asked, at: u64, key: Id) -> Wants
    requires { ip_bytes asked.now.from.ip ≡ asked.now.ip }
    ensures { result ≡ Wants.Peers key (point_for tokens.now asked.now.from at key) }
{
    let first = tokens.point(asked.ip, at, &key);
    Wants::Peers { key, first }
}

/// The peer that is announced.
fn peer_of(from: Addr, port: Port) -> Addr
    ensures { result ≡ peer_for from port }
{
    match port {
        Port::Given(port) => Addr { ip: from.ip, port },
        Port::Implied => from,
    }
}

/// What an announcement wants.
fn plan_announced(
    tokens: &Tokens,
    asked: &Asked,
    at: u64,
    key: Id,
    port: Port,
    token: &[u8],
) -> Wants
    requires { ip_bytes asked.now.from.ip ≡ asked.now.ip }
    ensures { result ≡ cond (is_accepted tokens.now (ip_bytes asked.now.from.ip) at token.now)
        (Wants.Place key (peer_for asked.now.from port)) Wants.RefuseToken }
{
    if !is_token_of(tokens, asked.ip, at, token) {
        return Wants::RefuseToken;
    }
    let peer = peer_of(asked.from, port);
    Wants::Place { key, peer }
}

/// What an item of this written form wants, if it is immutable and its token is accepted.
fn plan_item(v: Bytes, from: Addr) -> Wants
    requires carried { IsCarried v }
    requires short { length v ≤ max_length }
    ensures wants { result ≡ put_wants true false v from }
    ensures item { KeepsItem result }
{
    Wants::Keep { v, from }
}

/// What a put wants. Its token is looked at first, then how long its value is, and only then the value is written.
fn plan_put(
    alloc: Global,
    tokens: &Tokens,
    asked: &Asked,
    at: u64,
    token: &[u8],
    v: &Piece,
    mutable: bool,
) -> Result<Wants, NoMemory>
    requires ip { ip_bytes asked.now.from.ip ≡ asked.now.ip }
    requires form { mutable ≡ false → IsCarried (text_of v.now) }
    ensures wants { IfOk result (λ w. w ≡ put_wants
        (is_accepted tokens.now (ip_bytes asked.now.from.ip) at token.now) mutable
        (text_of v.now) asked.now.from) }
    ensures item { IfOk result KeepsItem }
{
    let accepted = is_token_of(tokens, asked.ip, at, token);
    if !accepted {
        return Ok(Wants::RefuseToken);
    }
    if mutable {
        return Ok(Wants::RefuseMutable);
    }
    if v.written_len() > MAX_ITEM {
        return Ok(Wants::RefuseBig);
    }
    let form = v.written(alloc)?;
    Ok(plan_item(form, asked.from))
}

/// What a query that came at this moment, in milliseconds, wants. It makes no call. Only an item that is put, and isn't
/// refused by its token, as mutable or for its length, takes memory: its written form is made.
#[inline(always)]
pub(crate) fn plan(
    alloc: Global,
    setting: &ServeSetting,
    asked: &Asked,
    at: u64,
) -> Result<Wants, NoMemory>
    requires ip { ip_bytes asked.now.from.ip ≡ asked.now.ip }
    requires said { IsSaid (ask_seen asked.now.ask) }
    ensures wants { IfOk result (λ w. w ≡
        wants_of setting.now asked.now.from at (ask_seen asked.now.ask)) }
    ensures item { IfOk result KeepsItem }
{
    match &asked.ask {
        AskView::Ping { .. } => Ok(Wants::Name),
        AskView::FindNode { target, .. } => Ok(Wants::Nodes { target: *target }),
        AskView::GetPeers { info_hash, .. } => Ok(plan_peers(
            &setting.tokens,
            asked,
            at,
            *info_hash,
        )),
        AskView::AnnouncePeer {
            info_hash,
            port,
            token,
            ..
        } => Ok(plan_announced(&setting.tokens, asked, at, *info_hash, *port, token)),
        AskView::Get { target, .. } => Ok(Wants::Item { key: *target }),
        AskView::Put {
            token,
            v,
            mutable,
            ..
        } => plan_put(alloc, &setting.tokens, asked, at, token, v, *mutable),
        AskView::Other { .. } => Ok(Wants::RefuseMethod),
    }
}
