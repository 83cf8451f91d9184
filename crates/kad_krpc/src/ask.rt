//! What a query asks, by its method: each method and its arguments are read, written, copied and told of here.
ghost use Rattle.std.specs.Prelude.{◌≡◌, [], ◌++◌, codes, IfOk};
ghost use Rattle.kad_bencode.specs.Parts.{member_of};
ghost use Rattle.kad_bencode.specs.Spelling.{text_of};
ghost use Rattle.kad_bencode.specs.Written.{Puts, PutsPairs};
ghost use Rattle.kad_bencode.specs.declared.value.Value.TheVariants as value;
ghost use Rattle.kad_krpc.specs.declared.message.Key.{Key};
ghost use Rattle.kad_krpc.specs.declared.message.Method.{Method};
ghost use Rattle.kad_krpc.specs.Fields.{needed, id_of, pair, IsCarried};
ghost use Rattle.kad_krpc.specs.Asking.{is_word, names, want_of, want_pair, two_ids, port_by, announced_by, announce_peer_at, put_by, put_at, asked_at, arguments_at, ask_of, arguments_read, method_in, is_read_only, is_implied, announced, proof_pair, put_pairs, arguments_of, name_of, CarriesForm, read_only_pair, ask_seen, ask_outcome, IsWellPort, IsWellAsk};
ghost use Rattle.kad_records.specs.Records.{IsWellId};

use crate::fields::{
    needed_dict, needed_id, needed_port, needed_text, needed_value, optional_int, put_form, put_id,
    put_number, put_text,
};
use crate::members::{keys, members};
use crate::message::{Ask, Key, KrpcFault, Method, Port, Want};
use crate::sender::put_proof;
use kad_base::{Id, List, NoMemory, Proof};
use kad_bencode::{Piece, put_part};
use kad_records::law_id;
use std::alloc::Global;

/// What a query asks, as `Ask` does.
#[derive(Drop)]
pub enum AskView<'a> {
    Ping {
        id: Id,
    },
    FindNode {
        id: Id,
        target: Id,
        want: Want,
    },
    GetPeers {
        id: Id,
        info_hash: Id,
        want: Want,
    },
    AnnouncePeer {
        id: Id,
        info_hash: Id,
        port: Port,
        token: &'a [u8],
    },
    Get {
        id: Id,
        target: Id,
        want: Want,
    },
    Put {
        id: Id,
        token: &'a [u8],
        v: Piece<'a>,
        mutable: bool,
    },
    Other {
        method: &'a [u8],
    },
}

/// Whether the query's node says that it answers none (BEP 43).
pub(crate) fn read_only(value: Option<Piece>) -> bool
    ensures { result ≡ is_read_only value.entry }
{
    match value {
        None => false,
        Some(value) => value.as_int() == Some(1),
    }
}

/// Whether the port is implied: by any number but 0.
fn is_implied(number: Option<i64>) -> bool
    ensures { result ≡ is_implied number }
{
    match number {
        Some(number) => number != 0,
        None => false,
    }
}

/// The port that is announced. `port` is read only if it isn't implied.
fn read_port(implied_port: Option<Piece>, port: Option<Piece>) -> Result<Port, KrpcFault>
    ensures { result ≡ port_by implied_port.entry port.entry }
{
    if is_implied(optional_int(implied_port, Key::ImpliedPort)?) {
        return Ok(Port::Implied);
    }
    let number = needed_port(port, Key::Port)?;
    Ok(Port::Given(number))
}

/// Whether a value is this word.
fn is_word(value: &Piece, word: &[u8]) -> bool
    ensures { result ≡ is_word word.now value.now }
{
    match value.as_bytes() {
        Some(bytes) => bytes == word,
        None => false,
    }
}

/// Whether a value is a list that this word is among.
fn names(value: &Piece, word: &[u8]) -> bool
    ensures { result ≡ names word.now value.now }
{
    let Some(mut items) = value.items() else {
        return false;
    };
    while let Some(item) = items.next() {
        if is_word(&item, word) {
            return true;
        }
    }
    false
}

/// Whose contacts are wanted; another kind of value says nothing.
fn read_want(value: Option<Piece>) -> Want
    ensures { result ≡ want_of value.entry }
{
    match value {
        None => Want {
            four: false,
            six: false,
        },
        Some(value) => Want {
            four: names(&value, b"n4"),
            six: names(&value, b"n6"),
        },
    }
}

/// The values of `id`, of a key and of `want`, found in one pass. The call is inlined, since the key is known there.
#[inline(always)]
fn sought<'a>(
    a: &Piece<'a>,
    key: &'a [u8],
) -> (Option<Piece<'a>>, Option<Piece<'a>>, Option<Piece<'a>>)
    ensures id { result.0 ≡ member_of a.now (codes "id") }
    ensures sought { result.1 ≡ member_of a.now key.now }
    ensures want { result.2 ≡ member_of a.now (codes "want") }
{
    let (id, slots) = members(a, keys!(b"id", key, b"want")).take();
    let (sought, slots) = slots.take();
    let (want, _) = slots.take();
    (id, sought, want)
}

fn read_find_node<'a>(a: &Piece<'a>) -> Result<AskView<'a>, KrpcFault>
    ensures { ask_outcome result ≡ asked_at Method.FindNode (member_of a.now) }
{
    let (id, target, want) = sought(a, b"target");
    let id = needed_id(id, Key::Id)?;
    let target = needed_id(target, Key::Target)?;
    let want = read_want(want);
    Ok(AskView::FindNode { id, target, want })
}

fn read_get_peers<'a>(a: &Piece<'a>) -> Result<AskView<'a>, KrpcFault>
    ensures { ask_outcome result ≡ asked_at Method.GetPeers (member_of a.now) }
{
    let (id, info_hash, want) = sought(a, b"info_hash");
    let id = needed_id(id, Key::Id)?;
    let info_hash = needed_id(info_hash, Key::InfoHash)?;
    let want = read_want(want);
    Ok(AskView::GetPeers {
        id,
        info_hash,
        want,
    })
}

fn read_announced<'a>(
    id: Id,
    info_hash: Option<Piece<'a>>,
    token: Option<Piece<'a>>,
    implied_port: Option<Piece<'a>>,
    port: Option<Piece<'a>>,
) -> Result<AskView<'a>, KrpcFault>
    ensures { ask_outcome result ≡ announced_by id info_hash.entry token.entry implied_port.entry
        port.entry }
{
    let info_hash = needed_id(info_hash, Key::InfoHash)?;
    let token = needed_text(token, Key::Token)?;
    let port = read_port(implied_port, port)?;
    Ok(AskView::AnnouncePeer {
        id,
        info_hash,
        port,
        token,
    })
}

fn read_announce_peer<'a>(a: &Piece<'a>, id: Id) -> Result<AskView<'a>, KrpcFault>
    ensures { ask_outcome result ≡ announce_peer_at (member_of a.now) id }
{
    read_announced(
        id,
        a.get(b"info_hash"),
        a.get(b"token"),
        a.get(b"implied_port"),
        a.get(b"port"),
    )
}

fn read_get<'a>(a: &Piece<'a>) -> Result<AskView<'a>, KrpcFault>
    ensures { ask_outcome result ≡ asked_at Method.Get (member_of a.now) }
{
    let (id, target, want) = sought(a, b"target");
    let id = needed_id(id, Key::Id)?;
    let target = needed_id(target, Key::Target)?;
    let want = read_want(want);
    Ok(AskView::Get { id, target, want })
}

/// What is put. It is mutable if there is a `k`, of any kind.
fn read_putting<'a>(
    id: Id,
    token: Option<Piece<'a>>,
    v: Option<Piece<'a>>,
    k: Option<Piece<'a>>,
) -> Result<AskView<'a>, KrpcFault>
    ensures { ask_outcome result ≡ put_by id token.entry v.entry k.entry }
{
    let token = needed_text(token, Key::Token)?;
    let v = needed_value(v, Key::V)?;
    let mutable = k.is_some();
    Ok(AskView::Put {
        id,
        token,
        v,
        mutable,
    })
}

fn read_put<'a>(a: &Piece<'a>, id: Id) -> Result<AskView<'a>, KrpcFault>
    ensures { ask_outcome result ≡ put_at (member_of a.now) id }
{
    read_putting(id, a.get(b"token"), a.get(b"v"), a.get(b"k"))
}

/// The method of that name.
fn method_of(name: &[u8]) -> Option<Method>
    ensures { result ≡ method_in name.now }
{
    if name == b"ping".as_slice() {
        return Some(Method::Ping);
    }
    if name == b"find_node".as_slice() {
        return Some(Method::FindNode);
    }
    if name == b"get_peers".as_slice() {
        return Some(Method::GetPeers);
    }
    if name == b"announce_peer".as_slice() {
        return Some(Method::AnnouncePeer);
    }
    if name == b"get".as_slice() {
        return Some(Method::Get);
    }
    if name == b"put".as_slice() {
        return Some(Method::Put);
    }
    None
}

/// Who asks.
#[inline(always)]
fn asker(a: &Piece) -> Result<Id, KrpcFault>
    ensures { result ≡ needed id_of Key.Id (member_of a.now (codes "id")) }
{
    needed_id(a.get(b"id"), Key::Id)
}

/// Who asks, and what the method asks.
fn read_by<'a>(method: Method, a: &Piece<'a>) -> Result<AskView<'a>, KrpcFault>
    ensures { ask_outcome result ≡ asked_at method (member_of a.now) }
{
    match method {
        Method::Ping => Ok(AskView::Ping { id: asker(a)? }),
        Method::FindNode => read_find_node(a),
        Method::GetPeers => read_get_peers(a),
        Method::AnnouncePeer => read_announce_peer(a, asker(a)?),
        Method::Get => read_get(a),
        Method::Put => read_put(a, asker(a)?),
    }
}

/// The same value, where it stands, if it is there.
fn copied<'a>(value: &Option<Piece<'a>>) -> Option<Piece<'a>>
    ensures { result ≡ value.now }
{
    match value {
        Some(value) => Some(value.copied()),
        None => None,
    }
}

/// The arguments of a method.
fn read_arguments<'a>(
    method: Method,
    arguments: &Option<Piece<'a>>,
) -> Result<AskView<'a>, KrpcFault>
    ensures { ask_outcome result ≡ arguments_at method arguments.now }
{
    let a = needed_dict(copied(arguments), Key::A)?;
    read_by(method, &a)
}

/// What a query asks. The arguments of a method that isn't known are not read.
pub(crate) fn read_ask<'a>(
    name: &'a [u8],
    arguments: &Option<Piece<'a>>,
) -> Result<AskView<'a>, KrpcFault>
    ensures { ask_outcome result ≡ ask_of name.now arguments.now }
{
    match method_of(name) {
        Some(method) => read_arguments(method, arguments),
        None => Ok(AskView::Other { method: name }),
    }
}

/// The arguments that stay with a query; those of a method that isn't known are not read.
pub(crate) fn kept_arguments<'a>(ask: &AskView, arguments: Option<Piece<'a>>) -> Option<Piece<'a>>
    ensures { result ≡ arguments_read (ask_seen ask.now) arguments.entry }
{
    match ask {
        AskView::Other { .. } => None,
        _ => arguments,
    }
}

/// Puts the arguments of an `announce_peer`. A port is always written; an implied one is 1.
#[inline(always)]
fn put_announced(
    buf: &mut [u8],
    at: usize,
    proof: &Option<Proof>,
    id: &Id,
    info_hash: &Id,
    port: Port,
    token: &[u8],
) -> usize
    ensures { Puts buf.old buf.new at (text_of
        (value.Dict (announced proof.now id.now info_hash.now port token.now))) result }
{
    match port {
        Port::Given(number) => {
            let at = put_id(buf, at, id);
            let at = put_text(buf, at, b"info_hash", &info_hash.0);
            let at = put_number(buf, at, b"port", number as i64);
            let at = put_proof(buf, at, proof);
            let at = put_text(buf, at, b"token", token);
            put_part(buf, at, b"e")
        }
        Port::Implied => {
            let at = put_id(buf, at, id);
            let at = put_part(buf, at, b"12:implied_porti1e");
            let at = put_text(buf, at, b"info_hash", &info_hash.0);
            let at = put_part(buf, at, b"4:porti1e");
            let at = put_proof(buf, at, proof);
            let at = put_text(buf, at, b"token", token);
            put_part(buf, at, b"e")
        }
    }
}

/// Puts the arguments that are an identifier.
#[inline(always)]
fn put_one_id(buf: &mut [u8], at: usize, proof: &Option<Proof>, id: &Id) -> usize
    ensures { Puts buf.old buf.new at (text_of
        (value.Dict (pair (codes "id") (value.Text id.now.0) ++ proof_pair proof.now))) result }
{
    let at = put_id(buf, at, id);
    let at = put_proof(buf, at, proof);
    put_part(buf, at, b"e")
}

/// Puts whose contacts are wanted, if it is said.
#[inline(always)]
fn put_want(buf: &mut [u8], at: usize, want: Want) -> usize
    ensures { PutsPairs buf.old buf.new at (want_pair want) result }
{
    match (want.four, want.six) {
        (false, false) => at,
        (true, false) => put_part(buf, at, b"4:wantl2:n4e"),
        (false, true) => put_part(buf, at, b"4:wantl2:n6e"),
        (true, true) => put_part(buf, at, b"4:wantl2:n42:n6e"),
    }
}

/// Puts the arguments that are an identifier and a target, and whose contacts are wanted.
#[inline(always)]
fn put_target(
    buf: &mut [u8],
    at: usize,
    proof: &Option<Proof>,
    id: &Id,
    target: &Id,
    want: Want,
) -> usize
    ensures { Puts buf.old buf.new at (text_of (value.Dict (two_ids id.now (proof_pair proof.now)
        (codes "target") target.now (want_pair want)))) result }
{
    let at = put_id(buf, at, id);
    let at = put_proof(buf, at, proof);
    let at = put_text(buf, at, b"target", &target.0);
    let at = put_want(buf, at, want);
    put_part(buf, at, b"e")
}

/// Puts the arguments that are an identifier and an info hash, and whose contacts are wanted.
#[inline(always)]
fn put_info_hash(
    buf: &mut [u8],
    at: usize,
    proof: &Option<Proof>,
    id: &Id,
    info_hash: &Id,
    want: Want,
) -> usize
    ensures { Puts buf.old buf.new at (text_of (value.Dict (two_ids id.now [] (codes "info_hash")
        info_hash.now (proof_pair proof.now ++ want_pair want)))) result }
{
    let at = put_id(buf, at, id);
    let at = put_text(buf, at, b"info_hash", &info_hash.0);
    let at = put_proof(buf, at, proof);
    let at = put_want(buf, at, want);
    put_part(buf, at, b"e")
}

/// Puts the arguments that are a token and a value.
fn put_putting(
    buf: &mut [u8],
    at: usize,
    proof: &Option<Proof>,
    id: &Id,
    token: &[u8],
    v: &[u8],
) -> usize
    requires { IsCarried v.now }
    ensures { Puts buf.old buf.new at (text_of
        (value.Dict (put_pairs proof.now id.now token.now v.now))) result }
{
    let at = put_id(buf, at, id);
    let at = put_proof(buf, at, proof);
    let at = put_text(buf, at, b"token", token);
    let at = put_form(buf, at, b"v", v);
    put_part(buf, at, b"e")
}

/// Puts the arguments of a query, with the proof that it brings; those of a method that isn't known are none.
#[inline(always)]
pub(crate) fn put_arguments(buf: &mut [u8], at: usize, proof: &Option<Proof>, ask: &Ask) -> usize
    requires { CarriesForm ask.now }
    ensures { Puts buf.old buf.new at (text_of (value.Dict (arguments_of proof.now ask.now))) result }
{
    match ask {
        Ask::Ping { id } => put_one_id(buf, at, proof, id),
        Ask::FindNode { id, target, want } => put_target(buf, at, proof, id, target, *want),
        Ask::GetPeers {
            id,
            info_hash,
            want,
        } => put_info_hash(buf, at, proof, id, info_hash, *want),
        Ask::AnnouncePeer {
            id,
            info_hash,
            port,
            token,
        } => put_announced(buf, at, proof, id, info_hash, *port, token.as_slice()),
        Ask::Get { id, target, want } => put_target(buf, at, proof, id, target, *want),
        Ask::Put { id, token, v, .. } => {
            put_putting(buf, at, proof, id, token.as_slice(), v.as_slice())
        }
        Ask::Other { .. } => put_part(buf, at, b"de"),
    }
}

/// The name of a method.
pub(crate) fn name(ask: &Ask) -> &[u8]
    ensures { result.now ≡ name_of ask.now }
{
    match ask {
        Ask::Ping { .. } => b"ping",
        Ask::FindNode { .. } => b"find_node",
        Ask::GetPeers { .. } => b"get_peers",
        Ask::AnnouncePeer { .. } => b"announce_peer",
        Ask::Get { .. } => b"get",
        Ask::Put { .. } => b"put",
        Ask::Other { method } => method.as_slice(),
    }
}

/// Says that a query is read-only, if it is.
#[inline(always)]
pub(crate) fn put_ro(buf: &mut [u8], at: usize, read_only: bool) -> usize
    ensures { PutsPairs buf.old buf.new at (read_only_pair read_only) result }
{
    if read_only {
        return put_part(buf, at, b"2:roi1e");
    }
    at
}

/// What a view asks, in memory of its own.
pub(crate) fn own_ask(alloc: Global, ask: AskView) -> Result<Ask, NoMemory>
    ensures { IfOk result (λ a. a ≡ ask_seen ask.entry) }
{
    match ask {
        AskView::Ping { id } => Ok(Ask::Ping { id }),
        AskView::FindNode { id, target, want } => Ok(Ask::FindNode { id, target, want }),
        AskView::GetPeers {
            id,
            info_hash,
            want,
        } => Ok(Ask::GetPeers {
            id,
            info_hash,
            want,
        }),
        AskView::AnnouncePeer {
            id,
            info_hash,
            port,
            token,
        } => {
            let token = List::from_slice(alloc, token)?;
            Ok(Ask::AnnouncePeer {
                id,
                info_hash,
                port,
                token,
            })
        }
        AskView::Get { id, target, want } => Ok(Ask::Get { id, target, want }),
        AskView::Put {
            id,
            token,
            v,
            mutable,
        } => {
            let token = List::from_slice(alloc, token)?;
            let v = v.written(alloc)?;
            Ok(Ask::Put {
                id,
                token,
                v,
                mutable,
            })
        }
        AskView::Other { method } => {
            let method = List::from_slice(alloc, method)?;
            Ok(Ask::Other { method })
        }
    }
}

fn law_port(port: &Port)
    ensures { IsWellPort port.now }
{
    match port {
        Port::Given(number) => {
            let _number = *number;
        }
        Port::Implied => {}
    }
}

fn law_two(a: &Id, b: &Id)
    ensures a { IsWellId a.now }
    ensures b { IsWellId b.now }
{
    law_id(a);
    law_id(b);
}

/// The parts of what a query asks are as long as their types say.
pub(crate) fn law_ask(ask: &Ask)
    ensures { IsWellAsk ask.now }
{
    match ask {
        Ask::Ping { id } => law_id(id),
        Ask::FindNode { id, target, .. } => law_two(id, target),
        Ask::GetPeers { id, info_hash, .. } => law_two(id, info_hash),
        Ask::AnnouncePeer {
            id,
            info_hash,
            port,
            ..
        } => {
            law_two(id, info_hash);
            law_port(port);
        }
        Ask::Get { id, target, .. } => law_two(id, target),
        Ask::Put { id, .. } => law_id(id),
        Ask::Other { .. } => {}
    }
}
