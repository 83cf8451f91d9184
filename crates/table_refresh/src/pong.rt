//! What a datagram is to an open ping: it is matched as a lookup matches one with its open queries.
ghost use Rattle.std.specs.Prelude.{◌≡◌, ◌↔◌, IsTrue, IfOk, OnErr};
ghost use Rattle.lookup_core.specs.Reply.{reply_seen};
ghost use Rattle.table_refresh.specs.Refreshed.{Answers};
ghost use Rattle.table_refresh.specs.inner.Steps.{IsPong, RepliesBare};

use crate::types::Setting;
use kad_base::{Addr, Contact, Id, NoMemory};
use lookup_core::{ReplyView, is_sealed, read_reply};
use query_book::Query;
use seal_tags::SealCheck;
use std::alloc::Global;

/// What a datagram is to an open ping.
#[derive(Clone, Copy)]
pub(crate) enum Pong {
    /// No reply to it.
    Stray,
    /// The contact answered in its own name.
    Answer,
    /// An error message, or an answer in another name.
    Refusal,
}

/// Whether the two identifiers are one.
fn is_own(id: &Id, asked: &Id) -> bool
    ensures { IsTrue result ↔ (id.now ≡ asked.now) }
{
    id == asked
}

/// Whether the two addresses are one.
fn is_from(from: &Addr, asked: &Addr) -> bool
    ensures { IsTrue result ↔ (from.now ≡ asked.now) }
{
    from == asked
}

/// Whether the reply is an answer of the contact, in its own name.
fn answers(contact: &Contact, reply: &ReplyView) -> bool
    ensures { IsTrue result ↔ Answers contact.now (reply_seen reply.now) }
{
    match reply {
        ReplyView::Answer(answer) => is_own(&answer.id, &contact.id),
        ReplyView::Error { .. } => false,
    }
}

/// What the datagram is to the ping. Tags are looked at last, and only if they are asked for, so only a reply may lack memory.
pub(crate) fn pong_of<G: SealCheck>(
    alloc: Global,
    setting: &Setting,
    seal: &G,
    query: &Query,
    from: Addr,
    bytes: &[u8],
) -> Result<Pong, NoMemory>
    ensures ok { IfOk result (IsPong setting.now.sealed (G.accepted seal.now) query.now from bytes.now) }
    ensures err { OnErr result (RepliesBare (G.accepted seal.now) query.now from bytes.now) }
{
    let tx = query.tx;
    if !is_from(&from, &query.contact.addr) {
        return Ok(Pong::Stray);
    }
    let said = match read_reply(bytes) {
        Some(said) => said,
        None => return Ok(Pong::Stray),
    };
    if said.tx != tx {
        return Ok(Pong::Stray);
    }
    match is_sealed(alloc, setting.sealed, seal, &query.contact, &said) {
        Ok(true) => {}
        Ok(false) => return Ok(Pong::Stray),
        Err(NoMemory) => return Err(NoMemory),
    }
    if answers(&query.contact, &said.reply) {
        return Ok(Pong::Answer);
    }
    Ok(Pong::Refusal)
}
