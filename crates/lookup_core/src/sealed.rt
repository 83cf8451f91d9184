//! What a sealed lookup asks of a reply: a tag of who says it.
ghost use Rattle.std.specs.Prelude.{◌≡◌, ◌↔◌, ℕ, List, IsTrue, IfOk};
ghost use Rattle.kad_bencode.specs.Spelling.{Spells};
ghost use Rattle.lookup_core.specs.Reply.{reply_seen};
ghost use Rattle.lookup_core.specs.Sealed.{HasTag, IsSealed, speaker};

use crate::reply::{ReplyView, SaidView};
use kad_base::{Contact, Id, NoMemory};
use kad_bencode::Piece;
use kad_krpc::parts_of;
use seal_tags::SealCheck;
use std::alloc::Global;

/// Who says the reply to a query that this contact was asked: an answer names its own identifier, an error message none.
fn speaker(contact: &Contact, reply: &ReplyView) -> Id
    ensures { result ≡ speaker contact.now (reply_seen reply.now) }
{
    match reply {
        ReplyView::Answer(answer) => answer.id,
        ReplyView::Error { .. } => contact.id,
    }
}

/// Whether a datagram that spells this value carries a tag that is accepted for what the node with this identifier says.
fn has_tag<G: SealCheck>(alloc: Global, seal: &G, top: &Piece, id: &Id) -> Result<bool, NoMemory>
    ensures { IfOk result (λ has. (bytes : List ℕ) → Spells bytes top.now
        → IsTrue has ↔ HasTag (G.accepted seal.now) bytes id.now) }
{
    let parts = match parts_of(alloc, top) {
        Ok(Some(parts)) => parts,
        Ok(None) => return Ok(false),
        Err(NoMemory) => return Err(NoMemory),
    };
    Ok(seal.accepts(id, parts.body.as_slice(), parts.tag.as_slice()))
}

/// Whether a datagram in which this was read is sealed as is asked for, if it replies to a query that the contact was asked.
/// Costs nothing if no tag is asked for.
pub fn is_sealed<G: SealCheck>(
    alloc: Global,
    sealed: bool,
    seal: &G,
    contact: &Contact,
    said: &SaidView,
) -> Result<bool, NoMemory>
    ensures { IfOk result (λ is. (bytes : List ℕ) → Spells bytes said.now.top
        → IsTrue is ↔ IsSealed sealed (G.accepted seal.now) bytes
        (speaker contact.now (reply_seen said.now.reply))) }
{
    if !sealed {
        return Ok(true);
    }
    has_tag(alloc, seal, &said.top, &speaker(contact, &said.reply))
}
