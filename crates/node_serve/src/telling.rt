//! What the table is told after a query.
ghost use Rattle.std.specs.Prelude.{◌≡◌};
ghost use Rattle.kad_krpc.specs.Asking.{proof_of};
ghost use Rattle.kad_krpc.specs.Views.{ask_seen};
ghost use Rattle.node_serve.specs.AnswerOf.{asker_at, asker_of, notify_by, vouched_by};
ghost use Rattle.node_serve.specs.Vouching.{solves_both};

use crate::asked::Asked;
use contact_table::TableCall;
use id_puzzles::passes;
use kad_base::{Contact, Id, Policy, Proof, Report};
use kad_krpc::{AskView, proof_in};

/// Who asks, by one of the four methods of BEP 5. Of whoever gets or puts items the table isn't told.
fn asker(ask: &AskView) -> Option<Id>
    ensures { result ≡ asker_of (ask_seen ask.now) }
{
    match ask {
        AskView::Ping { id } => Some(*id),
        AskView::FindNode { id, .. } => Some(*id),
        AskView::GetPeers { id, .. } => Some(*id),
        AskView::AnnouncePeer { id, .. } => Some(*id),
        AskView::Get { .. } => None,
        AskView::Put { .. } => None,
        AskView::Other { .. } => None,
    }
}

/// The contact that asks by such a method, unless it is read-only (BEP 43).
fn asking(asked: &Asked) -> Option<Contact>
    ensures { result ≡ asker_at asked.now.read_only (ask_seen asked.now.ask) asked.now.from }
{
    if asked.read_only {
        return None;
    }
    let id = asker(&asked.ask)?;
    Some(Contact {
        id,
        addr: asked.from,
    })
}

/// Whether the proof solves both puzzles for the contact's identifier.
fn solves(c1: u8, c2: u8, contact: Contact, proof: Proof) -> bool
    ensures { result ≡ solves_both c1 c2 contact.id.0 proof }
{
    let report = Report {
        contact,
        proof: Some(proof),
    };
    passes(Policy::Puzzled { c1, c2 }, &report)
}

/// The call that tells of the contact and its proof, where there is one that solves both puzzles.
fn vouched(c1: u8, c2: u8, contact: Contact, proof: Option<Proof>) -> Option<TableCall>
    ensures { result ≡ vouched_by c1 c2 contact proof }
{
    let proof = proof?;
    if !solves(c1, c2, contact, proof) {
        return None;
    }
    Some(TableCall::Vouched { contact, proof })
}

/// The call that tells the table who asked by a method of BEP 5 (Kademlia, 2002, section 2.2), where it is told: not of who is
/// read-only, and where the policy asks for puzzles only of whoever brings a proof that solves them. `get` and `put` (BEP 44)
/// and queries of other names tell it nothing. The proof is read, and then hashed, only where all else is met.
#[inline(always)]
pub(crate) fn notify_for(policy: Policy, asked: &Asked) -> Option<TableCall>
    ensures { result ≡ notify_by policy asked.now.read_only (proof_of asked.now.arguments)
        (ask_seen asked.now.ask) asked.now.from }
{
    let contact = asking(asked)?;
    match policy {
        Policy::Plain => Some(TableCall::Seen { contact }),
        Policy::Puzzled { c1, c2 } => vouched(c1, c2, contact, proof_in(&asked.arguments)),
    }
}
