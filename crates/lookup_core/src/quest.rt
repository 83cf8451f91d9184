//! What a lookup asks, and what of an answer it believes: the one place that knows the kinds of queries and of reports.
ghost use Rattle.std.specs.Prelude.{◌≡◌, ◌≤◌, take, map, IfOk};
ghost use Rattle.kad_base.specs.Limits.{max_reports};
ghost use Rattle.kad_krpc.specs.Form.{form};
ghost use Rattle.kad_krpc.specs.Views.{answer_seen};
ghost use Rattle.lookup_core.specs.Quest.{query_message, bare, brought, is_six, part_of, reports_of};

use kad_base::limits::MAX_REPORTS;
use kad_base::{Contact, Family, Id, List, NoMemory, Policy, Proof, Report, Reports};
use kad_krpc::{AnswerView, find_node_into, get_into, get_peers_into};
use kad_records::{Record, Records, with_room};
use std::alloc::Global;

/// What a lookup asks for (BEP 5, BEP 44).
#[derive(Clone, Copy, Debug, PartialEq, Eq)]
pub enum AskKind {
    /// The contacts closest to the target.
    FindNode,
    /// Peers too. The target is the info hash.
    GetPeers,
    /// An immutable item too. The target is its key.
    GetItem,
}

/// What a lookup asks, and what it believes: `own` asks for `target` in the network of `family`, `policy` says which
/// reports may be believed, `timeout` how long to wait for an answer, in milliseconds, `sealed` whether a reply has to
/// carry a tag that is accepted, and `read_only` whether the node answers no queries, and says so (BEP 43). `proof` is the
/// proof of the node's own identifier, which its queries bring unless it is read-only.
#[derive(Clone, Copy, Debug, PartialEq, Eq)]
pub struct Quest {
    pub own: Id,
    pub target: Id,
    pub policy: Policy,
    pub kind: AskKind,
    pub family: Family,
    pub timeout: u32,
    pub sealed: bool,
    pub read_only: bool,
    pub proof: Option<Proof>,
}

/// Whether it is the network of IPv6.
fn is_six(family: Family) -> bool
    ensures { result ≡ is_six family }
{
    match family {
        Family::Four => false,
        Family::Six => true,
    }
}

/// The proof that a query brings: a read-only one brings none, since who answers no queries is taken into no table (BEP 43).
pub fn brought(read_only: bool, proof: &Option<Proof>) -> Option<Proof>
    ensures { result ≡ brought read_only proof.now }
{
    if read_only {
        return None;
    }
    *proof
}

/// The first contacts as reports without a proof, copied out of their datagram.
fn bare_reports<R: Record<Item = Contact>>(
    alloc: Global,
    contacts: &Records<R>,
) -> Result<Reports, NoMemory>
    ensures { IfOk result (λ reports. reports ≡ map bare (take max_reports contacts.now)) }
{
    let few = contacts.len().min(MAX_REPORTS);
    let mut reports = with_room(alloc, few)?;
    for i in 0..few {
        match contacts.at(i) {
            Some(contact) => reports.push(Report {
                contact,
                proof: None,
            })?,
            None => unreachable!(),
        }
    }
    Ok(reports)
}

/// The first contacts of a part of an answer, as reports without a proof.
fn first_contacts<R: Record<Item = Contact>>(
    alloc: Global,
    part: &Option<Records<R>>,
) -> Result<Reports, NoMemory>
    ensures { IfOk result (λ reports. reports ≡ map bare (take max_reports (part_of part.now))) }
{
    match part {
        Some(contacts) => bare_reports(alloc, contacts),
        None => Ok(List::new(alloc)),
    }
}

/// The first reports of a part of an answer, as they are.
fn first_reports<R: Record<Item = Report>>(
    alloc: Global,
    part: &Option<Records<R>>,
) -> Result<Reports, NoMemory>
    ensures { IfOk result (λ reports. reports ≡ take max_reports (part_of part.now)) }
{
    match part {
        Some(reports) => reports.first(alloc, MAX_REPORTS),
        None => Ok(List::new(alloc)),
    }
}

impl Quest {
    /// Writes the query under this transaction id in front of `buf`, and answers its length.
    pub fn query_into(&self, buf: &mut [u8; 192], tx: u32) -> usize
        ensures within { result ≤ 192 }
        ensures form { take result buf.new ≡ form (query_message self.now tx) }
    {
        let six = is_six(self.family);
        let read_only = self.read_only;
        let proof = brought(read_only, &self.proof);
        match self.kind {
            AskKind::FindNode => {
                find_node_into(buf, &self.own, &self.target, six, read_only, &proof, tx)
            }
            AskKind::GetPeers => {
                get_peers_into(buf, &self.own, &self.target, six, read_only, &proof, tx)
            }
            AskKind::GetItem => {
                get_into(buf, &self.own, &self.target, six, read_only, &proof, tx)
            }
        }
    }

    /// The reports that the answer gives: the first 16 contacts of `nodes`, where no proof is wanted, and else of
    /// `snodes`; in the network of IPv6 of `nodes6` and `snodes6`. No other part of it is looked at.
    pub(crate) fn reports_in(&self, alloc: Global, answer: &AnswerView) -> Result<Reports, NoMemory>
        ensures { IfOk result (λ reports. reports ≡ reports_of self.now (answer_seen answer.now)) }
    {
        match (self.family, self.policy) {
            (Family::Four, Policy::Plain) => first_contacts(alloc, &answer.nodes),
            (Family::Four, Policy::Puzzled { .. }) => first_reports(alloc, &answer.snodes),
            (Family::Six, Policy::Plain) => first_contacts(alloc, &answer.nodes6),
            (Family::Six, Policy::Puzzled { .. }) => first_reports(alloc, &answer.snodes6),
        }
    }
}
