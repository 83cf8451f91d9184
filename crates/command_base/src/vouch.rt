//! Whether a proof shows that a node's own identifier was made.
ghost use Rattle.std.specs.Prelude.{◌≡◌, ◌↔◌, IsTrue};
ghost use Rattle.command_base.specs.Vouched.{IsOwnProof, IsVouched};

use id_puzzles::passes;
use kad_base::{Addr, Contact, Id, Ip, Policy, Proof, Report};

/// Whether this is a proof of the identifier, at the numbers of the policy: those of `Plain` are 0.
pub fn is_own_proof(policy: Policy, own: Id, proof: Proof) -> bool
    ensures { IsTrue result ↔ IsOwnProof policy own proof }
{
    let report = report_of(own, proof);
    match policy {
        Policy::Plain => passes(Policy::Puzzled { c1: 0, c2: 0 }, &report),
        Policy::Puzzled { .. } => passes(policy, &report),
    }
}

/// Whether there is no proof, or one of the identifier.
pub fn is_vouched(policy: Policy, own: Id, proof: Option<Proof>) -> bool
    ensures { IsTrue result ↔ IsVouched policy own proof }
{
    match proof {
        Some(proof) => is_own_proof(policy, own, proof),
        None => true,
    }
}

/// The report of a node by itself. Its address, which no puzzle knows, is zeros.
fn report_of(own: Id, proof: Proof) -> Report
    ensures id { result.contact.id ≡ own }
    ensures proof { result.proof ≡ Some proof }
{
    let addr = Addr {
        ip: Ip::V4([0; 4]),
        port: 0,
    };
    Report {
        contact: Contact { id: own, addr },
        proof: Some(proof),
    }
}
