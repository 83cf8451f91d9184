//! What the types of a message keep of its arrays and numbers, told of each part. The calls change nothing.
ghost use Rattle.kad_krpc.specs.Fields.{Each};
ghost use Rattle.kad_krpc.specs.WellTyped.{IsWell};
ghost use Rattle.kad_records.specs.Records.{IsWellAddr, IsWellContact, IsWellReport};

use crate::answer::law_answer;
use crate::ask::law_ask;
use crate::message::Message;
use kad_base::{Addrs, Contacts, Reports};
use kad_records::{law_addrs, law_contacts, law_proof, law_reports};

pub(crate) fn law_nodes(nodes: &Option<Contacts>)
    ensures { Each IsWellContact nodes.now }
{
    if let Some(nodes) = nodes {
        law_contacts(nodes.as_slice());
    }
}

pub(crate) fn law_snodes(snodes: &Option<Reports>)
    ensures { Each IsWellReport snodes.now }
{
    if let Some(snodes) = snodes {
        law_reports(snodes.as_slice());
    }
}

pub(crate) fn law_values(values: &Option<Addrs>)
    ensures { Each IsWellAddr values.now }
{
    if let Some(values) = values {
        law_addrs(values.as_slice());
    }
}

/// Any message that is there has arrays and numbers as its types have them: what `form_says` supposes of a message, for
/// whoever holds one, as `decode` gave it or made otherwise. Takes no memory.
pub fn message_is_well_typed(message: &Message)
    ensures { IsWell message.now }
{
    match message {
        Message::Query { proof, ask, .. } => {
            law_proof(proof);
            law_ask(ask);
        }
        Message::Answer { answer, .. } => law_answer(answer),
        Message::Fault { code, .. } => {
            let _code = *code;
        }
    }
}
