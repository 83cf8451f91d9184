//! What a lookup starts from: its setting, by the words, and a routing table that was told of the contacts of the input.
ghost use Rattle.std.specs.Prelude.{◌≡◌, map, IfOk, OnOk};
ghost use Rattle.contact_table.specs.Told.{limited_table};
ghost use Rattle.lookup_run.specs.Lookup.{TableTold};
ghost use Rattle.node_serve.specs.AnswerOf.{IsSeen};
ghost use Rattle.command_base.specs.Started.{own_of, look_of, AreTableBounds, seen_call};

use contact_table::{Table, TableCall, TableReply};
use id_puzzles::Words;
use kad_base::{Contact, Id, NoMemory, Serial};
use kad_words::LookWords;
use lookup_run::{AskKind, LookSetting};
use std::alloc::Global;

/// The role of the driver of a lookup, which tells the table.
const DRIVER: u8 = 0;

/// The place of the first drawn word that is a transaction id: those before it are the node's identifier.
pub const FIRST_TX: u64 = 5;

/// The node's own identifier: the one of the words, or the first drawn bytes.
pub fn own_id(own: Option<Id>, random: &[u8; 32]) -> Id
    ensures { result ≡ own_of own random.now }
{
    match own {
        Some(id) => id,
        None => {
            let mut bytes = [0u8; 20];
            Words::new(random, 0).fill(&mut bytes);
            Id(bytes)
        }
    }
}

/// What a lookup by this query is set to by its words.
pub fn setting_for(kind: AskKind, look: &LookWords, random: &[u8; 32]) -> LookSetting
    ensures { result ≡ look_of kind look.now random.now }
{
    let own = own_id(look.own, random);
    LookSetting {
        own,
        target: look.target,
        k: look.k,
        paths: look.paths,
        alpha: look.alpha,
        policy: look.policy,
        timeout: look.timeout,
        kind,
        family: look.family,
        sealed: look.sealed,
        per_address: look.per_address,
        claim: look.claim,
    }
}

/// Tells the table that a contact was seen.
fn notify_seen(table: &mut Table, contact: &Contact) -> Result<(), NoMemory>
    ensures { OnOk result (IsSeen contact.now table.old table.new) }
{
    let call = TableCall::Seen { contact: *contact };
    match table.apply(DRIVER, call) {
        TableReply::NoMemory => Err(NoMemory),
        _ => Ok(()),
    }
}

/// A new table that takes no more than `per_address` contacts of one host (0: as many as there are), and was told of the
/// contacts, in order.
pub fn table_of(
    alloc: Global,
    own: Id,
    k: u8,
    bits: u8,
    per_address: u8,
    contacts: &[Contact],
) -> Result<Table, NoMemory>
    requires { AreTableBounds k bits }
    ensures { IfOk result (TableTold (map seen_call contacts.now) (limited_table own k bits per_address)) }
{
    let mut table = Table::limited(alloc, own, k, bits, per_address)?;
    for contact in contacts {
        notify_seen(&mut table, contact)?;
    }
    Ok(table)
}
