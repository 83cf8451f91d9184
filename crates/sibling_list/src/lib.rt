//! The siblings of a node: the contacts closest to its own identifier, at most `MAX_SIBLINGS`, which answer for it
//! (S/Kademlia, section 4.2).
//! Calls on it take no memory; making it and copying its contacts out do. It knows no bucket and no socket.
#![tactic(auto)]

ghost use Rattle.std.specs.Prelude.{◌≡◌, ◌↔◌, [], not, IfOk, IsTrue, MatchOption};
ghost use Rattle.std.specs.Str.{bytes_eq};
ghost use Rattle.kad_base.specs.Contacts.{among, same};
ghost use Rattle.sibling_list.specs.Siblings.{IsSiblings, with_one, without_one};

use kad_base::limits::MAX_SIBLINGS;
use kad_base::{Contact, Contacts, Id, List, NoMemory, is_same};
use kad_distance::put_closest;
use std::alloc::Global;
use std::marker::Model;

/// The contacts closest to a node's own identifier, nearest first.
#[derive(Debug, Drop)]
pub struct Siblings {
    own: Id,
    contacts: Vec<Contact>,
}

impl Model for Siblings {
    ghost use Rattle.std.specs.Prelude.{◌≤◌, vec_capacity};
    ghost use Rattle.kad_base.specs.Limits.{max_siblings};
    ghost use Rattle.sibling_list.specs.Siblings.{SiblingList, IsSiblings};

    ghost Value = { SiblingList };

    ghost view = { λ s. record { own = s.own; list = s.contacts.items } };

    ghost invariant = { λ s. IsSiblings (record { own = s.own; list = s.contacts.items }) × (max_siblings ≤ vec_capacity s.contacts) };
}

impl Siblings {
    /// No siblings of the node with this identifier. Takes all places at once.
    pub fn new(alloc: Global, own: Id) -> Result<Siblings, NoMemory>
        ensures { IfOk result (λ s. s ≡ record { own = own; list = [] }) }
    {
        let contacts = Vec::with_capacity(alloc, MAX_SIBLINGS)?;
        Ok(Siblings { own, contacts })
    }

    /// The siblings that are these contacts, in this order. None where they aren't siblings of that node: there are more
    /// than `MAX_SIBLINGS`, one has the own identifier, or one isn't closer to it than the next.
    pub fn of_list(alloc: Global, own: Id, list: &[Contact]) -> Result<Option<Siblings>, NoMemory>
        ensures { IfOk result (λ siblings. MatchOption siblings
            (¬ IsSiblings (record { own = own; list = list.now }))
            (λ siblings. siblings ≡ record { own = own; list = list.now })) }
    {
        let mut siblings = Siblings::new(alloc, own)?;
        for contact in list {
            siblings.insert(*contact);
        }
        if !are_same(siblings.list(), list) {
            return Ok(None);
        }
        Ok(Some(siblings))
    }

    /// The siblings in memory of their own, nearest first.
    pub fn contacts(&self) -> Result<Contacts, NoMemory>
        ensures { IfOk result (λ contacts. contacts ≡ self.now.list) }
    {
        Ok(List::from_vec(self.contacts.clone()?))
    }

    /// The siblings, nearest first.
    pub fn list(&self) -> &[Contact]
        ensures list { result.now ≡ self.now.list }
        ensures siblings { IsSiblings self.now }
    {
        self.contacts.as_slice()
    }

    /// Whether the contact is one of them.
    pub fn has(&self, contact: &Contact) -> bool
        ensures { result ≡ among self.now.list contact.now }
    {
        is_there(self.contacts.as_slice(), contact)
    }

    /// Puts a contact in its place. Where there is one too many then, the last is dropped. A contact that is there, or
    /// that has the own identifier, changes nothing. Takes no memory.
    pub fn insert(&mut self, contact: Contact)
        ensures own { self.new.own ≡ self.old.own }
        ensures list { self.new.list ≡ with_one self.old contact }
    {
        if is_own(&contact.id, &self.own) {
            return;
        }
        if is_there(self.contacts.as_slice(), &contact) {
            return;
        }
        put_closest(&mut self.contacts, &self.own, MAX_SIBLINGS, &contact);
    }

    /// Takes the contact out, if it is there. Takes no memory.
    pub fn remove(&mut self, contact: &Contact)
        ensures own { self.new.own ≡ self.old.own }
        ensures list { self.new.list ≡ without_one self.old contact.now }
    {
        self.contacts.retain(|other| is_another(other, contact));
    }
}

/// Whether this is the own identifier.
fn is_own(id: &Id, own: &Id) -> bool
    ensures { result ≡ bytes_eq id.now.0 own.now.0 }
{
    id.0 == own.0
}

/// Whether the contact is one of those: each time that a sibling is seen it is.
fn is_there(contacts: &[Contact], contact: &Contact) -> bool
    ensures { result ≡ among contacts.now contact.now }
{
    contacts.iter().any(|other| is_same(contact, other))
}

/// Whether the two lists have the same contacts, in the same order.
fn are_same(a: &[Contact], b: &[Contact]) -> bool
    ensures { IsTrue result ↔ (a.now ≡ b.now) }
{
    a == b
}

/// Whether these are two contacts.
fn is_another(a: &Contact, b: &Contact) -> bool
    ensures { result ≡ not (same a.now b.now) }
{
    !is_same(a, b)
}
