//! The proofs beside the contacts of a table. A contact that leaves the table keeps its entry until it comes back or all are
//! looked through, so no call has to follow who leaves. The entry of one that the table doesn't hold counts for nothing.
ghost use Rattle.std.specs.Prelude.{◌≡◌, [], false, true, IfOk, None, Ok, OnErr, OnOk, is_some, List};
ghost use Rattle.std.specs.List.Sorted.{IsStrictlySortedBy};
ghost use Rattle.std.specs.Map.{keys_of, remove_entry};
ghost use Rattle.std.specs.BTreeMap.{insert_entry};
ghost use Rattle.kad_base.specs.declared.types.Contact.{Contact};
ghost use Rattle.kad_base.specs.Contacts.{contact_cmp, same};
ghost use Rattle.contact_table.specs.Told.{held_by};
ghost use Rattle.contact_table.specs.Vouched.{NoneElse, noted, of_held, proof_beside, report_of, reports_of};

use crate::seats::holds;
use bucket_tree::Buckets;
use kad_base::{Contact, List, NoMemory, Proof, Report, Reports};
use sibling_list::Siblings;
use std::alloc::Global;
use std::collections::BTreeMap;
use std::marker::Model;

/// Fewer entries than these aren't looked through.
const FEW: usize = 1024;

/// Proofs, each under the contact that showed it.
#[derive(Drop)]
pub(crate) struct Vouchers {
    alloc: Global,
    entries: BTreeMap<Contact, Proof>,
    /// Where there are so many, all are looked through before one more is put: twice as many as were left the last time.
    full: usize,
}

impl Model for Vouchers {
    ghost use Rattle.contact_table.specs.Vouched.{Proofs};

    ghost Value = { Proofs };

    ghost view = { λ v. v.entries.entries };
}

impl Vouchers {
    /// No proofs. Takes no memory.
    pub(crate) fn new(alloc: Global) -> Vouchers
        ensures { result ≡ [] }
    {
        Vouchers {
            alloc,
            entries: BTreeMap::new(alloc),
            full: FEW,
        }
    }

    /// A contact as an answer names it. Costs one search.
    fn report(&self, contact: &Contact) -> Report
        ensures { result ≡ report_of self.now contact.now }
    {
        Report {
            contact: *contact,
            proof: self.entries.get(contact).copied(),
        }
    }

    /// Contacts as an answer names them.
    pub(crate) fn reports(&self, contacts: &[Contact]) -> Result<Reports, NoMemory>
        ensures { IfOk result (λ reports. reports ≡ reports_of self.now contacts.now) }
    {
        let mut reports = Vec::with_capacity(self.alloc, contacts.len())?;
        for contact in contacts {
            reports.push(self.report(contact))?;
        }
        Ok(List::from_vec(reports))
    }

    /// Whether there is a proof under a contact.
    fn contains(&self, contact: &Contact) -> bool
        ensures { result ≡ is_some (proof_beside self.now contact.now) }
    {
        self.entries.contains_key(contact)
    }

    /// Whether the table holds the contact, and there is a proof under it.
    fn has(&self, buckets: &Buckets, siblings: &Siblings, contact: &Contact) -> bool
        ensures { result ≡ is_some (proof_beside
            (of_held (held_by buckets.now.rows siblings.now.list) self.now) contact.now) }
    {
        if !self.contains(contact) {
            return false;
        }
        holds(buckets, siblings, contact)
    }

    /// Takes the proof away under a contact.
    fn remove(&mut self, contact: &Contact)
        ensures entries { self.new ≡ remove_entry (same contact.now) self.old }
        ensures gone { proof_beside self.new contact.now ≡ None }
    {
        self.entries.remove(contact);
    }

    /// Takes those away whose contacts the table doesn't hold. Costs a pass over all.
    fn sweep(&mut self, buckets: &Buckets, siblings: &Siblings)
        ensures { self.new ≡ of_held (held_by buckets.now.rows siblings.now.list) self.old }
    {
        self.entries
            .retain(|contact, _| holds(buckets, siblings, contact));
        self.full = self.entries.len().saturating_mul(2).max(FEW);
    }

    /// Does so where there are many. Since the last time half of them were put at least, so this costs little a call.
    fn bound(&mut self, buckets: &Buckets, siblings: &Siblings)
        ensures { of_held (held_by buckets.now.rows siblings.now.list) self.new
            ≡ of_held (held_by buckets.now.rows siblings.now.list) self.old }
    {
        if self.entries.len() < self.full {
            return;
        }
        self.sweep(buckets, siblings);
    }

    /// Puts a proof under a contact.
    fn insert(&mut self, contact: &Contact, proof: Proof) -> Result<(), NoMemory>
        ensures ok { OnOk result (self.new ≡ insert_entry contact_cmp self.old contact.now proof) }
        ensures err { OnErr result (self.new ≡ self.old) }
        ensures sorted { IsStrictlySortedBy contact_cmp (keys_of self.old) }
    {
        match self.entries.insert(*contact, proof) {
            Ok(_) => Ok(()),
            Err(_) => Err(NoMemory),
        }
    }

    /// Puts the proof of a contact that has none while the table holds it.
    fn put(
        &mut self,
        buckets: &Buckets,
        siblings: &Siblings,
        contact: &Contact,
        proof: Proof,
    ) -> Result<(), NoMemory>
        requires { is_some (proof_beside (of_held (held_by buckets.now.rows siblings.now.list)
            self.old) contact.now) ≡ false }
        ensures stands { OnOk result ((after : List Contact)
            → NoneElse (held_by buckets.now.rows siblings.now.list) contact.now after
            → of_held after self.new ≡ of_held after (insert_entry contact_cmp
            (of_held (held_by buckets.now.rows siblings.now.list) self.old) contact.now proof)) }
        ensures undone { OnOk result (of_held (held_by buckets.now.rows siblings.now.list)
            (remove_entry (same contact.now) self.new)
            ≡ of_held (held_by buckets.now.rows siblings.now.list) self.old) }
        ensures err { OnErr result (of_held (held_by buckets.now.rows siblings.now.list) self.new
            ≡ of_held (held_by buckets.now.rows siblings.now.list) self.old) }
    {
        self.bound(buckets, siblings);
        match self.insert(contact, proof) {
            Ok(()) => {}
            Err(NoMemory) => return Err(NoMemory),
        }
        Ok(())
    }

    /// Keeps the proof of a contact that is about to be seen, if it is the first since the table holds it. Says whether it was
    /// put.
    pub(crate) fn note(
        &mut self,
        buckets: &Buckets,
        siblings: &Siblings,
        contact: &Contact,
        proof: Proof,
    ) -> Result<bool, NoMemory>
        ensures stands { OnOk result ((after : List Contact)
            → NoneElse (held_by buckets.now.rows siblings.now.list) contact.now after
            → of_held after self.new ≡ of_held after (noted contact.now proof
            (of_held (held_by buckets.now.rows siblings.now.list) self.old))) }
        ensures undone { result ≡ Ok true → of_held (held_by buckets.now.rows siblings.now.list)
            (remove_entry (same contact.now) self.new)
            ≡ of_held (held_by buckets.now.rows siblings.now.list) self.old }
        ensures same { result ≡ Ok false → self.new ≡ self.old }
        ensures err { OnErr result (of_held (held_by buckets.now.rows siblings.now.list) self.new
            ≡ of_held (held_by buckets.now.rows siblings.now.list) self.old) }
    {
        if self.has(buckets, siblings, contact) {
            return Ok(false);
        }
        match self.put(buckets, siblings, contact, proof) {
            Ok(()) => {}
            Err(NoMemory) => return Err(NoMemory),
        }
        Ok(true)
    }

    /// Takes a proof away again that was put.
    pub(crate) fn take_back(&mut self, was_put: bool, contact: &Contact)
        ensures put { was_put ≡ true → self.new ≡ remove_entry (same contact.now) self.old }
        ensures same { was_put ≡ false → self.new ≡ self.old }
    {
        if was_put {
            self.remove(contact);
        }
    }

    /// Takes the proof away of a contact that is about to be seen, if the table doesn't hold it: what it showed before it left
    /// counts no more. Where there are no proofs this costs one test.
    pub(crate) fn drop_unheld(&mut self, buckets: &Buckets, siblings: &Siblings, contact: &Contact)
        ensures stands { (after : List Contact)
            → NoneElse (held_by buckets.now.rows siblings.now.list) contact.now after
            → of_held after self.new ≡ of_held after (of_held
            (held_by buckets.now.rows siblings.now.list) self.old) }
        ensures same { of_held (held_by buckets.now.rows siblings.now.list) self.new
            ≡ of_held (held_by buckets.now.rows siblings.now.list) self.old }
    {
        if self.entries.is_empty() {
            return;
        }
        if holds(buckets, siblings, contact) {
            return;
        }
        self.remove(contact);
    }
}
