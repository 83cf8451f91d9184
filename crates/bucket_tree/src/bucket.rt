//! One bucket.
ghost use Rattle.std.specs.Prelude.{IfOk, OnOk, OnErr, cond, nat_le, drop, filter, not, ◌≡◌, ◌↔◌, ◌<◌, ◌≤◌, IsTrue, [], ◌∷◌, ◌++◌, length, map, All, false, true, vec_capacity};
ghost use Rattle.std.specs.List.{list_any};
ghost use Rattle.kad_base.specs.Contacts.{among};
ghost use Rattle.bucket_tree.specs.Partition.{id_bits, begins};
ghost use Rattle.bucket_tree.specs.Rows.{RowState, contact_of, live_in, may_split, same_id};
ghost use Rattle.bucket_tree.specs.Refills.{Refilled};
ghost use Rattle.bucket_tree.specs.States.{kept_in, state_of};
ghost use Rattle.bucket_tree.specs.BucketSteps.{NeedsSplit, RowSeen, RowFailed, half as half_of, fresh as fresh_of, without, with_room as with_room_of};

use crate::entries::{
    append, covered, failures, has, has_id, is_one_of, mark, take_id_out, take_out,
};
use crate::prefix::Prefix;
use crate::rows::Row;
use crate::types::{Gone, Live, Seen, Setting};
use kad_base::{Contact, Id, List, NoMemory};
use std::alloc::Global;
use std::marker::Model;

/// A bucket: its prefix, its live entries, the least recently seen first, and its replacement cache, the newest last. A
/// spare is a contact that didn't fail. It takes room for k entries when it is made, and for k spares with the first.
#[derive(Drop)]
pub(crate) struct Bucket {
    prefix: Prefix,
    live: Vec<Live>,
    spares: Vec<Contact>,
}

impl Model for Bucket {
    ghost use Rattle.std.specs.Prelude.{◌≤◌, length, vec_capacity};
    ghost use Rattle.bucket_tree.specs.Rows.{RowState};

    ghost Value = { RowState };

    ghost view = { λ r. record { prefix = r.prefix; live = r.live.items; spares = r.spares.items } };

    ghost invariant = { λ r. length r.live.items ≤ vec_capacity r.live };
}

/// An entry that was just seen.
fn fresh(contact: Contact) -> Live
    ensures { result ≡ fresh_of contact }
{
    Live {
        contact,
        failures: 0,
    }
}

/// Puts the contact's entry at the end, if it has one. Takes no memory.
fn renew(live: &mut Vec<Live>, contact: Contact)
    requires room { length live.old.items ≤ vec_capacity live.old }
    requires known { among (map contact_of live.old.items) contact ≡ true }
    ensures items { live.new.items ≡ without contact live.old.items ++ fresh_of contact ∷ [] }
    ensures room { length live.new.items ≤ vec_capacity live.new }
{
    take_out(live, &contact);
    match live.push(fresh(contact)) {
        Ok(()) => {}
        Err(_) => unreachable!(),
    }
}

/// Takes the oldest out where there are k, so that there is room for one more.
fn make_room(spares: &mut Vec<Contact>, k: u8)
    requires some { 0 < k }
    requires few { length spares.old.items ≤ k }
    ensures items { spares.new.items ≡ with_room_of k spares.old.items }
    ensures fewer { length spares.new.items < k }
    ensures capacity { vec_capacity spares.new ≡ vec_capacity spares.old }
{
    if spares.len() >= k as usize {
        let _oldest = spares.remove(0);
    }
}

/// Makes a contact the newest spare, and the only one with its identifier, of at most k; or leaves the spares.
fn spare(spares: &mut Vec<Contact>, k: u8, contact: Contact) -> Result<(), NoMemory>
    requires some { 0 < k }
    requires few { length spares.old.items ≤ k }
    ensures ok { IfOk result (λ done. spares.new.items ≡ with_room_of k
        (filter (λ x. not (same_id x.id contact.id)) spares.old.items) ++ contact ∷ []) }
    ensures err { OnErr result (spares.new.items ≡ spares.old.items) }
{
    if spares.reserve_exact(k as usize - spares.len()).is_err() {
        return Err(NoMemory);
    }
    take_id_out(spares, &contact.id);
    make_room(spares, k);
    match spares.push(contact) {
        Ok(()) => Ok(()),
        Err(_) => unreachable!(),
    }
}

/// Puts the newest spare at the end of the live entries, if there is one.
fn refill(live: &mut Vec<Live>, spares: &mut Vec<Contact>) -> Gone
    requires { length live.old.items < vec_capacity live.old }
    ensures refilled { Refilled live.old.items spares.old.items result live.new.items
        spares.new.items }
    ensures room { length live.new.items ≤ vec_capacity live.new }
{
    match spares.pop() {
        None => Gone::Removed,
        Some(newest) => {
            match live.push(fresh(newest)) {
                Ok(()) => {}
                Err(_) => unreachable!(),
            }
            Gone::Replaced
        }
    }
}

/// Whether a bucket may split: its range has the own identifier, or its prefix isn't a whole number of b bits.
pub(crate) fn splits(setting: &Setting, prefix: &Prefix) -> bool
    requires { 0 < setting.now.b }
    ensures { result ≡ may_split setting.now.own setting.now.b prefix.now }
{
    prefix.begins(&setting.own) || prefix.len() % setting.b != 0
}

impl Bucket {
    /// The bucket of all identifiers, which is empty.
    pub(crate) fn whole(alloc: Global, k: u8) -> Result<Bucket, NoMemory>
        ensures { IfOk result (λ row. row ≡ record { prefix = []; live = []; spares = [] }) }
    {
        let live = Vec::with_capacity(alloc, k as usize)?;
        Ok(Bucket {
            prefix: Prefix::empty(),
            live,
            spares: Vec::new(alloc),
        })
    }

    /// The bucket of a row, with room for k entries, and for k spares where there are any.
    pub(crate) fn of_row(alloc: Global, k: u8, row: &Row) -> Result<Bucket, NoMemory>
        ensures { IfOk result (λ bucket. bucket ≡ state_of row.now) }
    {
        let mut live = Vec::with_capacity(alloc, k as usize)?;
        live.extend_from_slice(row.live.as_slice())?;
        let mut spares = Vec::new(alloc);
        if row.spare.len() > 0 {
            spares.reserve_exact(k as usize)?;
        }
        spares.extend_from_slice(row.spare.as_slice())?;
        Ok(Bucket {
            prefix: row.prefix.copied(),
            live,
            spares,
        })
    }

    /// The bucket as a row, in memory of its own.
    pub(crate) fn row(&self, alloc: Global) -> Result<Row, NoMemory>
        ensures { IfOk result (λ row. state_of row ≡ self.now) }
    {
        let live = List::from_slice(alloc, self.live.as_slice())?;
        let spare = List::from_slice(alloc, self.spares.as_slice())?;
        Ok(Row {
            prefix: self.prefix.copied(),
            live,
            spare,
        })
    }

    pub(crate) fn covers(&self, id: &Id) -> bool
        ensures { result ≡ begins self.now.prefix (id_bits id.now) }
    {
        self.prefix.begins(id)
    }

    pub(crate) fn prefix(&self) -> Prefix
        ensures { result ≡ self.now.prefix }
    {
        self.prefix.copied()
    }

    /// Whether the contact is live or a spare.
    pub(crate) fn keeps(&self, contact: &Contact) -> bool
        ensures { result ≡ among (kept_in self.now) contact.now }
    {
        has(self.live.as_slice(), contact) || is_one_of(self.spares.as_slice(), contact)
    }

    /// Whether a live contact has the identifier.
    pub(crate) fn knows_id(&self, id: &Id) -> bool
        ensures { result ≡ list_any (λ c. same_id c.id id.now) (live_in self.now) }
    {
        has_id(self.live.as_slice(), id)
    }

    /// Its live entries, the least recently seen first.
    pub(crate) fn live(&self) -> &[Live]
        ensures { result.now ≡ self.now.live }
    {
        self.live.as_slice()
    }

    /// Appends its live contacts to a list, or leaves the list.
    pub(crate) fn list_live(&self, list: &mut List<Contact>) -> Result<(), NoMemory>
        ensures { OnOk result (list.new ≡ list.old ++ live_in self.now) }
    {
        for entry in self.live.as_slice() {
            list.push(entry.contact)?;
        }
        Ok(())
    }

    /// Whether it has no room for that identifier, which is new to it, and may split. Then its prefix has fewer than 160
    /// bits, since it covers two identifiers.
    pub(crate) fn needs_split(&self, setting: &Setting, id: &Id) -> bool
        requires some_live { 0 < setting.now.k }
        requires some_bits { 0 < setting.now.b }
        requires covered { All (λ c. begins self.now.prefix (id_bits c.id) ≡ true)
            (live_in self.now) }
        requires covers { begins self.now.prefix (id_bits id.now) ≡ true }
        ensures needs { IsTrue result ↔ NeedsSplit setting.now.own setting.now.k setting.now.b
            id.now self.now }
        ensures two { IsTrue result → length self.now.prefix < 160 }
    {
        if self.live.len() < setting.k as usize {
            return false;
        }
        if !splits(setting, &self.prefix) {
            return false;
        }
        !has_id(self.live.as_slice(), id)
    }

    /// Half of a bucket that splits: one bit more, and the live entries that it covers, with room for k.
    pub(crate) fn half(&self, alloc: Global, k: u8, one: bool) -> Result<Bucket, NoMemory>
        requires { length self.now.prefix < 160 }
        ensures { IfOk result (λ row. row ≡ half_of one self.now) }
    {
        let prefix = self.prefix.child(one);
        let live = covered(alloc, k, self.live.as_slice(), &prefix)?;
        Ok(Bucket {
            prefix,
            live,
            spares: Vec::new(alloc),
        })
    }

    /// Takes in a contact that was seen, where the bucket needn't split for it.
    pub(crate) fn take(&mut self, k: u8, contact: &Contact) -> Result<Seen, NoMemory>
        requires some { 0 < k }
        requires spares { length self.old.spares ≤ k }
        ensures ok { IfOk result (λ seen. RowSeen k contact.now self.old seen self.new) }
        ensures err { OnErr result (self.new ≡ self.old) }
    {
        if has(self.live.as_slice(), contact) {
            renew(&mut self.live, *contact);
            return Ok(Seen::Moved);
        }
        if has_id(self.live.as_slice(), &contact.id) {
            return Ok(Seen::Conflict);
        }
        if self.live.len() < k as usize {
            append(&mut self.live, fresh(*contact))?;
            return Ok(Seen::Added);
        }
        spare(&mut self.spares, k, *contact)?;
        Ok(Seen::Spared)
    }

    /// Counts a failure of a contact. The second removes it, and the newest spare takes its place. Takes no memory.
    pub(crate) fn fail(&mut self, contact: &Contact) -> Gone
        requires { All (λ e. e.failures ≤ 1) self.old.live }
        ensures { RowFailed contact.now self.old result self.new }
    {
        match failures(self.live.as_slice(), contact) {
            None => Gone::Unknown,
            Some(0) => {
                mark(&mut self.live, contact);
                Gone::Kept
            }
            Some(_) => {
                take_out(&mut self.live, contact);
                refill(&mut self.live, &mut self.spares)
            }
        }
    }
}
