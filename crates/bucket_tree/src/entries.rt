//! The entries of a bucket: which contacts they have, and which of them stay.
ghost use Rattle.std.specs.Prelude.{◌≢◌, false, ◌≡◌, ◌≤◌, List, ◌++◌, ◌∷◌, [], length, map, filter, find, not, option_map, IsTrue, IfOk, OnErr, vec_capacity};
ghost use Rattle.std.specs.List.{All, list_any};
ghost use Rattle.kad_base.specs.Contacts.{same, among};
ghost use Rattle.bucket_tree.specs.Partition.{id_bits, begins};
ghost use Rattle.bucket_tree.specs.Rows.{contact_of, same_id};
ghost use Rattle.bucket_tree.specs.BucketSteps.{without, mark as mark_of};

use crate::prefix::Prefix;
use crate::types::Live;
use kad_base::{Contact, Id, NoMemory, is_same};
use std::alloc::Global;

/// The two are one identifier. Those of one bucket begin alike, so that most differ in the last byte.
pub(crate) fn is_same_id(a: &Id, b: &Id) -> bool
    ensures { result ≡ same_id a.now b.now }
{
    if a.0[19] != b.0[19] {
        return false;
    }
    a.cmp(b).is_eq()
}

/// The two are one identifier: the same 160 bits.
fn has_same_bits(a: &Id, b: &Id) -> bool
    ensures same { result ≡ same_id a.now b.now }
    ensures bits { id_bits a.now ≡ id_bits b.now → IsTrue result }
{
    let _first = a.0[0];
    let _other = b.0[0];
    is_same_id(a, b)
}

pub(crate) fn has(entries: &[Live], contact: &Contact) -> bool
    ensures { result ≡ among (map contact_of entries.now) contact.now }
{
    entries.iter().any(|entry| is_same(contact, &entry.contact))
}

/// Whether the contact is one of those.
pub(crate) fn is_one_of(contacts: &[Contact], contact: &Contact) -> bool
    ensures { result ≡ among contacts.now contact.now }
{
    contacts.iter().any(|other| is_same(contact, other))
}

/// Whether an entry has the identifier. Where none has it, none has the same bits.
pub(crate) fn has_id(entries: &[Live], id: &Id) -> bool
    ensures known { result ≡ list_any (λ e. same_id e.contact.id id.now) entries.now }
    ensures apart { result ≡ false → All (λ e. id_bits e.contact.id ≢ id_bits id.now) entries.now }
{
    for entry in entries {
        if has_same_bits(&entry.contact.id, id) {
            return true;
        }
    }
    false
}

/// How often the contact failed, where it is live.
pub(crate) fn failures(entries: &[Live], contact: &Contact) -> Option<u8>
    ensures { result ≡ option_map (λ e. e.failures)
        (find (λ e. same contact.now e.contact) entries.now) }
{
    for entry in entries {
        if is_same(contact, &entry.contact) {
            return Some(entry.failures);
        }
    }
    None
}

/// The entries whose identifiers begin with the prefix, with room for k.
pub(crate) fn covered(
    alloc: Global,
    k: u8,
    entries: &[Live],
    prefix: &Prefix,
) -> Result<Vec<Live>, NoMemory>
    ensures items { IfOk result (λ kept. kept.items ≡ filter
        (λ e. begins prefix.now (id_bits e.contact.id)) entries.now) }
    ensures room { IfOk result (λ kept. length kept.items ≤ vec_capacity kept) }
{
    let mut kept = Vec::with_capacity(alloc, k as usize)?;
    for entry in entries {
        if prefix.begins(&entry.contact.id) {
            append(&mut kept, *entry)?;
        }
    }
    Ok(kept)
}

/// Puts an entry at the end, or leaves the entries.
pub(crate) fn append(entries: &mut Vec<Live>, entry: Live) -> Result<(), NoMemory>
    ensures ok { IfOk result (λ done. entries.new.items ≡ entries.old.items ++ entry ∷ []) }
    ensures err { OnErr result (entries.new.items ≡ entries.old.items) }
    ensures room { length entries.old.items ≤ vec_capacity entries.old
        → length entries.new.items ≤ vec_capacity entries.new }
{
    if entries.reserve(1).is_err() {
        return Err(NoMemory);
    }
    Ok(entries.push(entry)?)
}

/// The entry isn't the contact's.
fn is_another(entry: &Live, contact: &Contact) -> bool
    ensures { result ≡ not (same contact.now entry.now.contact) }
{
    !is_same(contact, &entry.contact)
}

/// Takes the entry of the contact out.
pub(crate) fn take_out(entries: &mut Vec<Live>, contact: &Contact)
    ensures items { entries.new.items ≡ without contact.now entries.old.items }
    ensures capacity { vec_capacity entries.new ≡ vec_capacity entries.old }
{
    entries.retain(|entry| is_another(entry, contact));
}

/// The contact has another identifier.
fn has_other_id(contact: &Contact, id: &Id) -> bool
    ensures { result ≡ not (same_id contact.now.id id.now) }
{
    !is_same_id(&contact.id, id)
}

/// Takes the contacts with the identifier out.
pub(crate) fn take_id_out(contacts: &mut Vec<Contact>, id: &Id)
    ensures items { contacts.new.items ≡ filter
        (λ x. not (same_id x.id id.now)) contacts.old.items }
    ensures capacity { vec_capacity contacts.new ≡ vec_capacity contacts.old }
{
    contacts.retain(|contact| has_other_id(contact, id));
}

/// The entry, which has now failed once where it is the contact's.
fn marked(entry: &Live, contact: &Contact) -> Live
    ensures { result ≡ mark_of contact.now entry.now }
{
    if is_same(contact, &entry.contact) {
        return Live {
            contact: entry.contact,
            failures: 1,
        };
    }
    *entry
}

/// The entry of the contact has now failed once.
pub(crate) fn mark(entries: &mut Vec<Live>, contact: &Contact)
    ensures items { entries.new.items ≡ map (mark_of contact.now) entries.old.items }
    ensures capacity { vec_capacity entries.new ≡ vec_capacity entries.old }
{
    for at in 0..entries.len() {
        entries[at] = marked(&entries[at], contact);
    }
}
