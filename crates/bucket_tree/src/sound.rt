//! Whether a row is one that a bucket can be.
ghost use Rattle.std.specs.Prelude.{◌≡◌, ◌↔◌, ◌<◌, ◌≤◌, IsTrue, IfOk, false, length};
ghost use Rattle.std.specs.List.{All, list_any};
ghost use Rattle.kad_base.specs.declared.types.Id.{Id};
ghost use Rattle.bucket_tree.specs.Rows.{IsRow, IsOnce, may_split, same_id};
ghost use Rattle.bucket_tree.specs.States.{IsHome, distinct, state_of, kept_in};
ghost use Rattle.bucket_tree.specs.Trees.{IsWhole, IsWholeRow};

use crate::bucket::splits;
use crate::entries::is_same_id;
use crate::prefix::Prefix;
use crate::rows::Row;
use crate::types::{Live, Setting};
use kad_base::{Contact, Id, NoMemory};
use std::alloc::Global;

/// k and b are within their limits.
pub(crate) fn is_within(setting: &Setting) -> bool
    ensures { let s = setting.now in IsTrue result ↔ ((0 < s.k) × (s.k ≤ 20) × (0 < s.b) × (s.b ≤ 5)) }
{
    0 < setting.k && setting.k <= 20 && 0 < setting.b && setting.b <= 5
}

/// Each of the live contacts failed at most once.
fn failed_once(live: &[Live]) -> bool
    ensures { IsTrue result ↔ All (λ e. e.failures ≤ 1) live.now }
{
    live.iter().all(|entry| entry.failures <= 1)
}

/// There are no spares, or the bucket is full and may not split.
fn may_have_spares(setting: &Setting, row: &Row) -> bool
    requires { 0 < setting.now.b }
    ensures { let s = setting.now in let r = state_of row.now in IsTrue result
        ↔ (0 < length r.spares → (length r.live ≡ s.k) × (may_split s.own s.b r.prefix ≡ false)) }
{
    if row.spare.len() == 0 {
        return true;
    }
    row.live.len() == setting.k as usize && !splits(setting, &row.prefix)
}

/// The contact has an identifier that begins with the prefix, and isn't the own one.
fn is_at_home(own: &Id, prefix: &Prefix, contact: &Contact) -> bool
    ensures home { IsTrue result ↔ IsHome own.now prefix.now contact.now }
    ensures whole { IsWhole contact.now.id }
{
    let _first = contact.id.0[0];
    prefix.begins(&contact.id) && !is_same_id(&contact.id, own)
}

/// One of the contacts has the identifier.
fn some_has(contacts: &[Contact], id: &Id) -> bool
    ensures { result ≡ list_any (λ c. same_id c.id id.now) contacts.now }
{
    contacts.iter().any(|contact| is_same_id(&contact.id, id))
}

/// Each contact has an identifier that begins with the prefix, and none the own one.
fn are_at_home(own: &Id, prefix: &Prefix, contacts: &[Contact]) -> bool
    ensures home { IsTrue result ↔ All (IsHome own.now prefix.now) contacts.now }
    ensures whole { IsTrue result → All (λ c. IsWhole c.id) contacts.now }
{
    for contact in contacts {
        if !is_at_home(own, prefix, contact) {
            return false;
        }
    }
    true
}

/// None of the contacts has the identifier of one after it.
fn are_distinct(contacts: &[Contact]) -> bool
    ensures { result ≡ distinct contacts.now }
{
    for (at, contact) in contacts.iter().enumerate() {
        if some_has(&contacts[at + 1..], &contact.id) {
            return false;
        }
    }
    true
}

/// No two of the contacts have one identifier.
fn is_once(contacts: &[Contact]) -> bool
    ensures { IsTrue result ↔ ((id : Id) → IsOnce contacts.now id) }
{
    are_distinct(contacts)
}

/// All contacts of a row, the live ones first.
fn contacts_of(alloc: Global, row: &Row) -> Result<Vec<Contact>, NoMemory>
    ensures { IfOk result (λ contacts. contacts.items ≡ kept_in (state_of row.now)) }
{
    let mut contacts = Vec::with_capacity(alloc, row.live.len())?;
    for entry in row.live.as_slice() {
        contacts.push(entry.contact)?;
    }
    contacts.extend_from_slice(row.spare.as_slice())?;
    Ok(contacts)
}

/// There are at most k live contacts and k spares, and no live one failed more than once.
fn has_few(k: u8, row: &Row) -> bool
    ensures { let r = state_of row.now in IsTrue result ↔ ((length r.live ≤ k)
        × (length r.spares ≤ k) × All (λ e. e.failures ≤ 1) r.live) }
{
    row.live.len() <= k as usize
        && row.spare.len() <= k as usize
        && failed_once(row.live.as_slice())
}

/// Whether a bucket can be this row. Each contact is compared with fewer than 2k others.
pub(crate) fn is_row(alloc: Global, setting: &Setting, row: &Row) -> Result<bool, NoMemory>
    requires { 0 < setting.now.b }
    ensures row { let s = setting.now in IfOk result (λ sound. IsTrue sound
        ↔ IsRow s.own s.k s.b (state_of row.now)) }
    ensures whole { IfOk result (λ sound. IsTrue sound → IsWholeRow (state_of row.now)) }
{
    if !has_few(setting.k, row) {
        return Ok(false);
    }
    if !may_have_spares(setting, row) {
        return Ok(false);
    }
    let contacts = contacts_of(alloc, row)?;
    if !are_at_home(&setting.own, &row.prefix, contacts.as_slice()) {
        return Ok(false);
    }
    Ok(is_once(contacts.as_slice()))
}
