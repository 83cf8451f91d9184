//! The index of a table with a limit: which contacts of each host the table may hold. Each host has as many numbered seats as
//! the limit says. Who has left the table keeps its seat until another takes it, so no call has to follow who leaves.
ghost use Rattle.std.specs.Prelude.{◌≡◌, ◌≢◌, ◌↔◌, ◌<◌, ℕ, IsTrue, true, false, MatchOption, Some, filter};
ghost use Rattle.std.specs.List.{All, Contains, list_any};
ghost use Rattle.std.specs.Option.{IsSomeAnd};
ghost use Rattle.kad_base.specs.Contacts.{among};
ghost use Rattle.bucket_tree.specs.Rows.{same_id};
ghost use Rattle.kad_base.specs.Hosts.{host as host_at};
ghost use Rattle.contact_table.specs.Told.{held_by};
ghost use Rattle.contact_table.specs.Crowded.{IsCrowded, IsNew};
ghost use Rattle.contact_table.specs.Seats.{seat_cmp, sitter, IsSeated, HasSeats};
ghost use Rattle.std.specs.BTreeMap.{IsOrdered};
ghost use Rattle.kad_base.specs.declared.host.Host.{Host};
ghost use Rattle.kad_base.specs.declared.types.Contact.{Contact};
ghost use Rattle.contact_table.specs.declared.seats.Admission.{Admission};

use bucket_tree::Buckets;
use kad_base::{Contact, Host, Id, host_of, is_same};
use sibling_list::Siblings;
use std::collections::BTreeMap;

/// With fewer seats they aren't looked through. Buckets with k 20 and b 5 hold 39,720 contacts at most.
const FEW: usize = 65_536;

/// One of the seats of a host.
#[derive(Clone, Copy, Debug, PartialEq, Eq, PartialOrd, Ord)]
pub(crate) struct Seat {
    pub(crate) host: Host,
    pub(crate) place: u8,
}

/// Whether a contact that was seen may go to its row.
#[derive(Clone, Copy, Debug, PartialEq, Eq)]
pub(crate) enum Admission {
    Admitted,
    Crowded,
    NoMemory,
}

/// Whether the table holds the contact.
pub(crate) fn holds(buckets: &Buckets, siblings: &Siblings, contact: &Contact) -> bool
    ensures { result ≡ among (held_by buckets.now.rows siblings.now.list) contact.now }
{
    buckets.keeps(contact) || siblings.has(contact)
}

/// Whether this is the own identifier.
fn is_own(id: &Id, own: &Id) -> bool
    ensures { result ≡ same_id id.now own.now }
{
    id.cmp(own).is_eq()
}

/// Whether the contact's identifier is new to the buckets.
fn is_new(buckets: &Buckets, contact: &Contact) -> bool
    ensures { IsTrue result ↔ IsNew buckets.now.own buckets.now.rows contact.now }
{
    if is_own(&contact.id, &buckets.own()) {
        return false;
    }
    !buckets.knows_id(&contact.id)
}

/// Who sits there.
fn sitter_of(seats: &BTreeMap<Seat, Contact>, host: Host, place: u8) -> Option<Contact>
    ensures { result ≡ sitter seats.now host place }
{
    seats.get(&Seat { host, place }).copied()
}

/// Whether the contact sits on that seat.
fn sits_at(seats: &BTreeMap<Seat, Contact>, host: Host, place: u8, contact: &Contact) -> bool
    ensures { IsTrue result ↔ (sitter seats.now host place ≡ Some contact.now) }
{
    match sitter_of(seats, host, place) {
        Some(other) => is_same(contact, &other),
        None => false,
    }
}

/// Whether the contact sits on one of the seats of its host.
fn is_seated(seats: &BTreeMap<Seat, Contact>, limit: u8, host: Host, contact: &Contact) -> bool
    ensures yes { IsTrue result → (i : ℕ) × (i < limit) × (sitter seats.now host i ≡ Some contact.now) }
    ensures none { result ≡ false → (i : ℕ) → i < limit → sitter seats.now host i ≢ Some contact.now }
{
    for place in 0..limit {
        if sits_at(seats, host, place, contact) {
            return true;
        }
    }
    false
}

/// Whether a contact that the table holds sits on that seat.
fn is_taken(
    buckets: &Buckets,
    siblings: &Siblings,
    seats: &BTreeMap<Seat, Contact>,
    host: Host,
    place: u8,
) -> bool
    ensures { IsTrue result ↔ IsSomeAnd (sitter seats.now host place)
        (λ c. among (held_by buckets.now.rows siblings.now.list) c ≡ true) }
{
    match sitter_of(seats, host, place) {
        Some(contact) => holds(buckets, siblings, &contact),
        None => false,
    }
}

/// The first seat of the host on which sits nobody whom the table holds.
fn free_place(
    buckets: &Buckets,
    siblings: &Siblings,
    seats: &BTreeMap<Seat, Contact>,
    limit: u8,
    host: Host,
) -> Option<u8>
    ensures { MatchOption result
        ((i : ℕ) → i < limit → IsSomeAnd (sitter seats.now host i)
        (λ c. among (held_by buckets.now.rows siblings.now.list) c ≡ true))
        (λ place. (place < limit) × ¬ IsSomeAnd (sitter seats.now host place)
        (λ c. among (held_by buckets.now.rows siblings.now.list) c ≡ true)) }
{
    for place in 0..limit {
        if !is_taken(buckets, siblings, seats, host, place) {
            return Some(place);
        }
    }
    None
}

/// Takes those from their seats whom the table doesn't hold. Costs a pass over all seats.
fn sweep(buckets: &Buckets, siblings: &Siblings, seats: &mut BTreeMap<Seat, Contact>)
    ensures left { seats.new.entries ≡ filter
        (λ e. among (held_by buckets.now.rows siblings.now.list) e.1) seats.old.entries }
    ensures ordered { IsOrdered seat_cmp seats.old }
{
    seats.retain(|_, contact| holds(buckets, siblings, contact));
}

/// Does so where there are many. Since the last time a third of them were taken at least, so this costs little a call.
fn bound(buckets: &Buckets, siblings: &Siblings, seats: &mut BTreeMap<Seat, Contact>)
    ensures before { (h : Host) (i : ℕ) (c : Contact) → sitter seats.new h i ≡ Some c
        → sitter seats.old h i ≡ Some c }
    ensures seats { (n : ℕ) → HasSeats n (held_by buckets.now.rows siblings.now.list) seats.old
        → HasSeats n (held_by buckets.now.rows siblings.now.list) seats.new }
{
    if seats.len() < FEW {
        return;
    }
    sweep(buckets, siblings, seats);
}

/// Gives the contact, which has no seat, this one, on which nobody sits whom the table holds.
fn take_seat(
    buckets: &Buckets,
    siblings: &Siblings,
    limit: u8,
    seats: &mut BTreeMap<Seat, Contact>,
    place: u8,
    contact: &Contact,
) -> Admission
    requires within { place < limit }
    requires seats { HasSeats limit (held_by buckets.now.rows siblings.now.list) seats.old }
    requires absent { (i : ℕ) → i < limit
        → sitter seats.old (host_at contact.now.addr) i ≢ Some contact.now }
    requires free { ¬ IsSomeAnd (sitter seats.old (host_at contact.now.addr) place)
        (λ c. among (held_by buckets.now.rows siblings.now.list) c ≡ true) }
    ensures seats { HasSeats limit (held_by buckets.now.rows siblings.now.list) seats.new }
    ensures seated { result ≡ Admission.Admitted → IsSeated limit seats.new contact.now }
    ensures crowded { result ≢ Admission.Crowded }
{
    bound(buckets, siblings, seats);
    let host = host_of(&contact.addr);
    match seats.insert(Seat { host, place }, *contact) {
        Ok(_) => Admission::Admitted,
        Err(_) => Admission::NoMemory,
    }
}

/// Gives the contact a seat of its host, if it has none.
fn give_seat(
    buckets: &Buckets,
    siblings: &Siblings,
    limit: u8,
    seats: &mut BTreeMap<Seat, Contact>,
    contact: &Contact,
) -> Admission
    requires limited { 0 < limit }
    requires seats { HasSeats limit (held_by buckets.now.rows siblings.now.list) seats.old }
    ensures seats { HasSeats limit (held_by buckets.now.rows siblings.now.list) seats.new }
    ensures crowded { result ≡ Admission.Crowded
        → IsCrowded limit (held_by buckets.now.rows siblings.now.list) contact.now }
    ensures free { result ≡ Admission.Admitted
        → ¬ IsCrowded limit (held_by buckets.now.rows siblings.now.list) contact.now }
    ensures seated { result ≡ Admission.Admitted → IsSeated limit seats.new contact.now }
{
    let host = host_of(&contact.addr);
    if is_seated(seats, limit, host, contact) {
        return Admission::Admitted;
    }
    match free_place(buckets, siblings, seats, limit, host) {
        None => Admission::Crowded,
        Some(place) => take_seat(buckets, siblings, limit, seats, place, contact),
    }
}

/// Whether the contact may go to its row: if there is no limit, if its identifier isn't new to the buckets, or if its host
/// hasn't as many others as the limit says. Then it has a seat, if there is a limit. Costs as many look-ups as the limit says.
pub(crate) fn admit(
    buckets: &Buckets,
    siblings: &Siblings,
    limit: u8,
    seats: &mut BTreeMap<Seat, Contact>,
    contact: &Contact,
) -> Admission
    requires seats { HasSeats limit (held_by buckets.now.rows siblings.now.list) seats.old }
    ensures seats { HasSeats limit (held_by buckets.now.rows siblings.now.list) seats.new }
    ensures new { result ≡ Admission.Crowded → IsNew buckets.now.own buckets.now.rows contact.now }
    ensures crowded { result ≡ Admission.Crowded
        → IsCrowded limit (held_by buckets.now.rows siblings.now.list) contact.now }
    ensures free { result ≡ Admission.Admitted → IsNew buckets.now.own buckets.now.rows contact.now
        → ¬ IsCrowded limit (held_by buckets.now.rows siblings.now.list) contact.now }
    ensures seated { result ≡ Admission.Admitted → 0 < limit
        → IsNew buckets.now.own buckets.now.rows contact.now → IsSeated limit seats.new contact.now }
{
    if limit == 0 {
        return Admission::Admitted;
    }
    if !is_new(buckets, contact) {
        return Admission::Admitted;
    }
    give_seat(buckets, siblings, limit, seats, contact)
}
