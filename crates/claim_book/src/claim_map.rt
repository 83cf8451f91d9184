//! The map of claims: whose a contact is, and what came of it; how many contacts of each host a path has; and, where several
//! paths may have a contact, which have it.
ghost use Rattle.std.specs.Prelude.{◌≡◌, ◌↔◌, ◌≤◌, ◌<◌, ◌+◌, IsTrue, IsSome, Some, [], true, if◌then◌else◌, OnOk, unwrap_or, slice_get, IfSome};
ghost use Rattle.std.specs.List.{All};
ghost use Rattle.indexmap.specs.IndexMap.{get};
ghost use Rattle.kad_base.specs.declared.types.ClaimRule.TheVariants.{Asked};
ghost use Rattle.kad_base.specs.declared.types.Contact.{Contact};
ghost use Rattle.claim_book.specs.declared.types.Thing.TheVariants.{Told};
ghost use Rattle.kad_base.specs.Hosts.{host};
ghost use Rattle.claim_book.specs.Claims.{key_eq, seat_eq, seat, spot_eq, spot, blank, shown, shown_crowd, shown_on, asked_claim, ended_claim, taken_claim, HasRoom, IsKnown, Sets, Takes, Keeps};

use crate::types::Setting;
use indexmap::IndexMap;
use kad_base::{ClaimRule, Contact, Host, NoMemory, Report, host_of, is_usable};
use std::alloc::Global;
use std::collections::VecDeque;
use std::hash::RandomState;

/// What came of a contact: whose it is, whether it was asked, and whether it answered or was lost. It is the path's that has
/// it, where a lookup claims what is named; and the path's that asked it, where it claims what is asked.
#[derive(Clone, Copy, Debug, PartialEq, Eq)]
pub struct Claim {
    pub by: Option<u8>,
    pub asked: bool,
    pub ended: bool,
}

/// A path and a host.
#[derive(Clone, Copy, Debug, PartialEq, Eq, Hash)]
pub struct Seat {
    pub path: u8,
    pub host: Host,
}

/// A path and a contact.
#[derive(Clone, Copy, Debug, PartialEq, Eq, Hash)]
pub struct Spot {
    pub path: u8,
    pub contact: Contact,
}

/// Each contact that a path has or a report named, and what came of it. Where the lookup has a limit of contacts of one
/// host, also how many each path has of each host that it has or that was named to it. Where the lookup claims what is asked,
/// so that several paths may have a contact, also whether each path has each that was named to it.
#[derive(Drop)]
pub struct Claims {
    pub(crate) contacts: IndexMap<Contact, Claim, RandomState, Global>,
    pub(crate) crowds: IndexMap<Seat, u8, RandomState, Global>,
    pub(crate) spots: IndexMap<Spot, bool, RandomState, Global>,
}

/// A map that has nothing. Takes no memory.
pub(crate) fn no_claims(alloc: Global, hasher: RandomState) -> Claims
    ensures contacts { result.contacts.entries ≡ [] }
    ensures crowds { result.crowds.entries ≡ [] }
    ensures spots { result.spots.entries ≡ [] }
{
    Claims {
        contacts: IndexMap::with_hasher(alloc, hasher),
        crowds: IndexMap::with_hasher(alloc, hasher),
        spots: IndexMap::with_hasher(alloc, hasher),
    }
}

/// Where the map has the contact, or its length if it doesn't. A contact keeps its place, and a place is a guess: whoever is
/// given one looks there first, and finds the contact by its hash if another stands there.
pub(crate) fn place_of(claims: &Claims, contact: &Contact) -> usize {
    match claims.contacts.get_index_of(contact) {
        Some(place) => place,
        None => claims.contacts.len(),
    }
}

/// What the map says of a contact, where it has that place.
fn claim_in(claims: &Claims, place: usize, contact: &Contact) -> Option<Claim>
    ensures there { IfSome result (λ k. slice_get claims.now.contacts.entries place
        ≡ Some (contact.now, k)) }
    ensures says { IfSome result (λ k. get key_eq claims.now.contacts contact.now ≡ Some k) }
{
    let (key, claim) = claims.contacts.get_index(place)?;
    if key != contact {
        return None;
    }
    Some(*claim)
}

/// What the map says of a contact.
pub(crate) fn claim_at(claims: &Claims, place: usize, contact: &Contact) -> Claim
    ensures { result ≡ shown claims.now contact.now }
{
    if let Some(claim) = claim_in(claims, place, contact) {
        return claim;
    }
    match claims.contacts.get(contact) {
        Some(claim) => *claim,
        None => unclaimed(),
    }
}

/// Of a contact that no path has.
fn unclaimed() -> Claim
    ensures { result ≡ blank }
{
    Claim {
        by: None,
        asked: false,
        ended: false,
    }
}

/// Writes what came of a contact that the map has. Takes no memory.
fn set_claim(claims: &mut Claims, place: usize, contact: Contact, claim: Claim)
    requires known { IsSome (get key_eq claims.old.contacts contact) }
    ensures each { Sets claims.old claims.new contact claim }
{
    if let Some(_) = claim_in(claims, place, &contact) {
        let (_, old) = claims.contacts.pair_mut(place);
        *old = claim;
        return;
    }
    match claims.contacts.insert(contact, claim) {
        Ok(_) => {}
        Err(_) => unreachable!(),
    }
}

/// The path asked the contact. Takes no memory.
pub(crate) fn mark_asked(
    claims: &mut Claims,
    rule: ClaimRule,
    path: u8,
    place: usize,
    contact: &Contact,
)
    requires known { IsSome (get key_eq claims.old.contacts contact.now) }
    ensures each { Sets claims.old claims.new contact.now
        (asked_claim rule path (shown claims.old contact.now)) }
{
    let claim = claim_at(claims, place, contact);
    let by = match rule {
        ClaimRule::Named => claim.by,
        ClaimRule::Asked => Some(path),
    };
    set_claim(
        claims,
        place,
        *contact,
        Claim {
            by,
            asked: true,
            ended: claim.ended,
        },
    );
}

/// The contact answered, or is lost. Takes no memory.
pub(crate) fn mark_ended(claims: &mut Claims, place: usize, contact: &Contact)
    requires known { IsSome (get key_eq claims.old.contacts contact.now) }
    ensures each { Sets claims.old claims.new contact.now
        (ended_claim (shown claims.old contact.now)) }
{
    let claim = claim_at(claims, place, contact);
    set_claim(
        claims,
        place,
        *contact,
        Claim {
            ended: true,
            ..claim
        },
    );
}

/// The path took the contact. Takes no memory.
pub(crate) fn mark_taken(
    claims: &mut Claims,
    setting: &Setting,
    path: u8,
    place: usize,
    contact: &Contact,
)
    requires known { HasRoom setting.now claims.old path contact.now }
    requires free { 0 < setting.now.per_address → shown_crowd claims.old path
        (host contact.now.addr) < setting.now.per_address }
    ensures { Takes setting.now claims.old claims.new path contact.now }
{
    match setting.claim {
        ClaimRule::Named => {
            let claim = claim_at(claims, place, contact);
            set_claim(
                claims,
                place,
                *contact,
                Claim {
                    by: Some(path),
                    ..claim
                },
            );
        }
        ClaimRule::Asked => put_on(
            claims,
            Spot {
                path,
                contact: *contact,
            },
        ),
    }
    if setting.per_address == 0 {
        return;
    }
    count_one(
        claims,
        Seat {
            path,
            host: host_of(&contact.addr),
        },
    );
}

/// The path has the contact, of which the map has whether it does. Takes no memory.
fn put_on(claims: &mut Claims, at: Spot)
    requires known { IsSome (get spot_eq claims.old.spots at) }
    ensures contacts { claims.new.contacts ≡ claims.old.contacts }
    ensures crowds { claims.new.crowds ≡ claims.old.crowds }
    ensures spots { (k : Spot) → get spot_eq claims.new.spots k ≡ (if spot_eq at k then Some true
        else get spot_eq claims.old.spots k) }
{
    match claims.spots.insert(at, true) {
        Ok(_) => {}
        Err(_) => unreachable!(),
    }
}

/// Whether the path has the contact, where several paths may.
pub(crate) fn is_on(claims: &Claims, path: u8, contact: &Contact) -> bool
    ensures { result ≡ shown_on claims.now path contact.now }
{
    let at = Spot {
        path,
        contact: *contact,
    };
    match claims.spots.get(&at) {
        Some(has) => *has,
        None => false,
    }
}

/// How many contacts of a host the path has.
fn crowd_at(claims: &Claims, seat: &Seat) -> u8
    ensures { result ≡ unwrap_or (get seat_eq claims.now.crowds seat.now) 0 }
{
    match claims.crowds.get(seat) {
        Some(count) => *count,
        None => 0,
    }
}

/// The path has one contact more of a host that the map has. Takes no memory.
fn count_one(claims: &mut Claims, at: Seat)
    requires known { IsSome (get seat_eq claims.old.crowds at) }
    requires free { unwrap_or (get seat_eq claims.old.crowds at) 0 < 255 }
    ensures contacts { claims.new.contacts ≡ claims.old.contacts }
    ensures spots { claims.new.spots ≡ claims.old.spots }
    ensures crowds { (k : Seat) → get seat_eq claims.new.crowds k ≡ (if seat_eq at k
        then Some (unwrap_or (get seat_eq claims.old.crowds at) 0 + 1)
        else get seat_eq claims.old.crowds k) }
{
    let count = crowd_at(claims, &at);
    match claims.crowds.insert(at, count + 1) {
        Ok(_) => {}
        Err(_) => unreachable!(),
    }
}

/// Whether the path has as many contacts of the contact's host as it may. Without a limit nothing is looked up.
pub(crate) fn is_crowded(claims: &Claims, limit: u8, path: u8, contact: &Contact) -> bool
    ensures { IsTrue result ↔ ((0 < limit) × (limit ≤ shown_crowd claims.now path
        (host contact.now.addr))) }
{
    if limit == 0 {
        return false;
    }
    let count = crowd_at(
        claims,
        &Seat {
            path,
            host: host_of(&contact.addr),
        },
    );
    count >= limit
}

/// Enters the contact as one that no path has, where the map doesn't have it, and answers its place.
fn learn_contact(claims: &mut Claims, contact: &Contact) -> Result<usize, NoMemory>
    ensures kept { Keeps claims.old claims.new }
    ensures known { OnOk result (IsSome (get key_eq claims.new.contacts contact.now)) }
{
    match claims.contacts.get_index_of(contact) {
        Some(place) => Ok(place),
        None => {
            let (place, _) = claims.contacts.insert_full(*contact, unclaimed())?;
            Ok(place)
        }
    }
}

/// Enters the host as one of which the path has no contact, where the map doesn't have it.
fn learn_host(claims: &mut Claims, at: Seat) -> Result<(), NoMemory>
    ensures kept { Keeps claims.old claims.new }
    ensures known { OnOk result (IsSome (get seat_eq claims.new.crowds at)) }
{
    if claims.crowds.contains_key(&at) {
        return Ok(());
    }
    claims.crowds.insert(at, 0)?;
    Ok(())
}

/// Enters the contact as one that the path doesn't have, where the map doesn't say.
fn learn_spot(claims: &mut Claims, at: Spot) -> Result<(), NoMemory>
    ensures kept { Keeps claims.old claims.new }
    ensures known { OnOk result (IsSome (get spot_eq claims.new.spots at)) }
{
    if claims.spots.contains_key(&at) {
        return Ok(());
    }
    claims.spots.insert(at, false)?;
    Ok(())
}

/// Makes the room by which the path can take the contact without memory, and answers the contact's place.
pub(crate) fn make_place(
    claims: &mut Claims,
    setting: &Setting,
    path: u8,
    contact: &Contact,
) -> Result<usize, NoMemory>
    ensures kept { Keeps claims.old claims.new }
    ensures known { OnOk result (HasRoom setting.now claims.new path contact.now) }
{
    let place = learn_contact(claims, contact)?;
    if setting.claim == ClaimRule::Asked {
        learn_spot(
            claims,
            Spot {
                path,
                contact: *contact,
            },
        )?;
    }
    if setting.per_address == 0 {
        return Ok(place);
    }
    learn_host(
        claims,
        Seat {
            path,
            host: host_of(&contact.addr),
        },
    )?;
    Ok(place)
}

/// Makes room for the report's contact where it is usable, and answers its place.
fn learn_report(
    claims: &mut Claims,
    setting: &Setting,
    path: u8,
    report: &Report,
) -> Result<usize, NoMemory>
    ensures kept { Keeps claims.old claims.new }
    ensures known { OnOk result (IsKnown setting.now path claims.new (Told report.now)) }
{
    if !is_usable(&setting.own, &report.contact) {
        return Ok(0);
    }
    make_place(claims, setting, path, &report.contact)
}

/// Makes room for each usable contact that an answer reports to the path, and notes their places. Whatever it returns, the
/// map shows what it showed.
fn learn_each(
    claims: &mut Claims,
    setting: &Setting,
    path: u8,
    reports: &[Report],
    places: &mut VecDeque<usize>,
) -> Result<(), NoMemory>
    ensures kept { Keeps claims.old claims.new }
    ensures known { OnOk result (All (λ r. IsKnown setting.now path claims.new (Told r))
        reports.now) }
{
    for report in reports {
        let place = learn_report(claims, setting, path, report)?;
        places.push_back(place)?;
    }
    Ok(())
}

/// Makes room for each usable contact that an answer reports to the path. Whatever it returns, the map shows what it
/// showed. The places of what the answer gives to settle are noted, where it is learnt as a whole.
pub(crate) fn learn(
    claims: &mut Claims,
    setting: &Setting,
    path: u8,
    reports: &[Report],
    places: &mut VecDeque<usize>,
) -> Result<(), NoMemory>
    ensures kept { Keeps claims.old claims.new }
    ensures known { OnOk result (All (λ r. IsKnown setting.now path claims.new (Told r))
        reports.now) }
{
    let before = places.len();
    // Who answered is only noted, and isn't looked up again.
    places.push_back(0)?;
    match learn_each(claims, setting, path, reports, places) {
        Ok(()) => Ok(()),
        Err(NoMemory) => {
            places.truncate(before);
            Err(NoMemory)
        }
    }
}
