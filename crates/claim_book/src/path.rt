//! What answers the calls on one path in the place of its journal.
ghost use Rattle.std.specs.Prelude.{◌≡◌, ◌≤◌, ◌<◌, ◌+◌, ◌++◌, ◌∷◌, [], List, length, take, drop, filter, find, slice_get, IfOk, OnOk, vec_capacity, not, Bool};
ghost use Rattle.std.specs.List.Sorted.{IsStrictlySortedBy};
ghost use Rattle.std.specs.VecDeque.{deque_capacity};
ghost use Rattle.kad_base.specs.declared.types.Contact.{Contact};
ghost use Rattle.kad_base.specs.Contacts.{same, among, without};
ghost use Rattle.kad_distance.specs.Order.{closeness};
ghost use Rattle.kad_distance.specs.KClosest.{put};
ghost use Rattle.claim_book.specs.Journal.{things_in};
ghost use Rattle.claim_book.specs.Index.{IsEmptyPath, HasPlace, Gains};

use crate::types::{Setting, Thing};
use kad_base::limits::MAX_PATH_CONTACTS;
use kad_base::{Contact, Id, NoMemory, Report, is_same};
use kad_distance::{place, put_closest};
use std::alloc::Global;
use std::collections::VecDeque;

/// One path of a lookup.
#[derive(Drop)]
pub struct Path {
    /// The contacts of the path that no other path asked and that are not lost, nearest first.
    pub(crate) near: Vec<Contact>,
    /// Those of them that nobody asked, nearest first.
    pub(crate) fresh: Vec<Contact>,
    /// How many contacts the path began with or took, lost ones among them.
    pub(crate) count: usize,
    /// How many queries are open.
    pub(crate) opens: usize,
    /// What is not settled, in order.
    pub(crate) queue: VecDeque<Thing>,
    /// Where the map of claims has the contact of each of these, as a guess.
    pub(crate) places: VecDeque<usize>,
}

/// A path that has nothing, with room for all contacts that it may have.
pub(crate) fn new_path(alloc: Global) -> Result<Path, NoMemory>
    ensures { IfOk result IsEmptyPath }
{
    let near = Vec::with_capacity(alloc, MAX_PATH_CONTACTS)?;
    let fresh = Vec::with_capacity(alloc, MAX_PATH_CONTACTS)?;
    Ok(Path {
        near,
        fresh,
        count: 0,
        opens: 0,
        queue: VecDeque::new(alloc),
        places: VecDeque::new(alloc),
    })
}

/// The first of the k nearest that passes a test, where `fresh` has those of the nearest that pass. It looks up no key.
pub(crate) fn first_fresh(
    target: &Id,
    near: &[Contact],
    fresh: &[Contact],
    k: usize,
) -> Option<Contact>
    requires { IsStrictlySortedBy (closeness target.now) near.now }
    ensures { (T : Contact → Bool) → fresh.now ≡ filter T near.now
        → result ≡ find T (take k near.now) }
{
    let first = match fresh.first() {
        Some(first) => *first,
        None => return None,
    };
    if place(target, near, &first) >= k {
        return None;
    }
    Some(first)
}

/// The first thing that is not settled.
pub(crate) fn first_thing(path: &Path) -> Option<Thing>
    ensures { result ≡ slice_get path.now.queue.items 0 }
{
    path.queue.front().copied()
}

/// Where the map of claims has the contact of the first thing that is not settled, as a guess.
pub(crate) fn first_place(path: &Path) -> usize {
    path.places.front().copied().unwrap_or(0)
}

/// One more query is open, of a contact that was never asked.
pub(crate) fn ask_one(path: &mut Path, contact: &Contact)
    requires { path.old.opens < 255 }
    ensures near { path.new.near ≡ path.old.near }
    ensures fresh { path.new.fresh.items ≡ without path.old.fresh.items (contact.now ∷ []) }
    ensures fresh_room { vec_capacity path.old.fresh ≤ vec_capacity path.new.fresh }
    ensures count { path.new.count ≡ path.old.count }
    ensures opens { path.new.opens ≡ path.old.opens + 1 }
    ensures queue { path.new.queue ≡ path.old.queue }
{
    leave_out(&mut path.fresh, contact);
    path.opens += 1;
}

/// Another path asks the contact.
pub(crate) fn lend_one(path: &mut Path, asked: &Contact)
    ensures near { path.new.near.items ≡ without path.old.near.items (asked.now ∷ []) }
    ensures near_room { vec_capacity path.old.near ≤ vec_capacity path.new.near }
    ensures fresh { path.new.fresh.items ≡ without path.old.fresh.items (asked.now ∷ []) }
    ensures fresh_room { vec_capacity path.old.fresh ≤ vec_capacity path.new.fresh }
    ensures count { path.new.count ≡ path.old.count }
    ensures opens { path.new.opens ≡ path.old.opens }
    ensures queue { path.new.queue ≡ path.old.queue }
{
    leave_out(&mut path.near, asked);
    leave_out(&mut path.fresh, asked);
}

/// An open query was answered, in room that is there.
pub(crate) fn hear_one(path: &mut Path, contact: &Contact, reports: &[Report])
    requires some { 0 < path.old.opens }
    requires room { length path.old.queue.items + (length reports.now + 1)
        ≤ deque_capacity path.old.queue }
    ensures near { path.new.near ≡ path.old.near }
    ensures fresh { path.new.fresh ≡ path.old.fresh }
    ensures count { path.new.count ≡ path.old.count }
    ensures opens { path.new.opens + 1 ≡ path.old.opens }
    ensures queue { path.new.queue.items ≡ path.old.queue.items ++ things_in contact.now
        reports.now }
{
    path.opens -= 1;
    give(&mut path.queue, contact, reports);
}

/// An open query is lost.
pub(crate) fn lose_one(path: &mut Path, contact: &Contact)
    requires { 0 < path.old.opens }
    ensures near { path.new.near.items ≡ without path.old.near.items (contact.now ∷ []) }
    ensures near_room { vec_capacity path.old.near ≤ vec_capacity path.new.near }
    ensures fresh { path.new.fresh ≡ path.old.fresh }
    ensures count { path.new.count ≡ path.old.count }
    ensures opens { path.new.opens + 1 ≡ path.old.opens }
    ensures queue { path.new.queue ≡ path.old.queue }
{
    leave_out(&mut path.near, contact);
    path.opens -= 1;
}

/// What stood first is settled.
pub(crate) fn settle_one(path: &mut Path)
    ensures near { path.new.near ≡ path.old.near }
    ensures fresh { path.new.fresh ≡ path.old.fresh }
    ensures count { path.new.count ≡ path.old.count }
    ensures opens { path.new.opens ≡ path.old.opens }
    ensures queue { path.new.queue.items ≡ drop 1 path.old.queue.items }
{
    let _ = path.places.pop_front();
    let _ = path.queue.pop_front();
}

/// The path has one contact more, in room that is there.
pub(crate) fn add_one(path: &mut Path, setting: &Setting, contact: &Contact)
    requires { HasPlace setting.now path.old }
    ensures gains { Gains setting.now contact.now path.old path.new }
    ensures queue { path.new.queue ≡ path.old.queue }
{
    put_near(&mut path.near, setting, contact);
    put_near(&mut path.fresh, setting, contact);
    path.count += 1;
}

/// The reported contact that stood first is now the path's, in room that is there.
pub(crate) fn take_one(path: &mut Path, setting: &Setting, contact: &Contact)
    requires { HasPlace setting.now path.old }
    ensures gains { Gains setting.now contact.now path.old path.new }
    ensures queue { path.new.queue.items ≡ drop 1 path.old.queue.items }
{
    settle_one(path);
    add_one(path, setting, contact);
}

/// Makes room for so many more things to settle, or leaves the path as it is.
pub(crate) fn widen(path: &mut Path, more: usize) -> Result<(), NoMemory>
    ensures near { path.new.near ≡ path.old.near }
    ensures fresh { path.new.fresh ≡ path.old.fresh }
    ensures count { path.new.count ≡ path.old.count }
    ensures opens { path.new.opens ≡ path.old.opens }
    ensures queue { path.new.queue.items ≡ path.old.queue.items }
    ensures room { OnOk result (length path.new.queue.items + more
        ≤ deque_capacity path.new.queue) }
{
    path.places.reserve(more)?;
    Ok(path.queue.reserve(more)?)
}

/// Puts a contact in its place, in room that is there.
fn put_near(near: &mut Vec<Contact>, setting: &Setting, contact: &Contact)
    requires sorted { IsStrictlySortedBy (closeness setting.now.target) near.old.items }
    requires room { length near.old.items < vec_capacity near.old }
    ensures items { near.new.items ≡ put (closeness setting.now.target) near.old.items contact.now }
    ensures room { vec_capacity near.old ≤ vec_capacity near.new }
{
    let k = near.capacity();
    put_closest(near, &setting.target, k, contact);
}

/// Puts in what an answer gives to settle, in room that is there.
fn give(queue: &mut VecDeque<Thing>, contact: &Contact, reports: &[Report])
    requires { length queue.old.items + (length reports.now + 1) ≤ deque_capacity queue.old }
    ensures { queue.new.items ≡ queue.old.items ++ things_in contact.now reports.now }
{
    give_one(queue, Thing::Responder { contact: *contact });
    for report in reports {
        give_one(queue, Thing::Told { report: *report });
    }
}

fn give_one(queue: &mut VecDeque<Thing>, thing: Thing)
    requires { length queue.old.items < deque_capacity queue.old }
    ensures items { queue.new.items ≡ queue.old.items ++ thing ∷ [] }
    ensures room { deque_capacity queue.old ≤ deque_capacity queue.new }
{
    match queue.push_back(thing) {
        Ok(()) => {}
        Err(_) => unreachable!(),
    }
}

fn is_another(one: &Contact, other: &Contact) -> bool
    ensures { result ≡ not (same one.now other.now) }
{
    !is_same(one, other)
}

/// Takes the contact out.
fn leave_out(near: &mut Vec<Contact>, contact: &Contact)
    ensures items { near.new.items ≡ without near.old.items (contact.now ∷ []) }
    ensures room { vec_capacity near.old ≤ vec_capacity near.new }
{
    near.retain(|other| is_another(other, contact));
}
