//! The replies of a batch, in the order in which its datagrams came.
ghost use Rattle.std.specs.Prelude.{◌≡◌, ◌≤◌, ◌<◌, length, OnOk};
ghost use Rattle.kad_base.specs.Outside.{Grows, Happens};
ghost use Rattle.node_serve.specs.Receives.{sent_in};
ghost use Rattle.serve_batches.specs.Crew.{AreRoomy, AllWent, SendsAll, batch_slots, slot_at, slots_of};
ghost use Rattle.serve_batches.specs.Slots.{Went, sends_of};

use crate::place::Place;
use crate::shift::Shift;
use crate::slot::Slot;
use kad_base::{Link, NoMemory};

/// The slot at a place.
fn slot_of(crew: &[Shift], place: Place) -> &Slot
    requires within { place.holder < length crew.now }
    requires room { place.round < length (slots_of crew.now place.holder) }
    ensures { result.now ≡ slot_at crew.now place }
{
    &crew[place.holder].slots[place.round]
}

/// Whether there was memory for the answers to the first so many datagrams.
fn went(crew: &[Shift], came: u32) -> Result<(), NoMemory>
    requires some { 0 < length crew.now }
    requires roomy { AreRoomy crew.now }
    requires few { came ≤ 32 }
    ensures { OnOk result (AllWent (batch_slots crew.now came)) }
{
    let n = crew.len();
    let mut place = Place::first();
    for j in 0..came {
        match slot_of(crew, place).went() {
            Ok(()) => {}
            Err(NoMemory) => return Err(NoMemory),
        }
        place = place.next(n);
    }
    Ok(())
}

/// The same over the crew's own list.
pub(crate) fn all_went(crew: &Vec<Shift>, came: u32) -> Result<(), NoMemory>
    requires some { 0 < length crew.now.items }
    requires roomy { AreRoomy crew.now.items }
    requires few { came ≤ 32 }
    ensures { OnOk result (AllWent (batch_slots crew.now.items came)) }
{
    went(crew.as_slice(), came)
}

/// Sends the reply to the datagram at a place.
fn send_at<L: Link>(link: &mut L, crew: &[Shift], place: Place) -> u32
    requires within { place.holder < length crew.now }
    requires room { place.round < length (slots_of crew.now place.holder) }
    ensures most { result ≤ 1 }
    ensures count { result ≡ sent_in (sends_of (slot_at crew.now place) result) }
    ensures told { Grows (L.told link.old) (L.told link.new)
        (λ es. es ≡ sends_of (slot_at crew.now place) result) }
    ensures recv_faults { L.recv_faults link.new ≡ L.recv_faults link.old }
    ensures kept { L.kept link.new ≡ L.kept link.old }
{
    slot_of(crew, place).send(link)
}

/// Sends the replies to the first so many datagrams, in order, and says how many were sent, those aside that the link
/// refused.
fn send_each<L: Link>(link: &mut L, crew: &[Shift], came: u32) -> u32
    requires some { 0 < length crew.now }
    requires roomy { AreRoomy crew.now }
    requires few { came ≤ 32 }
    ensures most { result ≤ came }
    ensures told { Happens (L.told link.old) (L.told link.new)
        (SendsAll (batch_slots crew.now came) result) }
    ensures recv_faults { L.recv_faults link.new ≡ L.recv_faults link.old }
    ensures kept { L.kept link.new ≡ L.kept link.old }
{
    let n = crew.len();
    let mut place = Place::first();
    let mut sent = 0;
    for j in 0..came {
        sent += send_at(link, crew, place);
        place = place.next(n);
    }
    sent
}

/// The same over the crew's own list.
pub(crate) fn send_replies<L: Link>(link: &mut L, crew: &Vec<Shift>, came: u32) -> u32
    requires some { 0 < length crew.now.items }
    requires roomy { AreRoomy crew.now.items }
    requires few { came ≤ 32 }
    ensures most { result ≤ came }
    ensures told { Happens (L.told link.old) (L.told link.new)
        (SendsAll (batch_slots crew.now.items came) result) }
    ensures recv_faults { L.recv_faults link.new ≡ L.recv_faults link.old }
    ensures kept { L.kept link.new ≡ L.kept link.old }
{
    send_each(link, crew.as_slice(), came)
}
