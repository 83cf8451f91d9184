//! The receive calls of a batch.
ghost use Rattle.std.specs.Prelude.{◌≡◌, ◌≤◌, ◌<◌, [], false, min, length, IfOk, OnErr};
ghost use Rattle.kad_base.specs.Failing.{FailsLast};
ghost use Rattle.kad_base.specs.Outside.{Grows, Rose, Happens};
ghost use Rattle.node_serve.specs.Lasting.{is_over};
ghost use Rattle.serve_batches.specs.Ring.{ring};
ghost use Rattle.serve_batches.specs.Batches.{IsCutOff};
ghost use Rattle.serve_batches.specs.Crew.{AreRoomy, SameCrew, PutAt, IsReceived, slot_at, slots_of};
ghost use Rattle.serve_batches.specs.Slots.{Took, datagram_in, took_event};

use crate::place::Place;
use crate::shift::Shift;
use kad_base::{Came, Failed, Link};
use node_serve::{is_over, waits_to};

/// The most receive calls of a batch.
pub(crate) const MAX_BATCH: u32 = 32;

/// A batch that was received: to which place a further datagram would go, how many came, how many receive calls were made,
/// and the moment that was told last.
#[derive(Clone, Copy, Drop)]
pub(crate) struct Received {
    pub place: Place,
    pub came: u32,
    pub made: u32,
    pub moment: u64,
}

/// Receives into the slot at a place.
fn receive_at<L: Link>(
    link: &mut L,
    crew: &mut [Shift],
    place: Place,
    until: u64,
) -> Result<Came, Failed>
    requires within { place.holder < length crew.old }
    requires room { place.round < length (slots_of crew.old place.holder) }
    ensures same { SameCrew crew.old crew.new }
    ensures put { PutAt place crew.old crew.new }
    ensures took { IfOk result (λ came. Took came (slot_at crew.new place)) }
    ensures told { IfOk result (λ came. Grows (L.told link.old) (L.told link.new)
        (λ es. es ≡ took_event came until (datagram_in (slot_at crew.new place)))) }
    ensures still { OnErr result (Grows (L.told link.old) (L.told link.new) (λ es. es ≡ [])) }
    ensures well { IfOk result (λ came. L.recv_faults link.new ≡ L.recv_faults link.old) }
    ensures failed { OnErr result (Rose (L.recv_faults link.old) (L.recv_faults link.new)) }
    ensures last { OnErr result (FailsLast L.told L.recv_faults link.old link.new) }
    ensures recv_faults { L.recv_faults link.old ≤ L.recv_faults link.new }
    ensures kept { L.kept link.new ≡ L.kept link.old }
{
    crew[place.holder].receive(place.round, link, until)
}

/// Receives a batch behind a moment before the end: first for a minute, but to the end at most, and then, as long as something
/// came before the end, without waiting. Of so many receive calls that are left it makes at most 32.
fn receive_into<L: Link>(
    link: &mut L,
    crew: &mut [Shift],
    moment: u64,
    left: u32,
    end: Option<u64>,
) -> Result<Received, Failed>
    requires some { 0 < left }
    requires goes { is_over end moment ≡ false }
    requires workers { 0 < length crew.old }
    requires roomy { AreRoomy crew.old }
    ensures same { SameCrew crew.old crew.new }
    ensures place { IfOk result (λ b. b.place ≡ ring (length crew.new) b.came) }
    ensures came { IfOk result (λ b. b.came ≤ 32) }
    ensures made { IfOk result (λ b. b.made ≤ left) }
    ensures some { IfOk result (λ b. 0 < b.made) }
    ensures fewer { IfOk result (λ b. b.came ≤ b.made) }
    ensures ok { IfOk result (λ b. Happens (L.told link.old) (L.told link.new) (IsReceived end left moment b crew.new)) }
    ensures err { OnErr result (Happens (L.told link.old) (L.told link.new) (IsCutOff end left moment)) }
    ensures well { IfOk result (λ came. L.recv_faults link.new ≡ L.recv_faults link.old) }
    ensures failed { OnErr result (Rose (L.recv_faults link.old) (L.recv_faults link.new)) }
    ensures last { OnErr result (FailsLast L.told L.recv_faults link.old link.new) }
    ensures recv_faults { L.recv_faults link.old ≤ L.recv_faults link.new }
    ensures kept { L.kept link.new ≡ L.kept link.old }
{
    let n = crew.len();
    let most = left.min(MAX_BATCH);
    let mut place = Place::first();
    let mut until = waits_to(end, moment);
    for made in 0..most {
        match receive_at(link, crew, place, until) {
            Ok(Came::Packet { at, .. }) => {
                place = place.next(n);
                until = at;
                if is_over(end, at) {
                    return Ok(Received {
                        place,
                        came: made + 1,
                        made: made + 1,
                        moment: at,
                    });
                }
            }
            Ok(Came::Quiet { at }) => {
                return Ok(Received {
                    place,
                    came: made,
                    made: made + 1,
                    moment: at,
                });
            }
            Err(Failed) => return Err(Failed),
        }
    }
    Ok(Received {
        place,
        came: most,
        made: most,
        moment: until,
    })
}

/// The same over the crew's own list.
pub(crate) fn receive_batch<L: Link>(
    link: &mut L,
    crew: &mut Vec<Shift>,
    moment: u64,
    left: u32,
    end: Option<u64>,
) -> Result<Received, Failed>
    requires some { 0 < left }
    requires goes { is_over end moment ≡ false }
    requires workers { 0 < length crew.old.items }
    requires roomy { AreRoomy crew.old.items }
    ensures same { SameCrew crew.old.items crew.new.items }
    ensures place { IfOk result (λ b. b.place ≡ ring (length crew.new.items) b.came) }
    ensures came { IfOk result (λ b. b.came ≤ 32) }
    ensures made { IfOk result (λ b. b.made ≤ left) }
    ensures some { IfOk result (λ b. 0 < b.made) }
    ensures fewer { IfOk result (λ b. b.came ≤ b.made) }
    ensures ok { IfOk result (λ b. Happens (L.told link.old) (L.told link.new) (IsReceived end left moment b crew.new.items)) }
    ensures err { OnErr result (Happens (L.told link.old) (L.told link.new) (IsCutOff end left moment)) }
    ensures well { IfOk result (λ came. L.recv_faults link.new ≡ L.recv_faults link.old) }
    ensures failed { OnErr result (Rose (L.recv_faults link.old) (L.recv_faults link.new)) }
    ensures last { OnErr result (FailsLast L.told L.recv_faults link.old link.new) }
    ensures recv_faults { L.recv_faults link.old ≤ L.recv_faults link.new }
    ensures kept { L.kept link.new ≡ L.kept link.old }
{
    receive_into(link, crew.as_mut_slice(), moment, left, end)
}
