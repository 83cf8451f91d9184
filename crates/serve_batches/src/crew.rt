//! All workers, each with its datagrams, at once.
ghost use Rattle.std.specs.Prelude.{◌≡◌, ◌≤◌, ◌<◌, ◌+◌, ◌^◌, ℕ, length, Some};
ghost use Rattle.std.specs.List.{All};
ghost use Rattle.serve_batches.specs.Ring.{share};
ghost use Rattle.node_serve.specs.Calls.{IsSetting};
ghost use Rattle.serve_crew.specs.Hands.{CanWork};
ghost use Rattle.serve_batches.specs.Crew.{AllWorked, HasShares};
ghost use Rattle.serve_batches.specs.Deeds.{AllTold, known};

use crate::deed::{Leading, Service, Serving, Way};
use crate::place::Place;
use crate::shift::Shift;
use node_serve::ServeSetting;
use seal_tags::Seal;
use std::sync::Wait;
use work_desk::{Vacant, work_out};

/// Tells each worker how many datagrams it has, where the next one would go to this place, and the moment.
fn deal_shares(place: &Place, at: u64, crew: &mut [Shift])
    requires few { place.now.round + 1 < 2 ^ 64 }
    ensures len { length crew.new ≡ length crew.old }
    ensures told { AllTold place.now crew.old crew.new }
{
    for w in 0..crew.len() {
        crew[w].tell(place.share_of(w), at);
    }
}

/// Lets each worker answer its datagrams, in order, and all workers at once, where the next datagram would go to this
/// place.
pub(crate) fn work_all<B: Serving, R: Wait, G: Seal>(
    rt: &R,
    setting: &ServeSetting,
    service: &Service<G>,
    place: &Place,
    at: u64,
    posts: &mut Vec<Vacant<Shift, Way<B>>>,
    crew: &mut Vec<Shift>,
)
    requires known { B.known ≡ Some (known (G.tag_of service.now.seal.now) setting.now service.now.turns.now) }
    requires setting { IsSetting setting.now }
    requires few { place.now.round + 1 < 2 ^ 64 }
    requires within { place.now.holder < length crew.old.items }
    requires can { All (λ s. CanWork service.now.turns.now s.worker) crew.old.items }
    requires shares { HasShares place.now crew.old.items }
    ensures len { length crew.new.items ≡ length crew.old.items }
    ensures each { AllWorked (G.tag_of service.now.seal.now) setting.now place.now crew.old.items
        crew.new.items }
{
    deal_shares(place, at, crew.as_mut_slice());
    let mut leading = Leading::new(setting, service.turns, service.seal);
    work_out(rt, &mut leading, posts, crew);
}
