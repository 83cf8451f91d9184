//! How long a receive for all lookups waits, and whether its round goes on.
ghost use Rattle.std.specs.Prelude.{◌≡◌, ◌≢◌, ◌<◌, [], length, map};
ghost use Rattle.kad_base.specs.Limits.{max_round_receives};
ghost use Rattle.lookup_crowd.specs.Many.{WaitsUntil, goes_on};
ghost use Rattle.lookup_crowd.specs.inner.Crowd.{queries_of};
ghost use Rattle.lookup_crowd.specs.inner.ManySteps.{sooner_of, IsSoonest};

use crate::seeker::{Progress, Seeker};

/// The earlier of two moments that may be missing.
fn sooner(one: Option<u64>, other: Option<u64>) -> Option<u64>
    ensures { result ≡ sooner_of one other }
{
    match one {
        None => other,
        Some(a) => match other {
            None => Some(a),
            Some(b) => Some(a.min(b)),
        },
    }
}

/// The earliest deadline of the open queries of all lookups; `None` where none is open.
pub(crate) fn earliest(seekers: &[Seeker]) -> Option<u64>
    ensures { IsSoonest result (queries_of seekers.now) }
{
    let mut first = None;
    for seeker in seekers {
        first = sooner(first, seeker.lookup.earliest());
    }
    first
}

/// How long the next receive waits while a query is open.
pub(crate) fn wait_until(progress: &Progress, seekers: &[Seeker]) -> u64
    requires { queries_of seekers.now ≢ [] }
    ensures { WaitsUntil progress.now.receives progress.now.moment
        (map (λ q. q.deadline) (queries_of seekers.now)) result }
{
    match earliest(seekers) {
        Some(deadline) => lookup_core::wait_until(progress.receives, progress.moment, deadline),
        None => unreachable!(),
    }
}

/// The receives of the round after a datagram.
pub(crate) fn round_after(receives: u32, seekers: &[Seeker]) -> u32
    requires { receives < max_round_receives }
    ensures { result ≡ goes_on receives (length (queries_of seekers.now)) }
{
    lookup_core::round_after(receives, earliest(seekers))
}
