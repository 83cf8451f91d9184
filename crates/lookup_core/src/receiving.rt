//! One receive, whoever makes it: how long it waits, whether its round goes on, and how many strays are taken.
ghost use Rattle.std.specs.Prelude.{◌≡◌, ◌+◌, ◌<◌, ℕ, List, length, MatchOption};
ghost use Rattle.kad_base.specs.Limits.{max_round_receives, max_strays};
ghost use Rattle.query_book.specs.declared.Query.{Query};
ghost use Rattle.lookup_core.specs.Receiving.{IsEarliest, IsSoonest, WaitsUntil, goes_on};

use crate::state::Lookup;
use kad_base::limits::{MAX_ROUND_RECEIVES, MAX_STRAYS};

/// How long a receive waits, where this is the earliest deadline: to that where it begins a round, and else not at all.
pub fn wait_until(receives: u32, moment: u64, earliest: u64) -> u64
    ensures { (deadlines : List ℕ) → IsEarliest deadlines earliest
        → WaitsUntil receives moment deadlines result }
{
    if receives != 0 {
        return moment;
    }
    earliest
}

/// The receives of the round after a datagram, where this is the earliest deadline, if a query is open: none where the
/// round ends, as it does with no query open and at the 32nd.
pub fn round_after(receives: u32, earliest: Option<u64>) -> u32
    requires { receives < max_round_receives }
    ensures { (queries : List Query) → IsSoonest earliest queries
        → result ≡ goes_on receives (length queries) }
{
    match earliest {
        Some(_) => {}
        None => return 0,
    }
    if receives + 1 < MAX_ROUND_RECEIVES {
        return receives + 1;
    }
    0
}

/// One stray more; `None` if it is the last that is taken, which ends whoever waits.
pub fn stray_more(strays: u32) -> Option<u32>
    requires { strays < max_strays }
    ensures { MatchOption result (strays + 1 ≡ max_strays)
        (λ more. (more ≡ strays + 1) × (more < max_strays)) }
{
    let more = strays + 1;
    if more == MAX_STRAYS {
        return None;
    }
    Some(more)
}

impl Lookup {
    /// The earliest deadline of the open queries; `None` if none is open.
    pub fn earliest(&self) -> Option<u64>
        ensures { IsSoonest result self.now.queries }
    {
        self.queries.next_deadline()
    }
}
