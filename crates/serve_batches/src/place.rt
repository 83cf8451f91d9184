//! A place of a thing that is dealt.
ghost use Rattle.std.specs.Prelude.{◌≡◌, ◌+◌, ◌<◌, ◌≤◌, ◌^◌};
ghost use Rattle.serve_batches.specs.Ring.{behind, place, ring, share};

/// Whose a thing is that is dealt, and the how many-th of its holder, each from 0.
#[derive(Clone, Copy, Debug, PartialEq, Eq)]
pub struct Place {
    pub holder: usize,
    pub round: usize,
}

impl Place {
    /// The place of the first thing.
    pub fn first() -> Place
        ensures { result ≡ place 0 0 }
    {
        Place {
            holder: 0,
            round: 0,
        }
    }

    /// The place behind this one, of n holders in a ring.
    pub fn next(self, n: usize) -> Place
        requires within { self.holder < n }
        requires few { self.round + 1 < 2 ^ 64 }
        ensures next { result ≡ behind n self }
        ensures within { result.holder < n }
        ensures round { result.round ≤ self.round + 1 }
    {
        if self.holder + 1 == n {
            return Place {
                holder: 0,
                round: self.round + 1,
            };
        }
        Place {
            holder: self.holder + 1,
            round: self.round,
        }
    }

    /// How many things a holder has, where the next one would go to this place.
    pub fn share_of(self, holder: usize) -> usize
        requires few { self.round + 1 < 2 ^ 64 }
        ensures { result ≡ share self holder }
    {
        if holder < self.holder {
            return self.round + 1;
        }
        self.round
    }
}
