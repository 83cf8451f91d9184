//! A check at which contacts meet: it shows who is judged at once.
use crate::contacts::contact;
use id_puzzles::Sha1Check;
use kad_base::{Check, Policy, Report};
use path_worker::PacedCheck;
use std::sync::atomic::{AtomicU32, Ordering};

/// Says of a report what its puzzles say, and lets the first checks of so many contacts, from this
/// number on, wait for each other, for so many looks at most.
#[derive(Drop)]
pub struct Meeting {
    first: u8,
    count: u8,
    came: AtomicU32,
    saw: AtomicU32,
}

const LOOKS: u32 = 200_000_000;

/// Whether so many had come before so many looks were over.
fn sees(came: &AtomicU32, count: u32) -> bool {
    for _ in 0..LOOKS {
        if came.load(Ordering::SeqCst).count_ones() >= count {
            return true;
        }
    }
    false
}

impl Meeting {
    /// A meeting of so many contacts, at most 32, from this number on.
    pub fn new(first: u8, count: u8) -> Meeting {
        Meeting {
            first,
            count,
            came: AtomicU32::new(0),
            saw: AtomicU32::new(0),
        }
    }

    /// Whether the check of each contact saw those of all others.
    pub fn is_met(&self) -> bool {
        self.saw.load(Ordering::SeqCst) == u32::from(self.count)
    }

    /// The place of the report's contact among those that meet, from 0.
    fn place(&self, report: &Report) -> Option<u8> {
        (0..self.count.min(32)).find(|i| report.contact == contact(self.first.wrapping_add(*i)))
    }

    /// Comes, and the first time looks whether all others come.
    pub(crate) fn meet(&self, place: u8) {
        let own = 1u32 << (place % 32);
        if self.came.fetch_or(own, Ordering::SeqCst) & own != 0 {
            return;
        }
        if sees(&self.came, u32::from(self.count)) {
            self.saw.fetch_add(1, Ordering::SeqCst);
        }
    }
}

impl Check for Meeting {
    fn check(&self, policy: Policy, report: &Report) -> bool {
        if let Some(place) = self.place(report) {
            self.meet(place);
        }
        Sha1Check.check(policy, report)
    }
}

/// It waits for others.
impl PacedCheck for Meeting {
    ghost use Rattle.std.specs.Prelude.{true};

    ghost slow = { λ _. true };

    fn is_slow(&self) -> bool {
        true
    }
}
