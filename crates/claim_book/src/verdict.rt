//! A report with its verdict.
ghost use Rattle.std.specs.Prelude.{◌≡◌, ◌↔◌, IsTrue};
ghost use Rattle.kad_base.specs.Puzzles.{Passes};

use kad_base::{Check, Policy, Report};
use std::marker::Model;

/// A report that was checked under a policy. No other code can make one, so its verdict is whether the report passes.
#[derive(Debug, Drop)]
pub struct Checked {
    policy: Policy,
    report: Report,
    passes: bool,
}

impl Model for Checked {
    ghost use Rattle.std.specs.Prelude.{◌↔◌, IsTrue};
    ghost use Rattle.kad_base.specs.Puzzles.{Passes};
    ghost use Rattle.claim_book.specs.CheckedState.{CheckedState};

    ghost Value = { CheckedState };

    ghost view = { λ c. record { policy = c.policy; report = c.report } };

    ghost invariant = { λ c. IsTrue c.passes ↔ Passes c.policy c.report };
}

impl Checked {
    /// Checks a report. This is the costly part of settling it, and needs no book.
    pub fn of<C: Check>(check: &C, policy: Policy, report: Report) -> Checked
        ensures policy { result.policy ≡ policy }
        ensures report { result.report ≡ report }
    {
        let passes = check.check(policy, &report);
        Checked {
            policy,
            report,
            passes,
        }
    }

    pub fn policy(&self) -> Policy
        ensures { result ≡ self.now.policy }
    {
        self.policy
    }

    pub fn report(&self) -> Report
        ensures { result ≡ self.now.report }
    {
        self.report
    }

    /// Whether the report passes the policy.
    pub fn passes(&self) -> bool
        ensures { IsTrue result ↔ Passes self.now.policy self.now.report }
    {
        self.passes
    }
}
