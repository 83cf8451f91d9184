//! The outside as traits. A source, a sink and a link may tell what they hold, as an optional content that contracts
//! alone see: where it is told when a call returns it was told before, so who stops telling never tells again. Each
//! counts its failures: a call fails only where its count rose, or stands at its last value, 2^64 - 1, and one that goes well
//! leaves the counts as they were.
ghost use Rattle.std.specs.Prelude.{◌≡◌, ◌<◌, ◌≤◌, ◌+◌, [], ◌∷◌, List, ℕ, length, take, Option, IfOk, OnOk, OnErr, IfSome, ◌↔◌, IsTrue};
ghost use Rattle.kad_base.specs.declared.types.Event.{Event};
ghost use Rattle.kad_base.specs.Limits.{max_datagram};
ghost use Rattle.kad_base.specs.Puzzles.{Passes};
ghost use Rattle.kad_base.specs.Outside.{Grows, Shrinks, Rose, EventOf, Arrives, came_at};

use crate::types::{Addr, Came, Event, Failed, Policy, Report};

pub trait Source {
    /// The bytes that are left, where they are told.
    ghost left: { Self → Option (List ℕ) };

    /// How often it has failed.
    ghost faults: { Self → ℕ };

    /// Puts bytes in front of `buf`; 0 is the end.
    fn take(&mut self, buf: &mut [u8]) -> Result<usize, Failed>
        requires { 0 < length buf.old }
        ensures bound { IfOk result (λ n. n ≤ length buf.old) }
        ensures ok { IfOk result (λ n. Shrinks (left self.old) (left self.new) (take n buf.new)) }
        ensures end { IfOk result (λ n. n ≡ 0 → IfSome (left self.new) (λ rest. rest ≡ [])) }
        ensures err { OnErr result (Shrinks (left self.old) (left self.new) []) }
        ensures faults { faults self.old ≤ faults self.new }
        ensures well { IfOk result (λ n. faults self.new ≡ faults self.old) }
        ensures failed { OnErr result (Rose (faults self.old) (faults self.new)) };
}

pub trait Sink {
    /// The bytes written, where they are told.
    ghost written: { Self → Option (List ℕ) };

    /// How often it has failed.
    ghost faults: { Self → ℕ };

    /// Writes a front of the bytes.
    fn give(&mut self, bytes: &[u8]) -> Result<usize, Failed>
        requires { 0 < length bytes.now }
        ensures bound { IfOk result (λ n. n ≤ length bytes.now) }
        ensures some { IfOk result (λ n. 0 < n) }
        ensures ok { IfOk result (λ n. Grows (written self.old) (written self.new)
            (λ t. t ≡ take n bytes.now)) }
        ensures err { OnErr result (Grows (written self.old) (written self.new) (λ t. t ≡ [])) }
        ensures faults { faults self.old ≤ faults self.new }
        ensures well { IfOk result (λ n. faults self.new ≡ faults self.old) }
        ensures failed { OnErr result (Rose (faults self.old) (faults self.new)) };
}

/// A datagram socket with a clock.
pub trait Link {
    /// What of a link no call changes whose receives have room for just one byte more than the longest datagram that is
    /// believed: of a whole network in memory which one it is, and of others nothing. So who says that it is as it was says
    /// of each receive how much room it had.
    ghost Kept: { Type 0 } = { Unit {0} };

    ghost kept: { Self → Self.Kept };

    /// The transcript, where it is told.
    ghost told: { Self → Option (List Event) };

    /// The last told moment.
    ghost moment: { Self → ℕ };

    ghost send_faults: { Self → ℕ };

    ghost recv_faults: { Self → ℕ };

    fn now(&mut self) -> u64
        ensures told { Grows (told self.old) (told self.new) (λ t. t ≡ Event.Now result ∷ []) }
        ensures later { moment self.old ≤ result }
        ensures moment { moment self.new ≡ result }
        ensures kept { kept self.new ≡ kept self.old }
        ensures send_faults { send_faults self.old ≤ send_faults self.new }
        ensures recv_faults { recv_faults self.old ≤ recv_faults self.new }
        ensures no_send_fault { send_faults self.new ≡ send_faults self.old }
        ensures no_recv_fault { recv_faults self.new ≡ recv_faults self.old };

    fn send(&mut self, to: Addr, bytes: &[u8]) -> Result<(), Failed>
        ensures ok { OnOk result (Grows (told self.old) (told self.new)
            (λ t. t ≡ Event.Sent to bytes.now ∷ [])) }
        ensures err { OnErr result (Grows (told self.old) (told self.new)
            (λ t. t ≡ Event.Unsent to bytes.now ∷ [])) }
        ensures moment { moment self.new ≡ moment self.old }
        ensures kept { kept self.new ≡ kept self.old }
        ensures send_faults { send_faults self.old ≤ send_faults self.new }
        ensures recv_faults { recv_faults self.old ≤ recv_faults self.new }
        ensures well { OnOk result (send_faults self.new ≡ send_faults self.old) }
        ensures no_recv_fault { recv_faults self.new ≡ recv_faults self.old }
        ensures failed { OnErr result (Rose (send_faults self.old) (send_faults self.new)) };

    fn recv(&mut self, buf: &mut [u8], until: u64) -> Result<Came, Failed>
        requires { 0 < length buf.old }
        ensures ok { IfOk result (λ came. Grows (told self.old) (told self.new)
            (λ t. t ≡ EventOf came until buf.new ∷ [])) }
        ensures came { IfOk result (λ came. Arrives came until (moment self.old) (length buf.old)) }
        ensures told_moment { IfOk result (λ came. moment self.new ≡ came_at came) }
        ensures err { OnErr result (Grows (told self.old) (told self.new) (λ t. t ≡ [])) }
        ensures err_moment { OnErr result (moment self.new ≡ moment self.old) }
        ensures kept { length buf.old ≡ max_datagram + 1 → kept self.new ≡ kept self.old }
        ensures send_faults { send_faults self.old ≤ send_faults self.new }
        ensures recv_faults { recv_faults self.old ≤ recv_faults self.new }
        ensures well { IfOk result (λ came. recv_faults self.new ≡ recv_faults self.old) }
        ensures no_send_fault { send_faults self.new ≡ send_faults self.old }
        ensures failed { OnErr result (Rose (recv_faults self.old) (recv_faults self.new)) };
}

/// Judges whether the identity of a report may be believed. Threads share it.
pub trait Check {
    fn check(&self, policy: Policy, report: &Report) -> bool
        ensures { IsTrue result ↔ Passes policy report.now };
}
