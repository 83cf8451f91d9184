//! An object whose calls are steps, so that a run of it can be told whoever made the calls.
ghost use Rattle.std.specs.Prelude.{◌≡◌, ℕ};

/// A call that was made, by which role, and its reply.
#[derive(Clone, Copy, Debug, PartialEq, Eq)]
pub struct Made<C, R> {
    pub role: u8,
    pub call: C,
    pub reply: R,
}

/// An object whose calls are steps: each reply is one that the state before it allows, and determines the state after.
pub trait Serial {
    type Call;

    type Reply;

    /// Which role may make which call.
    ghost may: { ℕ → Self.Call → Type 0 };

    /// Whether a reply may come, given the state before, the role and the call.
    ghost step: { Self → ℕ → Self.Call → Self.Reply → Type 0 };

    /// The state that a reply leaves.
    ghost after: { Self → ℕ → Self.Call → Self.Reply → Self };

    fn apply(&mut self, role: u8, call: Self::Call) -> Self::Reply
        requires { may role call }
        ensures step { step self.old role call result }
        ensures after { self.new ≡ after self.old role call result };
}
