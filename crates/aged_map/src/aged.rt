//! What is kept, and what became of it.
ghost use Rattle.std.specs.Prelude.{◌≡◌, ℕ};

/// What knows when it was last renewed.
pub trait Aged {
    ghost moment: { Self → ℕ };

    /// When it was last renewed, in milliseconds.
    fn moment(&self) -> u64
        ensures { result ≡ moment self.now };
}

/// A moment alone.
impl Aged for u64 {
    ghost moment = { λ n. n };

    fn moment(&self) -> u64 {
        *self
    }
}

/// What became of a value that was put under a key.
#[derive(Clone, Copy, Debug, PartialEq, Eq)]
pub enum Stored {
    /// The key wasn't held, and is now.
    New,
    /// The key was held, and has the new value.
    Renewed,
}
