//! Why the node isn't started.
ghost use Rattle.std.specs.Prelude.{◌≡◌, codes};

/// Why the node isn't started.
#[derive(Clone, Copy, Debug, PartialEq, Eq)]
pub enum Refusal {
    /// A word of the command line isn't UTF-8, or the system gave no random bytes.
    Start,
    /// There is no memory for the words.
    Memory,
    /// No UDP socket could be bound, or the clock can't be read.
    Socket,
}

impl Refusal {
    /// The exit status.
    pub fn status(self) -> u8
        ensures start { self ≡ Refusal.Start → result ≡ 1 }
        ensures memory { self ≡ Refusal.Memory → result ≡ 9 }
        ensures socket { self ≡ Refusal.Socket → result ≡ 14 }
    {
        match self {
            Refusal::Start => 1,
            Refusal::Memory => 9,
            Refusal::Socket => 14,
        }
    }

    /// The line that is printed.
    pub fn line(self) -> &'static str
        ensures start { self ≡ Refusal.Start → result.now ≡ codes "no start" }
        ensures memory { self ≡ Refusal.Memory → result.now ≡ codes "no memory" }
        ensures socket { self ≡ Refusal.Socket → result.now ≡ codes "no socket" }
    {
        match self {
            Refusal::Start => "no start",
            Refusal::Memory => "no memory",
            Refusal::Socket => "no socket",
        }
    }
}
