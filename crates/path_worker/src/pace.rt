//! How quick a check is, for who decides whether threads are worth their making.
ghost use Rattle.std.specs.Prelude.{◌≡◌, Bool, false};

use id_puzzles::Sha1Check;
use kad_base::Check;

/// A check that says whether it may take long, as one that asks somebody does. What several have to check is then checked at
/// once, on threads. It decides nothing else.
pub trait PacedCheck: Check {
    /// Whether it may take long.
    ghost slow: { Self → Bool };

    fn is_slow(&self) -> bool
        ensures { result ≡ slow self.now };
}

/// Two hashes are quick.
impl PacedCheck for Sha1Check {
    ghost slow = { λ _. false };

    fn is_slow(&self) -> bool {
        false
    }
}
