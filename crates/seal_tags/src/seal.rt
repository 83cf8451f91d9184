//! How tags are made and judged, as traits of the outside.
ghost use Rattle.std.specs.Prelude.{◌≡◌, ◌<◌, ◌≤◌, ◌++◌, List, ℕ, Bool, length, drop};
ghost use Rattle.kad_base.specs.declared.types.Id.{Id};

use kad_base::Id;

/// Tags what nodes say. Threads share it.
pub trait Seal {
    /// The tag of what the node with this identifier says.
    ghost tag_of: { Self → Id → List ℕ → List ℕ };

    /// Puts the tag of the body in front of `out`, and answers how many bytes it has, 1 to 64. The bytes of `out` after
    /// it stay as they were. Takes no memory.
    fn tag(&self, id: &Id, body: &[u8], out: &mut [u8; 64]) -> usize
        ensures some { 0 < result }
        ensures bound { result ≤ 64 }
        ensures length { result ≡ length (tag_of self.now id.now body.now) }
        ensures out { out.new ≡ tag_of self.now id.now body.now ++ drop result out.old };
}

/// Judges the tags of what nodes say. Threads share it.
pub trait SealCheck {
    /// Whether the tag is accepted for what the node with this identifier says.
    ghost accepted: { Self → Id → List ℕ → List ℕ → Bool };

    /// Whether the tag is accepted for the body. Takes no memory.
    fn accepts(&self, id: &Id, body: &[u8], tag: &[u8]) -> bool
        ensures { result ≡ accepted self.now id.now body.now tag.now };
}
