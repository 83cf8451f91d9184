//! How long the written form of a value is that stands in a text.
ghost use Rattle.std.specs.Prelude.{◌≡◌, length};
ghost use Rattle.kad_bencode.specs.Spelling.{Spells, text_of};
ghost use Rattle.kad_bencode.specs.declared.value.Value.{Value as Ben};

use crate::piece::Piece;

/// How long the written form of the value is that bytes spell: as long as they are.
fn length_in(bytes: &[u8]) -> usize
    ensures { (v : Ben) → Spells bytes.now v → result ≡ length (text_of v) }
{
    bytes.len()
}

impl<'a> Piece<'a> {
    /// How many bytes the written form of the value has. Nothing is written for it: its text has as many.
    pub fn written_len(&self) -> usize
        ensures { result ≡ length (text_of self.now) }
    {
        length_in(self.bytes)
    }
}
