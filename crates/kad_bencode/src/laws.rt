//! Laws of the spelling. Each is the clause of a function that does nothing.
ghost use Rattle.std.specs.Prelude.{◌≡◌, ℕ, List, [], ◌++◌};
ghost use Rattle.kad_bencode.specs.Spelling.{IsText, Spells, Fits, text_of, in_order};
ghost use Rattle.kad_bencode.specs.declared.value.Value.{Value};

/// No text is a proper prefix of another.
pub fn no_text_begins_another()
    ensures { (text rest : List ℕ) → IsText text → IsText (text ++ rest) → rest ≡ [] }
{}

/// Bytes spell one value at most.
pub fn one_value()
    ensures { (bytes : List ℕ) (v w : Value) → Spells bytes v → Spells bytes w → v ≡ w }
{}

/// The written form spells its value, where at most 16 are nested, the integers are of 64 bits, and the keys ascend.
pub fn written_form_spells()
    ensures { (v : Value) → Fits 0 v → in_order v ≡ v → Spells (text_of v) v }
{}

/// A value that was spelled is such a value: its written form spells it again.
pub fn spelled_again()
    ensures { (bytes : List ℕ) (v : Value) → Spells bytes v → Spells (text_of v) v }
{}
