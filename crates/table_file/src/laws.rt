//! What holds of every saved text. Each law is a clause of a function that does nothing.
ghost use Rattle.std.specs.Prelude.{◌≡◌, List, ℕ};
ghost use Rattle.contact_table.specs.declared.saved.Saved.{Saved};
ghost use Rattle.table_file.specs.Reading.{IsBadLine};
ghost use Rattle.table_file.specs.SavedText.{IsSavedText};

/// A text is the saved text of one table at most, so that reading can give no other than was written.
pub fn one_saved()
    ensures { (bytes : List ℕ) (a b : Saved) → IsSavedText bytes a → IsSavedText bytes b → a ≡ b }
{}

/// A text has one bad line at most, and a saved text has none. So `read` gives back what `write` printed, or finds no memory,
/// where the text is short enough to be read: of fewer than 2^32 - 1 bytes.
pub fn one_bad_line()
    ensures one { (bytes : List ℕ) (m n : ℕ) → IsBadLine bytes m → IsBadLine bytes n → m ≡ n }
    ensures alone { (bytes : List ℕ) (saved : Saved) (n : ℕ) → IsSavedText bytes saved
        → ¬ IsBadLine bytes n }
{}
