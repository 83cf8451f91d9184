//! What holds of every text. Each law is a clause of a function that does nothing.
ghost use Rattle.std.specs.Prelude.{◌≡◌, List, ℕ};
ghost use Rattle.kad_base.specs.declared.types.Event.{Event};
ghost use Rattle.kad_words.specs.Plain.{CommandOf};
ghost use Rattle.kad_words.specs.Table.{Word};
ghost use Rattle.kad_words.specs.declared.command.Command.{Command};
ghost use Rattle.node_top.specs.Asked.{AsksPlain};
ghost use Rattle.command_base.specs.Called.{Called};
ghost use Rattle.node_top.specs.Commands.{HasText, ReadsInput};
ghost use Rattle.node_top.specs.MadeFrom.{NamesSeed, GoesByEvents};
ghost use Rattle.command_base.specs.Shown.{SameInput, SameEvents, Shown};

/// A command that takes no link has one text: that of its words, of the 32 random bytes, and of the input if it reads
/// one and the source tells it. Only the words give it if `mint` or `sim` names a seed. So what is written follows from
/// nothing else: no hasher, no clock, no order of threads, and no amount of memory but too little.
///
/// What `serve` and `refresh` write follows from that, the seal and the link's events, if the link tells them; and so does what
/// `lookup`, `peers`, `get` and `put` write, unless the check is slow. Under a slow check, and of `node`, it may follow from how
/// threads take turns, too: which of two paths takes a contact that both were told of. So may the table that several workers of
/// `serve` leave, if it is printed.
pub fn one_text()
    ensures plain { (words : List Word) (called other : Called) (source again : Shown ℕ)
        (link beside : Shown Event) (a b : List ℕ) → AsksPlain words
        → called.random ≡ other.random → (ReadsInput words → SameInput source again)
        → HasText words called source link a → HasText words other again beside b → a ≡ b }
    ensures seeded { (words : List Word) (command : Command) (called other : Called)
        (source again : Shown ℕ) (link beside : Shown Event) (a b : List ℕ)
        → CommandOf words command → NamesSeed command → HasText words called source link a
        → HasText words other again beside b → a ≡ b }
    ensures told { (words : List Word) (command : Command) (called : Called)
        (source again : Shown ℕ) (link beside : Shown Event) (a b : List ℕ)
        → CommandOf words command → GoesByEvents called.slow command → SameInput source again
        → SameEvents link beside → HasText words called source link a
        → HasText words called again beside b → a ≡ b }
{}
