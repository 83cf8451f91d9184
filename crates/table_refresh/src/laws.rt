//! What holds of every refresh. Each law is the clause of a function that does nothing.
ghost use Rattle.std.specs.Prelude.{◌≡◌, ℕ, List};
ghost use Rattle.kad_base.specs.declared.types.Event.{Event};
ghost use Rattle.contact_table.specs.TableState.{TableState, SoundTable};
ghost use Rattle.table_refresh.specs.Refreshed.{Given, Standing, Tells, Refreshed};

/// The events of a refresh determine what they show, and so the table that it leaves, which is sound.
pub fn one_refresh()
    ensures standing { (g : Given) (table : TableState) (place : ℕ) (events : List Event)
        (s t : Standing) → SoundTable table → Tells g table place events s
        → Tells g table place events t → s ≡ t }
    ensures sound { (g : Given) (table : TableState) (place : ℕ) (events : List Event)
        (s : Standing) → SoundTable table → Tells g table place events s → SoundTable s.table }
    ensures table { (g : Given) (table : TableState) (place : ℕ) (t u : TableState) (m n : ℕ)
        (events : List Event) → SoundTable table → Refreshed g table place t m events
        → Refreshed g table place u n events → t ≡ u }
{}
