// Laws of lookups.
ghost use Rattle.std.specs.Prelude.{◌≡◌, ◌<◌, ◌++◌, ◌∷◌, ℕ, List};
ghost use Rattle.kad_base.specs.declared.types.Event.{Event};
ghost use Rattle.claim_book.specs.declared.types.Entry.{Entry};
ghost use Rattle.claim_book.specs.Journal.{seeds};
ghost use Rattle.claim_book.specs.Legal.{Legal};
ghost use Rattle.lookup_run.specs.LinkCalls.{call_of};
ghost use Rattle.lookup_run.specs.Tells.{Given, Tells};
ghost use Rattle.lookup_run.specs.Rounds.{Rounds, sequential};

/// One legal journal at most goes by rounds with the same events, for one setting, one generator of words and the same
/// seeds: the events of a lookup on one thread determine what it did.
pub fn one_journal()
    ensures { (g : Given) (J K : List Entry) (events : List Event) → 0 < g.setting.paths
        → Legal g.setting J → Legal g.setting K → seeds J ≡ seeds K → Rounds sequential g J events
        → Rounds sequential g K events → J ≡ K }
{}

/// What a lookup on one thread calls next, of its link, follows from the events before, for one setting, one generator of
/// words and the same seeds: whether it sends, what and to whom, or until when it receives. After its end it calls nothing.
pub fn one_next_call()
    ensures next { (g : Given) (J K : List Entry) (before rest others : List Event) (e f : Event)
        → 0 < g.setting.paths → Legal g.setting J → Legal g.setting K → seeds J ≡ seeds K
        → Rounds sequential g J (before ++ e ∷ rest) → Rounds sequential g K (before ++ f ∷ others)
        → call_of e ≡ call_of f }
    ensures last { (g : Given) (J K : List Entry) (events rest : List Event) (e : Event)
        → 0 < g.setting.paths → Legal g.setting J → Legal g.setting K → seeds J ≡ seeds K
        → Tells g K events → Rounds sequential g K events
        → ¬ Rounds sequential g J (events ++ e ∷ rest) }
{}
