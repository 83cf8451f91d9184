//! Laws of a script and of a network. Each is the clause of a function that does nothing.
ghost use Rattle.std.specs.Prelude.{◌≡◌, ◌++◌, ◌∷◌, List, ℕ, Some, true};
ghost use Rattle.kad_base.specs.declared.types.Addr.{Addr};
ghost use Rattle.kad_base.specs.declared.types.Event.{Event};
ghost use Rattle.fake_net.specs.Network.{Network};
ghost use Rattle.fake_net.specs.Plays.{Plays, until_of};
ghost use Rattle.fake_net.specs.declared.script.SentQuery.{SentQuery};
ghost use Rattle.fake_net.specs.declared.script.ScriptEvent.{ScriptEvent};
ghost use Rattle.fake_net.specs.Scripts.{IsNext, NoneNext};

/// One event at most is the next.
pub fn one_next()
    ensures { (queries : List SentQuery) (until : ℕ) (script : List ScriptEvent) (p q : ℕ)
        (a b : ScriptEvent) → IsNext queries until script p a → IsNext queries until script q b
        → p ≡ q }
{}

/// If none is ready by then none is the next.
pub fn none_next()
    ensures { (queries : List SentQuery) (until : ℕ) (script : List ScriptEvent) (p : ℕ) (a : ScriptEvent)
        → NoneNext queries until script → ¬ IsNext queries until script p a }
{}

/// What a network that is received from with wide room gives to a call follows from the events before: to a receive what
/// comes by then, and its moment. It never refuses to send.
pub fn one_course()
    ensures received { (net : Network) (before rest others : List Event) (e f : Event) (until : ℕ)
        → Plays net true (before ++ e ∷ rest) → Plays net true (before ++ f ∷ others)
        → until_of e ≡ Some until → until_of f ≡ Some until → e ≡ f }
    ensures told { (net : Network) (before rest others : List Event) (m n : ℕ)
        → Plays net true (before ++ Event.Now m ∷ rest)
        → Plays net true (before ++ Event.Now n ∷ others) → m ≡ n }
    ensures sent { (net : Network) (before rest : List Event) (to : Addr) (bytes : List ℕ)
        → ¬ Plays net true (before ++ Event.Unsent to bytes ∷ rest) }
{}
