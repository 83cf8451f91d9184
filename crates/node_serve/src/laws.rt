//! What holds of every answer. Each law is the clause of a function that does nothing.
ghost use Rattle.std.specs.Prelude.{◌≡◌, ◌↔◌, ℕ, Bool, List, Option};
ghost use Rattle.kad_base.specs.declared.types.Addr.{Addr};
ghost use Rattle.kad_base.specs.declared.types.Policy.{Policy};
ghost use Rattle.kad_base.specs.declared.types.Policy.TheVariants.{Puzzled};
ghost use Rattle.kad_base.specs.declared.types.Proof.{Proof};
ghost use Rattle.kad_base.specs.declared.serial.Made.{Made};
ghost use Rattle.kad_base.specs.Serial.{left_by};
ghost use Rattle.kad_krpc.specs.declared.message.Ask.{Ask};
ghost use Rattle.kad_krpc.specs.declared.message.Message.{Message};
ghost use Rattle.contact_table.specs.TableState.{SoundTable, TableState};
ghost use Rattle.contact_table.specs.TableStep.{table_after};
ghost use Rattle.contact_table.specs.Told.{vouched_by};
ghost use Rattle.contact_table.specs.declared.calls.TableCall.{TableCall};
ghost use Rattle.contact_table.specs.declared.calls.TableReply.{TableReply};
ghost use Rattle.item_store.specs.Items.{IsItems};
ghost use Rattle.node_serve.specs.AnswerBy.{AnswerBy};
ghost use Rattle.node_serve.specs.AnswerOf.{AnswerOf, IsVouchedFor, notify_by};
ghost use Rattle.node_serve.specs.NodeState.{NodeState};
ghost use Rattle.node_serve.specs.Passing.{AllPass};

/// A datagram has one answer, want of memory aside: its reply, and the node after it where the table is sound, as every
/// table is.
pub fn one_answer()
    ensures reply { (s : NodeState) (from : Addr) (bytes : List ℕ) (at : ℕ) (m n : Message)
        (x y : NodeState)
        → AnswerOf s from bytes at m x → AnswerOf s from bytes at n y → m ≡ n }
    ensures node { (s : NodeState) (from : Addr) (bytes : List ℕ) (at : ℕ) (m n : Message)
        (x y : NodeState)
        → AnswerOf s from bytes at m x → AnswerOf s from bytes at n y → SoundTable s.table → x ≡ y }
{}

/// What the rules make of a datagram, from what the node holds, is what its calls make of it: those that it asks for,
/// applied in order, and the reply that is computed from their replies alone; the items are sound, as those of every store
/// are.
pub fn same_answer()
    ensures by_calls { (s : NodeState) (from : Addr) (bytes : List ℕ) (at : ℕ) (m : Message)
        (x : NodeState)
        → AnswerOf s from bytes at m x → IsItems s.items → AnswerBy s from bytes at m x }
    ensures by_rules { (s : NodeState) (from : Addr) (bytes : List ℕ) (at : ℕ) (m : Message)
        (x : NodeState)
        → AnswerBy s from bytes at m x → AnswerOf s from bytes at m x }
{}

/// Where puzzles are asked for, the table is told of who asks exactly if the query isn't read-only, is one of the four methods
/// of BEP 5, and brings a proof that solves both puzzles for the identifier that it names; and of no other proof.
pub fn who_is_taken()
    ensures { (c1 c2 : ℕ) (read_only : Bool) (proof : Option Proof) (ask : Ask) (from : Addr)
        (call : TableCall)
        → (notify_by (Puzzled c1 c2) read_only proof ask from ≡ Some call)
        ↔ IsVouchedFor c1 c2 read_only proof ask from call }
{}

/// Each proof that a node keeps of those who asked passes at its own numbers: what it answers leaves none that doesn't, if there
/// was none before; and so does whatever run of calls shows a table only such. A table begins without proofs.
pub fn what_is_kept_passes()
    ensures answer { (s : NodeState) (from : Addr) (bytes : List ℕ) (at : ℕ) (m : Message)
        (x : NodeState) → AnswerOf s from bytes at m x → AllPass s.policy s.table.proofs
        → AllPass s.policy x.table.proofs }
    ensures run { (policy : Policy) (s : TableState) (run : List (Made TableCall TableReply))
        → AllPass policy s.proofs → AllPass policy (vouched_by run)
        → AllPass policy (left_by table_after s run).proofs }
{}
