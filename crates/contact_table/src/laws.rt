//! What holds of every table, whoever calls it. Each law is the clause of a function that does nothing.
ghost use Rattle.std.specs.Prelude.{◌≡◌, ◌≢◌, ◌<◌, ◌≤◌, ◌↔◌, ℕ, List, [], ◌++◌, None, Some};
ghost use Rattle.std.specs.List.{All, Contains};
ghost use Rattle.kad_base.specs.declared.types.Id.{Id};
ghost use Rattle.kad_base.specs.declared.types.Contact.{Contact};
ghost use Rattle.kad_base.specs.declared.types.Proof.{Proof};
ghost use Rattle.kad_base.specs.declared.serial.Made.{Made};
ghost use Rattle.kad_base.specs.Serial.{IsRun, left_by};
ghost use Rattle.kad_distance.specs.KClosest.{k_closest};
ghost use Rattle.bucket_tree.specs.declared.types.Seen.{Seen};
ghost use Rattle.contact_table.specs.declared.calls.TableCall.{TableCall};
ghost use Rattle.contact_table.specs.declared.calls.TableReply.{TableReply};
ghost use Rattle.contact_table.specs.TableState.{TableState, SoundTable};
ghost use Rattle.contact_table.specs.TableStep.{TableMay, TableStep, table_after, contacts_of};
ghost use Rattle.contact_table.specs.Told.{HasMemory, IsVouched, calls_in, replies_in, held_in, limited_table, new_table, seen_calls, told_by, vouched_by};
ghost use Rattle.contact_table.specs.Crowded.{HasFew};
ghost use Rattle.contact_table.specs.Vouched.{proof_beside};

/// A call of a sound table has one outcome, unless it is out of memory: its reply and the state that it leaves follow from the
/// state and the call. So do the replies of a run and the state at its end from the calls: an input gives one table.
pub fn one_outcome()
    ensures reply { (s : TableState) (role other : ℕ) (call : TableCall) (x y : TableReply)
        → SoundTable s → TableStep s role call x → TableStep s other call y → HasMemory x
        → HasMemory y → x ≡ y }
    ensures state { (s : TableState) (role other : ℕ) (call : TableCall) (x y : TableReply)
        → SoundTable s → TableStep s role call x → TableStep s other call y → HasMemory x
        → HasMemory y → table_after s role call x ≡ table_after s other call y }
    ensures run_replies { (s : TableState) (run other : List (Made TableCall TableReply))
        → SoundTable s → IsRun TableMay TableStep table_after s run
        → IsRun TableMay TableStep table_after s other → calls_in run ≡ calls_in other
        → All HasMemory (replies_in run) → All HasMemory (replies_in other)
        → replies_in run ≡ replies_in other }
    ensures run_state { (s : TableState) (run other : List (Made TableCall TableReply))
        → SoundTable s → IsRun TableMay TableStep table_after s run
        → IsRun TableMay TableStep table_after s other → calls_in run ≡ calls_in other
        → All HasMemory (replies_in run) → All HasMemory (replies_in other)
        → left_by table_after s run ≡ left_by table_after s other }
{}

/// A new table is sound, and a sound one stays so whoever makes which calls.
pub fn stays_sound()
    ensures new { (own : Id) (k b : ℕ) → 0 < k → k ≤ 20 → 0 < b → b ≤ 5
        → SoundTable (new_table own k b) }
    ensures limited { (own : Id) (k b n : ℕ) → 0 < k → k ≤ 20 → 0 < b → b ≤ 5
        → SoundTable (limited_table own k b n) }
    ensures step { (s : TableState) (role : ℕ) (call : TableCall) (x : TableReply) → SoundTable s
        → TableStep s role call x → SoundTable (table_after s role call x) }
    ensures run { (s : TableState) (run : List (Made TableCall TableReply)) → SoundTable s
        → IsRun TableMay TableStep table_after s run → SoundTable (left_by table_after s run) }
{}

/// A table has no contact but those that it had and those that a Seen or Vouched named. So each live contact and each sibling
/// of a table that began as a new one was named by some such call since.
pub fn holds_what_it_was_told()
    ensures held { (s : TableState) (run : List (Made TableCall TableReply))
        → All (Contains (held_in s ++ told_by run)) (held_in (left_by table_after s run)) }
    ensures since_new { (own : Id) (k b : ℕ) (run : List (Made TableCall TableReply))
        → All (Contains (told_by run)) (contacts_of (left_by table_after (new_table own k b) run)) }
    ensures since_limited { (own : Id) (k b n : ℕ) (run : List (Made TableCall TableReply))
        → All (Contains (told_by run))
        (contacts_of (left_by table_after (limited_table own k b n) run)) }
{}

/// A table that began without contacts holds no more different ones of one host than its limit says, if it has one: among its
/// live contacts, spares and siblings together, whoever made which calls.
pub fn few_of_a_host()
    ensures { (own : Id) (k b n : ℕ) (run : List (Made TableCall TableReply)) → 0 < k → k ≤ 20
        → 0 < b → b ≤ 5 → IsRun TableMay TableStep table_after (limited_table own k b n) run
        → HasFew n (held_in (left_by table_after (limited_table own k b n) run)) }
{}

/// A table has a proof of no contact that it doesn't hold, and of none two, whoever makes which calls: a new one has none at all.
/// It has no proof but those that it had and those that a Vouched named, each beside the contact that showed it. The first
/// that a contact showed stays as long as the table holds it.
pub fn vouches_for_whom_it_holds()
    ensures limited { (own : Id) (k b n : ℕ) → IsVouched (limited_table own k b n) }
    ensures step { (s : TableState) (role : ℕ) (call : TableCall) (x : TableReply) → IsVouched s
        → IsVouched (table_after s role call x) }
    ensures run { (s : TableState) (run : List (Made TableCall TableReply)) → IsVouched s
        → IsVouched (left_by table_after s run) }
    ensures shown { (s : TableState) (run : List (Made TableCall TableReply))
        → All (Contains (s.proofs ++ vouched_by run)) (left_by table_after s run).proofs }
    ensures first { (s : TableState) (role : ℕ) (c : Contact) (p : Proof) (seen : Seen)
        → proof_beside s.proofs c ≡ None
        → Contains (held_in (table_after s role (TableCall.Vouched c p) (TableReply.Seen seen))) c
        → proof_beside (table_after s role (TableCall.Vouched c p) (TableReply.Seen seen)).proofs c
        ≡ Some p }
    ensures stays { (s : TableState) (role : ℕ) (call : TableCall) (x : TableReply) (c : Contact)
        (p : Proof) → proof_beside s.proofs c ≡ Some p
        → Contains (held_in (table_after s role call x)) c
        → proof_beside (table_after s role call x).proofs c ≡ Some p }
{}

/// A new table, whatever its limit, that was told of contacts, and not out of memory, names none as closest exactly if it was told of none. The
/// table's own identifier is no contact's: it would take none in of those. So a lookup lacks contacts to begin with exactly
/// where its input gives none.
pub fn names_none_of_none()
    ensures { (own target : Id) (k b per_address n : ℕ) (contacts : List Contact)
        (run : List (Made TableCall TableReply)) → 0 < k → 0 < n
        → All (λ (c : Contact). c.id ≢ own) contacts
        → IsRun TableMay TableStep table_after (limited_table own k b per_address) run
        → calls_in run ≡ seen_calls contacts → All HasMemory (replies_in run)
        → (k_closest target n
        (contacts_of (left_by table_after (limited_table own k b per_address) run)) ≡ [])
        ↔ (contacts ≡ []) }
{}
