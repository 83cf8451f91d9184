// Laws of legal journals.
ghost use Rattle.std.specs.Prelude.{◌≡◌, ◌<◌, ◌≤◌, ◌*◌, ◌⊎◌, ◌++◌, ◌∷◌, [], List, ℕ, length, filter, true, IsSome};
ghost use Rattle.std.specs.List.{IsDistinct};
ghost use Rattle.kad_base.specs.Limits.{max_path_contacts};
ghost use Rattle.kad_base.specs.declared.types.ClaimRule.TheVariants.{Named};
ghost use Rattle.kad_base.specs.declared.types.Contact.{Contact};
ghost use Rattle.kad_base.specs.Contacts.{same, among};
ghost use Rattle.claim_book.specs.declared.types.Setting.{Setting};
ghost use Rattle.claim_book.specs.declared.types.Entry.{Entry};
ghost use Rattle.claim_book.specs.Journal.{seeds, took, path, own, asked, asked_on, answered, open_any, open_on, unsettled, may_ask};
ghost use Rattle.claim_book.specs.Crowded.{HasFewOfAHost};
ghost use Rattle.claim_book.specs.Legal.{Legal, is_of, IsSeed, dealt, seeded};
ghost use Rattle.claim_book.specs.RunOut.{RunOut};
ghost use Rattle.claim_book.specs.Lineage.{HasLineage, IsContained, TakesUnlessHeld, DropsNone, LosesNoneToNames, SettlesByAsks};
ghost use Rattle.claim_book.specs.Result.{result_of};
ghost use Rattle.claim_book.specs.Calls.{asker};

/// Where a name is a claim, no contact is taken twice, on whatever paths. None is asked twice, by either rule; each is asked by a
/// path that has it.
pub fn disjoint()
    ensures took { (s : Setting) (J : List Entry) → s.claim ≡ Named → Legal s J
        → IsDistinct same (took J) }
    ensures asked { (s : Setting) (J : List Entry) → Legal s J → IsDistinct same (asked J) }
    ensures on_path { (s : Setting) (J : List Entry) (p : ℕ) (c : Contact) → Legal s J
        → among (asked_on p J) c ≡ true → among (path p J) c ≡ true }
{}

/// Where a name is a claim, a contact is on one path, and what a path has is its own.
pub fn one_path()
    ensures only { (s : Setting) (J : List Entry) (p q : ℕ) (c : Contact) → s.claim ≡ Named
        → Legal s J → among (path p J) c ≡ true → among (path q J) c ≡ true → p ≡ q }
    ensures own { (s : Setting) (J : List Entry) (p : ℕ) → s.claim ≡ Named → Legal s J
        → own p J ≡ path p J }
{}

/// A contact is asked by one path (S/Kademlia, section 4.4: a lookup uses each node once).
pub fn one_asker()
    ensures { (s : Setting) (J : List Entry) (p q : ℕ) (c : Contact) → Legal s J
        → among (asked_on p J) c ≡ true → among (asked_on q J) c ≡ true → p ≡ q }
{}

/// A path has at most `MAX_PATH_CONTACTS` contacts, so it asks no more than that, and all paths no more than that each.
pub fn bounded()
    ensures path { (s : Setting) (J : List Entry) (p : ℕ) → s.k < max_path_contacts
        → Legal s J → length (path p J) ≤ max_path_contacts }
    ensures asked_on { (s : Setting) (J : List Entry) (p : ℕ) → s.k < max_path_contacts
        → Legal s J → length (asked_on p J) ≤ max_path_contacts }
    ensures asked { (s : Setting) (J : List Entry) → 0 < s.paths → s.k < max_path_contacts
        → Legal s J → length (asked J) ≤ max_path_contacts * s.paths }
{}

/// A path that has run out stays so, whatever other paths do: the next entry of it can only be a seed, and where no
/// more seeds come, none of it follows and it has still run out.
pub fn stable()
    ensures next { (s : Setting) (J : List Entry) (e : Entry) (p : ℕ) → Legal s (J ++ e ∷ [])
        → RunOut s p J → is_of p e ≡ true → IsSeed e }
    ensures silent { (s : Setting) (J K : List Entry) (p : ℕ) → Legal s (J ++ K) → seeds K ≡ []
        → RunOut s p J → filter (is_of p) K ≡ [] }
    ensures stays { (s : Setting) (J K : List Entry) (p : ℕ) → Legal s (J ++ K) → seeds K ≡ []
        → RunOut s p J → RunOut s p (J ++ K) }
{}

/// A path that waits for nothing has run out or can ask.
pub fn lively()
    ensures { (s : Setting) (J : List Entry) (p : ℕ) → Legal s J → 1 ≤ s.alpha → open_on p J ≡ []
        → unsettled p J ≡ [] → RunOut s p J ⊎ IsSome (may_ask s p J) }
{}

/// Where all paths have run out, each contact that the lookup found has answered.
pub fn answered()
    ensures { (s : Setting) (J : List Entry) (c : Contact) → 0 < s.paths → Legal s J
        → ((p : ℕ) → p < s.paths → RunOut s p J) → among (result_of s J) c ≡ true
        → among (answered J) c ≡ true }
{}

/// A path past the last has no contacts and nothing to settle, and has run out.
pub fn past_the_last()
    ensures no_contacts { (s : Setting) (J : List Entry) (p : ℕ) → 0 < s.paths → Legal s J
        → s.paths ≤ p → path p J ≡ [] }
    ensures settled { (s : Setting) (J : List Entry) (p : ℕ) → 0 < s.paths → Legal s J → s.paths ≤ p
        → unsettled p J ≡ [] }
    ensures run_out { (s : Setting) (J : List Entry) (p : ℕ) → 0 < s.paths → Legal s J → s.paths ≤ p
        → RunOut s p J }
{}

/// An open contact is open on the path that asked it, and on no other.
pub fn open_on_asker()
    ensures there { (s : Setting) (J : List Entry) (c : Contact) → Legal s J
        → among (open_any J) c ≡ true → among (open_on (asker c J) J) c ≡ true }
    ensures any { (s : Setting) (J : List Entry) (p : ℕ) (c : Contact) → Legal s J
        → among (open_on p J) c ≡ true → among (open_any J) c ≡ true }
    ensures only { (s : Setting) (J : List Entry) (p : ℕ) (c : Contact) → Legal s J
        → among (open_on p J) c ≡ true → p ≡ asker c J }
{}

/// Lineage: whatever a path took, an earlier answer to that same path had named, in a report that may be believed; and it
/// was that path which had asked for the answer (S/Kademlia, section 4.4).
pub fn lineage()
    ensures { (s : Setting) (J : List Entry) → Legal s J → HasLineage s J }
{}

/// Containment: what a path holds and asks is in every list of contacts that has the path's seeds and whatever contacts of
/// the list named to that path. So a path whose seeds are honest, and whose honest contacts name honest ones alone, asks
/// honest contacts alone, whatever other paths met.
pub fn contained()
    ensures { (s : Setting) (J : List Entry) → Legal s J → IsContained s J }
{}

/// A report that may be believed is kept off a path only where that very contact is held, where the path is full, or where it has
/// as many contacts of this host as the lookup's limit: without a limit not by another contact with the same identifier or the
/// same address. So none is dropped: once all is settled its contact is held, or the path is full or crowded by its host.
pub fn taken_unless_held()
    ensures settled { (s : Setting) (J : List Entry) → Legal s J → TakesUnlessHeld s J }
    ensures none_dropped { (s : Setting) (J : List Entry) → Legal s J → DropsNone s J }
{}

/// Where only an ask is a claim, nothing is taken away by a name: whatever other paths were told, a contact that was named to a path
/// is on its list, unless the path's own limits turn it away or a path asked it; and what a path is told is settled by its own
/// entries and by who was asked alone.
pub fn loses_none_to_names()
    ensures on_its_list { (s : Setting) (J : List Entry) → Legal s J → LosesNoneToNames s J }
    ensures by_asks { (s : Setting) → SettlesByAsks s }
{}

/// With a limit, no path has more contacts of one host, lost ones among them; so it asks no more of them.
pub fn few_of_a_host()
    ensures { (s : Setting) (J : List Entry) → Legal s J → HasFewOfAHost s J }
{}

/// Without a limit each seed stays on the path that it is dealt to. With one, a path that was dealt a seed keeps one.
pub fn seeds_stay()
    ensures unlimited { (paths : ℕ) (cs : List Contact) → seeded 0 paths cs ≡ dealt paths cs }
    ensures first { (limit paths : ℕ) (cs : List Contact) (p : ℕ) → path p (seeded limit paths cs)
        ≡ [] → path p (dealt paths cs) ≡ [] }
{}
