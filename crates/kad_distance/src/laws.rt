//! What the order and the k closest are for every target and list, as calls that compute nothing.
ghost use Rattle.std.specs.Prelude.{◌≡◌, ◌≤◌, ◌↔◌, ℕ, List, [], ◌∷◌, ◌++◌, length, take};
ghost use Rattle.std.specs.List.{All, Contains};
ghost use Rattle.std.specs.List.Sorted.{IsStrictlySortedBy};
ghost use Rattle.std.specs.Cmp.{IsTotalOrder};
ghost use Rattle.kad_base.specs.declared.types.Id.{Id};
ghost use Rattle.kad_base.specs.declared.types.Contact.{Contact};
ghost use Rattle.kad_distance.specs.Order.{closeness, IsCloser, TiesAreEqual};
ghost use Rattle.kad_distance.specs.KClosest.{k_closest};

/// The law of the order: to each target it is total, and only a contact ties with itself.
pub fn order_is_strict()
    ensures total { (target : Id) → IsTotalOrder (closeness target) }
    ensures strict { (target : Id) → TiesAreEqual (closeness target) }
{}

/// The laws of the k closest. They stand in strict order, are at most k, and each is of the list, closer than each
/// contact of the list that isn't among them. Of a list in strict order they are its front; lists with the same
/// members have the same ones; those of a joined list come from those of its parts; and a contact that is added and
/// doesn't come among them changes none.
pub fn closest_laws()
    ensures strict_order { (target : Id) (k : ℕ) (S : List Contact)
        → IsStrictlySortedBy (closeness target) (k_closest target k S) }
    ensures at_most { (target : Id) (k : ℕ) (S : List Contact) → length (k_closest target k S) ≤ k }
    ensures of_list { (target : Id) (k : ℕ) (S : List Contact) (c : Contact)
        → Contains (k_closest target k S) c → Contains S c }
    ensures nearer { (target : Id) (k : ℕ) (S : List Contact) (c : Contact) → Contains S c
        → (Contains (k_closest target k S) c → ⊥)
        → All (λ d. IsCloser target d c) (k_closest target k S) }
    ensures front { (target : Id) (k : ℕ) (S : List Contact)
        → IsStrictlySortedBy (closeness target) S → k_closest target k S ≡ take k S }
    ensures same { (target : Id) (k : ℕ) (S T : List Contact)
        → ((c : Contact) → Contains S c ↔ Contains T c)
        → k_closest target k S ≡ k_closest target k T }
    ensures joined { (target : Id) (k : ℕ) (S T : List Contact)
        → k_closest target k (S ++ T) ≡ k_closest target k
        (k_closest target k S ++ k_closest target k T) }
    ensures added { (target : Id) (k : ℕ) (S : List Contact) (c : Contact)
        → (Contains (k_closest target k (S ++ c ∷ [])) c → ⊥)
        → k_closest target k (S ++ c ∷ []) ≡ k_closest target k S }
{}
