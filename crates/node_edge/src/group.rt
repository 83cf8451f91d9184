//! The seal of a group.
ghost use Rattle.std.specs.Prelude.{◌≡◌, ◌⊎◌, ℕ, List, map, string_bytes};
ghost use Rattle.kad_words.specs.Grouped.{IsGroup};

use kad_words::group_of;
use seal_tags::GroupSeal;

/// The seal of the group that the words name. If they name none nothing is sealed, and this seal is asked for nothing.
pub fn seal_of(words: &[String]) -> GroupSeal
    ensures { let texts = map (λ w. string_bytes w) words.now in
        IsGroup texts result ⊎ ((key : List ℕ) → ¬ IsGroup texts key) }
{
    match group_of(words) {
        Some(key) => GroupSeal::new(key),
        None => GroupSeal::new([0; 32]),
    }
}
