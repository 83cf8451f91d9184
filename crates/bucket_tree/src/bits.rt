//! Single bits of identifiers, counted from the highest.
ghost use Rattle.std.specs.Prelude.{◌≡◌, ◌≢◌, ℕ, ◌<◌, true};
ghost use Rattle.bucket_tree.specs.Partition.{bit as bit_of};

use kad_base::Id;

/// The bit at a place, of 160.
pub(crate) fn bit(id: &Id, at: u8) -> bool
    requires { at < 160 }
    ensures { result ≡ bit_of id.now.0 at }
{
    (id.0[(at / 8) as usize] >> (7 - at % 8)) & 1 == 1
}

/// The identifier with that bit set.
pub(crate) fn with_bit(id: &Id, at: u8) -> Id
    requires { at < 160 }
    ensures here { bit_of result.0 at ≡ true }
    ensures others { (i : ℕ) → i < 160 → i ≢ at → bit_of result.0 i ≡ bit_of id.now.0 i }
{
    let mut bytes = id.0;
    bytes[(at / 8) as usize] |= 1 << (7 - at % 8);
    Id(bytes)
}
