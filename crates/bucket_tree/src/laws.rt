//! What holds of every partition. Each law is the clause of a function that does nothing.
ghost use Rattle.std.specs.Prelude.{◌≡◌, ◌≤◌, Bool, List, length, filter};
ghost use Rattle.std.specs.List.{All};
ghost use Rattle.kad_base.specs.declared.types.Id.{Id};
ghost use Rattle.bucket_tree.specs.Partition.{Partition, begins, id_bits};

/// Each identifier begins with exactly one prefix of a partition.
pub fn one_prefix()
    ensures { (P : List (List Bool)) (id : Id) → Partition P → All (λ p. length p ≤ 160) P
        → length (filter (λ p. begins p (id_bits id)) P) ≡ 1 }
{}
