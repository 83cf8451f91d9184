//! What holds of all that is dealt. The law is the clause of a function that does nothing.
ghost use Rattle.std.specs.Prelude.{◌≡◌, ◌<◌, ◌≤◌, ℕ, List, length, take};
ghost use Rattle.serve_batches.specs.Deal.{dealt};
ghost use Rattle.serve_batches.specs.Ring.{in_order, ring, share};

/// What is taken from the holders' lists, place by place of the ring, is dealt to each holder as it has it: the things of
/// the places j with j mod n = w, in order, are the first ones of holder w.
pub fn each_has_its_share()
    ensures { (n w m none : ℕ) (lists : ℕ → List ℕ) → w < n
        → share (ring n m) w ≤ length (lists w)
        → dealt n w (in_order n none lists m) ≡ take (share (ring n m) w) (lists w) }
{}
