//! What follows from the definitions alone.
ghost use Rattle.std.specs.Prelude.{◌≡◌, ◌^◌, ◌<◌, List, length};
ghost use Rattle.tap_crossing.specs.declared.crossing.Crossing.{Crossing};
ghost use Rattle.tap_sums.specs.Sums.{counted};

/// Of fewer than 2^63 crossings each counts.
pub fn all_count()
    ensures { (all : List Crossing) → length all < 2 ^ 63 → counted all ≡ all }
{}
