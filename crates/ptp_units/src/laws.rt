//! Laws of the definitions, each the contract of a function that does nothing: a caller that needs
//! the law in its proof calls it.

ghost use Rattle.std.specs.Prelude.{◌≡◌, ◌+◌, ◌*◌, ◌^◌, ◌<◌, ◌↔◌, ℕ, IsTrue};
ghost use Rattle.ptp_units.specs.Moment.{Stamp, IsStamp, bound, moment, stamp_of, fraction_of};
ghost use Rattle.ptp_units.specs.Nanoseconds.{size_text, ShowsExactly};
ghost use Rattle.ptp_units.specs.Sequence.{of_count, is_newer};

/// A timestamp and a fraction of a nanosecond name exactly one moment, and each moment is named by
/// exactly one such pair.
pub fn one_moment()
    ensures range { bound ≡ 2 ^ 48 * 10 ^ 9 * 2 ^ 16 }
    ensures in_range { (s : Stamp) (fraction : ℕ) → IsStamp s → fraction < 65536
        → moment s fraction < bound }
    ensures named { (time : ℕ) → time < bound
        → IsStamp (stamp_of time) × (fraction_of time < 65536)
        × (moment (stamp_of time) (fraction_of time) ≡ time) }
    ensures only { (s : Stamp) (fraction : ℕ) → IsStamp s → fraction < 65536
        → (stamp_of (moment s fraction) ≡ s) × (fraction_of (moment s fraction) ≡ fraction) }
{}

/// Two numbers less than a whole turn apart that have one sequenceId are one number.
pub fn same_number()
    ensures { (m n : ℕ) → m < n + 65536 → n < m + 65536 → of_count m ≡ of_count n → m ≡ n }
{}

/// Of two numbers less than half a turn apart, the sequenceIds tell which is the greater.
pub fn newer_number()
    ensures { (m n : ℕ) → m < n + 32768 → n < m + 32768
        → (IsTrue (is_newer (of_count m) (of_count n)) ↔ (n < m)) }
{}

/// The text of a number of halves of 2^-16 ns, in nanoseconds, makes exactly that number, and ends in no 0 after a
/// point.
pub fn nanoseconds_are_exact()
    ensures { (size : ℕ) → ShowsExactly size (size_text size) }
{}
