//! Laws of the definitions, each the contract of a function that does nothing: a caller that needs the law in its proof calls it.
ghost use Rattle.std.specs.Prelude.{◌≡◌, ◌≢◌, ◌≤◌, ◌*◌, ℕ, ℤ, pos, ◌-ℤ◌, ◌*ℤ◌, ◌≤ℤ◌, ◌<ℤ◌, unsigned_abs, List, length, take};
ghost use Rattle.std.specs.Prelude.{◌⊎◌, true};
ghost use Rattle.ptp_units.specs.Nanoseconds.{nanoseconds_text};
ghost use Rattle.result_verdict.specs.declared.known.Known.{Known};
ghost use Rattle.result_verdict.specs.declared.verdict.Verdict.TheVariants.{Exact, Within, Filtered, Wrong};
ghost use Rattle.result_verdict.specs.Exact.{nanosecond, of_twice, exact_text, IsWithin};
ghost use Rattle.result_verdict.specs.Delays.{in_order, twice_median, total, AreInOrder};
ghost use Rattle.result_verdict.specs.Verdict.{is_exact, is_near, sum_error, verdict_of, LiesWithin, IsCut};

/// A result in units of 2^-16 ns shows as `ptp_units::Nanoseconds` does.
pub fn results_show_alike()
    ensures { (twice : ℤ) → exact_text (of_twice twice) ≡ nanoseconds_text twice }
{}

/// Delays in order are the same ones, and none is less than one in front of it. So the median is of the two in their middle.
pub fn delays_are_in_order()
    ensures { (delays : List ℤ) → AreInOrder delays (in_order delays) }
{}

/// The results by the latest delay are exact, whatever the tolerance.
pub fn latest_is_exact()
    ensures { (known : Known) (tolerance : ℤ) → verdict_of known (known.bracket -ℤ known.latest) known.latest tolerance ≡ Exact }
{}

/// A filter's result is never wrong at a tolerance of 2 ns: its path delay is anything between the least and the greatest known delay,
/// as each median and each mean is, and both numbers are cut to whole nanoseconds either way.
pub fn a_filter_is_never_wrong()
    ensures cut { (known : Known) (count : ℕ) (sum offset path : ℤ) → LiesWithin known count sum → IsCut count sum path
        → IsCut count ((pos count *ℤ known.bracket) -ℤ sum) offset → verdict_of known offset path (pos (2 * nanosecond)) ≢ Wrong }
    ensures cut_by_path { (known : Known) (count : ℕ) (sum offset path : ℤ) → LiesWithin known count sum → IsCut count sum path
        → IsWithin 1 (sum_error known offset path) → verdict_of known offset path (pos (2 * nanosecond)) ≢ Wrong }
    ensures medians { (known : Known) (count : ℕ) → 1 ≤ count → count ≤ length known.responses.items
        → LiesWithin known 2 (twice_median (take count known.responses.items)) }
    ensures means { (known : Known) (count : ℕ) → 1 ≤ count → count ≤ length known.responses.items
        → LiesWithin known count (total (take count known.responses.items)) }
{}

/// One of the two numbers of a result that is filtered, or of which both make the bracket, is changed by more than twice the tolerance:
/// what comes of it is not filtered.
pub fn half_changed_is_not_filtered()
    ensures offset { (known : Known) (offset other path tolerance : ℤ)
        → (verdict_of known offset path tolerance ≡ Filtered) ⊎ (sum_error known offset path ≡ pos 0)
        → (pos 2 *ℤ tolerance) <ℤ pos (unsigned_abs (other -ℤ offset)) → verdict_of known other path tolerance ≢ Filtered }
    ensures path { (known : Known) (offset path other tolerance : ℤ)
        → (verdict_of known offset path tolerance ≡ Filtered) ⊎ (sum_error known offset path ≡ pos 0)
        → (pos 2 *ℤ tolerance) <ℤ pos (unsigned_abs (other -ℤ path)) → verdict_of known offset other tolerance ≢ Filtered }
{}

/// What is exact is so at each tolerance, and is within each that isn't below 0. What is within a tolerance is within each greater one, and
/// what isn't wrong at one isn't wrong at a greater one.
pub fn a_greater_tolerance_takes_more()
    ensures exact { (known : Known) (offset path tolerance other : ℤ) → verdict_of known offset path tolerance ≡ Exact
        → verdict_of known offset path other ≡ Exact }
    ensures exact_is_within { (known : Known) (offset path tolerance : ℤ) → pos 0 ≤ℤ tolerance → is_exact known offset path ≡ true
        → is_near known offset path tolerance ≡ true }
    ensures within { (known : Known) (offset path tolerance greater : ℤ) → tolerance ≤ℤ greater
        → verdict_of known offset path tolerance ≡ Within → verdict_of known offset path greater ≡ Within }
    ensures not_wrong { (known : Known) (offset path tolerance greater : ℤ) → tolerance ≤ℤ greater
        → verdict_of known offset path tolerance ≢ Wrong → verdict_of known offset path greater ≢ Wrong }
{}
