//! Counts that stay at 2^64 - 1.
ghost use Rattle.std.specs.Prelude.{◌≡◌};
ghost use Rattle.statistics.specs.Counting.{with_one_if};

/// One more, where it is so, as far as 2^64 - 1.
pub fn count_if(count: u64, is_so: bool) -> u64
    ensures { result ≡ with_one_if is_so count }
{
    if is_so {
        count.saturating_add(1)
    } else {
        count
    }
}
