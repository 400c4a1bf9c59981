//! What a result is by a slave's own readings.
ghost use Rattle.std.specs.Prelude.{◌≡◌};
ghost use Rattle.result_verdict.specs.Verdict.{path_is_of, first_verdict, judged};

use crate::delays::{beyond, is_within, mean_of, median_of, response_of};
use crate::exact::Exact;
use crate::judged::Judged;
use crate::known::Known;
use crate::path_is::PathIs;
use crate::verdict::Verdict;

/// The first delay that the path delay is.
fn path_is_of(known: &Known, path: Exact, tolerance: Exact) -> PathIs
    ensures { result ≡ path_is_of known.now path tolerance }
{
    let delays = known.responses.as_slice();
    if is_within(tolerance.value(), path.difference(known.latest)) {
        return PathIs::Latest;
    }
    if let Some(k) = response_of(path, tolerance, delays) {
        return PathIs::Response(k);
    }
    if let Some(n) = median_of(path, tolerance, delays) {
        return PathIs::Median(n);
    }
    if let Some(n) = mean_of(path, tolerance, delays) {
        return PathIs::Mean(n);
    }
    if tolerance
        .value()
        .is_below(beyond(path, known.latest, delays))
    {
        PathIs::Outside
    } else {
        PathIs::Between
    }
}

/// The first verdict that holds.
fn first_verdict(is_exact: bool, is_near: bool, is_filtered: bool, is_older: bool) -> Verdict
    ensures { result ≡ first_verdict is_exact is_near is_filtered is_older }
{
    if is_exact {
        Verdict::Exact
    } else if is_near {
        Verdict::Within
    } else if is_filtered {
        Verdict::Filtered
    } else if is_older {
        Verdict::Older
    } else {
        Verdict::Wrong
    }
}

/// Judges a result that a slave reported: an offset and a path delay, in nanoseconds, by what its own readings tell at the Sync of which
/// it is. Below a tolerance of 0 nothing is within it.
pub fn judge(known: &Known, offset: Exact, path: Exact, tolerance: Exact) -> Judged
    ensures { result ≡ judged known.now offset path tolerance }
{
    let delays = known.responses.as_slice();
    let offset_error = offset.value().minus(known.bracket.difference(known.latest));
    let path_error = path.difference(known.latest);
    let sum_error = offset.sum(path).minus(known.bracket.value());
    let beyond = beyond(path, known.latest, delays);
    let fits = is_within(tolerance.value(), offset_error);
    Judged {
        beyond,
        offset_error,
        path_error,
        path_is: path_is_of(known, path, tolerance),
        sum_error,
        verdict: first_verdict(
            offset_error.is_zero() && path_error.is_zero(),
            fits && is_within(tolerance.value(), path_error),
            is_within(tolerance.value(), sum_error) && !tolerance.value().is_below(beyond),
            fits && response_of(path, tolerance, delays).is_some(),
        ),
    }
}
