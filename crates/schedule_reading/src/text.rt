//! The line that tells a verdict.
ghost use Rattle.std.specs.Prelude.{◌≡◌, ◌++◌, OnOk, string_bytes};
ghost use Rattle.schedule_reading.specs.Verdict.{verdict_text};

use exchange_check::Verdict;
use std::alloc::AllocError;

/// Appends the line that tells a verdict: `accepted` and the number of reports, or `refused event`, the number of the
/// first that isn't sound, and the number of the reason. Memory fails by `AllocError`.
pub fn push_verdict(text: &mut String, verdict: Verdict) -> Result<(), AllocError>
    ensures { OnOk result (string_bytes text.new ≡ string_bytes text.old ++ verdict_text verdict) }
{
    match verdict {
        Verdict::Accepted(count) => write!(text, "accepted {count}\n"),
        Verdict::Refused { line, why } => write!(text, "refused event {line}: {}\n", why.code()),
    }
}
