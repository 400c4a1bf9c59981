//! What is said of lines that aren't ones, and of input of another kind.

use explain_flaws::{Flaw, FlawAt, Foreign, schedule_flaw, transcript_flaw};
use std::alloc::{AllocError, Global};

/// The whole sentence on the fourth line of a schedule, behind so many events.
pub(crate) fn said(alloc: Global, line: &[u8], events: u64) -> anyhow::Result<String> {
    Ok(sentence(alloc, 4, schedule_flaw(alloc, line, events)?)?)
}

/// The whole sentence on the ninth line of a transcript, behind so many events.
pub(crate) fn told(alloc: Global, line: &[u8], events: u64) -> anyhow::Result<String> {
    Ok(sentence(alloc, 9, transcript_flaw(alloc, line, events)?)?)
}

fn sentence(alloc: Global, line: u64, flaw: Option<Flaw<'_>>) -> Result<String, AllocError> {
    match flaw {
        Some(flaw) => format!(in alloc; "{}", FlawAt { line, flaw }),
        None => String::from_str(alloc, "nothing"),
    }
}

/// Whether it says why, as each flaw does but that of octets which are no JSON for a reason that isn't found.
pub(crate) fn says_why(flaw: &Flaw<'_>) -> bool {
    !matches!(flaw, Flaw::NoJson { hint: None, .. })
}

/// What is said of a line of a schedule, and how many of its beginnings are no JSON, at an octet of theirs or at their end.
pub(crate) fn of_beginnings(alloc: Global, line: &[u8]) -> anyhow::Result<String> {
    let whole = sentence(alloc, 4, schedule_flaw(alloc, line, 0)?)?;
    let mut reasons = 0usize;
    for (count, _) in line.iter().enumerate() {
        let flaw = schedule_flaw(alloc, &line[..count], 0)?;
        if let Some(
            Flaw::NoJson {
                octet,
                hint: Some(_),
            },
        ) = flaw
            && octet <= count + 1
        {
            reasons = reasons.saturating_add(1);
        }
    }
    Ok(format!(in alloc; "{whole}, and no JSON with a reason of {reasons} beginnings")?)
}

/// What is said of input that begins so.
pub(crate) fn foreign(alloc: Global, start: &[u8]) -> anyhow::Result<String> {
    Ok(match Foreign::of(start) {
        Some(foreign) => format!(in alloc; "{foreign}")?,
        None => String::from_str(alloc, "none")?,
    })
}
