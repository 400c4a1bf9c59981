//! What a whole input is found to be, for a person.
ghost use Rattle.std.specs.Prelude.{◌≡◌, ◌++◌, OnOk, string_bytes};
ghost use Rattle.explain_transcript.specs.Explained.{found_text, happening_text};

use explain_input::FoundInput;
use schedule_reading::push_verdict;
use std::alloc::AllocError;

/// Appends what an input is found to be; of a transcript its verdict.
pub(crate) fn push_found(text: &mut String, found: FoundInput) -> Result<(), AllocError>
    ensures { OnOk result (string_bytes text.new ≡ string_bytes text.old ++ found_text found) }
{
    match found {
        FoundInput::Transcript(verdict) => {
            text.push_str("verdict: ")?;
            push_verdict(text, verdict)
        }
        FoundInput::Schedule(count) => push_happening(text, count),
    }
}

/// Appends that a schedule's events happen, and what tells more.
fn push_happening(text: &mut String, count: u64) -> Result<(), AllocError>
    ensures { OnOk result (string_bytes text.new ≡ string_bytes text.old ++ happening_text count) }
{
    match count {
        1 => text.push_str(
            "a schedule of 1 event, which happens; 'ptpx replay' makes a transcript of it, which 'ptpx check' judges\n",
        ),
        _ => write!(
            text,
            "a schedule of {count} events, which all happen; 'ptpx replay' makes a transcript of it, which 'ptpx check' \
             judges\n"
        ),
    }
}
