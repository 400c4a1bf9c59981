//! How many outcomes at slaves aren't those of a slave here.
ghost use Rattle.std.specs.Prelude.{◌≡◌, ◌++◌, List, ℕ, OnOk, codes, true};
ghost use Rattle.std.specs.String.{string_bytes};
ghost use Rattle.explain_words.specs.Lines.{are_lines};
ghost use Rattle.explain_story.specs.Counts.{others_text};

use crate::answers::{OtherOutcome, SlaveAnswers};
use explain_words::push_lines;
use std::alloc::{AllocError, Global};

/// Appends how many outcomes of messages that came to slaves, of how many, aren't those of a slave here; nothing where none isn't.
fn push_count(text: &mut String, others: u64, came: u64) -> Result<(), AllocError>
    ensures { OnOk result (string_bytes text.new ≡ string_bytes text.old ++ others_text others came) }
{
    if others == 0 {
        return Ok(());
    }
    write!(
        text,
        "other outcomes than a slave here has for the messages that came: {others} of {came}; the verdict says nothing of these\n"
    )
}

/// Appends the first of these.
fn push_first(text: &mut String, first: Option<OtherOutcome>) -> Result<(), AllocError> {
    match first {
        Some(other) => write!(
            text,
            "  the first: event {}, line {}: {}; a slave here: {}\n",
            other.event, other.line, other.said, other.answered
        ),
        None => Ok(()),
    }
}

/// Appends how many outcomes of messages that came to slaves aren't those of a slave here, and the first of these.
pub(crate) fn push_others(
    text: &mut String,
    alloc: Global,
    answers: &SlaveAnswers,
) -> Result<(), AllocError>
    ensures { OnOk result ((others : ℕ) × (came : ℕ) × (first : List ℕ) × (are_lines (codes "  the first: ") first ≡ true)
        × (string_bytes text.new ≡ string_bytes text.old ++ (others_text others came ++ first))) }
{
    push_count(text, answers.others(), answers.came())?;
    let mut lines = String::new(alloc);
    push_first(&mut lines, answers.first())?;
    push_lines(text, "  the first: ", lines.as_str())
}
