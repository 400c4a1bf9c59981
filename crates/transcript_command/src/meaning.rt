//! What the numbers of faults mean.

use transcript_text::FaultKind;

/// What the lines are meant to be.
#[derive(Clone, Copy)]
pub(crate) enum Lines {
    /// Those of a schedule.
    Schedule,
    /// Those of a transcript.
    Transcript,
}

/// What the number of a fault means, and who says more.
pub(crate) fn meaning(lines: Lines, what: FaultKind) -> &'static str {
    match (what, lines) {
        (FaultKind::Read, _) => "an input that can't be read",
        (FaultKind::Write, _) => "an output that can't be written",
        (FaultKind::LineTooLong, _) => {
            "a line of more than 4096 octets; 'ptpx explain' says what the input looks like"
        }
        (FaultKind::TooManyLines, _) => "an input of more than 1048576 lines",
        (FaultKind::Json, _) => {
            "a line that isn't UTF-8 or isn't JSON; 'ptpx explain' says where"
        }
        (FaultKind::Field, Lines::Schedule) => {
            "a line that isn't what a schedule asks for; 'ptpx explain' says what is wrong with it"
        }
        (FaultKind::Field, Lines::Transcript) => {
            "a line that isn't what a transcript asks for; 'ptpx explain' says what is wrong with it"
        }
        (FaultKind::World(_), _) => {
            "a network or an event that can't be; 'ptpx explain' says why"
        }
        (FaultKind::Memory, _) => "memory that was refused",
    }
}
