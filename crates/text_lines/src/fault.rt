ghost use Rattle.std.specs.Prelude.{◌≡◌};
ghost use Rattle.text_lines.specs.declared.fault.Cause.TheVariants.{Reading};

/// Why a line can't be read.
#[derive(Clone, Copy, Debug, PartialEq, Eq)]
pub enum ReadingFault {
    /// The reader failed.
    Read,
    /// A line has more than 4,096 octets before its LF.
    LineTooLong,
    /// There is an octet after the last line that is allowed.
    TooManyLines,
}

/// What ended the reading and answering of lines, and where.
#[derive(Clone, Copy, Debug, PartialEq, Eq)]
pub struct Stopped<F> {
    /// The line that was being read or answered, counted from 1. After the last line this is the
    /// number that the next one would have.
    pub line: u64,
    /// What went wrong.
    pub what: F,
}

/// Why the answering of lines stopped.
#[derive(Clone, Copy, Debug, PartialEq, Eq)]
pub enum Cause<F> {
    /// A line can't be read.
    Reading(ReadingFault),
    /// A fault of the line, of the end, or of what answers them.
    Task(F),
}

impl<F> From<Stopped<ReadingFault>> for Stopped<Cause<F>> {
    ghost from_gives = { λ stop told. (told.line ≡ stop.line) × (told.what ≡ Reading stop.what) };

    fn from(stop: Stopped<ReadingFault>) -> Stopped<Cause<F>> {
        Stopped {
            line: stop.line,
            what: Cause::Reading(stop.what),
        }
    }
}
