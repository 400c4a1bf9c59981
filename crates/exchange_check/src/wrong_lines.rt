//! The first lines on a journey where something is wrong.

ghost use Rattle.std.specs.Prelude.{◌≡◌};
ghost use Rattle.exchange_check.specs.Inner.Kept.{wrong_line, wrong_lines, wrong_reading_in, wrong_octets_in};

/// The line on a journey where the first thing is met that is wrong with its readings, and the first with wrong octets, each where
/// there is one. Two options would take more of memory.
#[derive(Clone, Copy)]
pub(crate) enum WrongLines {
    Neither,
    Reading(u64),
    Octets(u64),
    Both { reading: u64, octets: u64 },
}

/// The number of a line, where something of it isn't right.
pub(crate) fn wrong_line(right: bool, number: u64) -> Option<u64>
    ensures { result ≡ wrong_line right number }
{
    if right { None } else { Some(number) }
}

impl WrongLines {
    /// These two.
    pub(crate) fn new(reading: Option<u64>, octets: Option<u64>) -> WrongLines
        ensures { result ≡ wrong_lines reading octets }
    {
        match (reading, octets) {
            (None, None) => WrongLines::Neither,
            (Some(reading), None) => WrongLines::Reading(reading),
            (None, Some(octets)) => WrongLines::Octets(octets),
            (Some(reading), Some(octets)) => WrongLines::Both { reading, octets },
        }
    }

    /// Of readings.
    pub(crate) fn reading(self) -> Option<u64>
        ensures { result ≡ wrong_reading_in self }
    {
        match self {
            WrongLines::Reading(reading) | WrongLines::Both { reading, .. } => Some(reading),
            WrongLines::Neither | WrongLines::Octets(_) => None,
        }
    }

    /// Of octets.
    pub(crate) fn octets(self) -> Option<u64>
        ensures { result ≡ wrong_octets_in self }
    {
        match self {
            WrongLines::Octets(octets) | WrongLines::Both { octets, .. } => Some(octets),
            WrongLines::Neither | WrongLines::Reading(_) => None,
        }
    }
}
