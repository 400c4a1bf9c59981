ghost use Rattle.std.specs.Prelude.{◌≡◌, Some};

use std::error::Error;
use std::fmt;
use std::fmt::{Display, Formatter};

/// Why a report isn't sound: the first of these that applies, tried in the order 701, 704, 702, 703,
/// 705, 707, 706, 708. A line is called by the number of lines before it.
#[derive(Clone, Copy, Debug, PartialEq, Eq)]
pub enum Why {
    /// A tag of the report isn't the number of a line as the report needs it, or no line tells when
    /// the Delay_Req departed.
    NoSuchLine,
    /// The Sync isn't the one that the Follow_Up follows, or the Delay_Req isn't the slave's request.
    OtherNumber,
    /// The messages aren't of the slave's present master, or came before it was told this master.
    OtherMaster,
    /// The journey of the Sync or of the Delay_Req can't be followed back to where it was sent, or a
    /// stay on it was left twice.
    BrokenJourney,
    /// A reading isn't the one of the node's clock, or isn't there, or a clock read less at the end
    /// of a stay than at its beginning.
    WrongReading,
    /// The two results aren't those of the readings.
    WrongValue,
    /// The Sync or the Delay_Req was too long in clocks for its correctionField.
    TooBig,
    /// The octets of a message aren't those that a port or a clock writes.
    Bytes,
}

impl Why {
    ghost use Rattle.trace_model.specs.Refusal.{code_of, words_of};

    /// The number of the reason.
    pub fn code(&self) -> u16
        ensures { result ≡ code_of self.now }
    {
        match self {
            Why::NoSuchLine => 701,
            Why::OtherNumber => 702,
            Why::OtherMaster => 703,
            Why::BrokenJourney => 704,
            Why::WrongReading => 705,
            Why::WrongValue => 706,
            Why::TooBig => 707,
            Why::Bytes => 708,
        }
    }

    /// The reason in words.
    pub fn words(&self) -> &'static str
        ensures { result.now ≡ words_of self.now }
    {
        match self {
            Why::NoSuchLine => {
                "a tag of the report isn't that of an event as the report needs it, or no event tells when the Delay_Req left"
            }
            Why::OtherNumber => {
                "the Sync isn't the one of the Follow_Up, or the Delay_Req isn't the one of the report"
            }
            Why::OtherMaster => {
                "a message isn't of the present master of the slave, or came before the slave was told this master"
            }
            Why::BrokenJourney => {
                "the journey of the Sync or of the Delay_Req can't be followed back to where it was sent, or a stay on it was left twice"
            }
            Why::WrongReading => {
                "a reading isn't that of the clock of its node, or falls while a message is in a clock"
            }
            Why::WrongValue => "the two results aren't those of the readings",
            Why::TooBig => {
                "the Sync or the Delay_Req was in clocks for longer than a correction can say"
            }
            Why::Bytes => "the octets of a message aren't those that a port or a clock writes",
        }
    }
}

impl Display for Why {
    ghost use Rattle.trace_model.specs.Refusal.{words_of};

    ghost output = { λ why. Some (words_of why) };

    fn fmt<W: fmt::Write>(&self, f: &mut Formatter<W>) -> fmt::Result {
        f.write_str(self.words())
    }
}

impl Error for Why {}

/// What a transcript is found to be.
#[derive(Clone, Copy, Debug, PartialEq, Eq)]
pub enum Verdict {
    /// Every report line is sound; there are so many.
    Accepted(u64),
    /// There is a report line that isn't sound.
    Refused {
        /// The first such line: the number of lines before it.
        line: u64,
        /// The first reason that applies to it.
        why: Why,
    },
}
