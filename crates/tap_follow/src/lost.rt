//! Which messages were lost, and of which records nothing is told.
ghost use Rattle.std.specs.Prelude.{Some};
ghost use Rattle.tap_follow.specs.Words.{where_text, alone_text, missing_text, unanswered_text, lost_text, why_text, nothing_text, untold_text};

use crate::names::{Many, OtherName, Tap};
use std::fmt;
use std::fmt::{Display, Formatter};
use tap_choice::TapName;
use tap_crossing::Kind;
use tap_sums::Untold;

/// How many event messages of a kind lack another message, each modulo 2^64.
#[derive(Clone, Copy)]
pub struct Lost {
    /// They were met at their first tap alone.
    pub at_first: u64,
    /// They were met at their second tap alone.
    pub at_second: u64,
    /// They were met at both, and the message that belongs to them wasn't.
    pub unanswered: u64,
}

/// Where so many event messages were met.
#[derive(Clone, Copy)]
struct Alone {
    count: u64,
    here: TapName,
    there: TapName,
}

#[tactic(auto, unfolding(crate::specs::Words::where_text))]
impl Display for Alone {
    ghost output = { λ x. Some (where_text x.count x.here x.there) };

    fn fmt<W: fmt::Write>(&self, f: &mut Formatter<W>) -> fmt::Result {
        let (here, there) = (Tap(self.here), Tap(self.there));
        match self.count {
            1 => write!(f, "was met at {here} and not at {there}"),
            _ => write!(f, "were met at {here} and not at {there}"),
        }
    }
}

/// So many event messages of a kind were met here and not there, if any were.
#[derive(Clone, Copy)]
struct AloneLine {
    kind: Kind,
    count: u64,
    here: TapName,
    there: TapName,
}

#[tactic(auto, unfolding(crate::specs::Words::alone_text))]
impl Display for AloneLine {
    ghost output = { λ x. Some (alone_text x.kind x.count x.here x.there) };

    fn fmt<W: fmt::Write>(&self, f: &mut Formatter<W>) -> fmt::Result {
        let Self {
            kind,
            count,
            here,
            there,
        } = *self;
        let alone = Alone { count, here, there };
        match count {
            0 => Ok(()),
            _ => write!(f, "ptpx: {} {alone}\n", Many { kind, count }),
        }
    }
}

/// What is missing of so many event messages of a kind that were met at both taps.
#[derive(Clone, Copy)]
struct Missing {
    kind: Kind,
    count: u64,
}

#[tactic(auto, unfolding(crate::specs::Words::missing_text))]
impl Display for Missing {
    ghost output = { λ x. Some (missing_text x.kind x.count) };

    fn fmt<W: fmt::Write>(&self, f: &mut Formatter<W>) -> fmt::Result {
        let other = OtherName(self.kind);
        match self.count {
            1 => write!(f, "was met at both taps, and a {other} of it is missing"),
            _ => write!(f, "were met at both taps, and a {other} of each is missing"),
        }
    }
}

/// So many event messages of a kind were met at both taps, and the message that belongs to them wasn't, if there are any.
#[derive(Clone, Copy)]
struct UnansweredLine {
    kind: Kind,
    count: u64,
}

#[tactic(auto, unfolding(crate::specs::Words::unanswered_text))]
impl Display for UnansweredLine {
    ghost output = { λ x. Some (unanswered_text x.kind x.count) };

    fn fmt<W: fmt::Write>(&self, f: &mut Formatter<W>) -> fmt::Result {
        let Self { kind, count } = *self;
        match count {
            0 => Ok(()),
            _ => write!(
                f,
                "ptpx: {} {}\n",
                Many { kind, count },
                Missing { kind, count }
            ),
        }
    }
}

/// Which messages of a kind were lost between its first tap and its second.
#[derive(Clone, Copy)]
pub(crate) struct LostLines {
    pub(crate) kind: Kind,
    pub(crate) lost: Lost,
    pub(crate) first: TapName,
    pub(crate) second: TapName,
}

#[tactic(auto, unfolding(crate::specs::Words::lost_text))]
impl Display for LostLines {
    ghost output = { λ x. Some (lost_text x.kind x.lost x.first x.second) };

    fn fmt<W: fmt::Write>(&self, f: &mut Formatter<W>) -> fmt::Result {
        let kind = self.kind;
        let at_first = AloneLine {
            kind,
            count: self.lost.at_first,
            here: self.first,
            there: self.second,
        };
        let at_second = AloneLine {
            kind,
            count: self.lost.at_second,
            here: self.second,
            there: self.first,
        };
        let unanswered = UnansweredLine {
            kind,
            count: self.lost.unanswered,
        };
        write!(f, "{at_first}{at_second}{unanswered}")
    }
}

/// Why nothing is told.
#[derive(Clone, Copy)]
enum Why {
    Spoiled,
    TooBig,
    TwoStepAtFromAlone(TapName),
    OtherTimestamp,
}

#[tactic(auto, unfolding(crate::specs::Words::why_text))]
impl Display for Why {
    ghost output = { λ why. Some (why_text why) };

    fn fmt<W: fmt::Write>(&self, f: &mut Formatter<W>) -> fmt::Result {
        match *self {
            Why::Spoiled => f.write_str("of which a message came twice to a tap"),
            Why::TooBig => f.write_str("with a correction that is too big to be represented"),
            Why::TwoStepAtFromAlone(from) => { write!(f, "with twoStepFlag only at {}", Tap(from)) }
            Why::OtherTimestamp => f.write_str("with timestamps that differ between the taps"),
        }
    }
}

/// Nothing is told of so many event messages of a kind, for this reason, if there are any.
#[derive(Clone, Copy)]
struct NothingLine {
    kind: Kind,
    count: u64,
    why: Why,
}

#[tactic(auto, unfolding(crate::specs::Words::nothing_text))]
impl Display for NothingLine {
    ghost output = { λ x. Some (nothing_text x.kind x.count x.why) };

    fn fmt<W: fmt::Write>(&self, f: &mut Formatter<W>) -> fmt::Result {
        let Self { kind, count, why } = *self;
        match count {
            0 => Ok(()),
            _ => write!(
                f,
                "ptpx: nothing is told of {} {why}\n",
                Many { kind, count }
            ),
        }
    }
}

/// Of how many event messages of a kind nothing is told, and why.
#[derive(Clone, Copy)]
pub(crate) struct UntoldLines {
    pub(crate) kind: Kind,
    pub(crate) untold: Untold,
    pub(crate) from: TapName,
}

#[tactic(auto, unfolding(crate::specs::Words::untold_text))]
impl Display for UntoldLines {
    ghost output = { λ x. Some (untold_text x.kind x.untold x.from) };

    fn fmt<W: fmt::Write>(&self, f: &mut Formatter<W>) -> fmt::Result {
        let kind = self.kind;
        let spoiled = NothingLine {
            kind,
            count: self.untold.spoiled,
            why: Why::Spoiled,
        };
        let too_big = NothingLine {
            kind,
            count: self.untold.too_big,
            why: Why::TooBig,
        };
        let at_from_alone = NothingLine {
            kind,
            count: self.untold.two_step_at_from_alone,
            why: Why::TwoStepAtFromAlone(self.from),
        };
        let other_timestamp = NothingLine {
            kind,
            count: self.untold.other_timestamp,
            why: Why::OtherTimestamp,
        };
        write!(f, "{spoiled}{too_big}{at_from_alone}{other_timestamp}")
    }
}
