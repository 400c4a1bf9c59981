//! What the reports of a recording say against the numbers.
ghost use Rattle.std.specs.Prelude.{Some};
ghost use Rattle.recording_words.specs.Bewares.{at_once_text, below_text, zeros_text, sign_text, whole_seconds_text, jump_text, running_text};
ghost use Rattle.recording_words.specs.Bewares.{side_text, set_back_text, apart_text, age_text, oldest_text, old_text};

use crate::beware_parts::{First, NANOSECOND};
use crate::times::{Place, Seconds, Value};
use crate::unit::InputUnit;
use recording_summary::{Jump, SetBack};
use rounded_text::Thousandths;
use statistics::{Cases, Point, Signed, Spike};
use std::fmt;
use std::fmt::{Display, Formatter};

/// Messages that all arrive when they leave.
#[derive(Clone, Copy)]
pub(crate) struct AtOnce {
    pub(crate) count: u64,
    pub(crate) names: &'static str,
}

#[tactic(auto, unfolding(crate::specs::Bewares::at_once_text))]
impl Display for AtOnce {
    ghost output = { λ x. Some (at_once_text x.count x.names.now) };

    fn fmt<W: fmt::Write>(&self, f: &mut Formatter<W>) -> fmt::Result {
        write!(
            f,
            "all {} {} arrive at the time at which they leave: this was recorded at the master's own port; record at the slave's",
            self.count, self.names
        )
    }
}

/// Path delays below 0.
#[derive(Clone, Copy)]
pub(crate) struct PathsBelow {
    pub(crate) unit: InputUnit,
    pub(crate) below: u64,
    pub(crate) of: u64,
    pub(crate) least: Point,
}

#[tactic(auto, unfolding(crate::specs::Bewares::below_text))]
impl Display for PathsBelow {
    ghost output = { λ x. Some (below_text x.unit x.below x.of x.least) };

    fn fmt<W: fmt::Write>(&self, f: &mut Formatter<W>) -> fmt::Result {
        let least = Value {
            unit: self.unit,
            point: self.least,
        };
        write!(
            f,
            "{} of {} path delays are below 0, the least {least}: no message arrives before it leaves, so the times of the slave's or of \
             the master's port are wrong, a clock was set or runs away, or a correction is too big",
            self.below, self.of
        )
    }
}

/// Path delays of 0.
#[derive(Clone, Copy)]
pub(crate) struct PathsZero {
    pub(crate) zeros: u64,
    pub(crate) of: u64,
}

#[tactic(auto, unfolding(crate::specs::Bewares::zeros_text))]
impl Display for PathsZero {
    ghost output = { λ x. Some (zeros_text x.zeros x.of) };

    fn fmt<W: fmt::Write>(&self, f: &mut Formatter<W>) -> fmt::Result {
        write!(
            f,
            "{} of {} path delays are 0 exactly: the times are too coarse for this path, or made up",
            self.zeros, self.of
        )
    }
}

/// The sign of a number.
#[derive(Clone, Copy)]
struct Sign {
    is_negative: bool,
}

#[tactic(auto, unfolding(crate::specs::Bewares::sign_text))]
impl Display for Sign {
    ghost output = { λ sign. Some (sign_text sign.is_negative) };

    fn fmt<W: fmt::Write>(&self, f: &mut Formatter<W>) -> fmt::Result {
        f.write_str(if self.is_negative { "-" } else { "" })
    }
}

/// Offsets next to a whole number of seconds.
#[derive(Clone, Copy)]
pub(crate) struct WholeSeconds {
    pub(crate) is_negative: bool,
    pub(crate) seconds: u128,
}

#[tactic(auto, unfolding(crate::specs::Bewares::whole_seconds_text))]
impl Display for WholeSeconds {
    ghost output = { λ x. Some (whole_seconds_text x.is_negative x.seconds) };

    fn fmt<W: fmt::Write>(&self, f: &mut Formatter<W>) -> fmt::Result {
        let Self {
            is_negative,
            seconds,
        } = *self;
        let sign = Sign { is_negative };
        let mend = Sign {
            is_negative: !is_negative,
        };
        write!(
            f,
            "all offsets are next to {sign}{seconds} s: one clock keeps UTC and the other TAI, which is 37 s ahead since 2017, or one \
             isn't set; where the slave's own clock is right, editcap -t {mend}{seconds} mends a capture"
        )
    }
}

/// A step of offsets or of path delays.
#[derive(Clone, Copy)]
pub(crate) struct Steps {
    pub(crate) unit: InputUnit,
    pub(crate) jump: Jump,
    pub(crate) name: &'static str,
    pub(crate) why: &'static str,
}

#[tactic(auto, unfolding(crate::specs::Bewares::jump_text))]
impl Display for Steps {
    ghost output = { λ x. Some (jump_text x.unit x.jump x.name.now x.why.now) };

    fn fmt<W: fmt::Write>(&self, f: &mut Formatter<W>) -> fmt::Result {
        let Jump { by, line } = self.jump;
        let place = Place {
            unit: self.unit,
            number: line,
        };
        write!(
            f,
            "the {} steps by {} ns (rounded) {place}: {}",
            self.name,
            Thousandths(by),
            self.why
        )
    }
}

/// Offsets that run away.
#[derive(Clone, Copy)]
pub(crate) struct RunsAway(pub(crate) Signed);

#[tactic(auto, unfolding(crate::specs::Bewares::running_text))]
impl Display for RunsAway {
    ghost output = { λ rate. Some (running_text rate.0) };

    fn fmt<W: fmt::Write>(&self, f: &mut Formatter<W>) -> fmt::Result {
        write!(
            f,
            "the offset runs away by {} ppm (rounded): the times are of a clock that doesn't follow this master, as that of a tap or of \
             another host, or that was set or was still settling",
            Thousandths(self.0)
        )
    }
}

/// To which side of the one before offsets are.
#[derive(Clone, Copy)]
struct Side {
    is_up: bool,
}

#[tactic(auto, unfolding(crate::specs::Bewares::side_text))]
impl Display for Side {
    ghost output = { λ side. Some (side_text side.is_up) };

    fn fmt<W: fmt::Write>(&self, f: &mut Formatter<W>) -> fmt::Result {
        f.write_str(if self.is_up { "above" } else { "below" })
    }
}

/// Offsets that are set back again and again.
#[derive(Clone, Copy)]
pub(crate) struct IsSetBack {
    pub(crate) unit: InputUnit,
    pub(crate) set_back: SetBack,
}

#[tactic(auto, unfolding(crate::specs::Bewares::set_back_text))]
impl Display for IsSetBack {
    ghost output = { λ x. Some (set_back_text x.unit x.set_back) };

    fn fmt<W: fmt::Write>(&self, f: &mut Formatter<W>) -> fmt::Result {
        let SetBack {
            is_up,
            count,
            of,
            size,
            line,
        } = self.set_back;
        let place = Place {
            unit: self.unit,
            number: line,
        };
        let side = Side { is_up };
        let other = Side { is_up: !is_up };
        write!(
            f,
            "{count} of {of} offsets are {side} the one before, and others far {other} it, by {} ns at most, {place}: the clock drifts, \
             and is set again and again instead of steered",
            size / (2 * NANOSECOND)
        )
    }
}

/// An offset that lies apart.
#[derive(Clone, Copy)]
pub(crate) struct OffsetApart {
    pub(crate) unit: InputUnit,
    pub(crate) spike: Spike,
}

#[tactic(auto, unfolding(crate::specs::Bewares::apart_text))]
impl Display for OffsetApart {
    ghost output = { λ x. Some (apart_text x.unit x.spike) };

    fn fmt<W: fmt::Write>(&self, f: &mut Formatter<W>) -> fmt::Result {
        let place = Place {
            unit: self.unit,
            number: self.spike.at.line,
        };
        write!(
            f,
            "the offset {place} lies at least {} ns from both of its neighbours, more than a hundred times as far as offsets change else: \
             one of its messages was held up, or has a wrong time",
            self.spike.size / (2 * NANOSECOND)
        )
    }
}

/// How old a path delay was, in units of 2^-16 ns.
#[derive(Clone, Copy)]
struct Age(i128);

#[tactic(auto, unfolding(crate::specs::Bewares::age_text))]
impl Display for Age {
    ghost output = { λ age. Some (age_text age.0) };

    fn fmt<W: fmt::Write>(&self, f: &mut Formatter<W>) -> fmt::Result {
        write!(f, "{} old", Seconds(self.0.unsigned_abs()))
    }
}

/// How old the oldest path delay was, and at which line or packet.
#[derive(Clone, Copy)]
struct Oldest {
    unit: InputUnit,
    point: Point,
}

#[tactic(auto, unfolding(crate::specs::Bewares::oldest_text))]
impl Display for Oldest {
    ghost output = { λ x. Some (oldest_text x.unit x.point) };

    fn fmt<W: fmt::Write>(&self, f: &mut Formatter<W>) -> fmt::Result {
        let place = Place {
            unit: self.unit,
            number: self.point.line,
        };
        write!(f, "{} {place}", Age(self.point.value))
    }
}

/// Offsets that rest on an old path delay.
#[derive(Clone, Copy)]
pub(crate) struct OldDelay {
    pub(crate) unit: InputUnit,
    pub(crate) offsets: Cases,
    pub(crate) oldest: Point,
}

#[tactic(auto, unfolding(crate::specs::Bewares::old_text))]
impl Display for OldDelay {
    ghost output = { λ x. Some (old_text x.unit x.offsets x.oldest) };

    fn fmt<W: fmt::Write>(&self, f: &mut Formatter<W>) -> fmt::Result {
        let Cases { count, first } = self.offsets;
        let first = First {
            unit: self.unit,
            point: first,
        };
        let oldest = Oldest {
            unit: self.unit,
            point: self.oldest,
        };
        write!(
            f,
            "offsets that rest on a path delay older than 10 s: {count}, {first}; the oldest was {oldest}: Delay_Reqs or their answers \
             stopped, and the path delay isn't measured anew"
        )
    }
}
