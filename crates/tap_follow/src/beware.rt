//! The words of what speaks against the numbers.
ghost use Rattle.std.specs.Prelude.{Some};
ghost use Rattle.tap_follow.specs.Words.{first_text, taken_meaning, rest_meaning, taken_below_text, rest_below_text, uncorrected_text};
ghost use Rattle.tap_follow.specs.Words.{step_text, drift_text, steep_text, apart_text, off_text, clock_text, more_text, clocks_text, beware_text, beware_line, bewares_text};

use crate::ending::InputUnit;
use crate::names::{Names, Tap};
use crate::nanoseconds::{HalfSize, Rounded, Size, Word};
use statistics::{Cases, Point, Signed};
use std::fmt;
use std::fmt::{Display, Formatter};
use tap_choice::TapName;
use tap_crossing::Kind;
use tap_sums::{BEWARES, Below, Beware};

/// The first of some cases, by its line or packet.
#[derive(Clone, Copy)]
struct First {
    unit: InputUnit,
    point: Option<Point>,
}

#[tactic(auto, unfolding(crate::specs::Words::first_text))]
impl Display for First {
    ghost output = { λ first. Some (first_text first.unit first.point) };

    fn fmt<W: fmt::Write>(&self, f: &mut Formatter<W>) -> fmt::Result {
        match self.point {
            Some(point) => write!(f, "the first at {} {}", self.unit, point.line),
            None => f.write_str("none of them known"),
        }
    }
}

/// What it means that most of a kind took less than 0.
#[derive(Clone, Copy)]
struct TakenMeaning {
    is_of_both: bool,
    kind: Kind,
    from: TapName,
    to: TapName,
}

#[tactic(auto, unfolding(crate::specs::Words::taken_meaning))]
impl Display for TakenMeaning {
    ghost output = { λ x. Some (taken_meaning x.is_of_both x.kind x.from x.to) };

    fn fmt<W: fmt::Write>(&self, f: &mut Formatter<W>) -> fmt::Result {
        match (self.is_of_both, self.kind) {
            (false, _) => f.write_str(
                "the clock of a tap is off, or the taps are the wrong way round: set both by one clock, or exchange --from and --to",
            ),
            (true, Kind::Sync) => write!(
                f,
                "as did most Delay_Reqs, so the taps are the wrong way round: --from {} --to {} exchanges them",
                Tap(self.to),
                Tap(self.from)
            ),
            (true, Kind::DelayReq) => f.write_str("as did most Syncs"),
        }
    }
}

/// What it means that less than 0 rests of most.
#[derive(Clone, Copy)]
struct RestMeaning {
    is_of_both: bool,
    kind: Kind,
}

#[tactic(auto, unfolding(crate::specs::Words::rest_meaning))]
impl Display for RestMeaning {
    ghost output = { λ x. Some (rest_meaning x.is_of_both x.kind) };

    fn fmt<W: fmt::Write>(&self, f: &mut Formatter<W>) -> fmt::Result {
        f.write_str(match (self.is_of_both, self.kind) {
            (false, _) => {
                "the clock of a tap is off, or corrections are too big: set both taps by one clock"
            }
            (true, Kind::Sync) => {
                "as those of Delay_Reqs are, so it isn't that one tap is ahead of the other: corrections are too big, a clock that both taps \
                 share is slow, or a tap stamps what leaves earlier, or what arrives later, than the clock between does, as software may"
            }
            (true, Kind::DelayReq) => "as those of Syncs are",
        })
    }
}

/// Crossings that took less than 0.
#[derive(Clone, Copy)]
struct TakenBelow {
    unit: InputUnit,
    from: TapName,
    to: TapName,
    below: Below,
}

#[tactic(auto, unfolding(crate::specs::Words::taken_below_text))]
impl Display for TakenBelow {
    ghost output = { λ x. Some (taken_below_text x.unit x.from x.to x.below) };

    fn fmt<W: fmt::Write>(&self, f: &mut Formatter<W>) -> fmt::Result {
        let Below {
            kind,
            cases,
            of,
            is_of_both,
        } = self.below;
        let first = First {
            unit: self.unit,
            point: cases.first,
        };
        let meaning = TakenMeaning {
            is_of_both,
            kind,
            from: self.from,
            to: self.to,
        };
        write!(
            f,
            "{} of {of} {} took less than 0 ns, {first}: {meaning}",
            cases.count,
            Names(kind)
        )
    }
}

/// Crossings of which less than 0 rests.
#[derive(Clone, Copy)]
struct RestBelow {
    unit: InputUnit,
    below: Below,
}

#[tactic(auto, unfolding(crate::specs::Words::rest_below_text))]
impl Display for RestBelow {
    ghost output = { λ x. Some (rest_below_text x.unit x.below) };

    fn fmt<W: fmt::Write>(&self, f: &mut Formatter<W>) -> fmt::Result {
        let Below {
            kind,
            cases,
            of,
            is_of_both,
        } = self.below;
        let first = First {
            unit: self.unit,
            point: cases.first,
        };
        write!(
            f,
            "{} of {of} rests of {} are below 0 ns, {first}: {}",
            cases.count,
            Names(kind),
            RestMeaning { is_of_both, kind }
        )
    }
}

/// A step of the rests of a kind.
#[derive(Clone, Copy)]
struct Step {
    unit: InputUnit,
    kind: Kind,
    by: Signed,
    line: u64,
}

#[tactic(auto, unfolding(crate::specs::Words::step_text))]
impl Display for Step {
    ghost output = { λ x. Some (step_text x.unit x.kind x.by x.line) };

    fn fmt<W: fmt::Write>(&self, f: &mut Formatter<W>) -> fmt::Result {
        write!(
            f,
            "the rest of {} steps by {} ns (rounded) at {} {}: the clock of a tap was set there, or the way changed, so no asymmetry and no rate \
             is told: follow what is before it and what is behind it apart",
            Names(self.kind),
            Rounded(self.by),
            self.unit,
            self.line
        )
    }
}

/// Rests of a kind that drift.
#[derive(Clone, Copy)]
struct Drift {
    kind: Kind,
    rate: Signed,
}

#[tactic(auto, unfolding(crate::specs::Words::drift_text))]
impl Display for Drift {
    ghost output = { λ x. Some (drift_text x.kind x.rate) };

    fn fmt<W: fmt::Write>(&self, f: &mut Formatter<W>) -> fmt::Result {
        write!(
            f,
            "the rest of {} drifts by {} ppm of time (rounded), as clocks of taps do, so no asymmetry and no rate of a clock between them is \
             told: have both taps stamp by one clock",
            Names(self.kind),
            Rounded(self.rate)
        )
    }
}

/// A rate that no clock has.
#[derive(Clone, Copy)]
struct SteepRate(Signed);

#[tactic(auto, unfolding(crate::specs::Words::steep_text))]
impl Display for SteepRate {
    ghost output = { λ rate. Some (steep_text rate.0) };

    fn fmt<W: fmt::Write>(&self, f: &mut Formatter<W>) -> fmt::Result {
        write!(
            f,
            "the rest of Syncs grows by {} ppm of corrected, by least squares (rounded), and no clock is off by more than 100 ppm: stamps or \
             corrections are wrong; compare taken and corrected by --csv",
            Rounded(self.0)
        )
    }
}

/// Crossings of which none was corrected.
#[derive(Clone, Copy)]
struct Uncorrected {
    unit: InputUnit,
    kind: Kind,
    cases: Cases,
}

#[tactic(auto, unfolding(crate::specs::Words::uncorrected_text))]
impl Display for Uncorrected {
    ghost output = { λ x. Some (uncorrected_text x.unit x.kind x.cases) };

    fn fmt<W: fmt::Write>(&self, f: &mut Formatter<W>) -> fmt::Result {
        let first = First {
            unit: self.unit,
            point: self.cases.first,
        };
        write!(
            f,
            "none of {} {} was corrected, though each took time, {first}: no transparent clock is between the taps, but perhaps a plain \
             bridge, or it doesn't correct these, so that all that they took rests",
            self.cases.count,
            Names(self.kind)
        )
    }
}

/// How far the mean rest of Syncs is from that of Delay_Reqs.
#[derive(Clone, Copy)]
struct Apart(i128);

#[tactic(auto, unfolding(crate::specs::Words::apart_text))]
impl Display for Apart {
    ghost output = { λ asymmetry. Some (apart_text asymmetry.0) };

    fn fmt<W: fmt::Write>(&self, f: &mut Formatter<W>) -> fmt::Result {
        let which = Word {
            asymmetry: self.0,
            below: "below",
            above: "above",
        };
        write!(f, "{} ns {which}", Size(self.0))
    }
}

/// So much behind or ahead.
#[derive(Clone, Copy)]
struct Off(i128);

#[tactic(auto, unfolding(crate::specs::Words::off_text))]
impl Display for Off {
    ghost output = { λ asymmetry. Some (off_text asymmetry.0) };

    fn fmt<W: fmt::Write>(&self, f: &mut Formatter<W>) -> fmt::Result {
        let which = Word {
            asymmetry: self.0,
            below: "behind",
            above: "ahead",
        };
        write!(f, "{} ns {which}", HalfSize(self.0))
    }
}

/// How far the clock of a tap is behind or ahead, if it is one.
#[derive(Clone, Copy)]
struct ClockOff {
    to: TapName,
    asymmetry: i128,
}

#[tactic(auto, unfolding(crate::specs::Words::clock_text))]
impl Display for ClockOff {
    ghost output = { λ x. Some (clock_text x.to x.asymmetry) };

    fn fmt<W: fmt::Write>(&self, f: &mut Formatter<W>) -> fmt::Result {
        write!(
            f,
            "the clock of {} is {}, or one way is so much longer: taps of one clock show which",
            Tap(self.to),
            Off(self.asymmetry)
        )
    }
}

/// That this is more than an asymmetry is, and what it is then.
#[derive(Clone, Copy)]
struct More {
    to: TapName,
    asymmetry: i128,
}

#[tactic(auto, unfolding(crate::specs::Words::more_text))]
impl Display for More {
    ghost output = { λ x. Some (more_text x.to x.asymmetry) };

    fn fmt<W: fmt::Write>(&self, f: &mut Formatter<W>) -> fmt::Result {
        let clock = ClockOff {
            to: self.to,
            asymmetry: self.asymmetry,
        };
        write!(
            f,
            " those of Delay_Reqs, in the mean, more than an asymmetry is as a rule: {clock}"
        )
    }
}

/// An asymmetry that is too great to be one.
#[derive(Clone, Copy)]
struct ClocksDiffer {
    to: TapName,
    asymmetry: i128,
}

#[tactic(auto, unfolding(crate::specs::Words::clocks_text))]
impl Display for ClocksDiffer {
    ghost output = { λ x. Some (clocks_text x.to x.asymmetry) };

    fn fmt<W: fmt::Write>(&self, f: &mut Formatter<W>) -> fmt::Result {
        let Self { to, asymmetry } = *self;
        let (apart, more) = (Apart(asymmetry), More { to, asymmetry });
        write!(f, "rests of Syncs are {apart}{more}")
    }
}

/// What there is to beware of, in words.
#[derive(Clone, Copy)]
struct Told {
    unit: InputUnit,
    from: TapName,
    to: TapName,
    beware: Beware,
}

#[tactic(auto, unfolding(crate::specs::Words::beware_text))]
impl Display for Told {
    ghost output = { λ x. Some (beware_text x.unit x.from x.to x.beware) };

    fn fmt<W: fmt::Write>(&self, f: &mut Formatter<W>) -> fmt::Result {
        let Self { unit, from, to, .. } = *self;
        match self.beware {
            Beware::TakenBelow(below) => write!(
                f,
                "{}",
                TakenBelow {
                    unit,
                    from,
                    to,
                    below
                }
            ),
            Beware::RestBelow(below) => write!(f, "{}", RestBelow { unit, below }),
            Beware::Step { kind, by, line } => {
                let step = Step {
                    unit,
                    kind,
                    by,
                    line,
                };
                write!(f, "{step}")
            }
            Beware::Drift { kind, rate } => write!(f, "{}", Drift { kind, rate }),
            Beware::Uncorrected { kind, cases } => {
                write!(f, "{}", Uncorrected { unit, kind, cases })
            }
            Beware::SteepRate(rate) => write!(f, "{}", SteepRate(rate)),
            Beware::ClocksDiffer(asymmetry) => write!(f, "{}", ClocksDiffer { to, asymmetry }),
        }
    }
}

/// A line for this, where there is any.
#[derive(Clone, Copy)]
struct BewareLine {
    unit: InputUnit,
    from: TapName,
    to: TapName,
    beware: Option<Beware>,
}

#[tactic(auto, unfolding(crate::specs::Words::beware_line))]
impl Display for BewareLine {
    ghost output = { λ x. Some (beware_line x.unit x.from x.to x.beware) };

    fn fmt<W: fmt::Write>(&self, f: &mut Formatter<W>) -> fmt::Result {
        let Some(beware) = self.beware else {
            return Ok(());
        };
        let told = Told {
            unit: self.unit,
            from: self.from,
            to: self.to,
            beware,
        };
        write!(f, "ptpx: beware: {told}\n")
    }
}

/// All that there is to beware of, a line each.
#[derive(Clone, Copy)]
pub(crate) struct BewareLines {
    pub(crate) unit: InputUnit,
    pub(crate) from: TapName,
    pub(crate) to: TapName,
    pub(crate) bewares: [Option<Beware>; BEWARES],
}

#[tactic(auto, unfolding(crate::specs::Words::bewares_text))]
impl Display for BewareLines {
    ghost output = { λ x. Some (bewares_text x.unit x.from x.to x.bewares) };

    fn fmt<W: fmt::Write>(&self, f: &mut Formatter<W>) -> fmt::Result {
        for beware in &self.bewares {
            let line = BewareLine {
                unit: self.unit,
                from: self.from,
                to: self.to,
                beware: *beware,
            };
            write!(f, "{line}")?;
        }
        Ok(())
    }
}
