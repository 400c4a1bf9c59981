//! What is told at the end of an input of which it is known whose messages are followed.
ghost use Rattle.std.specs.Prelude.{Some};
ghost use Rattle.tap_follow.specs.Words.{slave_text, figures_text, beside_text, ending_text};

use crate::beware::BewareLines;
use crate::changes::ChangedLine;
use crate::figures::{AsymmetryLine, KindLines, MeanLine, RateLine};
use crate::lost::{Lost, LostLines, UntoldLines};
use crate::names::Tap;
use statistics::{Growth, Middle};
use std::fmt;
use std::fmt::{Display, Formatter};
use tap_choice::TapName;
use tap_sums::{BEWARES, Beware, Changed, Statistics, Untold};

/// What an input has.
#[derive(Clone, Copy)]
pub enum InputUnit {
    /// Lines.
    Line,
    /// Packets.
    Packet,
}

/// What is told of the messages of a kind.
#[derive(Clone, Copy)]
pub struct KindEnding {
    /// What the crossings come to.
    pub statistics: Statistics,
    /// Of the last 4,096 crossings the two values in the middle of what they took, in units of 2^-16 ns, where there is memory to find
    /// them.
    pub taken: Option<Middle>,
    /// The same of what they were corrected by.
    pub corrected: Option<Middle>,
    /// The same of what rests.
    pub rest: Option<Middle>,
    /// How many messages were lost.
    pub lost: Lost,
    /// Of how many records nothing is told, and why.
    pub untold: Untold,
}

/// What is told at the end of an input of which it is known whose messages are followed.
#[derive(Clone, Copy)]
pub struct Ending {
    /// What lines or packets are called.
    pub unit: InputUnit,
    /// The tap that a Sync meets first.
    pub from: TapName,
    /// The other.
    pub to: TapName,
    /// Whether the slave is known.
    pub is_slave_known: bool,
    /// What is told of Syncs.
    pub syncs: KindEnding,
    /// What is told of Delay_Reqs.
    pub requests: KindEnding,
    /// How much the rests of Syncs grow with their corrections, where that is told, rounded.
    pub rate: Option<Growth>,
    /// The mean rest of Syncs less that of Delay_Reqs, in units of 2^-16 ns, where that is told.
    pub asymmetry: Option<i128>,
    /// Half of the sum of both, in units of 2^-16 ns, where that is told.
    pub mean_rest: Option<i128>,
    /// In how many messages fields other than corrections differ between the taps.
    pub changed: Changed,
    /// What there is to beware of, in the order in which it is told.
    pub bewares: [Option<Beware>; BEWARES],
}

/// That the slave isn't known.
#[derive(Clone, Copy)]
struct SlaveLine<'a>(&'a Ending);

#[tactic(auto, unfolding(crate::specs::Words::slave_text))]
impl Display for SlaveLine<'_> {
    ghost output = { λ x. Some (slave_text x.0.now.is_slave_known x.0.now.to) };

    fn fmt<W: fmt::Write>(&self, f: &mut Formatter<W>) -> fmt::Result {
        if self.0.is_slave_known {
            Ok(())
        } else {
            write!(
                f,
                "ptpx: no Delay_Req at {} tells the slave\n",
                Tap(self.0.to)
            )
        }
    }
}

/// What the crossings of both kinds come to.
#[derive(Clone, Copy)]
struct FigureLines<'a>(&'a Ending);

#[tactic(auto, unfolding(crate::specs::Words::figures_text))]
impl Display for FigureLines<'_> {
    ghost output = { λ x. Some (figures_text x.0.now) };

    fn fmt<W: fmt::Write>(&self, f: &mut Formatter<W>) -> fmt::Result {
        let Ending { from, to, .. } = *self.0;
        let syncs = KindLines {
            kind: self.0.syncs,
            first: from,
            second: to,
        };
        let requests = KindLines {
            kind: self.0.requests,
            first: to,
            second: from,
        };
        let rate = RateLine(self.0.rate);
        let asymmetry = AsymmetryLine {
            asymmetry: self.0.asymmetry,
            to,
        };
        let mean = MeanLine(self.0.mean_rest);
        let changed = ChangedLine(self.0.changed);
        write!(f, "{syncs}{requests}{rate}{asymmetry}{mean}{changed}")
    }
}

/// What there is of both kinds beside these.
#[derive(Clone, Copy)]
struct BesideLines<'a>(&'a Ending);

#[tactic(auto, unfolding(crate::specs::Words::beside_text))]
impl Display for BesideLines<'_> {
    ghost output = { λ x. Some (beside_text x.0.now) };

    fn fmt<W: fmt::Write>(&self, f: &mut Formatter<W>) -> fmt::Result {
        let Ending {
            from,
            to,
            syncs,
            requests,
            ..
        } = *self.0;
        let lost_syncs = LostLines {
            kind: syncs.statistics.kind,
            lost: syncs.lost,
            first: from,
            second: to,
        };
        let lost_requests = LostLines {
            kind: requests.statistics.kind,
            lost: requests.lost,
            first: to,
            second: from,
        };
        let untold_syncs = UntoldLines {
            kind: syncs.statistics.kind,
            untold: syncs.untold,
            from,
        };
        let untold_requests = UntoldLines {
            kind: requests.statistics.kind,
            untold: requests.untold,
            from,
        };
        write!(
            f,
            "{lost_syncs}{lost_requests}{untold_syncs}{untold_requests}"
        )
    }
}

#[tactic(auto, unfolding(crate::specs::Words::ending_text))]
impl Display for Ending {
    ghost output = { λ e. Some (ending_text e) };

    fn fmt<W: fmt::Write>(&self, f: &mut Formatter<W>) -> fmt::Result {
        let bewares = BewareLines {
            unit: self.unit,
            from: self.from,
            to: self.to,
            bewares: self.bewares,
        };
        write!(
            f,
            "{}{}{}{bewares}",
            SlaveLine(self),
            FigureLines(self),
            BesideLines(self)
        )
    }
}
