ghost use Rattle.std.specs.Prelude.{◌≡◌, ◌++◌, [], ◌∷◌, ◌<◌, length};
ghost use Rattle.trace_model.specs.Sound.{failing};

use crate::verdict::Why;
use std::marker::Model;

/// Twice offsetFromMaster and twice meanPathDelay, in units of 2^-16 ns (IEEE 1588-2019, 11.2 and 11.3).
#[derive(Clone, Copy, Debug, PartialEq, Eq)]
pub struct Results {
    /// Twice offsetFromMaster.
    pub offset2: i128,
    /// Twice meanPathDelay.
    pub path2: i128,
}

/// The reasons against a report, none where it is sound: 701 alone, or else 704 alone, or else each
/// that applies of 702, 703, 705, 707, 706 and 708, in this order.
#[derive(Debug, Drop)]
pub struct Reasons {
    /// The reasons, and what doesn't count behind them.
    whys: [Why; 6],
    count: usize,
}

impl Model for Reasons {
    ghost use Rattle.std.specs.Prelude.{◌≤◌, List, take};
    ghost use Rattle.trace_model.specs.declared.verdict.Why.{Why};

    ghost Value = { List Why };

    ghost view = { λ r. take r.count r.whys };

    ghost invariant = { λ r. r.count ≤ 6 };
}

impl Reasons {
    /// No reason.
    fn none() -> Reasons
        ensures { result ≡ [] }
    {
        Reasons {
            whys: [Why::NoSuchLine; 6],
            count: 0,
        }
    }

    /// One more reason.
    fn push(&mut self, why: Why)
        requires { length self.old < 6 }
        ensures { self.new ≡ self.old ++ why ∷ [] }
    {
        self.whys[self.count] = why;
        self.count += 1;
    }

    /// One reason alone.
    pub fn only(why: Why) -> Reasons
        ensures { result ≡ why ∷ [] }
    {
        let mut reasons = Reasons::none();
        reasons.push(why);
        reasons
    }

    /// The reasons whose conditions fail: each stands before whether its condition holds.
    pub fn failing(conditions: &[(Why, bool); 6]) -> Reasons
        ensures { result ≡ failing conditions.now }
    {
        let mut reasons = Reasons::none();
        for (why, holds) in conditions {
            if !holds {
                reasons.push(*why);
            }
        }
        reasons
    }

    /// The reasons, in their order.
    pub fn as_slice(&self) -> &[Why]
        ensures { result.now ≡ self.now }
    {
        &self.whys[..self.count]
    }
}

/// What a report is judged to be.
#[derive(Debug, Drop)]
pub struct Judgement {
    /// Why it isn't sound, nothing where it is.
    pub reasons: Reasons,
    /// What the two results are by the readings; none where 701 or 704 stands.
    pub by_readings: Option<Results>,
}
