//! Of how many records nothing is told, and why.
ghost use Rattle.std.specs.Prelude.{◌≡◌, List, [], ◌∷◌};
ghost use Rattle.tap_crossing.specs.declared.crossing.MessageOutcome.{MessageOutcome};
ghost use Rattle.tap_sums.specs.Untold.{AreUntold, is_spoiling, is_closed, too_big, two_step_at_from_alone, other_timestamp};

use statistics::count_if;
use tap_crossing::{MessageOutcome, NoCrossing};

/// Of how many records nothing is told, by why, each as far as 2^64 - 1.
#[derive(Clone, Copy)]
pub struct Untold {
    /// A message of theirs came twice at a tap.
    pub spoiled: u64,
    /// A correction in them is too big to be represented.
    pub too_big: u64,
    /// Their Sync is two-step at `from` alone.
    pub two_step_at_from_alone: u64,
    /// They have another timestamp at `from` than at `to`.
    pub other_timestamp: u64,
}

fn is_spoiling(outcome: &MessageOutcome) -> bool
    ensures { result ≡ is_spoiling outcome.now }
{
    matches!(outcome, MessageOutcome::Spoils)
}

fn is_too_big(outcome: &MessageOutcome) -> bool
    ensures { result ≡ is_closed too_big outcome.now }
{
    matches!(outcome, MessageOutcome::Closed(NoCrossing::TooBig))
}

fn is_two_step_at_from_alone(outcome: &MessageOutcome) -> bool
    ensures { result ≡ is_closed two_step_at_from_alone outcome.now }
{
    matches!(
        outcome,
        MessageOutcome::Closed(NoCrossing::TwoStepAtFromAlone)
    )
}

fn is_other_timestamp(outcome: &MessageOutcome) -> bool
    ensures { result ≡ is_closed other_timestamp outcome.now }
{
    matches!(outcome, MessageOutcome::Closed(NoCrossing::OtherTimestamp))
}

impl Untold {
    /// No message was met yet.
    pub fn new() -> Untold
        ensures { AreUntold [] result }
    {
        Untold {
            spoiled: 0,
            too_big: 0,
            two_step_at_from_alone: 0,
            other_timestamp: 0,
        }
    }

    /// Counts what one message more brings, where that is a record of which nothing is told.
    pub fn take(&mut self, outcome: &MessageOutcome)
        ensures { (earlier : List MessageOutcome) → AreUntold earlier self.old → AreUntold (outcome.now ∷ earlier) self.new }
    {
        self.spoiled = count_if(self.spoiled, is_spoiling(outcome));
        self.too_big = count_if(self.too_big, is_too_big(outcome));
        self.two_step_at_from_alone = count_if(
            self.two_step_at_from_alone,
            is_two_step_at_from_alone(outcome),
        );
        self.other_timestamp = count_if(self.other_timestamp, is_other_timestamp(outcome));
    }
}
