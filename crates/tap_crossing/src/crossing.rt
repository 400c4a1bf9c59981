ghost use Rattle.std.specs.Prelude.{◌≡◌, ◌<◌, ◌^◌, pos, negsuc, ◌<ℤ◌};
ghost use Rattle.ptp_units.specs.Exchange.{IsBracket};
ghost use Rattle.tap_crossing.specs.Crossing.{is_too_big, is_any_too_big, timestamp_told};
ghost use Rattle.tap_crossing.specs.Crossing.{is_other_timestamp, no_crossing, correction_of, growth, taken, corrected};
ghost use Rattle.tap_crossing.specs.Crossing.{line_of, crossing, IsWithin};
ghost use Rattle.tap_crossing.specs.Told.{closes, comes_to, IfCrossed};

use crate::changes::{Changes, changes_between, changes_of, is_same_timestamp};
use crate::places::{Complete, Record};
use crate::sighting::{Kind, Placed, Sighting};
use ptp_units::{ScaledTime, Seq, Timestamp};

/// A message that went from one tap to the other, and what it had on the way. Times are in 2^-16 ns.
#[derive(Clone, Copy, Debug, PartialEq, Eq)]
pub struct Crossing {
    /// Of which kind it is.
    pub kind: Kind,
    /// sequenceId.
    pub number: Seq,
    /// When the event message was met at its first tap.
    pub time: ScaledTime,
    /// The time of the event message at its second tap less that at its first.
    pub taken: i128,
    /// By how much its correction grew, and that of its Follow_Up or Delay_Resp.
    pub corrected: i128,
    /// What was taken less what was corrected.
    pub rest: i128,
    /// The line of the event message at its first tap.
    pub first_line: u64,
    /// The line of the event message at its second tap.
    pub second_line: u64,
    /// The line of its Follow_Up or Delay_Resp at `from`, where it needs that.
    pub from_line: Option<u64>,
    /// The line of its Follow_Up or Delay_Resp at `to`, where it needs that.
    pub to_line: Option<u64>,
    /// Which fields of the event message are others at its second tap than at its first.
    pub event_changes: Changes,
    /// Which fields of its Follow_Up or Delay_Resp are others at `to` than at `from`, where it needs both.
    pub other_changes: Changes,
}

/// Why a record that closed is no crossing: the first reason that applies.
#[derive(Clone, Copy, Debug, PartialEq, Eq)]
pub enum NoCrossing {
    /// A correction in it is too big to be represented.
    TooBig,
    /// Its Sync is two-step at `from` alone.
    TwoStepAtFromAlone,
    /// It has another timestamp at `from` than at `to`.
    OtherTimestamp,
}

/// What comes of a message that is met at a tap.
#[derive(Clone, Copy, Debug, PartialEq, Eq)]
pub enum MessageOutcome {
    /// It took its place, and the record waits for others.
    Waits,
    /// Its place was taken, so the record is spoiled from now on.
    Spoils,
    /// The record was spoiled before.
    IsSpoiled,
    /// The record closed, and is a crossing.
    Crossed(Crossing),
    /// The record closed, and is no crossing.
    Closed(NoCrossing),
}

fn is_too_big(place: Option<Sighting>) -> bool
    ensures { result ≡ is_too_big place }
{
    match place {
        Some(sighting) => sighting.correction.exact().is_none(),
        None => false,
    }
}

/// The units of a correction, 0 where there is none.
fn correction_of(place: Option<Sighting>) -> i64
    ensures { result ≡ correction_of place }
{
    match place {
        Some(sighting) => sighting.correction.0,
        None => 0,
    }
}

/// By how much a correction grew from a message to another.
fn growth(from: Option<Sighting>, to: Option<Sighting>) -> i128
    ensures value { result ≡ growth from to }
    ensures above { negsuc (2 ^ 64) <ℤ result }
    ensures below { result <ℤ pos (2 ^ 64) }
{
    i128::from(correction_of(to)) - i128::from(correction_of(from))
}

fn line_of(place: Option<Sighting>) -> Option<u64>
    ensures { result ≡ line_of place }
{
    match place {
        Some(sighting) => Some(sighting.line),
        None => None,
    }
}

/// The timestamp that is told of an event message: by the other message, where it needs one.
fn timestamp_told(event: Sighting, other: Option<Sighting>) -> Timestamp
    ensures { result ≡ timestamp_told event other }
{
    match other {
        Some(sighting) => sighting.timestamp,
        None => event.timestamp,
    }
}

impl Complete {
    fn is_any_too_big(&self) -> bool
        ensures { result ≡ is_any_too_big self.now }
    {
        is_too_big(Some(self.first))
            || is_too_big(Some(self.second))
            || is_too_big(self.at_from)
            || is_too_big(self.at_to)
    }

    fn is_other_timestamp(&self, kind: Kind) -> bool
        ensures { result ≡ is_other_timestamp kind self.now }
    {
        let (at_from, at_to) = match kind {
            Kind::Sync => (self.first, self.second),
            Kind::DelayReq => (self.second, self.first),
        };
        let from = timestamp_told(at_from, self.at_from);
        !is_same_timestamp(from, timestamp_told(at_to, self.at_to))
    }

    /// Why it is no crossing, if it isn't one.
    fn no_crossing(&self, kind: Kind) -> Option<NoCrossing>
        ensures { result ≡ no_crossing kind self.now }
    {
        if self.is_any_too_big() {
            Some(NoCrossing::TooBig)
        } else if self.first.needs_other && !self.second.needs_other {
            Some(NoCrossing::TwoStepAtFromAlone)
        } else if self.is_other_timestamp(kind) {
            Some(NoCrossing::OtherTimestamp)
        } else {
            None
        }
    }

    fn taken(&self) -> i128
        ensures value { result ≡ taken self.now }
        ensures within { IsBracket result }
    {
        self.second.time.signed_units() - self.first.time.signed_units()
    }

    fn corrected(&self) -> i128
        ensures value { result ≡ corrected self.now }
        ensures within { IsBracket result }
    {
        growth(Some(self.first), Some(self.second)) + growth(self.at_from, self.at_to)
    }

    fn crossing(&self, kind: Kind, number: Seq) -> Crossing
        ensures value { result ≡ crossing kind number self.now }
        ensures within { IsWithin result }
    {
        let taken = self.taken();
        let corrected = self.corrected();
        Crossing {
            kind,
            number,
            time: self.first.time,
            taken,
            corrected,
            rest: taken - corrected,
            first_line: self.first.line,
            second_line: self.second.line,
            from_line: line_of(self.at_from),
            to_line: line_of(self.at_to),
            event_changes: changes_between(&self.first, &self.second),
            other_changes: changes_of(self.at_from, self.at_to),
        }
    }

    /// What is told when the record closes.
    fn closes(&self, kind: Kind, number: Seq) -> MessageOutcome
        ensures value { result ≡ closes kind number self.now }
        ensures within { IfCrossed result IsWithin }
    {
        match self.no_crossing(kind) {
            Some(reason) => MessageOutcome::Closed(reason),
            None => MessageOutcome::Crossed(self.crossing(kind, number)),
        }
    }
}

/// What is told when a message comes to a record that isn't closed.
pub(crate) fn comes_to(placed: &Placed, found: &Record) -> MessageOutcome
    ensures value { result ≡ comes_to placed.now found.now }
    ensures within { IfCrossed result IsWithin }
{
    let Record::Open(places) = found else {
        return MessageOutcome::IsSpoiled;
    };
    if places.place(placed.place).is_some() {
        return MessageOutcome::Spoils;
    }
    match places.with(placed.place, placed.sighting).complete() {
        Some(complete) => complete.closes(placed.kind, placed.number),
        None => MessageOutcome::Waits,
    }
}
