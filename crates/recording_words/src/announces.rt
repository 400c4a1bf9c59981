//! What the Announces of the master tell, and where that changed.
ghost use Rattle.std.specs.Prelude.{◌≡◌, ◌||◌, Some};
ghost use Rattle.recording_words.specs.Announces.{validity_text, timescale_text, told_text, announced_text, field_text, changed_text};
ghost use Rattle.recording_words.specs.Announces.{is_other_grandmaster, is_other_class, is_other_distance, is_other_offset, is_other_timescale};
ghost use Rattle.recording_words.specs.Announces.{grandmaster, clock_class, steps_removed, utc_offset, timescale};
ghost use Rattle.recording_words.specs.Announces.{often_text, told_line, change_line, announces_text};

use crate::clock::ClockIdentity;
use crate::times::Place;
use crate::unit::InputUnit;
use recording_summary::{Announced, Announcement, Announces, Change};
use std::fmt;
use std::fmt::{Display, Formatter};

/// Whether currentUtcOffset is valid.
#[tactic(auto, unfolding(crate::specs::Announces::validity_text))]
fn validity(is_valid: bool) -> &'static str
    ensures { result.now ≡ validity_text is_valid }
{
    if is_valid { "valid" } else { "not valid" }
}

/// The name of a timescale (IEEE 1588-2019, 7.2.1).
#[tactic(auto, unfolding(crate::specs::Announces::timescale_text))]
fn timescale_name(is_ptp: bool) -> &'static str
    ensures { result.now ≡ timescale_text is_ptp }
{
    if is_ptp { "PTP" } else { "ARB" }
}

/// What a field tells.
#[derive(Clone, Copy)]
enum Told {
    /// A clockIdentity.
    Clock([u8; 8]),
    /// A number.
    Number(u16),
    /// currentUtcOffset in s, and whether it is valid.
    UtcOffset(i16, bool),
    /// Whether the timescale is PTP.
    Timescale(bool),
}

#[tactic(auto, unfolding(crate::specs::Announces::told_text))]
impl Display for Told {
    ghost output = { λ told. Some (told_text told) };

    fn fmt<W: fmt::Write>(&self, f: &mut Formatter<W>) -> fmt::Result {
        match *self {
            Told::Clock(identity) => write!(f, "{}", ClockIdentity(identity)),
            Told::Number(number) => write!(f, "{number}"),
            Told::UtcOffset(seconds, is_valid) => write!(f, "{seconds} s ({})", validity(is_valid)),
            Told::Timescale(is_ptp) => f.write_str(timescale_name(is_ptp)),
        }
    }
}

/// grandmasterIdentity.
fn grandmaster(announced: &Announced) -> Told
    ensures { result ≡ grandmaster announced.now }
{
    Told::Clock(announced.grandmaster)
}

/// clockClass.
fn clock_class(announced: &Announced) -> Told
    ensures { result ≡ clock_class announced.now }
{
    Told::Number(u16::from(announced.clock_class))
}

/// stepsRemoved.
fn steps_removed(announced: &Announced) -> Told
    ensures { result ≡ steps_removed announced.now }
{
    Told::Number(announced.steps_removed)
}

/// currentUtcOffset.
fn utc_offset(announced: &Announced) -> Told
    ensures { result ≡ utc_offset announced.now }
{
    Told::UtcOffset(announced.utc_offset, announced.is_utc_offset_valid)
}

/// The timescale.
fn timescale(announced: &Announced) -> Told
    ensures { result ≡ timescale announced.now }
{
    Told::Timescale(announced.is_ptp_timescale)
}

/// All that an Announce tells.
#[derive(Clone, Copy)]
struct All(Announced);

#[tactic(auto, unfolding(crate::specs::Announces::announced_text))]
impl Display for All {
    ghost output = { λ all. Some (announced_text all.0) };

    fn fmt<W: fmt::Write>(&self, f: &mut Formatter<W>) -> fmt::Result {
        let (grandmaster, class) = (grandmaster(&self.0), clock_class(&self.0));
        let (distance, offset) = (steps_removed(&self.0), utc_offset(&self.0));
        let timescale = timescale(&self.0);
        write!(
            f,
            "grandmaster {grandmaster}, clockClass {class}, stepsRemoved {distance}, currentUtcOffset {offset}, timescale {timescale}"
        )
    }
}

/// Whether grandmasterIdentity changed.
fn is_other_grandmaster(change: &Change) -> bool
    ensures { result ≡ is_other_grandmaster change.now }
{
    change.before.grandmaster != change.after.grandmaster
}

/// Whether clockClass changed.
fn is_other_class(change: &Change) -> bool
    ensures { result ≡ is_other_class change.now }
{
    change.before.clock_class != change.after.clock_class
}

/// Whether stepsRemoved changed.
fn is_other_distance(change: &Change) -> bool
    ensures { result ≡ is_other_distance change.now }
{
    change.before.steps_removed != change.after.steps_removed
}

/// Whether currentUtcOffset changed, or whether it is valid.
fn is_other_offset(change: &Change) -> bool
    ensures { result ≡ is_other_offset change.now }
{
    change.before.utc_offset != change.after.utc_offset
        || change.before.is_utc_offset_valid != change.after.is_utc_offset_valid
}

/// Whether the timescale changed.
fn is_other_timescale(change: &Change) -> bool
    ensures { result ≡ is_other_timescale change.now }
{
    change.before.is_ptp_timescale != change.after.is_ptp_timescale
}

/// A field, if it changed.
#[derive(Clone, Copy)]
struct Field {
    /// Whether another field that changed stands in front of it.
    is_behind: bool,
    has_changed: bool,
    name: &'static str,
    before: Told,
    after: Told,
}

impl Field {
    /// The next field.
    fn then(&self, has_changed: bool, name: &'static str, before: Told, after: Told) -> Field
        ensures { result ≡ record {
          is_behind = self.now.is_behind || self.now.has_changed;
          has_changed = has_changed;
          name = name.entry;
          before = before;
          after = after;
        } }
    {
        Field {
            is_behind: self.is_behind || self.has_changed,
            has_changed,
            name,
            before,
            after,
        }
    }
}

#[tactic(auto, unfolding(crate::specs::Announces::field_text))]
impl Display for Field {
    ghost output = { λ x. Some (field_text x.is_behind x.has_changed x.name.now (told_text x.before) (told_text x.after)) };

    fn fmt<W: fmt::Write>(&self, f: &mut Formatter<W>) -> fmt::Result {
        if !self.has_changed {
            return Ok(());
        }
        let comma = if self.is_behind { ", " } else { "" };
        write!(
            f,
            "{comma}{} {} became {}",
            self.name, self.before, self.after
        )
    }
}

/// Each field that changed, with what it was and what it became.
#[derive(Clone, Copy)]
struct Changed(Change);

#[tactic(auto, unfolding(crate::specs::Announces::changed_text))]
impl Display for Changed {
    ghost output = { λ changed. Some (changed_text changed.0) };

    fn fmt<W: fmt::Write>(&self, f: &mut Formatter<W>) -> fmt::Result {
        let change = self.0;
        let (before, after) = (&change.before, &change.after);
        let first = Field {
            is_behind: false,
            has_changed: is_other_grandmaster(&change),
            name: "grandmaster",
            before: grandmaster(before),
            after: grandmaster(after),
        };
        let class = first.then(
            is_other_class(&change),
            "clockClass",
            clock_class(before),
            clock_class(after),
        );
        let distance = class.then(
            is_other_distance(&change),
            "stepsRemoved",
            steps_removed(before),
            steps_removed(after),
        );
        let offset = distance.then(
            is_other_offset(&change),
            "currentUtcOffset",
            utc_offset(before),
            utc_offset(after),
        );
        let timescale = offset.then(
            is_other_timescale(&change),
            "timescale",
            timescale(before),
            timescale(after),
        );
        write!(f, "{first}{class}{distance}{offset}{timescale}")
    }
}

/// How often something changed, and that it was first.
#[derive(Clone, Copy)]
struct Often(u64);

#[tactic(auto, unfolding(crate::specs::Announces::often_text))]
impl Display for Often {
    ghost output = { λ count. Some (often_text count.0) };

    fn fmt<W: fmt::Write>(&self, f: &mut Formatter<W>) -> fmt::Result {
        match self.0 {
            1 => f.write_str("once,"),
            count => write!(f, "{count} times, first"),
        }
    }
}

/// What the last Announce tells, and since when, if any came.
#[derive(Clone, Copy)]
struct ToldLine {
    unit: InputUnit,
    count: u64,
    told: Option<Announcement>,
}

#[tactic(auto, unfolding(crate::specs::Announces::told_line))]
impl Display for ToldLine {
    ghost output = { λ line. Some (told_line line.unit line.count line.told) };

    fn fmt<W: fmt::Write>(&self, f: &mut Formatter<W>) -> fmt::Result {
        let Some(Announcement { line, announced }) = self.told else {
            return Ok(());
        };
        let (count, all, unit) = (self.count, All(announced), self.unit);
        write!(
            f,
            "ptpx: Announces: {count}; {all}, from {unit} {line} on\n"
        )
    }
}

/// How often what Announces tell changed, and what was first, if it did.
#[derive(Clone, Copy)]
struct ChangeLine {
    unit: InputUnit,
    changes: u64,
    first: Option<Change>,
}

#[tactic(auto, unfolding(crate::specs::Announces::change_line))]
impl Display for ChangeLine {
    ghost output = { λ line. Some (change_line line.unit line.changes line.first) };

    fn fmt<W: fmt::Write>(&self, f: &mut Formatter<W>) -> fmt::Result {
        let Some(change) = self.first else {
            return Ok(());
        };
        let place = Place {
            unit: self.unit,
            number: change.line,
        };
        let (often, changed) = (Often(self.changes), Changed(change));
        write!(
            f,
            "ptpx: what Announces tell changed {often} {place}: {changed}\n"
        )
    }
}

/// What the Announces of the master tell last, and how often that changed. Shows as lines.
#[derive(Clone, Copy)]
pub struct AnnounceLines {
    /// What lines or packets are called.
    pub unit: InputUnit,
    /// What they tell.
    pub announces: Announces,
}

#[tactic(auto, unfolding(crate::specs::Announces::announces_text))]
impl Display for AnnounceLines {
    ghost output = { λ lines. Some (announces_text lines.unit lines.announces) };

    fn fmt<W: fmt::Write>(&self, f: &mut Formatter<W>) -> fmt::Result {
        let told = ToldLine {
            unit: self.unit,
            count: self.announces.count,
            told: self.announces.told,
        };
        let change = ChangeLine {
            unit: self.unit,
            changes: self.announces.changes,
            first: self.announces.first_change,
        };
        write!(f, "{told}{change}")
    }
}
