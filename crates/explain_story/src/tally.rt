//! How many reports there are, and how many fail which conditions.
ghost use Rattle.std.specs.Prelude.{◌≡◌, ◌+◌, ◌==◌, [], ◌∷◌, ◌++◌, List, ℕ, OnOk, if◌then◌else◌};
ghost use Rattle.std.specs.String.{string_bytes};
ghost use Rattle.trace_model.specs.declared.verdict.Why.{Why};
ghost use Rattle.explain_story.specs.Counts.{aside_text, counted, counts_of, counts_text, failing_lines, failing_text, read_text};
ghost use Rattle.explain_story.specs.Counts.{has_octets, is_by_readings, is_octets_alone, is_sound, noun_text, of_reports_text};
ghost use Rattle.explain_story.specs.Counts.{right_text, stands, told_reasons};
ghost use Rattle.explain_story.specs.Inner.Tally.{counts_in, failing_in};

use exchange_check::{Reasons, Why};
use explain_fields::messages_noun;
use std::alloc::AllocError;

/// All reasons, in the order in which they are told.
const REASONS: [Why; 8] = [
    Why::NoSuchLine,
    Why::BrokenJourney,
    Why::OtherNumber,
    Why::OtherMaster,
    Why::WrongReading,
    Why::TooBig,
    Why::WrongValue,
    Why::Bytes,
];

/// Against how many reports each reason stands. Counts stay at 2^64 - 1.
#[derive(Clone, Copy, Debug)]
pub(crate) struct Failing {
    no_such_line: u64,
    broken_journey: u64,
    other_number: u64,
    other_master: u64,
    wrong_reading: u64,
    too_big: u64,
    wrong_value: u64,
    bytes: u64,
}

impl Failing {
    /// There is no report yet.
    fn none() -> Failing
        ensures { (why : Why) → failing_in result why ≡ 0 }
    {
        Failing {
            no_such_line: 0,
            broken_journey: 0,
            other_number: 0,
            other_master: 0,
            wrong_reading: 0,
            too_big: 0,
            wrong_value: 0,
            bytes: 0,
        }
    }

    /// Against how many reports this reason stands.
    fn of(&self, why: Why) -> u64
        ensures { result ≡ failing_in self.now why }
    {
        match why {
            Why::NoSuchLine => self.no_such_line,
            Why::BrokenJourney => self.broken_journey,
            Why::OtherNumber => self.other_number,
            Why::OtherMaster => self.other_master,
            Why::WrongReading => self.wrong_reading,
            Why::TooBig => self.too_big,
            Why::WrongValue => self.wrong_value,
            Why::Bytes => self.bytes,
        }
    }

    /// The same after one more report, which these reasons stand against.
    fn after(&self, whys: &[Why]) -> Failing
        ensures { (why : Why) → failing_in result why
            ≡ (if stands why whys.now then counted (failing_in self.now why + 1) else failing_in self.now why) }
    {
        Failing {
            no_such_line: more(self.no_such_line, stands(Why::NoSuchLine, whys)),
            broken_journey: more(self.broken_journey, stands(Why::BrokenJourney, whys)),
            other_number: more(self.other_number, stands(Why::OtherNumber, whys)),
            other_master: more(self.other_master, stands(Why::OtherMaster, whys)),
            wrong_reading: more(self.wrong_reading, stands(Why::WrongReading, whys)),
            too_big: more(self.too_big, stands(Why::TooBig, whys)),
            wrong_value: more(self.wrong_value, stands(Why::WrongValue, whys)),
            bytes: more(self.bytes, stands(Why::Bytes, whys)),
        }
    }
}

/// How many reports there are. Counts stay at 2^64 - 1.
#[derive(Clone, Copy, Debug)]
pub(crate) struct Tally {
    reports: u64,
    sound: u64,
    /// How many reports octets alone stand against.
    octets_alone: u64,
    /// How many have the results by the messages.
    by_messages: u64,
    /// How many have the results by the readings.
    by_readings: u64,
    failing: Failing,
}

impl Tally {
    /// There is no report yet.
    pub(crate) fn new() -> Tally
        ensures { counts_in result ≡ counts_of [] }
    {
        Tally {
            reports: 0,
            sound: 0,
            octets_alone: 0,
            by_messages: 0,
            by_readings: 0,
            failing: Failing::none(),
        }
    }

    /// One more report, which these reasons stand against, and which has the results by the messages or hasn't.
    pub(crate) fn count(&mut self, reasons: &Reasons, by_messages: bool)
        ensures { (reports : List (List Why)) → counts_in self.old ≡ counts_of reports
            → counts_in self.new ≡ counts_of (reasons.now ∷ reports) }
    {
        let whys = reasons.as_slice();
        self.reports = self.reports.saturating_add(1);
        self.sound = more(self.sound, is_sound(whys));
        self.octets_alone = more(self.octets_alone, is_octets_alone(whys));
        self.by_messages = more(self.by_messages, by_messages);
        self.by_readings = more(self.by_readings, is_by_readings(whys));
        self.failing = self.failing.after(whys);
    }

    /// Whether octets stand against a report.
    pub(crate) fn has_octets(&self) -> bool
        ensures { result ≡ has_octets (counts_in self.now) }
    {
        self.failing.bytes > 0
    }

    /// Appends how many reports there are, and how many fail which conditions, where so many messages differ in a field
    /// that is read.
    pub(crate) fn push(&self, text: &mut String, messages: u64) -> Result<(), AllocError>
        ensures { OnOk result (string_bytes text.new ≡ string_bytes text.old
            ++ counts_text (counts_in self.now) self.now.by_messages messages) }
    {
        if self.reports == 0 {
            return text.push_str("there is no report, so nothing was judged\n");
        }
        write!(
            text,
            "{} {}: {} sound\n",
            self.reports,
            noun(self.reports),
            self.sound
        )?;
        self.push_failing(text)?;
        self.push_right(text)?;
        self.push_aside(text, messages)
    }

    /// Appends a line for each reason that stands against a report.
    fn push_failing(&self, text: &mut String) -> Result<(), AllocError>
        ensures { OnOk result (string_bytes text.new ≡ string_bytes text.old
            ++ failing_lines (failing_in self.now.failing) told_reasons) }
    {
        for why in REASONS {
            push_reason(text, why, self.failing.of(why))?;
        }
        Ok(())
    }

    /// Appends how many reports have the results of what the slave was told, and how many those of the readings, where a report
    /// isn't sound.
    fn push_right(&self, text: &mut String) -> Result<(), AllocError>
        ensures { OnOk result (string_bytes text.new ≡ string_bytes text.old
            ++ right_text (counts_in self.now) self.now.by_messages) }
    {
        if self.sound == self.reports {
            return Ok(());
        }
        text.push_str("results equal to those by the messages that came to the slave: ")?;
        self.push_of_reports(text, self.by_messages)?;
        text.push_str("results equal to those by the readings of the clocks: ")?;
        self.push_of_reports(text, self.by_readings)
    }

    /// Appends how many of the reports, and the end of the line.
    fn push_of_reports(&self, text: &mut String, count: u64) -> Result<(), AllocError>
        ensures { OnOk result (string_bytes text.new ≡ string_bytes text.old ++ of_reports_text count (counts_in self.now)) }
    {
        write!(text, "{count} of {} {}\n", self.reports, noun(self.reports))
    }

    /// Appends how many reports would be sound were octets left aside, where these stand against one; where so many
    /// messages differ in a field that is read, that octets can't be left aside.
    fn push_aside(&self, text: &mut String, messages: u64) -> Result<(), AllocError>
        ensures { OnOk result (string_bytes text.new ≡ string_bytes text.old
            ++ aside_text (counts_in self.now) messages) }
    {
        if !self.has_octets() {
            return Ok(());
        }
        if messages > 0 {
            return push_read(text, messages);
        }
        write!(
            text,
            "were octets left aside (708), {} of {} {} would be sound\n",
            self.sound.saturating_add(self.octets_alone),
            self.reports,
            noun(self.reports)
        )
    }
}

/// Whether no reason stands against a report.
fn is_sound(whys: &[Why]) -> bool
    ensures { result ≡ is_sound whys.now }
{
    whys.is_empty()
}

/// Whether octets stand against a report, and no other reason does.
fn is_octets_alone(whys: &[Why]) -> bool
    ensures { result ≡ is_octets_alone whys.now }
{
    whys.len() == 1 && stands(Why::Bytes, whys)
}

/// Whether a report has the results by the readings.
fn is_by_readings(whys: &[Why]) -> bool
    ensures { result ≡ is_by_readings whys.now }
{
    !stands(Why::NoSuchLine, whys)
        && !stands(Why::BrokenJourney, whys)
        && !stands(Why::WrongValue, whys)
}

/// Whether this reason is one of those against a report.
fn stands(reason: Why, whys: &[Why]) -> bool
    ensures { result ≡ stands reason whys.now }
{
    for why in whys {
        if why.code() == reason.code() {
            return true;
        }
    }
    false
}

/// A count, with one more where it is to count.
fn more(count: u64, counts: bool) -> u64
    ensures { result ≡ (if counts then counted (count + 1) else count) }
{
    if counts {
        count.saturating_add(1)
    } else {
        count
    }
}

/// Appends that octets can't be left aside, since so many messages differ in a field that is read.
fn push_read(text: &mut String, messages: u64) -> Result<(), AllocError>
    ensures { OnOk result (string_bytes text.new ≡ string_bytes text.old ++ read_text messages) }
{
    write!(
        text,
        "octets can't be left aside (708): a field that a slave or a master reads differs in {messages} {}\n",
        messages_noun(messages)
    )
}

/// The word for so many reports.
fn noun(reports: u64) -> &'static str
    ensures { result.now ≡ noun_text reports }
{
    if reports == 1 { "report" } else { "reports" }
}

/// Appends the line of a reason that stands against so many reports; nothing where it stands against none.
fn push_reason(text: &mut String, why: Why, count: u64) -> Result<(), AllocError>
    ensures { OnOk result (string_bytes text.new ≡ string_bytes text.old ++ failing_text why count) }
{
    if count == 0 {
        return Ok(());
    }
    write!(text, "  {} stands against {count}: {why}\n", why.code())
}
