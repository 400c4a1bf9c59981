//! What a report is judged to be, as JSON.
ghost use Rattle.std.specs.Prelude.{◌≡◌, ◌++◌, OnOk, Some};
ghost use Rattle.std.specs.String.{string_bytes};
ghost use Rattle.explain_transcript.specs.Judged.{are_known, brackets_text, codes_text, difference, errors_against, errors_text};
ghost use Rattle.explain_transcript.specs.Judged.{error_text, event_text, judged_text, moments_text, octets_text, owed_text};
ghost use Rattle.explain_transcript.specs.Judged.{reasons_text, reported_text, results_text, sum, time_text};

use crate::details::{Details, Moments, Octets};
use exchange_check::{Results, Why};
use network_model::Report;
use ptp_units::{Nanoseconds, ScaledTime};
use schedule_reading::Judged;
use std::alloc::AllocError;
use std::fmt;
use std::fmt::{Display, Formatter};

/// Two results, or null.
#[derive(Clone, Copy)]
struct Pair(Option<Results>);

impl Display for Pair {
    ghost output = { λ results. Some (results_text results.0) };

    fn fmt<W: fmt::Write>(&self, f: &mut Formatter<W>) -> fmt::Result {
        match self.0 {
            Some(results) => write!(
                f,
                "{{\"offset2\":\"{}\",\"path2\":\"{}\"}}",
                results.offset2, results.path2
            ),
            None => f.write_str("null"),
        }
    }
}

/// The two brackets of these results in nanoseconds, or null.
#[derive(Clone, Copy)]
struct Brackets(Option<Results>);

impl Display for Brackets {
    ghost output = { λ results. Some (brackets_text results.0) };

    fn fmt<W: fmt::Write>(&self, f: &mut Formatter<W>) -> fmt::Result {
        let Some(results) = self.0 else {
            return f.write_str("null");
        };
        let Some(a2) = sum(results.path2, results.offset2) else {
            return f.write_str("null");
        };
        match difference(results.path2, results.offset2) {
            Some(b2) => write!(
                f,
                "{{\"a\":\"{}\",\"b\":\"{}\"}}",
                Nanoseconds(a2),
                Nanoseconds(b2)
            ),
            None => f.write_str("null"),
        }
    }
}

/// Two errors in nanoseconds, or null.
#[derive(Clone, Copy)]
struct Errors(Option<Results>);

impl Display for Errors {
    ghost output = { λ errors. Some (errors_text errors.0) };

    fn fmt<W: fmt::Write>(&self, f: &mut Formatter<W>) -> fmt::Result {
        match self.0 {
            Some(errors) => write!(
                f,
                "{{\"offset\":\"{}\",\"path\":\"{}\"}}",
                Nanoseconds(errors.offset2),
                Nanoseconds(errors.path2)
            ),
            None => f.write_str("null"),
        }
    }
}

/// The errors of a report against its results by the messages and by the readings, or null where none are known by these.
#[derive(Clone, Copy)]
struct Error {
    known: bool,
    by_messages: Option<Results>,
    by_readings: Option<Results>,
}

impl Display for Error {
    ghost output = { λ error. Some (error_text error.known error.by_messages error.by_readings) };

    fn fmt<W: fmt::Write>(&self, f: &mut Formatter<W>) -> fmt::Result {
        if !self.known {
            return f.write_str("null");
        }
        write!(
            f,
            "{{\"by_messages\":{},\"by_readings\":{}}}",
            Errors(self.by_messages),
            Errors(self.by_readings)
        )
    }
}

/// The numbers of reasons, with commas between them.
#[derive(Clone, Copy)]
struct Codes<'a>(&'a [Why]);

impl Display for Codes<'_> {
    ghost output = { λ whys. Some (codes_text whys.0.now) };

    fn fmt<W: fmt::Write>(&self, f: &mut Formatter<W>) -> fmt::Result {
        let mut comma = "";
        for why in self.0 {
            write!(f, "{comma}{}", why.code())?;
            comma = ",";
        }
        Ok(())
    }
}

/// The number of an event, or null.
#[derive(Clone, Copy)]
struct EventNumber(Option<u64>);

impl Display for EventNumber {
    ghost output = { λ event. Some (event_text event.0) };

    fn fmt<W: fmt::Write>(&self, f: &mut Formatter<W>) -> fmt::Result {
        match self.0 {
            Some(event) => write!(f, "{event}"),
            None => f.write_str("null"),
        }
    }
}

/// In which fields octets differ, or null.
#[derive(Clone, Copy)]
struct Fields(Option<Octets>);

impl Display for Fields {
    ghost output = { λ fields. Some (octets_text fields.0) };

    fn fmt<W: fmt::Write>(&self, f: &mut Formatter<W>) -> fmt::Result {
        match self.0 {
            Some(Octets::Told) => f.write_str("\"told\""),
            Some(Octets::Other) => f.write_str("\"other\""),
            None => f.write_str("null"),
        }
    }
}

/// A moment as it stands in a transcript, or null.
#[derive(Clone, Copy)]
struct Time(Option<ScaledTime>);

impl Display for Time {
    ghost output = { λ time. Some (time_text time.0) };

    fn fmt<W: fmt::Write>(&self, f: &mut Formatter<W>) -> fmt::Result {
        let Some(time) = self.0 else {
            return f.write_str("null");
        };
        let (timestamp, fraction) = time.split();
        write!(
            f,
            "[{},{},{fraction}]",
            timestamp.seconds(),
            timestamp.nanos()
        )
    }
}

/// The four moments of an exchange as they stand in a transcript, each with its key, or each with null.
#[derive(Clone, Copy)]
struct Times(Option<Moments>);

impl Display for Times {
    ghost output = { λ moments. Some (moments_text moments.0) };

    fn fmt<W: fmt::Write>(&self, f: &mut Formatter<W>) -> fmt::Result {
        match self.0 {
            Some(moments) => write!(
                f,
                "\"t1\":{},\"t2\":{},\"t3\":{},\"t4\":{}",
                Time(Some(moments.t1)),
                Time(Some(moments.t2)),
                Time(Some(moments.t3)),
                Time(Some(moments.t4))
            ),
            None => f.write_str("\"t1\":null,\"t2\":null,\"t3\":null,\"t4\":null"),
        }
    }
}

/// What two numbers make together; none where that has more than 128 bits.
fn sum(one: i128, other: i128) -> Option<i128>
    ensures { result ≡ sum one other }
{
    one.checked_add(other)
}

/// What one number has more than another; none where that has more than 128 bits.
fn difference(one: i128, other: i128) -> Option<i128>
    ensures { result ≡ difference one other }
{
    one.checked_sub(other)
}

/// What the results of a report have more than these; none where that has more than 128 bits.
fn errors_against(report: &Report, results: Option<Results>) -> Option<Results>
    ensures { result ≡ errors_against report.now results }
{
    let results = results?;
    let offset2 = difference(report.offset2, results.offset2)?;
    let path2 = difference(report.path2, results.path2)?;
    Some(Results { offset2, path2 })
}

/// Whether there are results by the readings, with which those of a report can be compared.
fn are_known(by_readings: Option<Results>) -> bool
    ensures { result ≡ are_known by_readings }
{
    by_readings.is_some()
}

/// How wrong the results of a report are.
fn error_of(judged: &Judged, details: &Details) -> Error
    ensures known { result.known ≡ are_known judged.now.judgement.by_readings }
    ensures by_messages { result.by_messages ≡ errors_against judged.now.report details.now.by_messages }
    ensures by_readings { result.by_readings ≡ errors_against judged.now.report judged.now.judgement.by_readings }
{
    let report = &judged.report;
    let by_readings = judged.judgement.by_readings;
    Error {
        known: are_known(by_readings),
        by_messages: errors_against(report, details.by_messages),
        by_readings: errors_against(report, by_readings),
    }
}

/// Appends the two brackets and the two results that a report should have, and how wrong its own are.
fn push_owed(text: &mut String, judged: &Judged, details: &Details) -> Result<(), AllocError>
    ensures { OnOk result (string_bytes text.new ≡ string_bytes text.old ++ owed_text judged.now details.now) }
{
    write!(
        text,
        "{{\"brackets\":{},\"by_messages\":{},\"by_readings\":{},\"error\":",
        Brackets(judged.judgement.by_readings),
        Pair(details.by_messages),
        Pair(judged.judgement.by_readings)
    )?;
    write!(text, "{}", error_of(judged, details))
}

/// Appends where a report stands, in which fields octets differ that it rests on, its two results, and the event that made the
/// first message that tells otherwise.
fn push_reported(text: &mut String, judged: &Judged, details: &Details) -> Result<(), AllocError>
    ensures { OnOk result (string_bytes text.new ≡ string_bytes text.old ++ reported_text judged.now details.now) }
{
    write!(
        text,
        ",\"event\":{},\"line\":{},\"node\":\"{}\",\"octets\":{}",
        judged.event,
        judged.line,
        judged.node.text(),
        Fields(details.octets)
    )?;
    write!(
        text,
        ",\"offset2\":\"{}\",\"otherwise\":{},\"path2\":\"{}\"",
        judged.report.offset2,
        EventNumber(details.otherwise),
        judged.report.path2
    )
}

/// Appends the reasons against a report, its four moments, its tags, and when it was.
fn push_reasons(text: &mut String, judged: &Judged, details: &Details) -> Result<(), AllocError>
    ensures { OnOk result (string_bytes text.new ≡ string_bytes text.old ++ reasons_text judged.now details.now) }
{
    let report = &judged.report;
    write!(
        text,
        ",\"reasons\":[{}],{},\"tags\":[{},{},{},{}],\"time\":{}}}\n",
        Codes(judged.judgement.reasons.as_slice()),
        Times(details.moments),
        report.sync_tag,
        EventNumber(report.follow_tag),
        report.request_tag,
        report.response_tag,
        Time(details.time)
    )
}

/// Appends what a report is judged to be, in one line, with the keys in the order of their octets.
pub(crate) fn push_judged(
    text: &mut String,
    judged: &Judged,
    details: &Details,
) -> Result<(), AllocError>
    ensures { OnOk result (string_bytes text.new ≡ string_bytes text.old ++ judged_text judged.now details.now) }
{
    push_owed(text, judged, details)?;
    push_reported(text, judged, details)?;
    push_reasons(text, judged, details)
}
