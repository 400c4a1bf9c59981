//! What a report is judged to be, for a person.
ghost use Rattle.std.specs.Prelude.{◌≡◌, ◌++◌, int_lt, OnOk, Some};
ghost use Rattle.std.specs.String.{string_bytes};
ghost use Rattle.explain_story.specs.Report.{amount_text, as_told_text, begin_text, difference_text, is_as_told};
ghost use Rattle.explain_story.specs.Report.{all_rows_text, are_same, as_reported_text, messages_row_text, raw_text};
ghost use Rattle.explain_story.specs.Report.{reason_text, row_text, rows_text, side_text, tells_otherwise};
ghost use Rattle.explain_story.specs.Counts.{is_sound};

use exchange_check::{Results, Why};
use explain_findings::Reported;
use network_model::Report;
use ptp_units::Nanoseconds;
use std::alloc::AllocError;

/// Whether no reason stands against a report.
pub(crate) fn is_sound(reported: &Reported) -> bool
    ensures { result ≡ is_sound reported.now.judgement.reasons }
{
    reported.judgement.reasons.as_slice().is_empty()
}

/// Appends the beginning of a report's first line.
pub(crate) fn push_begin(text: &mut String, reported: &Reported) -> Result<(), AllocError>
    ensures { OnOk result (string_bytes text.new ≡ string_bytes text.old ++ begin_text reported.now) }
{
    write!(
        text,
        "event {}, line {}: the report of {} is ",
        reported.event,
        reported.line,
        reported.node.text()
    )
}

/// That the two results are equal to those by the messages, below the reason that they aren't those of the readings.
fn as_told(equal: bool, why: Why) -> &'static str
    ensures { result.now ≡ as_told_text equal why }
{
    if equal && why.code() == 706 {
        "    the results are equal to those by the messages that came to the slave\n"
    } else {
        ""
    }
}

/// Appends the line of a reason, with what leads to it in front; and where the results are equal to those by the messages
/// that they are, below the reason that they aren't those of the readings.
pub(crate) fn push_reason(
    text: &mut String,
    lead: &str,
    why: Why,
    equal: bool,
) -> Result<(), AllocError>
    ensures { OnOk result (string_bytes text.new ≡ string_bytes text.old ++ reason_text lead.now equal why) }
{
    write!(text, "{lead}{}: {why}\n{}", why.code(), as_told(equal, why))
}

/// Whether two results are the same as two others.
fn are_same(offset2: i128, path2: i128, results: &Results) -> bool
    ensures { result ≡ are_same offset2 path2 results.now }
{
    offset2 == results.offset2 && path2 == results.path2
}

/// Whether the results of a report are those by the messages.
pub(crate) fn is_as_told(report: &Report, by_messages: Option<Results>) -> bool
    ensures { result ≡ is_as_told report.now by_messages }
{
    match by_messages {
        Some(told) => are_same(report.offset2, report.path2, &told),
        None => false,
    }
}

/// Whether a result is too much or too little, where it is wrong.
fn side(reported: i128, by_readings: i128) -> &'static str
    ensures { result.now ≡ side_text (int_lt by_readings reported) }
{
    if reported > by_readings {
        "much"
    } else {
        "little"
    }
}

/// Appends how much a number of halves of 2^-16 ns is: exactly, but where it has more than 127 bits.
fn push_amount(text: &mut String, size: u128) -> Result<(), AllocError>
    ensures { OnOk result (string_bytes text.new ≡ string_bytes text.old ++ amount_text size) }
{
    match i128::try_from(size) {
        Ok(size) => write!(text, "{} ns", Nanoseconds(size)),
        Err(_) => text.push_str("2^110 ns or more"),
    }
}

/// Appends by how much a result is wrong, and which way; nothing where it is right.
fn push_difference(text: &mut String, reported: i128, by_readings: i128) -> Result<(), AllocError>
    ensures { OnOk result (string_bytes text.new ≡ string_bytes text.old ++ difference_text reported by_readings) }
{
    let size = reported.abs_diff(by_readings);
    if size == 0 {
        return Ok(());
    }
    text.push_str("  ")?;
    push_amount(text, size)?;
    write!(text, " too {}", side(reported, by_readings))
}

/// Appends a result as it stands in the transcript under this key, and as it is wanted there where that is another number.
fn push_raw(
    text: &mut String,
    key: &str,
    reported: i128,
    by_readings: i128,
) -> Result<(), AllocError>
    ensures { OnOk result (string_bytes text.new ≡ string_bytes text.old ++ raw_text key.now reported by_readings) }
{
    if reported == by_readings {
        return write!(text, "  (\"{key}\" {reported})\n");
    }
    write!(text, "  (\"{key}\" {reported}, wanted {by_readings})\n")
}

/// Appends the row of a result, as it is reported and by the readings, with its key in the transcript.
fn push_row(
    text: &mut String,
    name: &str,
    key: &str,
    reported: i128,
    by_readings: i128,
) -> Result<(), AllocError>
    ensures { OnOk result (string_bytes text.new ≡ string_bytes text.old
        ++ row_text name.now key.now reported by_readings) }
{
    write!(
        text,
        "  {name}  reported {} ns  by the readings {} ns",
        Nanoseconds(reported),
        Nanoseconds(by_readings)
    )?;
    push_difference(text, reported, by_readings)?;
    push_raw(text, key, reported, by_readings)
}

/// Whether the results by the messages aren't those by the readings.
pub(crate) fn tells_otherwise(by_readings: Option<Results>, by_messages: Option<Results>) -> bool
    ensures { result ≡ tells_otherwise by_readings by_messages }
{
    match (by_readings, by_messages) {
        (Some(results), Some(told)) => !are_same(told.offset2, told.path2, &results),
        _ => false,
    }
}

/// Appends the two results, as they are reported and by the readings; nothing where no readings are found.
fn push_rows(text: &mut String, reported: &Reported) -> Result<(), AllocError>
    ensures { OnOk result (string_bytes text.new ≡ string_bytes text.old
        ++ rows_text reported.now.report reported.now.judgement.by_readings) }
{
    let Some(results) = reported.judgement.by_readings else {
        return Ok(());
    };
    let report = &reported.report;
    push_row(text, "offset", "offset2", report.offset2, results.offset2)?;
    push_row(text, "path  ", "path2", report.path2, results.path2)
}

/// That results are those that are reported.
fn as_reported(same: bool) -> &'static str
    ensures { result.now ≡ as_reported_text same }
{
    if same { "  as reported" } else { "" }
}

/// Appends the row of the results by the messages.
fn push_messages_row(text: &mut String, report: &Report, told: Results) -> Result<(), AllocError>
    ensures { OnOk result (string_bytes text.new ≡ string_bytes text.old ++ messages_row_text report.now told) }
{
    let same = as_reported(are_same(report.offset2, report.path2, &told));
    write!(
        text,
        "  by the messages  offset {} ns  path {} ns{same}",
        Nanoseconds(told.offset2),
        Nanoseconds(told.path2)
    )?;
    write!(
        text,
        "  (\"offset2\" {}, \"path2\" {})\n",
        told.offset2, told.path2
    )
}

/// Appends the two results, as they are reported and by the readings, and by the messages where these tell otherwise.
pub(crate) fn push_results(
    text: &mut String,
    reported: &Reported,
    by_messages: Option<Results>,
) -> Result<(), AllocError>
    ensures { OnOk result (string_bytes text.new ≡ string_bytes text.old
        ++ all_rows_text reported.now.report reported.now.judgement.by_readings by_messages) }
{
    push_rows(text, reported)?;
    match by_messages {
        Some(told) if tells_otherwise(reported.judgement.by_readings, by_messages) => {
            push_messages_row(text, &reported.report, told)
        }
        _ => Ok(()),
    }
}
