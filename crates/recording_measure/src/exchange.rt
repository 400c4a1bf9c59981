//! What was measured at a line, with the exchange that it was made of: the four times, the corrections and the numbers.

ghost use Rattle.std.specs.Prelude.{◌≡◌, ◌++◌, OnOk, Some};
ghost use Rattle.std.specs.String.{string_bytes};
ghost use Rattle.recording_lines.specs.Measurement.{measured_of, follow_text};
ghost use Rattle.recording_measure.specs.Exchange.{json_results, json_times, json_tags, json_text, table_head};
ghost use Rattle.recording_measure.specs.Exchange.{row_results, row_times, row_numbers, row_text};
ghost use Rattle.recording_measure.specs.Exchange.{sync_correction2, delay_correction2, between2};

use crate::moment::Moment;
use ptp_units::Nanoseconds;
use recording_lines::Measurement;
use slave_port::LastExchange;
use std::alloc::AllocError;
use std::fmt;
use std::fmt::{Display, Formatter};

/// The line of a Follow_Up, or null.
#[derive(Clone, Copy)]
struct Follow(Option<u64>);

impl Display for Follow {
    ghost output = { λ follow. Some (follow_text follow.0) };

    fn fmt<W: fmt::Write>(&self, f: &mut Formatter<W>) -> fmt::Result {
        match self.0 {
            Some(line) => write!(f, "{line}"),
            None => f.write_str("null"),
        }
    }
}

/// The correction of Sync and Follow_Up together.
fn sync_correction(exchange: &LastExchange) -> Nanoseconds
    ensures { result.0 ≡ sync_correction2 exchange.now }
{
    let sum = i128::from(exchange.sync_correction) + i128::from(exchange.follow_correction);
    Nanoseconds(2 * sum)
}

/// The correction of the Delay_Resp.
fn delay_correction(exchange: &LastExchange) -> Nanoseconds
    ensures { result.0 ≡ delay_correction2 exchange.now }
{
    Nanoseconds(2 * i128::from(exchange.response_correction))
}

/// The time between t2 and t3, whichever is later.
#[tactic(auto, unfolding(crate::specs::Exchange::between2))]
fn between(exchange: &LastExchange) -> Nanoseconds
    ensures { result.0 ≡ between2 exchange.now }
{
    Nanoseconds(2 * (exchange.age() as i128))
}

/// Appends what begins the JSON of a measurement.
fn push_json_results(
    text: &mut String,
    measured: &Measurement<'_>,
    exchange: &LastExchange,
) -> Result<(), AllocError>
    ensures { OnOk result (string_bytes text.new ≡ string_bytes text.old ++ json_results (measured_of measured.now) exchange.now) }
{
    let Measurement { line, report, .. } = *measured;
    write!(
        text,
        "{{\"by\":\"{}\",\"delay_correction\":\"{}\",\"line\":{line},\"offset\":\"{}\",\"offset2\":\"{}\"",
        measured.by(),
        delay_correction(exchange),
        Nanoseconds(report.offset2),
        report.offset2
    )?;
    write!(
        text,
        ",\"path\":\"{}\",\"path2\":\"{}\",\"request_number\":{},\"sync_correction\":\"{}\",\"sync_number\":{}",
        Nanoseconds(report.path2),
        report.path2,
        exchange.request_number.0,
        sync_correction(exchange),
        exchange.sync_number.0
    )
}

/// Appends the four times, and the time between two of them.
fn push_json_times(text: &mut String, exchange: &LastExchange) -> Result<(), AllocError>
    ensures { OnOk result (string_bytes text.new ≡ string_bytes text.old ++ json_times exchange.now) }
{
    write!(
        text,
        ",\"t1\":\"{}\",\"t2\":\"{}\",\"t2_to_t3\":\"{}\",\"t3\":\"{}\",\"t4\":\"{}\"",
        Moment(exchange.t1),
        Moment(exchange.t2),
        between(exchange),
        Moment(exchange.t3),
        Moment(exchange.t4)
    )
}

/// Appends what ends the JSON of a measurement.
fn push_json_tags(text: &mut String, measured: &Measurement<'_>) -> Result<(), AllocError>
    ensures { OnOk result (string_bytes text.new ≡ string_bytes text.old ++ json_tags (measured_of measured.now)) }
{
    let Measurement { time, report, .. } = *measured;
    write!(
        text,
        ",\"tags\":[{},{},{},{}],\"time\":\"{time}\"}}\n",
        report.sync_tag,
        Follow(report.follow_tag),
        report.request_tag,
        report.response_tag
    )
}

/// Appends a measurement with its exchange as JSON, in one line. Times are in seconds, and corrections in nanoseconds, with all the
/// decimals that they have.
pub(crate) fn push_json(
    text: &mut String,
    measured: &Measurement<'_>,
    exchange: &LastExchange,
) -> Result<(), AllocError>
    ensures { OnOk result (string_bytes text.new ≡ string_bytes text.old ++ json_text (measured_of measured.now) exchange.now) }
{
    push_json_results(text, measured, exchange)?;
    push_json_times(text, exchange)?;
    push_json_tags(text, measured)
}

/// The head of the table, a line.
pub(crate) fn table_head() -> &'static str
    ensures { result.now ≡ table_head }
{
    "time,offset_ns,path_ns,by,line,t1_s,t2_s,t3_s,t4_s,sync_correction_ns,delay_correction_ns,sync_number,request_number,t2_to_t3_ns\n"
}

/// Appends what begins the row of a measurement.
fn push_row_results(text: &mut String, measured: &Measurement<'_>) -> Result<(), AllocError>
    ensures { OnOk result (string_bytes text.new ≡ string_bytes text.old ++ row_results (measured_of measured.now)) }
{
    let Measurement {
        line,
        time,
        report,
        ..
    } = *measured;
    write!(
        text,
        "{time},{},{},{},{line}",
        Nanoseconds(report.offset2),
        Nanoseconds(report.path2),
        measured.by()
    )
}

/// Appends the four times of a row.
fn push_row_times(text: &mut String, exchange: &LastExchange) -> Result<(), AllocError>
    ensures { OnOk result (string_bytes text.new ≡ string_bytes text.old ++ row_times exchange.now) }
{
    write!(
        text,
        ",{},{},{},{}",
        Moment(exchange.t1),
        Moment(exchange.t2),
        Moment(exchange.t3),
        Moment(exchange.t4)
    )
}

/// Appends the corrections and the numbers of a row.
fn push_row_numbers(text: &mut String, exchange: &LastExchange) -> Result<(), AllocError>
    ensures { OnOk result (string_bytes text.new ≡ string_bytes text.old ++ row_numbers exchange.now) }
{
    write!(
        text,
        ",{},{},{},{},{}\n",
        sync_correction(exchange),
        delay_correction(exchange),
        exchange.sync_number.0,
        exchange.request_number.0,
        between(exchange)
    )
}

/// Appends a measurement with its exchange as a row of the table.
pub(crate) fn push_row(
    text: &mut String,
    measured: &Measurement<'_>,
    exchange: &LastExchange,
) -> Result<(), AllocError>
    ensures { OnOk result (string_bytes text.new ≡ string_bytes text.old ++ row_text (measured_of measured.now) exchange.now) }
{
    push_row_results(text, measured)?;
    push_row_times(text, exchange)?;
    push_row_numbers(text, exchange)
}
