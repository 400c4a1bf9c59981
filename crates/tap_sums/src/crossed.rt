ghost use Rattle.std.specs.Prelude.{◌≡◌, ◌++◌, ◌^◌, ◌+ℤ◌, ◌<ℤ◌, pos, negsuc, OnOk, Some};
ghost use Rattle.std.specs.String.{string_bytes};
ghost use Rattle.recording_lines.specs.Measurement.{follow_text};
ghost use Rattle.tap_crossing.specs.Crossing.{IsWithin};
ghost use Rattle.tap_sums.specs.Crossed.{crossed_of, kind_text, json_front, json_lines, json_back, json_text, table_head, row_text};

use ptp_units::Nanoseconds;
use std::alloc::AllocError;
use std::fmt;
use std::fmt::{Display, Formatter};
use tap_crossing::{Crossing, Kind};

/// A crossing, with what tells where and when it was.
#[derive(Clone, Copy)]
pub struct Crossed<'a> {
    /// The crossing.
    pub crossing: Crossing,
    /// The time of its event message at its first tap, as it stands there.
    pub time: &'a str,
    /// The name of the tap that a Sync meets first.
    pub from: &'a str,
    /// The name of the tap that a Delay_Req meets first.
    pub to: &'a str,
}

/// The name of a kind.
#[derive(Clone, Copy)]
pub(crate) struct KindName(pub(crate) Kind);

impl Display for KindName {
    ghost output = { λ name. Some (kind_text name.0) };

    fn fmt<W: fmt::Write>(&self, f: &mut Formatter<W>) -> fmt::Result {
        f.write_str(match self.0 {
            Kind::Sync => "sync",
            Kind::DelayReq => "delay_req",
        })
    }
}

/// The line of a message, or null where none is needed.
#[derive(Clone, Copy)]
struct Line(Option<u64>);

impl Display for Line {
    ghost output = { λ line. Some (follow_text line.0) };

    fn fmt<W: fmt::Write>(&self, f: &mut Formatter<W>) -> fmt::Result {
        match self.0 {
            Some(line) => write!(f, "{line}"),
            None => f.write_str("null"),
        }
    }
}

/// A number of units, which shows as nanoseconds.
pub(crate) fn nanoseconds(units: i128) -> Nanoseconds
    requires above { negsuc (2 ^ 102) <ℤ units }
    requires below { units <ℤ pos (2 ^ 102) }
    ensures { result.0 ≡ units +ℤ units }
{
    Nanoseconds(units + units)
}

/// Appends the first keys of a line of JSON.
fn push_front(text: &mut String, crossed: &Crossed<'_>) -> Result<(), AllocError>
    requires { IsWithin crossed.now.crossing }
    ensures { OnOk result (string_bytes text.new ≡ string_bytes text.old ++ json_front (crossed_of crossed.now)) }
{
    let Crossed { crossing, from, .. } = *crossed;
    write!(
        text,
        "{{\"corrected\":\"{}\",\"from\":\"{from}\",\"kind\":\"{}\"",
        nanoseconds(crossing.corrected),
        KindName(crossing.kind)
    )
}

/// Appends the lines of its messages.
fn push_lines(text: &mut String, crossed: &Crossed<'_>) -> Result<(), AllocError>
    ensures { OnOk result (string_bytes text.new ≡ string_bytes text.old ++ json_lines (crossed_of crossed.now)) }
{
    let Crossing {
        first_line,
        second_line,
        from_line,
        to_line,
        ..
    } = crossed.crossing;
    write!(
        text,
        ",\"lines\":[{first_line},{second_line},{},{}]",
        Line(from_line),
        Line(to_line)
    )
}

/// Appends its other keys.
fn push_back(text: &mut String, crossed: &Crossed<'_>) -> Result<(), AllocError>
    requires { IsWithin crossed.now.crossing }
    ensures { OnOk result (string_bytes text.new ≡ string_bytes text.old ++ json_back (crossed_of crossed.now)) }
{
    let Crossed {
        crossing,
        time,
        to,
        ..
    } = *crossed;
    write!(
        text,
        ",\"number\":{},\"rest\":\"{}\",\"taken\":\"{}\",\"time\":\"{time}\",\"to\":\"{to}\"}}\n",
        crossing.number.0,
        nanoseconds(crossing.rest),
        nanoseconds(crossing.taken)
    )
}

/// Appends a crossing as JSON, in one line.
pub fn push_json(text: &mut String, crossed: &Crossed<'_>) -> Result<(), AllocError>
    requires { IsWithin crossed.now.crossing }
    ensures { OnOk result (string_bytes text.new ≡ string_bytes text.old ++ json_text (crossed_of crossed.now)) }
{
    push_front(text, crossed)?;
    push_lines(text, crossed)?;
    push_back(text, crossed)
}

/// The head of the table, a line.
pub fn table_head() -> &'static str
    ensures { result.now ≡ table_head }
{
    "time,kind,number,taken_ns,corrected_ns,rest_ns\n"
}

/// Appends a crossing as a row of the table.
pub fn push_row(text: &mut String, crossed: &Crossed<'_>) -> Result<(), AllocError>
    requires { IsWithin crossed.now.crossing }
    ensures { OnOk result (string_bytes text.new ≡ string_bytes text.old ++ row_text (crossed_of crossed.now)) }
{
    let Crossed { crossing, time, .. } = *crossed;
    write!(
        text,
        "{time},{},{},{},{},{}\n",
        KindName(crossing.kind),
        crossing.number.0,
        nanoseconds(crossing.taken),
        nanoseconds(crossing.corrected),
        nanoseconds(crossing.rest)
    )
}
