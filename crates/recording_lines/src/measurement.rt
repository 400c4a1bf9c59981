ghost use Rattle.std.specs.Prelude.{◌≡◌, ◌++◌, OnOk, Some};
ghost use Rattle.std.specs.String.{string_bytes};
ghost use Rattle.recording_lines.specs.Measurement.{measured_of, by_text, follow_text, json_text, table_head, row_text};

use ptp_units::Nanoseconds;
use slave_port::Report;
use std::alloc::AllocError;
use std::fmt;
use std::fmt::{Display, Formatter};

/// Which half completed a report.
#[derive(Clone, Copy, Debug, PartialEq, Eq)]
pub enum Half {
    /// A Sync, or its Follow_Up.
    Sync,
    /// A Delay_Resp.
    Response,
}

/// Which half completed a report, and by whose reading: shown as `sync`, or as `own sync`.
#[derive(Clone, Copy)]
pub struct By {
    /// Which half.
    pub half: Half,
    /// Whether a slave read it, and told so; else it was captured.
    pub own: bool,
}

impl Display for By {
    ghost output = { λ by. Some (by_text by.own by.half) };

    fn fmt<W: fmt::Write>(&self, f: &mut Formatter<W>) -> fmt::Result {
        f.write_str(match (self.own, self.half) {
            (false, Half::Sync) => "sync",
            (false, Half::Response) => "response",
            (true, Half::Sync) => "own sync",
            (true, Half::Response) => "own response",
        })
    }
}

/// A report, whose tags are numbers of lines.
#[derive(Clone, Copy, Debug)]
pub struct Measurement<'a> {
    /// Which half completed it.
    pub by: Half,
    /// Whether it is of a slave's own readings.
    pub own: bool,
    /// The line that did.
    pub line: u64,
    /// The time of that line, as it stands there.
    pub time: &'a str,
    /// The two results, and the lines that they are of.
    pub report: Report,
}

impl Measurement<'_> {
    /// Which half completed it, and by whose reading.
    pub fn by(&self) -> By
        ensures { result ≡ record { half = self.now.by; own = self.now.own } }
    {
        By {
            half: self.by,
            own: self.own,
        }
    }
}

/// The line of a Follow_Up, or null.
#[derive(Clone, Copy)]
struct Follow(Option<u64>);

impl Display for Follow {
    ghost output = { λ follow. Some (follow_text follow.0) };

    fn fmt<W: fmt::Write>(&self, f: &mut Formatter<W>) -> fmt::Result {
        match self.0 {
            Some(line) => write!(f, "{line}"),
            None => f.write_str("null"),
        }
    }
}

/// Appends a measurement as JSON, in one line.
pub fn push_json(text: &mut String, measured: &Measurement<'_>) -> Result<(), AllocError>
    ensures { OnOk result (string_bytes text.new ≡ string_bytes text.old ++ json_text (measured_of measured.now)) }
{
    let Measurement {
        line,
        time,
        report,
        ..
    } = *measured;
    write!(
        text,
        "{{\"by\":\"{}\",\"line\":{line},\"offset\":\"{}\",\"offset2\":\"{}\"",
        measured.by(),
        Nanoseconds(report.offset2),
        report.offset2
    )?;
    write!(
        text,
        ",\"path\":\"{}\",\"path2\":\"{}\",\"tags\":[{},{},{},{}],\"time\":\"{time}\"}}\n",
        Nanoseconds(report.path2),
        report.path2,
        report.sync_tag,
        Follow(report.follow_tag),
        report.request_tag,
        report.response_tag
    )
}

/// The head of the table, a line.
pub fn table_head() -> &'static str
    ensures { result.now ≡ table_head }
{
    "time,offset_ns,path_ns,by,line\n"
}

/// Appends a measurement as a row of the table.
pub fn push_row(text: &mut String, measured: &Measurement<'_>) -> Result<(), AllocError>
    ensures { OnOk result (string_bytes text.new ≡ string_bytes text.old ++ row_text (measured_of measured.now)) }
{
    let Measurement {
        line,
        time,
        report,
        ..
    } = *measured;
    write!(
        text,
        "{time},{},{},{},{line}\n",
        Nanoseconds(report.offset2),
        Nanoseconds(report.path2),
        measured.by()
    )
}
