//! What is said of a result, as a line of JSON or as a row of a table.

ghost use Rattle.std.specs.Prelude.{◌≡◌, ◌++◌, Some, OnOk};
ghost use Rattle.std.specs.String.{string_bytes};
ghost use Rattle.result_audit.specs.Lines.{cell_text, word_text, tag_text, time_text, if_told, json_front, json_middle, json_tags, json_end, json_unfound, json_text};
ghost use Rattle.result_audit.specs.Lines.{table_head, row_front, row_rest, row_unfound, row_text};

use crate::answer::{Answer, Found};
use crate::told::Told;
use ptp_units::ScaledTime;
use result_verdict::{Difference, Verdict};
use slave_port::Report;
use std::alloc::AllocError;
use std::fmt;
use std::fmt::{Display, Formatter};

/// A number in quotes, or null; in a table without quotes, or nothing.
#[derive(Clone, Copy)]
struct Cell {
    is_table: bool,
    value: Option<Difference>,
}

impl Display for Cell {
    ghost output = { λ cell. Some (cell_text cell.is_table cell.value) };

    fn fmt<W: fmt::Write>(&self, f: &mut Formatter<W>) -> fmt::Result {
        match (self.is_table, &self.value) {
            (false, Some(value)) => write!(f, "\"{value}\""),
            (false, None) => f.write_str("null"),
            (true, Some(value)) => value.fmt(f),
            (true, None) => Ok(()),
        }
    }
}

/// A verdict in a word.
#[derive(Clone, Copy)]
struct Word(Option<Verdict>);

impl Display for Word {
    ghost output = { λ word. Some (word_text word.0) };

    fn fmt<W: fmt::Write>(&self, f: &mut Formatter<W>) -> fmt::Result {
        match &self.0 {
            Some(verdict) => verdict.fmt(f),
            None => f.write_str("unjudged"),
        }
    }
}

/// The line or packet of a message, or null.
#[derive(Clone, Copy)]
struct Tag(Option<u64>);

impl Display for Tag {
    ghost output = { λ tag. Some (tag_text tag.0) };

    fn fmt<W: fmt::Write>(&self, f: &mut Formatter<W>) -> fmt::Result {
        match self.0 {
            Some(line) => write!(f, "{line}"),
            None => f.write_str("null"),
        }
    }
}

/// A time in seconds with nine decimals.
#[derive(Clone, Copy)]
struct Time(ScaledTime);

impl Display for Time {
    ghost output = { λ time. Some (time_text time.0) };

    fn fmt<W: fmt::Write>(&self, f: &mut Formatter<W>) -> fmt::Result {
        let (stamp, _) = self.0.split();
        write!(f, "{}.{:09}", stamp.seconds(), stamp.nanos())
    }
}

/// What is said of a path delay, where one was told.
#[tactic(auto, unfolding(crate::specs::Lines::if_told))]
fn if_told(told: &Told, value: Difference) -> Option<Difference>
    ensures { result ≡ if_told told.now value }
{
    match told.path {
        Some(_) => Some(value),
        None => None,
    }
}

/// The path delay of a result, where one was told.
fn path_told(told: &Told) -> Option<Difference>
    ensures { result ≡ told.now.path }
{
    match told.path {
        Some(path) => Some(path.value()),
        None => None,
    }
}

/// Appends the numbers of a result whose Sync is known.
fn push_json_front(text: &mut String, told: &Told, found: &Found) -> Result<(), AllocError>
    ensures { OnOk result (string_bytes text.new ≡ string_bytes text.old ++ json_front told.now found.now) }
{
    let path_error = Cell {
        is_table: false,
        value: if_told(told, found.judged.path_error),
    };
    write!(
        text,
        "{{\"beyond\":\"{}\",\"line\":{},\"offset\":\"{}\",\"offset_error\":\"{}\",\"path\":{},\"path_error\":{path_error}",
        found.judged.beyond,
        found.at.line,
        told.offset,
        found.judged.offset_error,
        Cell {
            is_table: false,
            value: path_told(told)
        }
    )
}

/// Appends what follows these.
fn push_json_middle(text: &mut String, told: &Told, found: &Found) -> Result<(), AllocError>
    ensures { OnOk result (string_bytes text.new ≡ string_bytes text.old ++ json_middle told.now found.now) }
{
    let sum_error = Cell {
        is_table: false,
        value: if_told(told, found.judged.sum_error),
    };
    write!(
        text,
        ",\"path_is\":\"{}\",\"sequence\":{},\"sum_error\":{sum_error}",
        found.judged.path_is, found.at.exchange.sync_number.0
    )
}

/// Appends the lines or packets of the four messages.
fn push_json_tags(text: &mut String, report: &Report) -> Result<(), AllocError>
    ensures { OnOk result (string_bytes text.new ≡ string_bytes text.old ++ json_tags report.now) }
{
    write!(
        text,
        ",\"tags\":[{},{},{},{}]",
        report.sync_tag,
        Tag(report.follow_tag),
        report.request_tag,
        report.response_tag
    )
}

/// Appends what ends the line.
fn push_json_end(text: &mut String, answer: &Answer, found: &Found) -> Result<(), AllocError>
    ensures { OnOk result (string_bytes text.new ≡ string_bytes text.old ++ json_end answer.now found.now) }
{
    write!(
        text,
        ",\"time\":\"{}\",\"verdict\":\"{}\"}}\n",
        Time(found.at.exchange.t2),
        Word(answer.verdict)
    )
}

/// Appends what is said of a result of which no Sync is known.
fn push_json_unfound(text: &mut String, answer: &Answer) -> Result<(), AllocError>
    ensures { OnOk result (string_bytes text.new ≡ string_bytes text.old ++ json_unfound answer.now) }
{
    write!(
        text,
        "{{\"beyond\":null,\"line\":null,\"offset\":\"{}\",\"offset_error\":null,\"path\":{},\"path_error\":null,\"path_is\":null,\"sequence\":null,\"sum_error\":null,\"tags\":null,\"time\":null,\"verdict\":\"{}\"}}\n",
        answer.told.offset,
        Cell {
            is_table: false,
            value: path_told(&answer.told)
        },
        Word(answer.verdict)
    )
}

/// Appends what is said of a result as a line of JSON.
pub fn push_json(text: &mut String, answer: &Answer) -> Result<(), AllocError>
    ensures { OnOk result (string_bytes text.new ≡ string_bytes text.old ++ json_text answer.now) }
{
    match &answer.found {
        Some(found) => {
            push_json_front(text, &answer.told, found)?;
            push_json_middle(text, &answer.told, found)?;
            push_json_tags(text, &found.at.report)?;
            push_json_end(text, answer, found)
        }
        None => push_json_unfound(text, answer),
    }
}

/// What stands above the rows of a table.
pub fn table_head() -> &'static str
    ensures { result.now ≡ table_head }
{
    "beyond_ns,line,offset_ns,offset_error_ns,path_ns,path_error_ns,path_is,sequence,sum_error_ns,time,verdict\n"
}

/// Appends the numbers of a row whose Sync is known.
fn push_row_front(text: &mut String, told: &Told, found: &Found) -> Result<(), AllocError>
    ensures { OnOk result (string_bytes text.new ≡ string_bytes text.old ++ row_front told.now found.now) }
{
    let path_error = Cell {
        is_table: true,
        value: if_told(told, found.judged.path_error),
    };
    write!(
        text,
        "{},{},{},{},{},{path_error}",
        found.judged.beyond,
        found.at.line,
        told.offset,
        found.judged.offset_error,
        Cell {
            is_table: true,
            value: path_told(told)
        }
    )
}

/// Appends what follows these.
fn push_row_rest(text: &mut String, answer: &Answer, found: &Found) -> Result<(), AllocError>
    ensures { OnOk result (string_bytes text.new ≡ string_bytes text.old ++ row_rest answer.now found.now) }
{
    let sum_error = Cell {
        is_table: true,
        value: if_told(&answer.told, found.judged.sum_error),
    };
    write!(
        text,
        ",{},{},{sum_error},{},{}\n",
        found.judged.path_is,
        found.at.exchange.sync_number.0,
        Time(found.at.exchange.t2),
        Word(answer.verdict)
    )
}

/// Appends the row of a result of which no Sync is known.
fn push_row_unfound(text: &mut String, answer: &Answer) -> Result<(), AllocError>
    ensures { OnOk result (string_bytes text.new ≡ string_bytes text.old ++ row_unfound answer.now) }
{
    write!(
        text,
        ",,{},,{},,,,,,{}\n",
        answer.told.offset,
        Cell {
            is_table: true,
            value: path_told(&answer.told)
        },
        Word(answer.verdict)
    )
}

/// Appends what is said of a result as a row of the table.
pub fn push_row(text: &mut String, answer: &Answer) -> Result<(), AllocError>
    ensures { OnOk result (string_bytes text.new ≡ string_bytes text.old ++ row_text answer.now) }
{
    match &answer.found {
        Some(found) => {
            push_row_front(text, &answer.told, found)?;
            push_row_rest(text, answer, found)
        }
        None => push_row_unfound(text, answer),
    }
}
