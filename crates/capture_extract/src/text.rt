//! The text of a table, and of what stands below it.
ghost use Rattle.std.specs.Prelude.{◌≡◌, ◌++◌, ◌∷◌, ℕ, IfOk, List, OnOk, Some, map, option_map};
ghost use Rattle.std.specs.Fmt.{decimal};
ghost use Rattle.std.specs.String.{string_bytes};
ghost use Rattle.datagram_text.specs.Shown.{identity_text};
ghost use Rattle.rounded_text.specs.Rounded.{milliseconds_text};
ghost use Rattle.capture_extract.specs.Cells.{interval_cell, or_dash, steps_cell};
ghost use Rattle.capture_extract.specs.Labels.{interface_at};
ghost use Rattle.capture_extract.specs.Layout.{heads};
ghost use Rattle.capture_extract.specs.Streams.{stream_text};
ghost use Rattle.capture_extract.specs.Table.{TableOf};
ghost use Rattle.capture_extract.specs.Text.{AreLines, IsTableText, ShowsRows, any_text, further_text, others_text, quantity_text};
ghost use Rattle.capture_extract.specs.Inner.Lines.{AreCells, output_or_dash, texts};
ghost use Rattle.capture_extract.specs.Inner.Rows.{IsTable, label_of};

use crate::calls::push_calls;
use crate::cells::{Line, cell, push_lines};
use crate::interfaces::Label;
use crate::message_type::MessageType;
use crate::row::{Correction, Row, RowKey, Time};
use crate::stream::OfStream;
use crate::table::{ROWS_MOST, Table};
use datagram_text::Identity;
use rounded_text::Milliseconds;
use statistics::{Signed, mean};
use std::alloc::{AllocError, Global};
use std::fmt;
use std::fmt::{Display, Formatter, Write};

/// A value, or a dash where there is none.
#[derive(Clone, Copy)]
struct OrDash<T>(Option<T>);

impl<T: Display> Display for OrDash<T> {
    ghost output = { λ value. output_or_dash T.output value.0 };

    fn fmt<W: fmt::Write>(&self, f: &mut Formatter<W>) -> fmt::Result {
        match &self.0 {
            Some(value) => write!(f, "{value}"),
            None => f.write_str("-"),
        }
    }
}

/// The names of a thing, of one and of others.
#[derive(Clone, Copy)]
struct Names {
    one: &'static str,
    others: &'static str,
}

/// So many of something.
#[derive(Clone, Copy)]
struct Quantity {
    count: u64,
    names: Names,
}

impl Display for Quantity {
    ghost output = { λ quantity. Some (quantity_text quantity.count quantity.names.one.now quantity.names.others.now) };

    fn fmt<W: fmt::Write>(&self, f: &mut Formatter<W>) -> fmt::Result {
        let name = if self.count == 1 {
            self.names.one
        } else {
            self.names.others
        };
        write!(f, "{} {name}", self.count)
    }
}

const MESSAGE: Names = Names {
    one: "message",
    others: "messages",
};

const DATAGRAM: Names = Names {
    one: "datagram",
    others: "datagrams",
};

/// What is said of datagrams that aren't in the table.
const OF_OTHER_VERSION: &str = " of another version than 2";

const TOO_SHORT: &str = " too short for a message";

/// How many messages would have made further rows, where there are any.
#[derive(Clone, Copy)]
struct Further(u64);

impl Display for Further {
    ghost output = { λ further. Some (further_text further.0) };

    fn fmt<W: fmt::Write>(&self, f: &mut Formatter<W>) -> fmt::Result {
        if self.0 == 0 {
            return Ok(());
        }
        let quantity = Quantity {
            count: self.0,
            names: MESSAGE,
        };
        write!(
            f,
            "{quantity} of further rows: the table has {} at most\n",
            ROWS_MOST
        )
    }
}

/// Appends how many of something there are, where there are any, and what is said of them.
fn push_any(text: &mut String, count: u64, names: Names, what: &str) -> Result<(), AllocError>
    ensures { OnOk result (string_bytes text.new
        ≡ string_bytes text.old ++ any_text count names.one.now names.others.now what.now) }
{
    if count == 0 {
        return Ok(());
    }
    write!(text, "{}{what}\n", Quantity { count, names })
}

/// A count, where twoStepFlag has a meaning in messages of this type.
fn steps(message: MessageType, count: u64) -> OrDash<u64>
    ensures { output_or_dash (λ n. Some (decimal n)) result.0 ≡ Some (steps_cell message count) }
{
    OrDash(message.has_steps().then_some(count))
}

/// The mean of intervals in milliseconds, if they have one.
fn interval(mean: Option<Signed>) -> OrDash<Milliseconds>
    ensures { output_or_dash (λ m. Some (milliseconds_text m.0)) result.0 ≡ Some (or_dash interval_cell mean) }
{
    match mean {
        Some(mean) => OrDash(Some(Milliseconds::of_thousandths(mean))),
        None => OrDash(None),
    }
}

/// Who is answered, if the messages of a row have such a field.
fn requesting(key: &RowKey) -> OrDash<Identity<'_>>
    ensures { output_or_dash (λ i. Some (identity_text i.0.now)) result.0 ≡ Some (or_dash identity_text key.now.requesting) }
{
    match &key.requesting {
        Some(requesting) => OrDash(Some(Identity(requesting))),
        None => OrDash(None),
    }
}

/// The stream of the messages of a row, if they were met at an interface.
fn stream(key: &RowKey) -> OrDash<OfStream>
    ensures { output_or_dash (λ s. Some (stream_text s.0)) result.0 ≡ Some (or_dash stream_text key.now.stream) }
{
    match key.stream {
        Some(stream) => OrDash(Some(OfStream(stream))),
        None => OrDash(None),
    }
}

/// The cells of a row at an interface.
fn line_of(
    alloc: Global,
    interface: Option<&Label>,
    key: &RowKey,
    row: &Row,
) -> Result<Line, AllocError>
    ensures { IfOk result (λ line. AreCells (option_map (λ label. label_of label.now) interface.entry) key.now row.now (texts line)) }
{
    let mean = mean(&row.flow.intervals);
    Ok(Line([
        cell(alloc, &OrDash(interface))?,
        cell(alloc, &stream(key))?,
        cell(alloc, &key.domain)?,
        cell(alloc, &Identity(&key.source))?,
        cell(alloc, &requesting(key))?,
        cell(alloc, &key.message)?,
        cell(alloc, &row.count)?,
        cell(alloc, &row.flow.missing())?,
        cell(alloc, &interval(mean))?,
        cell(alloc, &steps(key.message, row.one_step))?,
        cell(alloc, &steps(key.message, row.two_step))?,
        cell(alloc, &row.versions)?,
        cell(alloc, &Time(row.first))?,
        cell(alloc, &Time(row.last))?,
        cell(alloc, &Correction(row.least))?,
        cell(alloc, &Correction(row.greatest))?,
    ]))
}

impl Table {
    /// What the interface of a row is called.
    pub(crate) fn label(&self, key: &RowKey) -> Option<&Label>
        ensures { (t : TableOf) → IsTable t self.now
            → option_map (λ label. label_of label.now) result ≡ interface_at t.interfaces key.now.interface }
    {
        self.interfaces.get(key.interface?)
    }

    /// The head, and a line for each row.
    fn lines(&self, alloc: Global) -> Result<Vec<Line>, AllocError>
        ensures { (t : TableOf) → IsTable t self.now → IfOk result (λ lines. (rows : List (List (List ℕ)))
            × (map texts lines.items ≡ heads ∷ rows) × AreLines t.interfaces t.groups rows) }
    {
        let mut lines = Vec::new(alloc);
        lines.push(Line::heads(alloc)?)?;
        for (key, row) in &self.rows {
            lines.push(line_of(alloc, self.label(key), key, row)?)?;
        }
        Ok(lines)
    }

    /// Appends what isn't in the table.
    fn push_others(&self, text: &mut String) -> Result<(), AllocError>
        ensures { (t : TableOf) → IsTable t self.now
            → OnOk result (string_bytes text.new ≡ string_bytes text.old ++ others_text t) }
    {
        write!(text, "{}", Further(self.further))?;
        push_any(text, self.other_version, DATAGRAM, OF_OTHER_VERSION)?;
        push_any(text, self.too_short, DATAGRAM, TOO_SHORT)
    }

    /// The rows, and the calls below them; where there is no row, a sentence that says so.
    fn shown(&self, alloc: Global) -> Result<String, AllocError>
        ensures { (t : TableOf) → IsTable t self.now → IfOk result (λ text. ShowsRows t.groups t (string_bytes text)) }
    {
        let mut text = String::new(alloc);
        if self.rows.is_empty() {
            text.push_str("there is no message of PTP version 2\n")?;
            return Ok(text);
        }
        push_lines(&mut text, &self.lines(alloc)?)?;
        push_calls(&mut text, &self.calls(alloc)?)?;
        Ok(text)
    }

    /// The table, with the calls and with what isn't in it.
    pub(crate) fn text(&self, alloc: Global) -> Result<String, AllocError>
        ensures { (t : TableOf) → IsTable t self.now → IfOk result (λ text. IsTableText t (string_bytes text)) }
    {
        let mut text = self.shown(alloc)?;
        self.push_others(&mut text)?;
        Ok(text)
    }
}
