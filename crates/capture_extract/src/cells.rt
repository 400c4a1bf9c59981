//! Columns that are aligned with blanks.
ghost use Rattle.std.specs.Prelude.{◌≡◌, ◌<◌, ◌++◌, ℕ, IfOk, IfSome, List, OnOk, map};
ghost use Rattle.std.specs.String.{string_bytes};
ghost use Rattle.capture_extract.specs.Layout.{behind, blanks, columns_count, heads, layout_text, line_text, padded, width_of};
ghost use Rattle.capture_extract.specs.Inner.Lines.{AreWidths, texts};

use std::alloc::{AllocError, Global};
use std::fmt::Display;

/// At which side of its column a cell stands.
#[derive(Clone, Copy, PartialEq, Eq)]
enum Side {
    Left,
    Right,
}

/// How many columns there are.
const COLUMNS_COUNT: usize = 16;

/// Where the cells of each column stand: numbers at the right.
const SIDES: [Side; COLUMNS_COUNT] = [
    Side::Left,
    Side::Left,
    Side::Right,
    Side::Left,
    Side::Left,
    Side::Left,
    Side::Right,
    Side::Right,
    Side::Right,
    Side::Right,
    Side::Right,
    Side::Left,
    Side::Right,
    Side::Right,
    Side::Right,
    Side::Right,
];

/// The text of a cell.
pub(crate) fn cell<T: Display>(alloc: Global, value: &T) -> Result<String, AllocError>
    ensures { IfOk result (λ cell. IfSome (T.output value.now) (λ text. string_bytes cell ≡ text)) }
{
    format!(in alloc; "{value}")
}

/// Appends blanks.
fn push_blanks(text: &mut String, count: usize) -> Result<(), AllocError>
    ensures { OnOk result (string_bytes text.new ≡ string_bytes text.old ++ blanks count) }
{
    for _step in 0..count {
        text.push(' ')?;
    }
    Ok(())
}

/// Appends a cell of a column of this width.
fn push_cell(text: &mut String, side: Side, width: usize, cell: &str) -> Result<(), AllocError>
    ensures { OnOk result (string_bytes text.new ≡ string_bytes text.old ++ padded side width cell.now) }
{
    let blanks = width.saturating_sub(cell.len());
    match side {
        Side::Left => {
            text.push_str(cell)?;
            push_blanks(text, blanks)
        }
        Side::Right => {
            push_blanks(text, blanks)?;
            text.push_str(cell)
        }
    }
}

/// What stands behind a cell of a column.
fn behind(column: usize) -> &'static str
    requires { column < columns_count }
    ensures { result.now ≡ behind column }
{
    if column + 1 == COLUMNS_COUNT {
        "\n"
    } else {
        "  "
    }
}

/// The cells of a line, from the left.
#[derive(Drop)]
pub(crate) struct Line(pub(crate) [String; COLUMNS_COUNT]);

impl Line {
    /// The head of each column.
    pub(crate) fn heads(alloc: Global) -> Result<Line, AllocError>
        ensures { IfOk result (λ line. texts line ≡ heads) }
    {
        Ok(Line([
            String::from_str(alloc, "interface")?,
            String::from_str(alloc, "stream")?,
            String::from_str(alloc, "domain")?,
            String::from_str(alloc, "source")?,
            String::from_str(alloc, "requesting")?,
            String::from_str(alloc, "message")?,
            String::from_str(alloc, "count")?,
            String::from_str(alloc, "lost")?,
            String::from_str(alloc, "interval")?,
            String::from_str(alloc, "one-step")?,
            String::from_str(alloc, "two-step")?,
            String::from_str(alloc, "version")?,
            String::from_str(alloc, "first")?,
            String::from_str(alloc, "last")?,
            String::from_str(alloc, "correction ns")?,
            String::from_str(alloc, "up to ns")?,
        ]))
    }

    /// Appends the line, in columns of these widths.
    fn push_to(&self, text: &mut String, widths: &[usize; COLUMNS_COUNT]) -> Result<(), AllocError>
        ensures { (rows : List (List (List ℕ))) → AreWidths rows widths.now
            → OnOk result (string_bytes text.new ≡ string_bytes text.old ++ line_text rows (texts self.now)) }
    {
        for column in 0..COLUMNS_COUNT {
            push_cell(text, SIDES[column], widths[column], self.0[column].as_str())?;
            text.push_str(behind(column))?;
        }
        Ok(())
    }
}

/// The greatest length of the cells of a column.
fn width(lines: &[Line], column: usize) -> usize
    requires { column < columns_count }
    ensures { result ≡ width_of column (map texts lines.now) }
{
    let mut width = 0;
    for line in lines {
        width = line.0[column].len().max(width);
    }
    width
}

/// The width of each column.
fn widths(lines: &[Line]) -> [usize; COLUMNS_COUNT]
    ensures { AreWidths (map texts lines.now) result }
{
    let mut widths = [0; COLUMNS_COUNT];
    for column in 0..COLUMNS_COUNT {
        widths[column] = width(lines, column);
    }
    widths
}

/// Appends the lines.
pub(crate) fn push_lines(text: &mut String, lines: &[Line]) -> Result<(), AllocError>
    ensures { OnOk result (string_bytes text.new ≡ string_bytes text.old ++ layout_text (map texts lines.now)) }
{
    let widths = widths(lines);
    for line in lines {
        line.push_to(text, &widths)?;
    }
    Ok(())
}
