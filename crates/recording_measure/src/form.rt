//! How measurements are written.

ghost use Rattle.std.specs.Prelude.{◌≡◌};
ghost use Rattle.recording_measure.specs.Measure.{head_text};

use recording_lines::table_head;

/// How measurements are written.
#[derive(Clone, Copy)]
pub enum Form {
    /// JSON, one object a line.
    Json,
    /// Rows of a table, below its head, with commas between the columns.
    Table,
    /// JSON with the exchange that each was made of.
    FullJson,
    /// Rows of a table with the exchange that each was made of.
    FullTable,
    /// Not at all: what they come to is asked for.
    Sums,
    /// Not at all: whoever goes on with them is handed them.
    Completions,
}

impl Form {
    /// What stands above all measurements.
    pub(crate) fn head(self) -> &'static str
        ensures { result.now ≡ head_text self }
    {
        match self {
            Form::Json | Form::FullJson | Form::Sums | Form::Completions => "",
            Form::Table => table_head(),
            Form::FullTable => crate::exchange::table_head(),
        }
    }
}
