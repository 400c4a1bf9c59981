//! Lines that are read: those of schedules and those of transcripts.

mod asked;
mod fields;
mod schedule;
mod transcript;
mod value;

pub use schedule::Line;
pub use transcript::TranscriptLine;
pub use value::line_value;
