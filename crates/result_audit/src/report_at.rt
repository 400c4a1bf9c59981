use recording_lines::Half;
use slave_port::{LastExchange, Report};

/// A report that was measured.
#[derive(Clone, Copy, Debug)]
pub struct ReportAt {
    /// Which half completed it.
    pub by: Half,
    /// The line or packet that did, counted from 1.
    pub line: u64,
    /// The two results, and the lines that they are of.
    pub report: Report,
    /// The exchange that it was made of.
    pub exchange: LastExchange,
}
