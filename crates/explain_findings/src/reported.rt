//! A report of a transcript, and the transcript up to it.

use crate::known::Known;
use exchange_check::{Exchange, Judgement};
use network_model::{Name, Report};
use std::alloc::Global;

/// A report of a transcript, and what it is judged to be.
#[derive(Debug, Drop)]
pub struct Reported {
    /// The line of the input, counted from 1.
    pub line: u64,
    /// The event's place among the events, from 0.
    pub event: u64,
    /// The slave.
    pub node: Name,
    /// Its report.
    pub report: Report,
    /// What the report is judged to be.
    pub judgement: Judgement,
}

/// A report against which reasons stand, and the transcript up to it.
#[derive(Clone, Copy)]
pub struct Case<'a> {
    /// Where texts get memory.
    pub alloc: Global,
    /// The transcript.
    pub known: Known<'a>,
    /// The report.
    pub reported: &'a Reported,
    /// Its lines; none where 701 or 704 stands.
    pub exchange: &'a Option<Exchange>,
}
