//! What lines of schedules and transcripts are, and how they are written.

use crate::flaws::says_why;
use explain_flaws::{Flaw, schedule_flaw, transcript_flaw};
use json::Scratch;
use line_object::LineObject;
use line_writing::{push_event, push_node};
use schedule_lines::{Line, TranscriptLine};
use serde_json::Value;
use std::alloc::{AllocError, Global};
use std::str;

const NO_JSON: &str = "no JSON";

/// What a line of a schedule is, and whether it is said why where it is none.
pub(crate) fn of_schedule(alloc: Global, line: &[u8]) -> anyhow::Result<String> {
    let what = match Value::from_slice(alloc, line) {
        Ok(value) => match Line::of(&value) {
            Ok(Line::Node(_)) => "node",
            Ok(Line::Event(_)) => "event",
            Err(_) => "neither",
        },
        Err(_) => NO_JSON,
    };
    Ok(reasoned(alloc, what, schedule_flaw(alloc, line, 0)?)?)
}

/// The same of a line of a transcript.
pub(crate) fn of_transcript(alloc: Global, line: &[u8]) -> anyhow::Result<String> {
    let what = match Value::from_slice(alloc, line) {
        Ok(value) => match TranscriptLine::of(&value) {
            Ok(TranscriptLine::Node(_)) => "node",
            Ok(TranscriptLine::Event { .. }) => "event",
            Err(_) => "neither",
        },
        Err(_) => NO_JSON,
    };
    Ok(reasoned(alloc, what, transcript_flaw(alloc, line, 0)?)?)
}

/// Whether a line is read in place, or has its value read.
pub(crate) fn way_of_reading(alloc: Global, line: &[u8]) -> anyhow::Result<String> {
    let mut scratch = Scratch::new(alloc);
    let mut members = LineObject::new();
    let way = if members.parse(alloc, &mut scratch, str::from_utf8(line)?)? {
        "in place"
    } else {
        "by its value"
    };
    Ok(String::from_str(alloc, way)?)
}

fn reasoned(alloc: Global, what: &str, flaw: Option<Flaw<'_>>) -> Result<String, AllocError> {
    match flaw {
        None => String::from_str(alloc, what),
        Some(flaw) if says_why(&flaw) => format!(in alloc; "{what}, with a reason"),
        Some(_) => format!(in alloc; "{what}, without a reason"),
    }
}

/// A node, written again.
pub(crate) fn node_written(alloc: Global, line: &[u8]) -> anyhow::Result<String> {
    let value = Value::from_slice(alloc, line)?;
    let mut text = Vec::new(alloc);
    if let Ok(Line::Node(node)) = Line::of(&value) {
        push_node(&mut text, &node)?;
    }
    Ok(String::from_utf8(text)?)
}

/// An event of a transcript, written again.
pub(crate) fn event_written(alloc: Global, line: &[u8]) -> anyhow::Result<String> {
    let value = Value::from_slice(alloc, line)?;
    let mut text = Vec::new(alloc);
    if let Ok(TranscriptLine::Event { number, line }) = TranscriptLine::of(&value) {
        push_event(&mut text, number, &line)?;
    }
    Ok(String::from_utf8(text)?)
}
