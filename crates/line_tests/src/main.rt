//! Answers rows of texts: what a line of a schedule or of a transcript is, whether it is read in place, what is said
//! of it, and how it is written again. `stdin` has the rows, one a line, and `stdout` what is owed for each, in the same line.
#![tactic(auto)]

mod flaws;
mod lines;
mod row;

use row::Row;
use std::alloc::Global;
use std::io::{BufRead, BufReader};

fn main(rt: HostRuntime) -> anyhow::Result<()> {
    let alloc = rt.alloc();
    for line in BufReader::new(alloc, rt.stdin())?.lines(alloc) {
        let line = line?;
        let text = match Row::of(alloc, line.as_str())? {
            Some(row) => answer(alloc, &row)?,
            None => line,
        };
        println!(rt; "{text}")?;
    }
    Ok(())
}

/// What comes of a row. Another first word than one of these is its own answer.
fn answer(alloc: Global, row: &Row) -> anyhow::Result<String> {
    let text = row.text.as_slice();
    match row.asks.as_str() {
        "schedule" => lines::of_schedule(alloc, text),
        "transcript" => lines::of_transcript(alloc, text),
        "way" => lines::way_of_reading(alloc, text),
        "node" => lines::node_written(alloc, text),
        "event" => lines::event_written(alloc, text),
        "said" => flaws::said(alloc, text, row.number()?),
        "told" => flaws::told(alloc, text, row.number()?),
        "cut" => flaws::of_beginnings(alloc, text),
        "foreign" => flaws::foreign(alloc, text),
        other => Ok(String::from_str(alloc, other)?),
    }
}
