//! What is wrong with a line.
use crate::excerpt::Excerpt;
use crate::words::{Words, hint};
use line_object::Key;
use schedule_lines::{Part, Wanted};
use std::fmt;
use std::fmt::{Display, Formatter};

/// The form of a file's lines.
#[derive(Clone, Copy, Debug, PartialEq, Eq)]
pub enum FileForm {
    /// A schedule: nodes and events.
    Schedule,
    /// A transcript: nodes, and events with what came of them.
    Transcript,
}

/// What is wrong with a line, and what is wanted of it. Octets of the line stand as they are in it;
/// where those of a value can't be found, since its key has escapes, they are empty.
#[derive(Clone, Copy, Debug, PartialEq, Eq)]
pub enum Flaw<'a> {
    /// It isn't UTF-8: the first octet that belongs to no character, counted from 1.
    NoText {
        octet: usize,
    },
    /// It isn't JSON: the octet at which none goes on, counted from 1, and why, where that is known. Where
    /// the line ends too early, this is the octet after its last, and of a text without its closing quote
    /// that of its first quote.
    NoJson {
        octet: usize,
        hint: Option<&'static str>,
    },
    /// It is a JSON value other than an object.
    NoObject {
        found: &'a [u8],
    },
    /// It has neither `ev` nor `kind`, but may be a key near one.
    NoKind {
        near: Option<&'a [u8]>,
    },
    /// It lacks a key, but may have a key near it.
    Missing {
        key: Key,
        near: Option<&'a [u8]>,
    },
    /// A key's value isn't what is wanted.
    Wrong {
        key: Key,
        found: &'a [u8],
    },
    /// A part of a key's value isn't what is wanted.
    WrongPart {
        key: Key,
        part: Part,
        found: &'a [u8],
    },
    /// A key has no place in a line of this `ev` or `kind`, and of this `out`, where that decides. It is
    /// empty where each such key has escapes.
    TooMuch {
        key: &'a [u8],
        kind: &'a [u8],
        out: Option<&'a [u8]>,
    },
    /// An event of a schedule has what came of it.
    HasOutcome,
    /// An event of a transcript lacks what came of it.
    NoOutcome,
    /// A node comes after an event.
    NodeAfterEvent,
    /// An event of a transcript gives another number than its place among the events, from 0.
    OutOfPlace {
        number: u64,
        place: u64,
    },
}

impl Flaw<'_> {
    /// The octet of the line at which the flaw stands, counted from 1, where there is no key to name.
    pub fn octet(&self) -> Option<usize> {
        match self {
            Flaw::NoText { octet } | Flaw::NoJson { octet, .. } => Some(*octet),
            _ => None,
        }
    }
}

impl Display for FileForm {
    fn fmt<W: fmt::Write>(&self, f: &mut Formatter<W>) -> fmt::Result {
        f.write_str(match self {
            FileForm::Schedule => "schedule",
            FileForm::Transcript => "transcript",
        })
    }
}

/// A part in words, before and after the key.
fn part_words(part: Part) -> (&'static str, &'static str) {
    match part {
        Part::Seconds => ("the seconds of", "are"),
        Part::Nanoseconds => ("the nanoseconds of", "are"),
        Part::Fraction => ("the fraction of", "is"),
        Part::SyncTag => ("the Sync's tag in", "is"),
        Part::FollowTag => ("the Follow_Up's tag in", "is"),
        Part::RequestTag => ("the Delay_Req's tag in", "is"),
        Part::ResponseTag => ("the Delay_Resp's tag in", "is"),
    }
}

/// What stands at a key and what is wanted there.
fn write_wrong<W: fmt::Write>(
    f: &mut Formatter<W>,
    verb: &str,
    found: &[u8],
    wanted: Wanted,
) -> fmt::Result {
    match found {
        [] => write!(f, "{verb} something else")?,
        _ => write!(f, "{verb} {}", Excerpt(found))?,
    }
    write!(f, "; {}{}", Words(wanted), hint(wanted, found))
}

/// That a key is missing, and which stands near it.
fn write_missing<W: fmt::Write>(f: &mut Formatter<W>, near: Option<&[u8]>) -> fmt::Result {
    match near {
        Some(name) => write!(f, " is missing; there is {}", Excerpt(name)),
        None => f.write_str(" is missing"),
    }
}

/// That a key is missing, and what is wanted of it where none stands near it.
fn write_missing_key<W: fmt::Write>(
    f: &mut Formatter<W>,
    key: Key,
    near: Option<&[u8]>,
) -> fmt::Result {
    write!(f, "\"{}\"", key.text())?;
    write_missing(f, near)?;
    match near {
        Some(_) => Ok(()),
        None => write!(f, "; {}", Words(Wanted::of(key))),
    }
}

/// That a key has no place in a line of this `ev` or `kind`.
fn write_too_much<W: fmt::Write>(
    f: &mut Formatter<W>,
    key: &[u8],
    kind: &[u8],
    out: Option<&[u8]>,
) -> fmt::Result {
    match key {
        [] => f.write_str("a key with escapes is too much for ")?,
        _ => write!(f, "{} is a key too much for ", Excerpt(key))?,
    }
    write!(f, "{}", Excerpt(kind))?;
    match out {
        Some(out) => write!(f, " with \"out\" {}", Excerpt(out)),
        None => Ok(()),
    }
}

/// That an event's number isn't its place, and what that comes of.
fn write_out_of_place<W: fmt::Write>(f: &mut Formatter<W>, number: u64, place: u64) -> fmt::Result {
    let why = if number > place {
        "an event before it is missing"
    } else {
        "an event comes twice"
    };
    write!(
        f,
        "\"n\" is {number}; wanted is {place}, the place among the events from 0: {why}, or \"n\" is wrong"
    )
}

impl Display for Flaw<'_> {
    /// The sentence that stands after the line, the octet and a colon.
    fn fmt<W: fmt::Write>(&self, f: &mut Formatter<W>) -> fmt::Result {
        match self {
            Flaw::NoText { .. } => f.write_str("no UTF-8; wanted is the line in UTF-8"),
            Flaw::NoJson { hint, .. } => {
                write!(
                    f,
                    "no JSON: {}",
                    hint.unwrap_or("something that JSON doesn't have")
                )
            }
            Flaw::NoObject { found } => {
                write!(
                    f,
                    "it is {}; wanted is an object, in {{ and }}",
                    Excerpt(found)
                )
            }
            Flaw::NoKind { near } => {
                f.write_str("\"ev\" of an event or \"kind\" of a node")?;
                write_missing(f, *near)
            }
            Flaw::Missing { key, near } => write_missing_key(f, *key, *near),
            Flaw::Wrong { key, found } => {
                write!(f, "\"{}\" ", key.text())?;
                write_wrong(f, "is", found, Wanted::of(*key))
            }
            Flaw::WrongPart { key, part, found } => {
                let (words, verb) = part_words(*part);
                write!(f, "{words} \"{}\" ", key.text())?;
                write_wrong(f, verb, found, part.wanted())
            }
            Flaw::TooMuch { key, kind, out } => write_too_much(f, key, kind, *out),
            Flaw::HasOutcome => {
                f.write_str(
                    "an event with what came of it; wanted are the keys of a schedule alone",
                )
            }
            Flaw::NoOutcome => f.write_str(
                "an event without \"n\" and \"out\"; 'ptpx replay' makes a transcript of a schedule",
            ),
            Flaw::NodeAfterEvent => {
                f.write_str("a node after an event; wanted are all nodes before the first event")
            }
            Flaw::OutOfPlace { number, place } => write_out_of_place(f, *number, *place),
        }
    }
}

/// A flaw and the line where it stands, counted from 1.
#[derive(Clone, Copy, Debug, PartialEq, Eq)]
pub struct FlawAt<'a> {
    /// The line, counted from 1.
    pub line: u64,
    /// What is wrong with it.
    pub flaw: Flaw<'a>,
}

impl Display for FlawAt<'_> {
    fn fmt<W: fmt::Write>(&self, f: &mut Formatter<W>) -> fmt::Result {
        write!(f, "line {}", self.line)?;
        if let Some(octet) = self.flaw.octet() {
            write!(f, ", octet {octet}")?;
        }
        write!(f, ": {}", self.flaw)
    }
}
