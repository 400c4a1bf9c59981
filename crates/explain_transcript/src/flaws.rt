//! The lines of an input that aren't what is asked for.
ghost use Rattle.std.specs.Prelude.{◌≡◌};

use crate::refusal::{Before, RefusedEvent, push_clash, push_refused};
use explain_flaws::{FileForm, Flaw, FlawAt, Foreign, schedule_flaw, transcript_flaw};
use explain_input::Input;
use network_model::WorldRefusal;
use schedule_lines::Line;
use schedule_reading::{TaskFault, read_entry};
use std::alloc::{AllocError, Global};
use world_model::obstacle_to;

/// The most lines whose flaw is told.
const TOLD_MOST: u64 = 20;

/// The first fault of an input.
#[derive(Clone, Copy)]
pub(crate) struct FirstFault {
    /// Its line, counted from 1.
    pub(crate) line: u64,
    /// What it is.
    pub(crate) what: TaskFault,
}

/// The first fault of an input, and what was seen of lines from there on.
#[derive(Clone, Copy)]
pub(crate) struct Flaws {
    pub(crate) first: FirstFault,
    seen: LinesSeen,
}

/// What was seen of the lines of an input from that of its first fault on.
#[derive(Clone, Copy)]
struct LinesSeen {
    /// Whether the input is of another kind, so that flaws of lines say nothing.
    foreign: bool,
    /// Whether the first line is empty, and nothing was told of it yet.
    empty: bool,
    /// What its lines are to be; none before its first event.
    form: Option<FileForm>,
    /// How many lines have a flaw.
    count: u64,
    /// The place that the next event is to have.
    events: u64,
    /// Another one that it may have, where the event before it gave another number than its place.
    or_at: Option<u64>,
    /// The last line that was looked at.
    last: u64,
}

impl Flaws {
    /// The first fault of an input is at this line, after what was read so far.
    pub(crate) fn new(line: u64, what: TaskFault, input: &Input) -> Flaws
        ensures { (result.first.line ≡ line) × (result.first.what ≡ what) }
    {
        Flaws {
            first: FirstFault { line, what },
            seen: LinesSeen::before(line, input),
        }
    }

    /// Appends what is wrong with the line of the first fault, or which kind of input begins with it.
    pub(crate) fn begin(
        &mut self,
        alloc: Global,
        before: Before<'_>,
        line: &[u8],
        text: &mut String,
    ) -> Result<(), AllocError>
        ensures { self.new.first ≡ self.old.first }
    {
        match self.first.what {
            TaskFault::World(why) => {
                self.seen
                    .refuse(alloc, self.first.line, before, why, line, text)
            }
            _ if self.first.line == 1 => self.seen.begin(alloc, line, text),
            _ => self.seen.look_at(alloc, self.first.line, line, text),
        }
    }

    /// Looks at a line after that of the first fault, and appends what is wrong with it.
    pub(crate) fn look(
        &mut self,
        alloc: Global,
        line: &[u8],
        text: &mut String,
    ) -> Result<(), AllocError>
        ensures { self.new.first ≡ self.old.first }
    {
        self.seen.look(alloc, line, text)
    }

    /// Whether the input is of another kind.
    pub(crate) fn is_foreign(&self) -> bool {
        self.seen.foreign
    }

    /// Appends a first line that is empty, where it wasn't told, and how many lines weren't.
    pub(crate) fn push_untold(&self, alloc: Global, text: &mut String) -> Result<(), AllocError> {
        self.seen.push_untold(alloc, text)
    }

    /// Appends how many lines weren't told, and from where on nothing was judged or happened.
    pub(crate) fn push_end(&self, alloc: Global, text: &mut String) -> Result<(), AllocError> {
        self.push_untold(alloc, text)?;
        let line = self.first.line;
        match (self.seen.foreign, self.seen.form) {
            (true, _) => Ok(()),
            (_, Some(FileForm::Schedule)) => write!(text, "no event happens from line {line} on\n"),
            _ => write!(text, "no report was judged from line {line} on\n"),
        }
    }
}

impl LinesSeen {
    /// None was seen but what was read before this line.
    fn before(line: u64, input: &Input) -> LinesSeen {
        let (form, events) = match input {
            Input::Transcript(transcript) => match transcript.events() {
                0 => (None, 0),
                events => (Some(FileForm::Transcript), events),
            },
            Input::Schedule(schedule) => (Some(FileForm::Schedule), schedule.len()),
        };
        LinesSeen {
            foreign: false,
            empty: false,
            form,
            count: 0,
            events,
            or_at: None,
            last: line,
        }
    }

    /// Looks at the first line of the input, which has the first fault, and appends what is wrong with it or of which kind
    /// the input is.
    fn begin(&mut self, alloc: Global, line: &[u8], text: &mut String) -> Result<(), AllocError> {
        self.empty = line.is_empty();
        match Foreign::of(line) {
            _ if self.empty => Ok(()),
            Some(kind) => self.tell_foreign(kind, text),
            None => self.look_at(alloc, 1, line, text),
        }
    }

    /// Appends why the network refuses the event of this line, or its nodes are no network.
    fn refuse(
        &mut self,
        alloc: Global,
        number: u64,
        before: Before<'_>,
        why: WorldRefusal,
        line: &[u8],
        text: &mut String,
    ) -> Result<(), AllocError> {
        self.see(line);
        self.pass(line);
        self.count = 1;
        if let WorldRefusal::SameName | WorldRefusal::SameIdentity = why {
            return push_clash(alloc, text, before.nodes, why);
        }
        // Events of a transcript are refused for nothing else.
        self.form = Some(FileForm::Schedule);
        match read_entry(alloc, line) {
            Ok(Line::Event(event)) => push_refused(
                text,
                &RefusedEvent {
                    before,
                    line: number,
                    event: &event,
                    why,
                    obstacle: obstacle_to(before.nodes, before.events, &event, why),
                },
            ),
            Err(TaskFault::Memory) => Err(AllocError),
            _ => write!(text, "line {number}: {}: {why}\n", why.code()),
        }
    }

    /// Appends that the input is of another kind.
    fn tell_foreign(&mut self, kind: Foreign, text: &mut String) -> Result<(), AllocError> {
        self.foreign = true;
        self.empty = false;
        push_foreign(text, kind)
    }

    /// Looks at the next line, and appends what is wrong with it.
    fn look(&mut self, alloc: Global, line: &[u8], text: &mut String) -> Result<(), AllocError> {
        self.last = self.last.saturating_add(1);
        if self.foreign {
            return Ok(());
        }
        if self.empty {
            if line.starts_with(b"\r".as_slice()) {
                return self.tell_foreign(Foreign::PcapNg, text);
            }
            self.look_at_empty(alloc, text)?;
        }
        self.look_at(alloc, self.last, line, text)
    }

    /// Appends what is wrong with a first line that is empty.
    fn look_at_empty(&mut self, alloc: Global, text: &mut String) -> Result<(), AllocError> {
        self.empty = false;
        self.look_at(alloc, 1, &[], text)
    }

    /// Appends what is wrong with a line.
    fn look_at(
        &mut self,
        alloc: Global,
        number: u64,
        line: &[u8],
        text: &mut String,
    ) -> Result<(), AllocError> {
        self.see(line);
        let flaw = match self.form {
            Some(FileForm::Schedule) => schedule_flaw(alloc, line, self.events)?,
            _ => transcript_flaw(alloc, line, self.events)?,
        };
        match flaw {
            Some(Flaw::NodeAfterEvent) => {}
            Some(Flaw::OutOfPlace { number, .. }) => {
                if self.pass_out_of_place(number) {
                    return Ok(());
                }
            }
            _ => self.pass(line),
        }
        let Some(flaw) = flaw else {
            return Ok(());
        };
        self.count = self.count.saturating_add(1);
        if self.count > TOLD_MOST {
            return Ok(());
        }
        write!(text, "{}\n", FlawAt { line: number, flaw })
    }

    /// Sees by the first event what the lines are to be: those of a transcript have what came of events.
    fn see(&mut self, line: &[u8]) {
        if self.form.is_some() || !has_key(line, b"\"ev\"") {
            return;
        }
        self.form = Some(if has_key(line, b"\"out\"") || has_key(line, b"\"n\"") {
            FileForm::Transcript
        } else {
            FileForm::Schedule
        });
    }

    /// Passes a line, which is an event's where it says so, or where an object begins in it and there was one.
    fn pass(&mut self, line: &[u8]) {
        let begins = line.contains(&b'{');
        if has_key(line, b"\"ev\"") || begins && (self.events > 0 || has_key(line, b"\"out\"")) {
            self.events = self.events.saturating_add(1);
            self.or_at = None;
        }
    }

    /// Passes an event of this number, which isn't its place. Answers whether it goes on where one before it gave a
    /// wrong number.
    fn pass_out_of_place(&mut self, number: u64) -> bool {
        let goes_on = self.or_at == Some(number);
        self.or_at = if goes_on {
            None
        } else {
            Some(self.events.saturating_add(1))
        };
        self.events = number.saturating_add(1);
        goes_on
    }

    /// Appends a first line that is empty, where it wasn't told, and how many lines weren't.
    fn push_untold(&self, alloc: Global, text: &mut String) -> Result<(), AllocError> {
        if self.empty {
            let mut lines = *self;
            lines.look_at_empty(alloc, text)?;
        }
        match self.count.checked_sub(TOLD_MOST) {
            None | Some(0) => Ok(()),
            Some(1) => text.push_str("and 1 line more\n"),
            Some(more) => write!(text, "and {more} lines more\n"),
        }
    }
}

/// Appends which other kind an input is of.
pub(crate) fn push_foreign(text: &mut String, kind: Foreign) -> Result<(), AllocError> {
    write!(text, "the input isn't lines of JSON, but {kind}\n")
}

/// Whether a line has this key somewhere, which is given in its quotes: it stands before a colon.
fn has_key(line: &[u8], key: &[u8]) -> bool {
    match key.len() {
        0 => true,
        length => line.windows(length).enumerate().any(|(at, octets)| octets == key
            && is_before_colon(line, at.saturating_add(length))),
    }
}

/// Whether what is left of a line from here on begins with a colon, after blanks.
fn is_before_colon(line: &[u8], at: usize) -> bool {
    match line.get(at..) {
        Some(rest) => rest.trim_ascii_start().starts_with(b":".as_slice()),
        None => false,
    }
}
