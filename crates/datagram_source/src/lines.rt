//! Lines, each of which tells a time and a datagram, and maybe a tap.
ghost use Rattle.std.specs.Prelude.{◌≡◌, ◌≤◌, ◌+◌, ◌==◌, length, IfOk, MatchOption, MatchResult};
ghost use Rattle.std.specs.List.{position};
ghost use Rattle.text_lines.specs.Lines.{line_limit};
ghost use Rattle.datagram_source.specs.Datagram.{place_of, datagram_of, octets_limit, IsDatagramLine};
ghost use Rattle.datagram_source.specs.Unread.{NoDatagram, IsUnread};
ghost use Rattle.datagram_source.specs.Rules.{LinesRead, line_rules};
ghost use Rattle.datagram_source.specs.Inner.LineReading.{IsPlaced, NoPlace, NoOctets, HasOctets, IsLine};
ghost use Rattle.datagram_source.specs.Inner.Outcomes.{IsKept, IsEnded};

use crate::compressed::tell_compressed;
use crate::datagram::{Datagram, Place, message_in};
use crate::stamp::Stamp;
use crate::task::DatagramTask;
use recording_lines::{Timed, read_timed};
use std::io::Write;
use tap_choice::TapName;
use text_lines::{Counted, LINE_LIMIT, LineFault, LineTask};

/// The most octets of a datagram, which is written in two digits each.
pub const DATAGRAM_LIMIT: usize = LINE_LIMIT / 2;

/// Which of two forms lines have.
#[derive(Clone, Copy, Debug, PartialEq, Eq)]
pub enum LineForm {
    /// A time, a blank, and a datagram in hexadecimal.
    Timed,
    /// The name of a tap, a blank, and then a time, a blank, and a datagram in hexadecimal.
    AtTaps,
}

/// What a line begins with, and what stands behind it.
#[derive(Clone, Copy)]
struct Placed<'line> {
    place: Place<'line>,
    rest: &'line [u8],
}

/// The parts of a line.
#[derive(Clone, Copy)]
struct Line<'line> {
    place: Place<'line>,
    timed: Timed<'line>,
}

/// Where the first blank stands.
fn blank_in(line: &[u8]) -> Option<usize>
    ensures { result ≡ position (λ octet. octet == 32) line.now }
{
    line.iter().position(|octet| *octet == b' ')
}

/// The tap that a line begins with, and what stands behind the blank after it.
fn read_tap(line: &[u8]) -> Option<Placed<'_>>
    ensures { MatchOption result (NoPlace LineForm.AtTaps line.now)
        (λ read. IsPlaced LineForm.AtTaps line.now (place_of read.place) read.rest.now) }
{
    let Some(blank) = blank_in(line) else {
        return None;
    };
    match TapName::new(&line[..blank]) {
        Some(tap) => Some(Placed {
            place: Place::Tap(tap),
            rest: &line[blank + 1..],
        }),
        None => None,
    }
}

/// What stands before the time of a line of this form, and what begins with the time.
fn read_place(form: LineForm, line: &[u8]) -> Option<Placed<'_>>
    ensures { MatchOption result (NoPlace form line.now)
        (λ read. IsPlaced form line.now (place_of read.place) read.rest.now) }
{
    match form {
        LineForm::Timed => Some(Placed {
            place: Place::Line,
            rest: line,
        }),
        LineForm::AtTaps => read_tap(line),
    }
}

/// What stands behind the place: a time, a blank, and octets in hexadecimal, which come to stand at the front of the room.
fn read_octets<'line>(rest: &'line [u8], room: &mut [u8; DATAGRAM_LIMIT]) -> Option<Timed<'line>>
    requires { length rest.now ≤ line_limit }
    ensures { MatchOption result (NoOctets rest.now) (λ timed. HasOctets rest.now room.new timed) }
{
    let Some(timed) = read_timed(rest) else {
        return None;
    };
    let octets = &mut room[..timed.digits.len() / 2];
    match hex::decode_to_slice(timed.digits, octets) {
        Ok(()) => Some(timed),
        Err(_) => None,
    }
}

/// The parts of a line of this form, whose octets come to stand at the front of the room.
fn read_parts<'line>(
    form: LineForm,
    line: &'line [u8],
    room: &mut [u8; DATAGRAM_LIMIT],
) -> Option<Line<'line>>
    requires { length line.now ≤ line_limit }
    ensures { MatchOption result (NoDatagram form line.now) (λ read. IsLine form line.now room.new read) }
{
    let Some(placed) = read_place(form, line) else {
        return None;
    };
    match read_octets(placed.rest, room) {
        Some(timed) => Some(Line {
            place: placed.place,
            timed,
        }),
        None => None,
    }
}

/// Reads the line of this form after so many. A number that can't be counted would be want of memory: `lines_limit` comes before it.
pub fn read_datagram<'line>(
    form: LineForm,
    earlier: u64,
    line: &'line [u8],
    room: &'line mut [u8; DATAGRAM_LIMIT],
) -> Result<Datagram<'line>, LineFault>
    requires { length line.now ≤ line_limit }
    ensures read { MatchResult result
        (λ datagram. IsDatagramLine form (earlier + 1) line.now (datagram_of datagram))
        (λ fault. IsUnread fault form (earlier + 1) line.now) }
    ensures short { IfOk result (λ datagram. length datagram.octets.now ≤ octets_limit) }
{
    let Some(read) = read_parts(form, line, room) else {
        return Err(LineFault::Field);
    };
    let octets = &room[..read.timed.digits.len() / 2];
    let said = message_in(octets);
    match earlier.checked_add(1) {
        Some(number) => Ok(Datagram {
            place: read.place,
            number,
            time: read.timed.time,
            stamp: Stamp::Written(read.timed.text),
            octets,
            said,
            own: false,
        }),
        None => Err(LineFault::Memory),
    }
}

/// Gives the datagrams of lines to a task.
#[derive(Drop)]
pub(crate) struct LineSource<'errors, T, E> {
    pub(crate) task: T,
    /// How many lines were taken.
    pub(crate) count: u64,
    /// What can't be written here is lost.
    pub(crate) errors: &'errors mut E,
}

impl<T: DatagramTask, E: Write> LineTask for LineSource<'_, T, E> {
    type Answer = u64;

    type Fault = T::Fault;

    ghost State = { LinesRead T.State };

    ghost rules = { line_rules T.rules };

    ghost is_at = { λ source r. (source.count ≡ r.count) × T.is_at source.task r.state };

    ghost is_left = { λ old new what. IsKept T.rules T.is_at old.task new.task what };

    ghost is_ended = { λ old new. IsEnded T.rules T.is_at old.task new.task };

    fn lines_limit() -> u64 {
        u64::MAX - 1
    }

    fn take<W: Write>(&mut self, line: &[u8], output: &mut Counted<W>) -> Result<(), T::Fault> {
        tell_compressed(line, T::subcommand(), self.errors);
        let mut room = [0; DATAGRAM_LIMIT];
        match read_datagram(T::line_form(), self.count, line, &mut room) {
            Ok(datagram) => {
                self.task.take(&datagram, output, self.errors)?;
                self.count = datagram.number;
                Ok(())
            }
            Err(fault) => Err(T::fault_of(fault)),
        }
    }

    /// How many lines there were.
    fn finish<W: Write>(&mut self, lines: u64, output: &mut Counted<W>) -> Result<u64, T::Fault> {
        self.task.finish(output, self.errors)?;
        Ok(lines)
    }
}
