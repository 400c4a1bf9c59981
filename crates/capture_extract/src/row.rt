//! A row of the table: messages of one kind.
ghost use Rattle.std.specs.Prelude.{◌≡◌, ◌<◌, List, [], ◌∷◌, Some, codes, if◌then◌else◌, length};
ghost use Rattle.std.specs.List.{list_any};
ghost use Rattle.std.specs.Int.{int_max, int_min};
ghost use Rattle.capture_extract.specs.declared.header.Listed.{Listed};
ghost use Rattle.datagram_text.specs.Shown.{stamp_text};
ghost use Rattle.capture_extract.specs.Cells.{correction_text, version_text, versions_text};
ghost use Rattle.capture_extract.specs.Row.{AreCounts, IsRow, is_far, is_two_step, sent_by};

use crate::header::Listed;
use crate::message_type::MessageType;
use datagram_source::Stream;
use event_codec::PortIdentity;
use ptp_units::{Interval, Nanoseconds, Seq, Timestamp};
use statistics::{Flow, Sent};
use std::fmt;
use std::fmt::{Display, Formatter};

/// What the messages of a row have in common.
///
/// Rows stand in the order of these fields: all that a port sends in a domain stands together. So one sees a master by its Sync,
/// Announce and Delay_Resp, and those whom it answers, and a slave by its Delay_Req.
#[derive(Clone, Copy, PartialEq, Eq, PartialOrd, Ord)]
pub(crate) struct RowKey {
    /// The interface, by its index, where the message was met at one.
    pub(crate) interface: Option<usize>,
    /// The stream, of those at the interface.
    pub(crate) stream: Option<Stream>,
    /// domainNumber.
    pub(crate) domain: u8,
    /// sourcePortIdentity.
    pub(crate) source: PortIdentity,
    /// messageType.
    pub(crate) message: MessageType,
    /// requestingPortIdentity, in the types that have one.
    pub(crate) requesting: Option<PortIdentity>,
}

/// Which minor versions were met.
#[derive(Clone, Copy)]
pub(crate) struct Versions {
    met: [bool; 16],
}

/// One of the minor versions, if it was met, with a comma where one was met before it.
#[derive(Clone, Copy)]
struct Version<'a> {
    met: &'a [bool],
    minor: usize,
    ghost within: { minor < length met.now },
}

/// Whether any of these versions was met.
fn is_any_met(before: &[bool]) -> bool
    ensures { result ≡ list_any (λ met. met) before.now }
{
    before.iter().any(|met| *met)
}

/// What stands before a version, behind those that were met.
fn separator(before: &[bool]) -> &'static str
    ensures { result.now ≡ (if list_any (λ met. met) before.now then codes "," else []) }
{
    if is_any_met(before) { "," } else { "" }
}

impl Display for Version<'_> {
    ghost output = { λ version. Some (version_text version.met.now version.minor) };

    fn fmt<W: fmt::Write>(&self, f: &mut Formatter<W>) -> fmt::Result {
        if !self.met[self.minor] {
            return Ok(());
        }
        write!(f, "{}2.{}", separator(&self.met[..self.minor]), self.minor)
    }
}

impl Display for Versions {
    ghost output = { λ versions. Some (versions_text 16 versions.met) };

    fn fmt<W: fmt::Write>(&self, f: &mut Formatter<W>) -> fmt::Result {
        for minor in 0..16 {
            write!(
                f,
                "{}",
                Version {
                    met: &self.met,
                    minor
                }
            )?;
        }
        Ok(())
    }
}

/// A correctionField in nanoseconds, exactly, or that it is too big (IEEE 1588-2019, 13.3.2.9).
#[derive(Clone, Copy)]
pub(crate) struct Correction(pub(crate) Interval);

impl Display for Correction {
    ghost output = { λ correction. Some (correction_text correction.0.0) };

    fn fmt<W: fmt::Write>(&self, f: &mut Formatter<W>) -> fmt::Result {
        match self.0.exact() {
            Some(units) => write!(f, "{}", Nanoseconds(2 * i128::from(units))),
            None => f.write_str("too big"),
        }
    }
}

/// A time: seconds, a point, and nine digits of nanoseconds.
#[derive(Clone, Copy)]
pub(crate) struct Time(pub(crate) Timestamp);

impl Display for Time {
    ghost output = { λ time. Some (stamp_text time.0) };

    fn fmt<W: fmt::Write>(&self, f: &mut Formatter<W>) -> fmt::Result {
        write!(f, "{}.{:09}", self.0.seconds(), self.0.nanos())
    }
}

/// How many numbers a message may be ahead of the one before, or behind it, in one life of its port.
const REACH: u16 = 256;

/// twoStepFlag in the first octet of flagField (IEEE 1588-2019, 13.3.2.8).
const TWO_STEP: u8 = 0x02;

/// The messages of a row. Counts stay at 2^64 - 1.
#[derive(Clone, Copy)]
pub(crate) struct Row {
    pub(crate) count: u64,
    pub(crate) one_step: u64,
    pub(crate) two_step: u64,
    pub(crate) versions: Versions,
    /// The time of the packet of the first, and of the last, as they stand in the capture.
    pub(crate) first: Timestamp,
    pub(crate) last: Timestamp,
    pub(crate) least: Interval,
    pub(crate) greatest: Interval,
    /// What their numbers and times tell, but for copies.
    pub(crate) flow: Flow,
}

/// Whether twoStepFlag is set.
fn is_two_step(listed: &Listed) -> bool
    ensures { result ≡ is_two_step listed.now }
{
    listed.header.flags[0] & TWO_STEP != 0
}

/// Whether a number is too far from another one to be of its port's same life.
fn is_far(number: Seq, newest: Seq) -> bool
    ensures { result ≡ is_far number.0 newest.0 }
{
    let ahead = number.0.wrapping_sub(newest.0);
    let behind = newest.0.wrapping_sub(number.0);
    ahead > REACH && behind > REACH
}

/// What the flow takes of a message: nothing of a copy of the newest one.
fn sent_by(listed: &Listed, newest: &Option<Sent>) -> Option<Sent>
    ensures { result ≡ sent_by listed.now newest.now }
{
    let number = listed.header.sequence;
    let begins = match newest {
        Some(newest) if newest.number == number => return None,
        Some(newest) => is_far(number, newest.number),
        None => false,
    };
    Some(Sent {
        line: listed.packet,
        number,
        time: listed.time,
        begins,
    })
}

/// The lesser of two.
fn lesser(one: Interval, other: Interval) -> Interval
    ensures { result.0 ≡ int_min one.0 other.0 }
{
    if other.0 < one.0 { other } else { one }
}

/// The greater of two; one that is too big is above all others.
fn greater(one: Interval, other: Interval) -> Interval
    ensures { result.0 ≡ int_max one.0 other.0 }
{
    if one.0 < other.0 { other } else { one }
}

impl Row {
    /// The row of one message.
    pub(crate) fn new(listed: &Listed) -> Row
        ensures { IsRow (listed.now ∷ []) result }
    {
        let (time, _) = listed.time.split();
        let correction = listed.header.correction;
        let mut row = Row {
            count: 0,
            one_step: 0,
            two_step: 0,
            versions: Versions { met: [false; 16] },
            first: time,
            last: time,
            least: correction,
            greatest: correction,
            flow: Flow::new(),
        };
        row.tally(listed);
        row
    }

    /// Counts one more message.
    pub(crate) fn count(&mut self, listed: &Listed)
        ensures { (ms : List Listed) → IsRow ms self.old → IsRow (listed.now ∷ ms) self.new }
    {
        let (last, _) = listed.time.split();
        let correction = listed.header.correction;
        self.last = last;
        self.least = lesser(self.least, correction);
        self.greatest = greater(self.greatest, correction);
        self.tally(listed);
    }

    /// Counts a message, of this step and version, and takes its number.
    fn tally(&mut self, listed: &Listed)
        ensures counts { (ms : List Listed) → AreCounts ms self.old → AreCounts (listed.now ∷ ms) self.new }
        ensures first { self.new.first ≡ self.old.first }
        ensures last { self.new.last ≡ self.old.last }
        ensures least { self.new.least ≡ self.old.least }
        ensures greatest { self.new.greatest ≡ self.old.greatest }
    {
        let is_two_step = is_two_step(listed);
        self.count = self.count.saturating_add(1);
        self.one_step = self.one_step.saturating_add(u64::from(!is_two_step));
        self.two_step = self.two_step.saturating_add(u64::from(is_two_step));
        self.versions.met[usize::from(listed.header.minor_version.value())] = true;
        let sent = sent_by(listed, &self.flow.newest);
        self.flow.take_some(sent);
    }
}
