//! What is kept of lines beside what judges them, so that a report that is refused can be explained.

ghost use Rattle.std.specs.Prelude.{◌≡◌, ◌≤◌, ℕ, List, OnOk, length, option_map, reverse};
ghost use Rattle.network_model.specs.Network.{Network};
ghost use Rattle.exchange_check.specs.Evidence.{Evidences, IsWithLine, unbegun, octets_at, uncounted_at};
ghost use Rattle.exchange_check.specs.Evidence.{wrong_reading_at, second_leave_of};
ghost use Rattle.exchange_check.specs.Transcript.{Transcript};
ghost use Rattle.event_codec.specs.Packet.{Packet};
ghost use Rattle.event_codec.specs.Profile.{contents_of};
ghost use Rattle.exchange_check.specs.Inner.Machine.{facts_of};
ghost use Rattle.exchange_check.specs.Inner.Telling.{message_at_by};
ghost use Rattle.exchange_check.specs.Inner.Noting.{IsMadeAt, IsWrittenAs};

use crate::checker::Checker;
use crate::exceptions::{Exceptions, copied};
use crate::kept::Kept;
use crate::kept_line::{Uncounted, WrongReading};
use crate::refusal::CheckFault;
use arrayvec::ArrayVec;
use event_codec::{PortMessage, encode};
use network_model::Nodes;
use std::alloc::Global;
use trace_model::TraceLine;

/// What a checker doesn't keep of lines, since it judges without it. Only what is out of the ordinary takes memory here:
/// lines that don't count, readings and octets that aren't right, stays that were left twice, journeys that stop or
/// on which a message tells otherwise.
#[derive(Drop)]
pub struct Evidence {
    pub(crate) exceptions: Exceptions,
}

impl Evidence {
    /// Evidence of no lines.
    pub fn new(alloc: Global) -> Evidence
        ensures { (network : Network) → Evidences result (unbegun network) }
    {
        Evidence {
            exceptions: Exceptions::new(alloc),
        }
    }

    /// Notes a line, the last that this checker was fed; what was noted before are to be the lines before it. Refused
    /// with 709 where there was no room: of the line a part may then be noted, and this is of no more use.
    pub fn note(&mut self, checker: &Checker, line: &TraceLine) -> Result<(), CheckFault>
        ensures { OnOk result ((before : Transcript) → IsWithLine before line.now checker.now → Evidences self.old before
            → Evidences self.new checker.now) }
    {
        let (nodes, kept) = checker.inside();
        self.exceptions.note(nodes, kept, line)
    }

    /// The line of this number, counted from 0, where it was noted and doesn't count.
    pub fn uncounted_at(&self, number: u64) -> Option<Uncounted>
        ensures { (noted : Transcript) → Evidences self.now noted
            → result ≡ uncounted_at noted.network (reverse noted.lines) number }
    {
        self.exceptions.uncounted.get(&number).copied()
    }

    /// The reading of the line of this number, where that counts, has a true moment, and its reading isn't there or
    /// isn't the one of its clock.
    pub fn wrong_reading_at(&self, number: u64) -> Option<WrongReading>
        ensures { (noted : Transcript) → Evidences self.now noted
            → result ≡ wrong_reading_at noted.network (reverse noted.lines) number }
    {
        self.exceptions.readings.get(&number).copied()
    }

    /// The second event that counts and by which a message left the clock that it entered by the event of this number.
    pub fn second_leave(&self, entered: u64) -> Option<u64>
        ensures { (noted : Transcript) → Evidences self.now noted
            → result ≡ second_leave_of noted.network entered (reverse noted.lines) }
    {
        self.exceptions.seconds.get(&entered).copied()
    }

    /// The octets of the message that the line of this number made, where it counts and made one.
    pub fn octets_at(&self, checker: &Checker, number: u64) -> Option<ArrayVec<u8, 54>>
        ensures { Evidences self.now checker.now → option_map (λ octets. octets.items) result
            ≡ octets_at checker.now.network (reverse checker.now.lines) number }
    {
        let (nodes, kept) = checker.inside();
        octets(&self.exceptions, nodes, kept, number)
    }
}

/// The octets of the message that the line of this number made, where it counts and made one.
pub(crate) fn octets(
    exceptions: &Exceptions,
    nodes: &Nodes,
    kept: &Kept,
    number: u64,
) -> Option<ArrayVec<u8, 54>>
    ensures { IsMadeAt nodes.now kept.now exceptions.now number (option_map (λ octets. octets.items) result) }
{
    if !kept.is_made_at(number) {
        return None;
    }
    match exceptions.octets.get(&number) {
        Some(octets) => Some(copied(octets)),
        None => written_at(nodes, kept, number),
    }
}

/// The octets of the message that the line of this number makes, where they are right.
fn written_at(nodes: &Nodes, kept: &Kept, number: u64) -> Option<ArrayVec<u8, 54>>
    ensures { IsWrittenAs (message_at_by nodes.now (facts_of kept.now) number)
        (option_map (λ octets. octets.items) result) }
{
    match kept.message_at(nodes, number) {
        Some(message) => Some(written(&message)),
        None => None,
    }
}

/// The octets of a message.
fn written(message: &PortMessage) -> ArrayVec<u8, 54>
    ensures { (b : List ℕ) → Packet (contents_of message.now) b → result.items ≡ b }
{
    let mut room = [0; 54];
    match encode(&message.message(), &mut room) {
        Ok(length) => filled(&room[..length]),
        Err(_) => ArrayVec::new(),
    }
}

/// These octets.
fn filled(octets: &[u8]) -> ArrayVec<u8, 54>
    requires { length octets.now ≤ 54 }
    ensures { result.items ≡ octets.now }
{
    let mut copy = ArrayVec::new();
    let _ = copy.try_extend_from_slice(octets);
    copy
}
