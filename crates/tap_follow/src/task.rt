//! What is done with datagrams that were met at taps.
ghost use Rattle.std.specs.Prelude.{◌≡◌, ◌≢◌, [], MatchResult};
ghost use Rattle.std.specs.String.{string_bytes};
ghost use Rattle.std.specs.Io.KnownBytes.{Appends};
ghost use Rattle.text_lines.specs.Counted.{device_of, HasNotFailed, HasFailedIf};
ghost use Rattle.datagram_source.specs.Datagram.{datagram_of};
ghost use Rattle.tap_follow.specs.Course.{Course, begun};
ghost use Rattle.tap_follow.specs.Held.{IsFollower};
ghost use Rattle.tap_follow.specs.Datagram.{met_in};
ghost use Rattle.tap_follow.specs.Fault.{is_write};
ghost use Rattle.tap_follow.specs.Rules.{follow_rules};
ghost use Rattle.tap_follow.specs.Inner.Taking.{ChangesAs};

use crate::fault::FollowFault;
use crate::follower::{Arrival, Follower};
use crate::following::Form;
use crate::tap::tap_met;
use crate::told::Told;
use capture_file::InterfaceName;
use datagram_source::{Datagram, DatagramTask, LineForm};
use std::alloc::Global;
use std::io::Write;
use tap_choice::{Met, Side, WantedTaps};
use text_lines::{Counted, LineFault, write_text};

/// Follows the messages of datagrams, and tells whose these are.
#[derive(Drop)]
pub(crate) struct Taking {
    pub(crate) follower: Follower,
    pub(crate) told: Told,
    /// What goes out of the last one, in the one text that all share.
    text: String,
}

impl Taking {
    /// Nothing was met.
    pub(crate) fn new(alloc: Global, wanted: &WantedTaps, form: Form) -> Taking
        ensures { IsFollower result.follower (begun form wanted.now) }
    {
        Taking {
            follower: Follower::new(alloc, form, wanted),
            told: Told::new(),
            text: String::new(alloc),
        }
    }

    /// Takes a datagram that was met at one of the two taps, and what is told of it goes out in one write. Whose messages are
    /// followed is told before, once that is known.
    fn take_at<W: Write, E: Write>(
        &mut self,
        side: Side,
        datagram: &Datagram<'_>,
        output: &mut Counted<W>,
        errors: &mut E,
    ) -> Result<(), FollowFault>
        ensures taken { (c : Course) → IsFollower self.old.follower c →
            ChangesAs result (met_in side (datagram_of datagram.now)) c self.new.follower
            (W.contents (device_of output.old)) (W.contents (device_of output.new)) }
        ensures failures { MatchResult result
            (λ _. HasNotFailed output.old output.new)
            (λ fault. HasFailedIf (is_write fault) output.old output.new) }
    {
        let Ok(message) = &datagram.said else {
            return Ok(());
        };
        let met = Met {
            side,
            line: datagram.number,
            time: datagram.time,
            header: message.header,
            body: message.body,
        };
        self.text.clear();
        self.follower.take(&met, &mut self.text)?;
        let _ = self.told.tell(&self.follower, errors);
        self.write(output)
    }

    /// Writes what is there to write, if anything is.
    fn write<W: Write>(&self, output: &mut Counted<W>) -> Result<(), FollowFault>
        ensures written { MatchResult result
            (λ _. Appends (W.contents (device_of output.old)) (W.contents (device_of output.new)) (string_bytes self.now.text))
            (λ fault. (fault ≡ FollowFault.Write) × (string_bytes self.now.text ≢ [])) }
        ensures failures { MatchResult result
            (λ _. HasNotFailed output.old output.new)
            (λ fault. HasFailedIf (is_write fault) output.old output.new) }
    {
        if self.text.is_empty() {
            return Ok(());
        }
        write_text(self.text.as_str(), output)
    }
}

impl DatagramTask for Taking {
    type Fault = FollowFault;

    ghost State = { Course };

    ghost rules = { follow_rules };

    ghost is_at = { λ taking. IsFollower taking.follower };

    fn subcommand() -> &'static str {
        "follow"
    }

    fn line_form() -> LineForm {
        LineForm::AtTaps
    }

    fn fault_of(fault: LineFault) -> FollowFault {
        match fault {
            LineFault::Write => FollowFault::Write,
            LineFault::Field => FollowFault::Field,
            LineFault::Memory => FollowFault::Memory,
        }
    }

    /// Packets of each interface are followed.
    fn asked(&self) -> Option<InterfaceName> {
        None
    }

    fn take<W: Write, E: Write>(
        &mut self,
        datagram: &Datagram<'_>,
        output: &mut Counted<W>,
        errors: &mut E,
    ) -> Result<(), FollowFault> {
        let Some(tap) = tap_met(&datagram.place) else {
            return Ok(());
        };
        self.told.meet(tap);
        match self.follower.arrive(tap) {
            Arrival::At(side) => self.take_at(side, datagram, output, errors),
            Arrival::Elsewhere => Ok(()),
            Arrival::Third => Err(FollowFault::ThirdTap(tap)),
        }
    }

    /// What is told at the end goes out.
    fn finish<W: Write, E: Write>(
        &mut self,
        output: &mut Counted<W>,
        errors: &mut E,
    ) -> Result<(), FollowFault> {
        self.text.clear();
        self.follower.finish(&mut self.text)?;
        let _ = self.told.tell(&self.follower, errors);
        self.write(output)
    }
}
