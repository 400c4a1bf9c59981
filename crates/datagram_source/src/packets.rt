//! A capture, each packet of which may carry a datagram.
ghost use Rattle.std.specs.Prelude.{◌≡◌, List, ℕ, Err, MatchResult};
ghost use Rattle.std.specs.Io.KnownBytes.{Appends};
ghost use Rattle.text_lines.specs.Counted.{device_of, HasNotFailed, HasFailedIf};
ghost use Rattle.text_lines.specs.Task.{WentOut};
ghost use Rattle.capture_file.specs.Packet.{packet_of};
ghost use Rattle.datagram_source.specs.Rules.{packet_rules, TakesPacket, StopsAtPacket};
ghost use Rattle.datagram_source.specs.Inner.Outcomes.{IsKept, IsEnded};

use crate::datagram::{Datagram, Place, message_in};
use crate::packet_counts::PacketCounts;
use crate::stamp::Stamp;
use crate::stream::Stream;
use crate::task::DatagramTask;
use capture_file::{Captured, Packet, PacketTask, is_asked};
use capture_frame::{Found, find_datagram, find_route};
use ptp_units::ScaledTime;
use std::io::Write;
use text_lines::Counted;

/// Gives the datagrams of packets to a task.
#[derive(Drop)]
pub(crate) struct PacketSource<'errors, T, E> {
    pub(crate) task: T,
    pub(crate) counts: PacketCounts,
    /// What can't be written here is lost.
    pub(crate) errors: &'errors mut E,
}

impl<T: DatagramTask, E: Write> PacketSource<'_, T, E> {
    /// Takes a packet, if it is of the interface that is asked for and carries a datagram. At a fault of the task it isn't counted.
    fn take_captured<W: Write>(
        &mut self,
        number: u64,
        captured: &Captured<'_>,
        output: &mut Counted<W>,
    ) -> Result<(), T::Fault>
        requires { (state : T.State) × T.is_at self.old.task state }
        ensures taken { (state : T.State) → T.is_at self.old.task state →
            let packet = packet_of (Packet.Captured captured.now) in
            let before = W.contents (device_of output.old) in
            let after = W.contents (device_of output.new) in
            MatchResult result
            (λ _. (later : T.State) × (written : List ℕ) × T.is_at self.new.task later
            × TakesPacket T.rules number packet state later written × Appends before after written)
            (λ what. (written : List ℕ) × StopsAtPacket T.rules number packet state what written
            × WentOut (T.rules.is_of_writer what) (Appends before after written)) }
        ensures kept { (what : T.Fault) → result ≡ Err what → IsKept T.rules T.is_at self.old.task self.new.task what }
        ensures failures { MatchResult result
            (λ _. HasNotFailed output.old output.new)
            (λ what. HasFailedIf (T.rules.is_of_writer what) output.old output.new) }
    {
        let asked = self.task.asked();
        if !is_asked(asked.as_ref(), &captured.interface) {
            self.counts.count_elsewhere(&captured.interface);
            return Ok(());
        }
        let found = find_datagram(captured.link, captured.octets);
        if let Found::Datagram(octets) = found {
            let datagram = Datagram {
                place: Place::Interface(
                    captured.interface,
                    Stream::new(find_route(captured.link, captured.octets), octets),
                ),
                number,
                time: ScaledTime::join(captured.time, 0),
                stamp: Stamp::Clock(captured.time),
                octets,
                said: message_in(octets),
                own: false,
            };
            self.task.take(&datagram, output, self.errors)?;
        }
        self.counts
            .count_captured(captured.time, captured.link, found);
        Ok(())
    }
}

impl<T: DatagramTask, E: Write> PacketTask for PacketSource<'_, T, E> {
    type Answer = u64;

    type Fault = T::Fault;

    ghost State = { T.State };

    ghost rules = { packet_rules T.rules };

    ghost is_at = { λ source. T.is_at source.task };

    ghost is_left = { λ old new what. IsKept T.rules T.is_at old.task new.task what };

    ghost is_ended = { λ old new. IsEnded T.rules T.is_at old.task new.task };

    fn take<W: Write>(
        &mut self,
        number: u64,
        packet: &Packet<'_>,
        output: &mut Counted<W>,
    ) -> Result<(), T::Fault> {
        match packet {
            Packet::Captured(captured) => self.take_captured(number, captured, output),
            Packet::Timeless => {
                self.counts.count_timeless();
                Ok(())
            }
            Packet::Simple => {
                self.counts.count_simple();
                Ok(())
            }
        }
    }

    /// How many packets there were.
    fn finish<W: Write>(&mut self, packets: u64, output: &mut Counted<W>) -> Result<u64, T::Fault> {
        self.task.finish(output, self.errors)?;
        Ok(packets)
    }
}
