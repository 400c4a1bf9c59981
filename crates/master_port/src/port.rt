ghost use Rattle.std.specs.Prelude.{◌≡◌, ◌≢◌, MatchResult, IsOkAnd};
ghost use Rattle.ptp_units.specs.Sequence.{next};
ghost use Rattle.event_codec.specs.Packet.{Contents, Packet, contents};
ghost use Rattle.event_codec.specs.Reading.{Reading, IsReading};
ghost use Rattle.master_port.specs.Port.{new_port};
ghost use Rattle.master_port.specs.Written.{sync, one_step_sync, follow_up, answer};

use crate::refusal::MasterRefusal;
use crate::written::{delay_resp, follow_up, one_step_sync, sync};
use event_codec::{Body, Message, PortConfig, decode};
use ptp_units::{ScaledTime, Seq};
use std::marker::Model;

/// A master port, which sends two-step and one-step Syncs.
#[derive(Debug, Drop)]
pub struct MasterPort {
    config: PortConfig,
    next: Seq,
    waiting: Option<Seq>,
}

impl Model for MasterPort {
    ghost use Rattle.std.specs.Prelude.{option_map};
    ghost use Rattle.master_port.specs.Port.{Port};

    ghost Value = { Port };

    ghost view = { λ p. record {
      config = p.config;
      next = p.next.0;
      waiting = option_map (λ number. number.0) p.waiting;
    } };
}

impl MasterPort {
    /// A port that begins its numbering at `first`; no Sync waits.
    pub fn new(config: PortConfig, first: Seq) -> MasterPort
        ensures { result ≡ new_port config first.0 }
    {
        MasterPort {
            config,
            next: first,
            waiting: None,
        }
    }

    /// Draws a number: the octets of its two-step Sync, and the number. From now on that Sync is the one that
    /// waits to be told when it departed; one that was waiting is given up.
    pub fn next_sync(&mut self) -> ([u8; 44], Seq)
        ensures octets { Packet (sync self.old.config self.old.next) result.0 }
        ensures number { result.1.0 ≡ self.old.next }
        ensures port { self.new
            ≡ record { config = self.old.config; next = next self.old.next; waiting = Some self.old.next } }
    {
        let waiting = self.draw();
        self.waiting = Some(waiting);
        (sync(&self.config, waiting).octets(), waiting)
    }

    /// Draws a number from the same pool: the octets of its one-step Sync, which leaves at t1, and the
    /// number. It waits for nothing, and a Sync that was waiting goes on waiting.
    pub fn one_step_sync(&mut self, t1: ScaledTime) -> ([u8; 44], Seq)
        ensures octets { Packet (one_step_sync self.old.config self.old.next t1) result.0 }
        ensures number { result.1.0 ≡ self.old.next }
        ensures port { self.new ≡ record self.old { next = next self.old.next } }
    {
        let number = self.draw();
        (one_step_sync(&self.config, number, t1).octets(), number)
    }

    /// Draws the next number of the pool of Syncs.
    fn draw(&mut self) -> Seq
        ensures number { result.0 ≡ self.old.next }
        ensures port { self.new ≡ record self.old { next = next self.old.next } }
    {
        let number = self.next;
        self.next = number.next();
        number
    }

    /// The Follow_Up of the waiting Sync, which left at t1; no Sync waits then. Refused with 301
    /// where no Sync of this number waits.
    pub fn sync_left(&mut self, number: Seq, t1: ScaledTime) -> Result<[u8; 44], MasterRefusal>
        ensures left { self.old.waiting ≡ Some number.0 → IsOkAnd result (λ octets.
            Packet (follow_up self.old.config number.0 t1) octets
            × (self.new ≡ record self.old { waiting = None })) }
        ensures refused { self.old.waiting ≢ Some number.0 →
            (result ≡ Err MasterRefusal.NotWaiting) × (self.new ≡ self.old) }
    {
        if self.waiting != Some(number) {
            return Err(MasterRefusal::NotWaiting);
        }
        self.waiting = None;
        Ok(follow_up(&self.config, number, t1).octets())
    }

    /// The Delay_Resp to a Delay_Req that arrived at t4. Refused with the first of 302 to 305 that applies.
    #[tactic(auto, using(crate::proofs::Reading::answer_as_read))]
    pub fn delay_req(&self, octets: &[u8], t4: ScaledTime) -> Result<[u8; 54], MasterRefusal>
        // What the octets say decides.
        ensures { (said : Reading) → IsReading octets.now said → MatchResult result
            (λ written. (resp : Contents) × (answer self.now.config said t4 ≡ Ok resp) × Packet resp written)
            (λ refusal. answer self.now.config said t4 ≡ Err refusal) }
    {
        match decode(octets) {
            Ok((message, _)) => self.answer(&message, t4),
            Err(refusal) => Err(MasterRefusal::Decode(refusal)),
        }
    }

    /// The Delay_Resp to a message that arrived at t4.
    fn answer(&self, request: &Message<'_>, t4: ScaledTime) -> Result<[u8; 54], MasterRefusal>
        ensures { MatchResult result
            (λ written. (resp : Contents) × (answer self.now.config (Ok (contents request.now)) t4 ≡ Ok resp)
            × Packet resp written)
            (λ refusal. answer self.now.config (Ok (contents request.now)) t4 ≡ Err refusal) }
    {
        let Body::DelayReq { .. } = request.body else {
            return Err(MasterRefusal::NotRequest);
        };
        if request.header.domain != self.config.domain {
            return Err(MasterRefusal::OtherDomain);
        }
        Ok(delay_resp(&self.config, &request.header, t4)?.octets())
    }
}
