ghost use Rattle.std.specs.Prelude.{◌≡◌, ◌-◌, MatchResult, OnErr, OnOk};
ghost use Rattle.ptp_units.specs.Interval.{with_residence};
ghost use Rattle.event_codec.specs.Packet.{Contents, contents};
ghost use Rattle.event_codec.specs.Reading.{Reading, IsReading};
ghost use Rattle.event_codec.specs.Correction.{corrected, with_correction};
ghost use Rattle.transparent_clock.specs.Forwarding.{forwarded};

use crate::refusal::ClockRefusal;
use event_codec::{Body, Message, decode, patch_correction};
use ptp_units::{Interval, ScaledTime};
use std::marker::Model;

/// A message inside the clock, seen as the clock's reading when it entered. It leaves once, or it is
/// dropped with its message, which then never left.
#[derive(Debug, Drop)]
pub struct Transit {
    entered: ScaledTime,
}

impl Model for Transit {
    ghost use Rattle.std.specs.Prelude.{ℕ};

    ghost Value = { ℕ };

    ghost view = { λ t. t.entered };
}

/// A message enters at this reading of the clock.
pub fn enter(reading: ScaledTime) -> Transit
    ensures { result ≡ reading }
{
    Transit { entered: reading }
}

impl Transit {
    /// The message leaves at this reading of the clock: the residence is added to octets 8 to 15 of
    /// its octets. Refused with the first of 401 to 403 that applies; the octets are then unchanged
    /// and aren't to be sent. The transit is spent either way.
    #[tactic(auto, using(crate::proofs::Leaving::leaving))]
    pub fn leave(self, octets: &mut [u8], reading: ScaledTime) -> Result<(), ClockRefusal>
        // What the octets said decides, and tells what they say now.
        ensures forwarded { (said : Reading) → IsReading octets.old said → MatchResult result
            (λ _. (m : Contents) × (forwarded said self reading ≡ Ok m) × IsReading octets.new (Ok m))
            (λ refusal. forwarded said self reading ≡ Err refusal) }
        // Octets 8 to 15 alone change.
        ensures alone { (m : Contents) → IsReading octets.old (Ok m)
            → OnOk result (octets.new ≡ corrected octets.old (with_residence m.header.correction.0 (reading - self))) }
        ensures unchanged { OnErr result (octets.new ≡ octets.old) }
    {
        let correction = match decode(octets) {
            Ok((message, _)) => self.correction(&message, reading)?,
            Err(refusal) => return Err(ClockRefusal::Decode(refusal)),
        };
        patch_correction(octets, correction);
        Ok(())
    }

    /// The correction with which a message leaves at this reading.
    fn correction(
        &self,
        message: &Message<'_>,
        reading: ScaledTime,
    ) -> Result<Interval, ClockRefusal>
        ensures { MatchResult result
            (λ correction. (forwarded (Ok (contents message.now)) self.now reading
            ≡ Ok (with_correction (contents message.now) correction))
            × (correction.0 ≡ with_residence message.now.header.correction.0 (reading - self.now)))
            (λ refusal. forwarded (Ok (contents message.now)) self.now reading ≡ Err refusal) }
    {
        let (Body::Sync { .. } | Body::DelayReq { .. }) = message.body else {
            return Err(ClockRefusal::NotEvent);
        };
        if reading < self.entered {
            return Err(ClockRefusal::NegativeResidence);
        }
        let residence = reading.value() - self.entered.value();
        Ok(message.header.correction.plus_residence(residence))
    }
}
