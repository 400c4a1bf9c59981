ghost use Rattle.std.specs.Prelude.{◌≡◌, ◌≤◌, ℕ, length, take};
ghost use Rattle.event_codec.specs.Packet.{Contents, Packet};
ghost use Rattle.event_codec.specs.Correction.{corrected, with_correction};

use ptp_units::Interval;

/// Puts the correctionField into octets 8 to 15 of 34 or more, and leaves all others as they are (IEEE
/// 1588-2019, 13.3.2.9).
pub fn patch_correction(octets: &mut [u8], correction: Interval)
    requires { 34 ≤ length octets.old }
    ensures patched { octets.new ≡ corrected octets.old correction.0 }
    // A message in front is then the same with this correction.
    ensures message { (m : Contents) (n : ℕ) → n ≤ length octets.old → Packet m (take n octets.old)
        → Packet (with_correction m correction) (take n octets.new) }
{
    octets[8..16].copy_from_slice(&correction.0.to_be_bytes());
}
