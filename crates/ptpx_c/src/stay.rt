ghost use Rattle.std.specs.Prelude.{◌≡◌, ◌≤◌, ◌<◌, ◌-◌, max, true, false, Ok};
ghost use Rattle.ptp_units.specs.Moment.{bound};
ghost use Rattle.ptp_units.specs.Interval.{with_residence};
ghost use Rattle.event_codec.specs.Packet.{Contents};
ghost use Rattle.event_codec.specs.Reading.{Reading, IsReading};
ghost use Rattle.event_codec.specs.Correction.{corrected};
ghost use Rattle.ptpx_c.specs.Words.{units_of};
ghost use Rattle.ptpx_c.specs.Stays.{IsForwarded};

use crate::refusal::InputRefusal;
use crate::words::RawTime;
use transparent_clock::enter;

/// A message's stay in a transparent clock, from its entry until it leaves.
#[repr(C)]
#[derive(Clone, Copy)]
pub struct RawStay {
    /// The clock's reading when the message entered.
    pub entered: RawTime,
    /// Whether the message is inside.
    pub inside: bool,
}

/// A message enters at this reading of the clock; whatever stayed here before is given up. Refused with 101 where the
/// reading is no moment; `stay` is as before then.
#[unsafe(no_mangle)]
pub extern "C" fn ptpx_raw_clock_enter(stay: &mut RawStay, reading: RawTime) -> u16
    ensures entered { units_of reading < bound
        → (result ≡ 0) × (stay.new ≡ record { entered = reading; inside = true }) }
    ensures refused { bound ≤ units_of reading → (result ≡ 101) × (stay.new ≡ stay.old) }
{
    if let Err(refusal) = reading.moment() {
        return refusal.code();
    }
    *stay = RawStay {
        entered: reading,
        inside: true,
    };
    0
}

/// The message leaves at this reading of the clock: the residence is added to octets 8 to 15 of its octets. Refused
/// with 905 where none is inside, else with 101 where a reading is no moment, and the stay is as before; else with
/// the first of 401 to 403 that applies, and the stay is over, as where the message leaves. On a refusal the octets
/// are unchanged, and aren't to be sent.
#[unsafe(no_mangle)]
pub extern "C" fn ptpx_raw_clock_leave(
    stay: &mut RawStay,
    octets: &mut [u8],
    reading: RawTime,
) -> u16
    ensures outside { stay.old.inside ≡ false → (result ≡ 905) × (stay.new ≡ stay.old) × (octets.new ≡ octets.old) }
    ensures no_moment { stay.old.inside ≡ true → bound ≤ max (units_of stay.old.entered) (units_of reading)
        → (result ≡ 101) × (stay.new ≡ stay.old) × (octets.new ≡ octets.old) }
    ensures over { stay.old.inside ≡ true → max (units_of stay.old.entered) (units_of reading) < bound
        → stay.new ≡ record stay.old { inside = false } }
    ensures forwarded { stay.old.inside ≡ true → max (units_of stay.old.entered) (units_of reading) < bound
        → (said : Reading) → IsReading octets.old said
        → IsForwarded said (units_of stay.old.entered) (units_of reading) result octets.old octets.new }
    // Octets 8 to 15 alone change.
    ensures alone { (m : Contents) → IsReading octets.old (Ok m) → result ≡ 0
        → octets.new ≡ corrected octets.old
        (with_residence m.header.correction.0 (units_of reading - units_of stay.old.entered)) }
{
    if !stay.inside {
        return InputRefusal::LeftAlready.code();
    }
    let (entered, left) = match (stay.entered.moment(), reading.moment()) {
        (Ok(entered), Ok(left)) => (entered, left),
        (Err(refusal), _) | (_, Err(refusal)) => return refusal.code(),
    };
    stay.inside = false;
    match enter(entered).leave(octets, left) {
        Ok(()) => 0,
        Err(refusal) => refusal.code(),
    }
}
