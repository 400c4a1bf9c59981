ghost use Rattle.std.specs.Prelude.{ℕ, Some, Result};
ghost use Rattle.std.specs.Result.{result_ok};
ghost use Rattle.std.specs.Prelude.{◌≡◌};
ghost use Rattle.event_codec.specs.Packet.{Contents, Packet};
ghost use Rattle.transparent_clock.specs.Forwarding.{forwarded};
ghost use Rattle.network_model.specs.Outcome.{left_outcome};
ghost use Rattle.world_model.specs.Inner.Stands.{listed, stay_at};
ghost use Rattle.world_model.specs.Inner.Acts.{IsSent, Gives, Departs, shown_at};
ghost use Rattle.world_model.specs.Inner.Kept.{entries_of, HasRoom};

use crate::entry::{Happened, Left, Octets};
use crate::events::Events;
use crate::station::{Answer, shown};
use network_model::{Outcome, WorldRefusal};
use ptp_units::ScaledTime;
use transparent_clock::{ClockRefusal, Transit, enter};

/// What comes of a message that a clock let go with these octets, or refused.
fn left_as(sent: Result<(), ClockRefusal>, octets: Octets, now: ScaledTime) -> Happened
    ensures { (message : Result Contents ClockRefusal) → IsSent message (listed octets) sent
        → Gives (Some now) (left_outcome message) (result_ok message) result }
{
    let reading = Some(now);
    match sent {
        Ok(()) => Happened {
            reading,
            outcome: Outcome::Made,
            left: Left::Copy(octets),
        },
        Err(refusal) => Happened {
            reading,
            outcome: Outcome::Refused(refusal.code()),
            left: Left::Nothing,
        },
    }
}

/// What comes of a message that leaves a clock now.
fn left(transit: Transit, octets: Octets, now: ScaledTime) -> Happened
    ensures { (m : Contents) → Packet m (listed octets) → let sent = forwarded (Ok m) transit now in
        Gives (Some now) (left_outcome sent) (result_ok sent) result }
{
    match octets {
        Octets::Short(mut octets) => {
            let sent = transit.leave(&mut octets, now);
            left_as(sent, Octets::Short(octets), now)
        }
        Octets::Long(mut octets) => {
            let sent = transit.leave(&mut octets, now);
            left_as(sent, Octets::Long(octets), now)
        }
    }
}

/// The message of these octets leaves its clock, which is so far ahead, at this true moment.
pub(crate) fn depart(
    transit: u64,
    octets: Octets,
    at: ScaledTime,
    ahead: &i128,
    events: &Events,
) -> Answer
    ensures { (m : Contents) (entered : ℕ) → Packet m (listed octets)
        → stay_at (entries_of events.now) transit ≡ Some entered
        → Departs m entered (shown_at at ahead.now) (HasRoom events.now) result }
{
    let now = shown(at, ahead)?;
    events.room()?;
    match events.entered(transit) {
        Some(entered) => Ok(left(enter(entered), octets, now)),
        None => Err(WorldRefusal::NoTransit),
    }
}
