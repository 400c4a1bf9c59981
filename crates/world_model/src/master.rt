ghost use Rattle.std.specs.Prelude.{ℕ, option_map};
ghost use Rattle.network_model.specs.Network.{NodeName};
ghost use Rattle.world_model.specs.Inner.Kept.{HasRoom};
ghost use Rattle.world_model.specs.Inner.Acts.{MasterActs, Nothing, Reads, IsCopy, shown_at};

use crate::entry::{Happened, Left, Octets};
use crate::events::Events;
use crate::station::{Answer, Departure, Master, shown};
use network_model::{Event, Outcome, WorldRefusal};
use ptp_units::ScaledTime;

impl Master {
    /// Draws a Sync, which waits for its Follow_Up from then on.
    pub(crate) fn sync(&mut self, at: ScaledTime, ahead: &i128, events: &Events) -> Answer
        ensures { (node : NodeName) → MasterActs (Event.Sync node at)
            (Reads (Event.Sync node at) (shown_at at ahead.now)) self.old self.new (HasRoom events.now) result }
    {
        let now = shown(at, ahead)?;
        events.room()?;
        let (octets, number) = self.port.next_sync();
        self.waiting = Some(Departure { number, at: now });
        Ok(Happened {
            reading: Some(now),
            outcome: Outcome::Made,
            left: Left::Copy(Octets::Short(octets)),
        })
    }

    /// Draws a one-step Sync.
    pub(crate) fn one_step_sync(&mut self, at: ScaledTime, ahead: &i128, events: &Events) -> Answer
        ensures { (node : NodeName) → MasterActs (Event.SyncOne node at)
            (Reads (Event.SyncOne node at) (shown_at at ahead.now)) self.old self.new (HasRoom events.now) result }
    {
        let now = shown(at, ahead)?;
        events.room()?;
        let (octets, _) = self.port.one_step_sync(now);
        Ok(Happened {
            reading: Some(now),
            outcome: Outcome::Made,
            left: Left::Copy(Octets::Short(octets)),
        })
    }

    /// Writes the Follow_Up of the Sync that waits for it.
    pub(crate) fn follow(&mut self, events: &Events) -> Answer
        ensures { (node : NodeName) → MasterActs (Event.Follow node) Nothing self.old self.new (HasRoom events.now) result }
    {
        let Some(sync) = self.waiting else {
            return Err(WorldRefusal::NothingWaiting);
        };
        events.room()?;
        let Ok(octets) = self.port.sync_left(sync.number, sync.at) else {
            return Err(WorldRefusal::NothingWaiting);
        };
        self.waiting = None;
        Ok(Happened {
            reading: None,
            outcome: Outcome::Made,
            left: Left::Copy(Octets::Short(octets)),
        })
    }

    /// Answers a message that arrives, where it is a Delay_Req of the master's domain.
    pub(crate) fn arrive(
        &self,
        heard: Option<&[u8]>,
        at: ScaledTime,
        ahead: &i128,
        events: &Events,
    ) -> Answer
        ensures { (node : NodeName) (copy : ℕ) → MasterActs (Event.Arrive node copy at)
            (λ network run. IsCopy copy (option_map (λ octets. octets.now) heard.entry) network run
            × Reads (Event.Arrive node copy at) (shown_at at ahead.now) network run)
            self.now self.now (HasRoom events.now) result }
    {
        let Some(octets) = heard else {
            return Err(WorldRefusal::NoCopy);
        };
        let now = shown(at, ahead)?;
        events.room()?;
        match self.port.delay_req(octets, now) {
            Ok(response) => {
                Ok(Happened {
                    reading: Some(now),
                    outcome: Outcome::Made,
                    left: Left::Copy(Octets::Long(response)),
                })
            }
            Err(refusal) => {
                Ok(Happened {
                    reading: Some(now),
                    outcome: Outcome::Refused(refusal.code()),
                    left: Left::Nothing,
                })
            }
        }
    }
}
