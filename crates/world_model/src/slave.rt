ghost use Rattle.std.specs.Prelude.{ℕ, option_map, length};
ghost use Rattle.network_model.specs.Network.{NodeName};
ghost use Rattle.world_model.specs.Inner.Kept.{entries_of, HasRoom};
ghost use Rattle.world_model.specs.Inner.Acts.{SlaveActs, Nothing, Reads, IsCopy, IsNext, IsKind, shown_at};

use crate::entry::{Happened, Left, Octets};
use crate::events::Events;
use crate::station::{Answer, Departure, Slave, shown};
use network_model::{Event, NodeKind, Outcome, WorldRefusal};
use ptp_units::ScaledTime;

impl Slave {
    /// Is handed a message that arrives.
    pub(crate) fn arrive(
        &mut self,
        heard: Option<&[u8]>,
        at: ScaledTime,
        ahead: &i128,
        events: &Events,
    ) -> Answer
        ensures { (node : NodeName) (copy : ℕ) → SlaveActs (Event.Arrive node copy at)
            (λ network run. IsCopy copy (option_map (λ octets. octets.now) heard.entry) network run
            × Reads (Event.Arrive node copy at) (shown_at at ahead.now) network run × IsNext (length (entries_of events.now)) network run)
            self.old self.new (HasRoom events.now) result }
    {
        let Some(octets) = heard else {
            return Err(WorldRefusal::NoCopy);
        };
        let now = shown(at, ahead)?;
        events.room()?;
        Ok(Happened {
            reading: Some(now),
            outcome: Outcome::Heard(self.port.sync(octets, now, events.len())),
            left: Left::Nothing,
        })
    }

    /// Is handed a general message.
    pub(crate) fn hear(&mut self, heard: Option<&[u8]>, events: &Events) -> Answer
        ensures { (node : NodeName) (copy : ℕ) → SlaveActs (Event.Hear node copy)
            (λ network run. IsCopy copy (option_map (λ octets. octets.now) heard.entry) network run
            × IsNext (length (entries_of events.now)) network run)
            self.old self.new (HasRoom events.now) result }
    {
        let Some(octets) = heard else {
            return Err(WorldRefusal::NoCopy);
        };
        events.room()?;
        Ok(Happened {
            reading: None,
            outcome: Outcome::Heard(self.port.general(octets, events.len())),
            left: Left::Nothing,
        })
    }

    /// Draws a Delay_Req, which waits for its departure time from then on.
    pub(crate) fn request(&mut self, at: ScaledTime, ahead: &i128, events: &Events) -> Answer
        ensures { (node : NodeName) → SlaveActs (Event.Request node at)
            (λ network run. Reads (Event.Request node at) (shown_at at ahead.now) network run
            × IsNext (length (entries_of events.now)) network run) self.old self.new (HasRoom events.now) result }
    {
        let now = shown(at, ahead)?;
        events.room()?;
        let (octets, number) = self.port.next_request(events.len());
        self.waiting = Some(Departure { number, at: now });
        Ok(Happened {
            reading: Some(now),
            outcome: Outcome::Made,
            left: Left::Copy(Octets::Short(octets)),
        })
    }

    /// Learns when the Delay_Req that waits for it departed.
    pub(crate) fn stamped(&mut self, events: &Events) -> Answer
        ensures { (node : NodeName) → SlaveActs (Event.Stamped node) Nothing self.old self.new (HasRoom events.now) result }
    {
        let Some(request) = self.waiting else {
            return Err(WorldRefusal::NothingWaiting);
        };
        events.room()?;
        self.waiting = None;
        let outcome = match self.port.request_left(request.number, request.at) {
            Ok(()) => Outcome::Done,
            Err(refusal) => Outcome::Refused(refusal.code()),
        };
        Ok(Happened {
            reading: None,
            outcome,
            left: Left::Nothing,
        })
    }

    /// Its hold timer runs out.
    pub(crate) fn tick(&mut self, events: &Events) -> Answer
        ensures { (node : NodeName) → SlaveActs (Event.Tick node) Nothing self.old self.new (HasRoom events.now) result }
    {
        events.room()?;
        self.port.tick();
        Ok(Happened {
            reading: None,
            outcome: Outcome::Done,
            left: Left::Nothing,
        })
    }

    /// Is told its present master, which has to be one.
    pub(crate) fn set_master(&mut self, other: NodeKind, events: &Events) -> Answer
        ensures { (node master : NodeName) → SlaveActs (Event.SetMaster node master)
            (IsKind master other) self.old self.new (HasRoom events.now) result }
    {
        let NodeKind::Master { config, .. } = other else {
            return Err(WorldRefusal::WrongKind);
        };
        events.room()?;
        self.port.set_master(config.identity);
        Ok(Happened {
            reading: None,
            outcome: Outcome::Done,
            left: Left::Nothing,
        })
    }
}
