//! What breaks 703, in a sentence: which master the slave was told, of which one the Sync is, and which one answered.
ghost use Rattle.std.specs.Prelude.{◌≡◌, Some};
ghost use Rattle.explain_findings.specs.Known.{IsNoted, lines_of};
ghost use Rattle.explain_findings.specs.OtherMaster.{answered_at, answered_text, early_at, early_in, early_tag, early_text, master_at, master_in};
ghost use Rattle.explain_findings.specs.OtherMaster.{other_master_at, other_master_text, told_text};

use crate::heard::name_of;
use crate::known::{Known, Named, Port};
use crate::reported::Case;
use exchange_check::{Exchange, Part};
use network_model::{Event, Name};
use std::fmt;
use std::fmt::{Display, Formatter};

/// Which master a slave was told, and by which event; none where it was told none.
#[derive(Clone, Copy)]
pub struct ToldMaster(Option<(Name, Named)>);

/// The port that sent the Sync, and the event by which the Delay_Req was answered.
#[derive(Clone, Copy)]
pub struct Answered(Option<(Port, Named)>);

/// A message that came before the event of this number.
#[derive(Clone, Copy)]
pub struct Early(Option<(Part, Named, u64)>);

/// What breaks 703.
#[derive(Clone, Copy)]
pub struct OtherMaster {
    slave: Port,
    told: ToldMaster,
    answered: Answered,
    early: Early,
}

impl Display for ToldMaster {
    ghost output = { λ told. Some (told_text told.0) };

    fn fmt<W: fmt::Write>(&self, f: &mut Formatter<W>) -> fmt::Result {
        match &self.0 {
            Some((master, by)) => write!(f, "the master {} by {by}", master.text()),
            None => f.write_str("no master"),
        }
    }
}

impl Display for Answered {
    ghost output = { λ answered. Some (answered_text answered.0) };

    fn fmt<W: fmt::Write>(&self, f: &mut Formatter<W>) -> fmt::Result {
        match &self.0 {
            Some((sender, answering)) => write!(
                f,
                "\n    the Sync is of {sender}; the Delay_Req was answered by {answering}"
            ),
            None => Ok(()),
        }
    }
}

impl Display for Early {
    ghost output = { λ early. Some (early_text early.0) };

    fn fmt<W: fmt::Write>(&self, f: &mut Formatter<W>) -> fmt::Result {
        match &self.0 {
            Some((part, named, set)) => write!(
                f,
                "\n    the {} of {named}, is earlier than event {set}",
                name_of(*part)
            ),
            None => Ok(()),
        }
    }
}

impl Display for OtherMaster {
    ghost output = { λ other. Some (other_master_text other) };

    fn fmt<W: fmt::Write>(&self, f: &mut Formatter<W>) -> fmt::Result {
        write!(
            f,
            "{}, was told {}{}{}",
            self.slave, self.told, self.answered, self.early
        )
    }
}

/// The master that an event tells, and this event.
fn master_in(event: Option<Event>, named: Named) -> Option<(Name, Named)>
    ensures { result ≡ master_in event named }
{
    match event {
        Some(event) => Some((event.named_master()?, named)),
        None => None,
    }
}

/// A message that came before an event, with the event of its tag.
fn early_in(early: Option<(Part, u64)>, named: Option<Named>) -> Option<(Part, Named, u64)>
    ensures { result ≡ early_in early named }
{
    match (early, named) {
        (Some((part, set)), Some(named)) => Some((part, named, set)),
        _ => None,
    }
}

impl Known<'_> {
    /// The last event that told a slave its master, and which one.
    fn told_master(&self, slave: &Name) -> Option<(Name, Named)>
        ensures { IsNoted self.now → result ≡ master_at (lines_of self.now) slave.now }
    {
        match self.checker.master_told(slave) {
            Some(told) => master_in(self.event_at(told), self.named(told)),
            None => None,
        }
    }

    /// The port that sent the Sync of an exchange, and the event by which the Delay_Req was answered.
    fn answered(&self, exchange: &Option<Exchange>) -> Option<(Port, Named)>
        ensures { IsNoted self.now → result ≡ answered_at (lines_of self.now) exchange.now }
    {
        match exchange {
            Some(exchange) => Some((
                self.port(exchange.sync.departed.event.node()),
                self.named(exchange.request.arrived.number),
            )),
            None => None,
        }
    }
}

impl Case<'_> {
    /// The message that came before the event of this number, where one did.
    fn early(&self, early: Option<(Part, u64)>) -> Option<(Part, Named, u64)>
        ensures { IsNoted self.now.known
            → result ≡ early_at (lines_of self.now.known) self.now.reported.now.report early }
    {
        early_in(early, self.known.named_if(self.early_tag(early)))
    }

    /// The tag of the message that came before an event.
    fn early_tag(&self, early: Option<(Part, u64)>) -> Option<u64>
        ensures { result ≡ early_tag self.now.reported.now.report early }
    {
        match early {
            Some((part, _)) => self.tag_of(part),
            None => None,
        }
    }

    /// Which master the slave was told, of which one the Sync is, which one answered, and which message came too early.
    pub(crate) fn other_master(&self, early: Option<(Part, u64)>) -> OtherMaster
        ensures { IsNoted self.now.known
            → result ≡ other_master_at (lines_of self.now.known) self.now.reported.now self.now.exchange.now early }
    {
        let (known, slave) = (self.known, self.reported.node);
        OtherMaster {
            slave: known.port(slave),
            told: ToldMaster(known.told_master(&slave)),
            answered: Answered(known.answered(self.exchange)),
            early: Early(self.early(early)),
        }
    }
}
