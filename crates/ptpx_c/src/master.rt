ghost use Rattle.std.specs.Prelude.{◌≡◌, ◌≢◌, ◌≤◌, ◌<◌, MatchResult, true, false, Some, None};
ghost use Rattle.ptp_units.specs.Moment.{bound};
ghost use Rattle.ptp_units.specs.Sequence.{next};
ghost use Rattle.event_codec.specs.Packet.{Packet};
ghost use Rattle.event_codec.specs.Reading.{Reading, IsReading};
ghost use Rattle.master_port.specs.Port.{new_port};
ghost use Rattle.master_port.specs.Written.{sync, one_step_sync, follow_up};
ghost use Rattle.ptpx_c.specs.Words.{units_of};
ghost use Rattle.ptpx_c.specs.Masters.{config_of, port_of, IsAnswered};

use crate::message::RawPortIdentity;
use crate::words::RawTime;
use event_codec::PortConfig;
use master_port::{MasterPort, MasterRefusal, follow_up};
use ptp_units::Seq;

/// What a port is set up with.
#[repr(C)]
#[derive(Clone, Copy)]
pub struct RawPortConfig {
    /// portIdentity.
    pub identity: RawPortIdentity,
    /// domainNumber.
    pub domain: u8,
    /// logMessageInterval of what the port writes as a master; a slave uses it nowhere.
    pub log: i8,
}

impl RawPortConfig {
    /// The same for the crates.
    pub(crate) fn config(self) -> PortConfig
        ensures { result ≡ config_of self }
    {
        PortConfig {
            identity: self.identity.identity(),
            domain: self.domain,
            log: self.log,
        }
    }
}

/// All that a master port keeps.
#[repr(C)]
#[derive(Clone, Copy)]
pub struct RawMaster {
    /// What it was set up with.
    pub config: RawPortConfig,
    /// The sequenceId of the next Sync.
    pub next: u16,
    /// The sequenceId of the two-step Sync that waits for its departure time, where one waits.
    pub waiting: u16,
    /// Whether one waits.
    pub waits: bool,
    /// Whether the port was made: the header's calls refuse one that wasn't.
    pub made: bool,
}

impl RawMaster {
    /// A port of the same configuration that draws `number` next.
    fn port(&self, number: u16) -> MasterPort
        ensures { result ≡ new_port (config_of self.now.config) number }
    {
        MasterPort::new(self.config.config(), Seq(number))
    }
}

/// Makes a master port that begins its numbering at `first`; no Sync waits.
#[unsafe(no_mangle)]
pub extern "C" fn ptpx_raw_master_init(master: &mut RawMaster, config: &RawPortConfig, first: u16)
    ensures port { port_of master.new ≡ new_port (config_of config.now) first }
    ensures made { master.new.made ≡ true }
{
    *master = RawMaster {
        config: *config,
        next: first,
        waiting: 0,
        waits: false,
        made: true,
    };
}

/// Draws a number: the octets of its two-step Sync, and the number. From now on that Sync is the one that waits to be
/// told when it departed; one that was waiting is given up.
#[unsafe(no_mangle)]
pub extern "C" fn ptpx_raw_master_next_sync(
    master: &mut RawMaster,
    octets: &mut [u8; 44],
    number: &mut u16,
)
    ensures octets { Packet (sync (config_of master.old.config) master.old.next) octets.new }
    ensures number { number.new ≡ master.old.next }
    ensures port { port_of master.new ≡ record (port_of master.old) {
      next = next master.old.next;
      waiting = Some master.old.next;
    } }
    ensures made { master.new.made ≡ master.old.made }
{
    let drawn = Seq(master.next);
    let (written, _) = master.port(drawn.0).next_sync();
    *octets = written;
    *number = drawn.0;
    master.next = drawn.next().0;
    master.waiting = drawn.0;
    master.waits = true;
}

/// Draws a number from the same pool: the octets of its one-step Sync, which leaves at `t1`, and the number. A Sync
/// that was waiting goes on waiting. Refused with 101 where `t1` is no moment; nothing changes then.
#[unsafe(no_mangle)]
pub extern "C" fn ptpx_raw_master_one_step_sync(
    master: &mut RawMaster,
    t1: RawTime,
    octets: &mut [u8; 44],
    number: &mut u16,
) -> u16
    ensures octets { units_of t1 < bound → Packet
        (one_step_sync (config_of master.old.config) master.old.next (units_of t1)) octets.new }
    ensures port { units_of t1 < bound → (result ≡ 0) × (number.new ≡ master.old.next)
        × (port_of master.new ≡ record (port_of master.old) { next = next master.old.next }) }
    ensures refused { bound ≤ units_of t1 → (result ≡ 101) × (octets.new ≡ octets.old) × (number.new ≡ number.old)
        × (master.new ≡ master.old) }
    ensures made { master.new.made ≡ master.old.made }
{
    let moment = match t1.moment() {
        Ok(moment) => moment,
        Err(refusal) => return refusal.code(),
    };
    let drawn = Seq(master.next);
    let (written, _) = master.port(drawn.0).one_step_sync(moment);
    *octets = written;
    *number = drawn.0;
    master.next = drawn.next().0;
    0
}

/// The octets of the Follow_Up of the waiting Sync, which left at `t1`; no Sync waits then. Refused with 101 where
/// `t1` is no moment, else with 301 where no Sync of this number waits; nothing changes then.
#[unsafe(no_mangle)]
pub extern "C" fn ptpx_raw_master_sync_left(
    master: &mut RawMaster,
    number: u16,
    t1: RawTime,
    octets: &mut [u8; 44],
) -> u16
    ensures left { units_of t1 < bound → (port_of master.old).waiting ≡ Some number → (result ≡ 0)
        × Packet (follow_up (config_of master.old.config) number (units_of t1)) octets.new
        × (port_of master.new ≡ record (port_of master.old) { waiting = None }) }
    ensures not_waiting { units_of t1 < bound → (port_of master.old).waiting ≢ Some number → (result ≡ 301)
        × (octets.new ≡ octets.old) × (master.new ≡ master.old) }
    ensures refused { bound ≤ units_of t1 → (result ≡ 101) × (octets.new ≡ octets.old) × (master.new ≡ master.old) }
    ensures made { master.new.made ≡ master.old.made }
{
    let moment = match t1.moment() {
        Ok(moment) => moment,
        Err(refusal) => return refusal.code(),
    };
    if !master.waits || master.waiting != number {
        return MasterRefusal::NotWaiting.code();
    }
    *octets = follow_up(&master.config.config(), Seq(number), moment).octets();
    master.waits = false;
    0
}

/// The octets of the Delay_Resp to a Delay_Req that arrived at `t4`. Refused with 101 where `t4` is no moment, else
/// with the first of 302 to 305 that applies; `response` stays then.
#[unsafe(no_mangle)]
pub extern "C" fn ptpx_raw_master_delay_req(
    master: &RawMaster,
    octets: &[u8],
    t4: RawTime,
    response: &mut [u8; 54],
) -> u16
    ensures answered { units_of t4 < bound → (said : Reading) → IsReading octets.now said
        → IsAnswered (config_of master.now.config) said (units_of t4) result response.old response.new }
    ensures refused { bound ≤ units_of t4 → (result ≡ 101) × (response.new ≡ response.old) }
{
    let moment = match t4.moment() {
        Ok(moment) => moment,
        Err(refusal) => return refusal.code(),
    };
    match master.port(master.next).delay_req(octets, moment) {
        Ok(written) => {
            *response = written;
            0
        }
        Err(refusal) => refusal.code(),
    }
}
