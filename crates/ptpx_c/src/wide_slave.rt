ghost use Rattle.std.specs.Prelude.{◌≡◌, ◌≤◌, ◌<◌, IsSome, None};
ghost use Rattle.ptp_units.specs.Moment.{bound};
ghost use Rattle.event_codec.specs.Reading.{Reading, IsReading};
ghost use Rattle.slave_port.specs.History.{SetMaster, Tick, NextRequest, RequestLeft, Event, General};
ghost use Rattle.slave_port.specs.StandsFor.{StandsAfter};
ghost use Rattle.ptpx_c.specs.Words.{units_of};
ghost use Rattle.ptpx_c.specs.Messages.{identity_of};
ghost use Rattle.ptpx_c.specs.Masters.{config_of};
ghost use Rattle.ptpx_c.specs.Slaves.{wide_slaves, IsMade, Becomes, IsRestarted, IsRequested, IsNoted, IsHeard, IsLast};

use crate::exchange::{RawExchange, put_last};
use crate::heard::RawHeard;
use crate::master::RawPortConfig;
use crate::message::RawPortIdentity;
use crate::ring::WideRingSlave;
use crate::wide_handle::RawWideSlave;
use crate::words::RawTime;
use ptp_units::Seq;

/// Makes a slave port in the memory of the handle: it has no master and holds nothing, and its requests are numbered
/// from `first` on.
#[unsafe(no_mangle)]
pub extern "C" fn ptpx_raw_wide_slave_init(
    slave: &mut RawWideSlave,
    config: &RawPortConfig,
    first: u16,
)
    requires { slave.old.port ≡ None }
    ensures { IsMade wide_slaves (config_of config.now) first slave.old slave.new }
{
    slave.put(WideRingSlave::new(config.config(), Seq(first)));
}

/// As a new port of the same configuration, whose requests are numbered from `first` on: it has no master and holds
/// nothing.
#[unsafe(no_mangle)]
pub extern "C" fn ptpx_raw_wide_slave_restart(slave: &mut RawWideSlave, first: u16)
    requires { IsSome slave.old.port }
    ensures { Becomes wide_slaves slave.old slave.new (IsRestarted first) }
{
    let ring = slave.port();
    ring.port.restart(Seq(first));
}

/// From now on the present master is this one. Nothing that was held is kept, even where it was the master already.
#[unsafe(no_mangle)]
pub extern "C" fn ptpx_raw_wide_slave_set_master(slave: &mut RawWideSlave, master: &RawPortIdentity)
    requires { IsSome slave.old.port }
    ensures { Becomes wide_slaves slave.old slave.new (StandsAfter (SetMaster (identity_of master.now))) }
{
    let ring = slave.port();
    ring.port.set_master(master.identity());
}

/// Of what is held or completed beside requests, drops what came before the tick before this one.
#[unsafe(no_mangle)]
pub extern "C" fn ptpx_raw_wide_slave_tick(slave: &mut RawWideSlave)
    requires { IsSome slave.old.port }
    ensures { Becomes wide_slaves slave.old slave.new (StandsAfter Tick) }
{
    let ring = slave.port();
    ring.port.tick();
}

/// Draws a number: the octets of its Delay_Req, and the number. The request is held, and completes once it is known
/// when it left.
#[unsafe(no_mangle)]
pub extern "C" fn ptpx_raw_wide_slave_next_request(
    slave: &mut RawWideSlave,
    tag: u64,
    octets: &mut [u8; 44],
    number: &mut u16,
)
    requires { IsSome slave.old.port }
    ensures stands { Becomes wide_slaves slave.old slave.new (StandsAfter (NextRequest tag)) }
    ensures request { IsRequested wide_slaves slave.old octets.new number.new }
{
    let ring = slave.port();
    let (written, drawn) = ring.port.next_request(tag);
    *octets = written;
    *number = drawn.0;
}

/// The request of this number has left at `t3`. Refused with 101 where `t3` is no moment, else with 511 where no
/// request of this number is held; nothing changes then.
#[unsafe(no_mangle)]
pub extern "C" fn ptpx_raw_wide_slave_request_left(
    slave: &mut RawWideSlave,
    number: u16,
    t3: RawTime,
) -> u16
    requires { IsSome slave.old.port }
    ensures noted { units_of t3 < bound → IsNoted wide_slaves number result slave.old slave.new }
    ensures stands { units_of t3 < bound
        → Becomes wide_slaves slave.old slave.new (StandsAfter (RequestLeft number (units_of t3))) }
    ensures refused { bound ≤ units_of t3 → (result ≡ 101) × (slave.new ≡ slave.old) }
{
    let moment = match t3.moment() {
        Ok(moment) => moment,
        Err(refusal) => return refusal.code(),
    };
    let ring = slave.port();
    match ring.port.request_left(Seq(number), moment) {
        Ok(()) => 0,
        Err(refusal) => refusal.code(),
    }
}

/// A message arrived on the event port at `t2`. Refused with 101 where `t2` is no moment; nothing changes then,
/// `heard` neither.
#[unsafe(no_mangle)]
pub extern "C" fn ptpx_raw_wide_slave_sync(
    slave: &mut RawWideSlave,
    octets: &[u8],
    t2: RawTime,
    tag: u64,
    heard: &mut RawHeard,
) -> u16
    requires { IsSome slave.old.port }
    ensures heard { units_of t2 < bound → (said : Reading) → IsReading octets.now said
        → IsHeard wide_slaves (Event said (units_of t2) tag) slave.old slave.new heard.new }
    ensures done { units_of t2 < bound → result ≡ 0 }
    ensures refused { bound ≤ units_of t2 → (result ≡ 101) × (slave.new ≡ slave.old) × (heard.new ≡ heard.old) }
{
    let moment = match t2.moment() {
        Ok(moment) => moment,
        Err(refusal) => return refusal.code(),
    };
    let ring = slave.port();
    *heard = RawHeard::of(ring.port.sync(octets, moment, tag));
    0
}

/// A message arrived on the general port.
#[unsafe(no_mangle)]
pub extern "C" fn ptpx_raw_wide_slave_general(
    slave: &mut RawWideSlave,
    octets: &[u8],
    tag: u64,
    heard: &mut RawHeard,
)
    requires { IsSome slave.old.port }
    ensures { (said : Reading) → IsReading octets.now said
        → IsHeard wide_slaves (General said tag) slave.old slave.new heard.new }
{
    let ring = slave.port();
    *heard = RawHeard::of(ring.port.general(octets, tag));
}

/// The exchange of the last report. Refused with 910 where no report was made yet, or a half of it was dropped since;
/// `exchange` stays then.
#[unsafe(no_mangle)]
pub extern "C" fn ptpx_raw_wide_slave_last(
    slave: &mut RawWideSlave,
    exchange: &mut RawExchange,
) -> u16
    requires { IsSome slave.old.port }
    ensures last { IsLast wide_slaves slave.old result exchange.old exchange.new }
    ensures kept { slave.new ≡ slave.old }
{
    let ring = slave.port();
    put_last(ring.port.last_exchange(), exchange)
}
