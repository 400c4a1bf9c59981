//! pcap, as the file format of libpcap has it (draft-ietf-opsawg-pcap).
ghost use Rattle.std.specs.Prelude.{◌≡◌, ◌≤◌, ◌*◌, length, MatchOption, Some, None, option_map};
ghost use Rattle.ptp_units.specs.Moment.{IsStamp};
ghost use Rattle.capture_file.specs.Order.{number32};
ghost use Rattle.capture_file.specs.Pcap.{unit_of, is_pcap_version, pcap_time};

use crate::order::ByteOrder;
use ptp_units::Timestamp;

/// The unit in which fractions of a second are.
#[derive(Clone, Copy, Debug, PartialEq, Eq)]
pub enum FractionUnit {
    /// Microseconds: the magic is a1b2c3d4.
    Microseconds,
    /// Nanoseconds: the magic is a1b23c4d.
    Nanoseconds,
}

/// What the head of a pcap tells.
#[derive(Clone, Copy, Debug, PartialEq, Eq)]
pub(crate) struct PcapHead {
    /// The order of all its numbers.
    pub(crate) order: ByteOrder,
    /// The unit of the fractions of its times.
    pub(crate) unit: FractionUnit,
    /// The link type of its packets.
    pub(crate) link: u16,
}

/// The unit that a magic tells.
fn unit_of(magic: u32) -> Option<FractionUnit>
    ensures { result ≡ unit_of magic }
{
    match magic {
        0xa1b2_c3d4 => Some(FractionUnit::Microseconds),
        0xa1b2_3c4d => Some(FractionUnit::Nanoseconds),
        _ => None,
    }
}

/// The order and the unit that the first four octets tell, where these are a magic of pcap.
pub(crate) fn pcap_magic(octets: &[u8]) -> Option<(ByteOrder, FractionUnit)>
    requires { 4 ≤ length octets.now }
    ensures { MatchOption result
        ((unit_of (number32 ByteOrder.Big octets.now 0) ≡ None) × (unit_of (number32 ByteOrder.Little octets.now 0) ≡ None))
        (λ told. unit_of (number32 told.0 octets.now 0) ≡ Some told.1) }
{
    let told = |order: ByteOrder| Some((order, unit_of(order.u32_at(octets, 0))?));
    told(ByteOrder::Big).or_else(|| told(ByteOrder::Little))
}

/// Whether the version is one that is known.
pub(crate) fn is_pcap_version(order: ByteOrder, octets: &[u8]) -> bool
    requires { 8 ≤ length octets.now }
    ensures { result ≡ is_pcap_version order octets.now }
{
    order.u16_at(octets, 4) == 2 && order.u16_at(octets, 6) == 4
}

/// A time, where its fraction is below a second.
pub(crate) fn pcap_time(unit: FractionUnit, seconds: u32, fraction: u32) -> Option<Timestamp>
    ensures { result ≡ pcap_time unit seconds fraction }
{
    let nanoseconds = match unit {
        FractionUnit::Microseconds if fraction < 1_000_000 => fraction * 1000,
        FractionUnit::Microseconds => return None,
        FractionUnit::Nanoseconds => fraction,
    };
    Timestamp::new(u64::from(seconds), nanoseconds).ok()
}
