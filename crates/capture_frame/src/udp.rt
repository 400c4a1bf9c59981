ghost use Rattle.std.specs.Prelude.{◌↔◌, IsTrue};
ghost use Rattle.std.specs.Option.{option_copied};
ghost use Rattle.capture_frame.specs.Udp.{IsUdp, IsPtpPort};
ghost use Rattle.capture_frame.specs.Inner.Walk.{IsOnly};

use crate::octets::{cut, front, u16_at};

/// The protocol number of UDP.
pub(crate) const UDP: u8 = 17;

/// The ports of PTP's event and general messages (IEEE 1588-2019, C.2).
const EVENT_PORT: u16 = 319;

const GENERAL_PORT: u16 = 320;

/// Whether a destination port is one of PTP's.
fn is_ptp_port(port: u16) -> bool
    ensures { IsTrue result ↔ IsPtpPort port }
{
    matches!(port, EVENT_PORT | GENERAL_PORT)
}

/// The datagram behind a header of UDP, by its destination port and up to its length (RFC 768).
pub(crate) fn in_udp(octets: &[u8]) -> Option<&[u8]>
    ensures { IsOnly (IsUdp octets.now) (option_copied result) }
{
    let (header, behind) = cut(octets, 8)?;
    if !is_ptp_port(u16_at(header, 2)) {
        return None;
    }
    let length = usize::from(u16_at(header, 4)).checked_sub(8)?;
    Some(front(behind, length))
}
