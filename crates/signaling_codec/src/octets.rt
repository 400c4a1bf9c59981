//! Fields in octets.

ghost use Rattle.std.specs.Prelude.{◌≡◌, ◌<◌, ◌≤◌, ◌+◌, ◌^◌, length, slice_range};
ghost use Rattle.event_codec.specs.Layout.{number};
ghost use Rattle.signaling_codec.specs.Inner.Parsed.{identity_at, timestamp_at};

use event_codec::PortIdentity;
use ptp_units::Timestamp;

pub(crate) fn array_at<const N: usize>(octets: &[u8], at: usize) -> [u8; N]
    requires { at + N ≤ length octets.now }
    ensures { result ≡ slice_range octets.now at (at + N) }
{
    let mut array = [0; N];
    array.copy_from_slice(&octets[at..at + N]);
    array
}

pub(crate) fn u16_at(octets: &[u8], at: usize) -> u16
    requires { at + 2 ≤ length octets.now }
    ensures { result ≡ number octets.now at 2 }
{
    u16::from_be_bytes(array_at(octets, at))
}

pub(crate) fn u32_at(octets: &[u8], at: usize) -> u32
    requires { at + 4 ≤ length octets.now }
    ensures { result ≡ number octets.now at 4 }
{
    u32::from_be_bytes(array_at(octets, at))
}

pub(crate) fn u64_at(octets: &[u8], at: usize) -> u64
    requires { at + 8 ≤ length octets.now }
    ensures { result ≡ number octets.now at 8 }
{
    u64::from_be_bytes(array_at(octets, at))
}

pub(crate) fn port_identity_at(octets: &[u8], at: usize) -> PortIdentity
    requires { at + 10 ≤ length octets.now }
    ensures { result ≡ identity_at octets.now at }
{
    PortIdentity {
        clock: array_at(octets, at),
        port: u16_at(octets, at + 8),
    }
}

/// The timestamp there, whose nanoseconds are below 10^9.
pub(crate) fn timestamp_at(octets: &[u8], at: usize) -> Timestamp
    requires whole { at + 10 ≤ length octets.now }
    requires within_second { number octets.now (at + 6) 4 < 10 ^ 9 }
    ensures { result ≡ timestamp_at octets.now at }
{
    let seconds = u64::from(u16_at(octets, at)) << 32 | u64::from(u32_at(octets, at + 2));
    Timestamp::new(seconds, u32_at(octets, at + 6)).unwrap()
}
