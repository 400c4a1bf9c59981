//! The slave ports that C has memory for.

ghost use Rattle.std.specs.Prelude.{◌≡◌, []};
ghost use Rattle.slave_port.specs.StandsFor.{StandsFor};
ghost use Rattle.slave_port.specs.History.{setup_of};

use event_codec::PortConfig;
use pairing::RingTable;
use ptp_units::Seq;
use slave_port::{HeldFollow, HeldRequest, HeldSync, SlavePort};

/// A slave port that holds 16 Syncs, 16 Follow_Ups and 16 requests at most.
#[derive(Drop)]
pub struct RingSlave {
    /// The port.
    pub port: SlavePort<
        RingTable<HeldSync, 16>,
        RingTable<HeldFollow, 16>,
        RingTable<HeldRequest, 16>,
    >,
}

/// A slave port that holds 256 of each at most.
#[derive(Drop)]
pub struct WideRingSlave {
    /// The port.
    pub port: SlavePort<
        RingTable<HeldSync, 256>,
        RingTable<HeldFollow, 256>,
        RingTable<HeldRequest, 256>,
    >,
}

/// How many octets the memory of a port takes.
#[unsafe(no_mangle)]
pub extern "C" fn ptpx_raw_slave_size() -> usize
    ensures { result ≡ 2992 }
{
    size_of::<RingSlave>()
}

/// What the address of that memory is a multiple of.
#[unsafe(no_mangle)]
pub extern "C" fn ptpx_raw_slave_alignment() -> usize
    ensures { result ≡ 16 }
{
    align_of::<RingSlave>()
}

/// How many octets the memory of a wide port takes.
#[unsafe(no_mangle)]
pub extern "C" fn ptpx_raw_wide_slave_size() -> usize
    ensures { result ≡ 42352 }
{
    size_of::<WideRingSlave>()
}

/// What the address of that memory is a multiple of.
#[unsafe(no_mangle)]
pub extern "C" fn ptpx_raw_wide_slave_alignment() -> usize
    ensures { result ≡ 16 }
{
    align_of::<WideRingSlave>()
}

impl RingSlave {
    /// A port that has no master and holds nothing. Its requests are numbered from `first` on.
    pub(crate) fn new(config: PortConfig, first: Seq) -> RingSlave
        ensures { StandsFor (setup_of config first.0 16 16 16) result.port [] }
    {
        RingSlave {
            port: SlavePort::new(config, first),
        }
    }
}

impl WideRingSlave {
    /// A port that has no master and holds nothing. Its requests are numbered from `first` on.
    pub(crate) fn new(config: PortConfig, first: Seq) -> WideRingSlave
        ensures { StandsFor (setup_of config first.0 256 256 256) result.port [] }
    {
        WideRingSlave {
            port: SlavePort::new(config, first),
        }
    }
}
