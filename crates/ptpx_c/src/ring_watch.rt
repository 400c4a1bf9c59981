//! The watch that C has memory for.

ghost use Rattle.std.specs.Prelude.{◌≡◌, []};
ghost use Rattle.sync_watch.specs.StandsFor.{StandsFor};

use pairing::RingTable;
use ptp_units::ScaledTime;
use sync_watch::SyncWatch;

/// What is known of the last 256 Syncs and the last 256 Follow_Ups of a master, those with and those without unicastFlag apart.
#[derive(Drop)]
pub struct RingWatch {
    /// The watch.
    pub watch: SyncWatch<RingTable<ScaledTime, 256>>,
}

/// How many octets the memory of a watch takes.
#[unsafe(no_mangle)]
pub extern "C" fn ptpx_raw_watch_size() -> usize
    ensures { result ≡ 37152 }
{
    size_of::<RingWatch>()
}

/// What the address of that memory is a multiple of.
#[unsafe(no_mangle)]
pub extern "C" fn ptpx_raw_watch_alignment() -> usize
    ensures { result ≡ 16 }
{
    align_of::<RingWatch>()
}

impl RingWatch {
    /// A watch that knows of nothing.
    pub(crate) fn new() -> RingWatch
        ensures { StandsFor 256 result.watch [] }
    {
        RingWatch {
            watch: SyncWatch::new(),
        }
    }
}
