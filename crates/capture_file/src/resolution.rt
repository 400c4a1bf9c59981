//! Times of packets in pcapng: counted in parts of a second, and cut down to nanoseconds.
ghost use Rattle.std.specs.Prelude.{◌≡◌, ◌≤◌, ◌<◌};
ghost use Rattle.capture_file.specs.Clock.{resolution_of, whole_nanoseconds, time_at, ResolutionOf};
ghost use Rattle.capture_file.specs.Inner.Clock.{resolution_in};

use ptp_units::Timestamp;

/// A second, in nanoseconds.
const SECOND: u128 = 1_000_000_000;

/// Into how many parts a second is divided: a power of ten or of two.
#[derive(Clone, Copy, Debug, PartialEq, Eq)]
pub(crate) struct Resolution {
    pub(crate) base: u8,
    pub(crate) exponent: u8,
}

impl Resolution {
    /// Microseconds, where nothing else is said.
    pub(crate) const MICROSECONDS: Resolution = Resolution {
        base: 10,
        exponent: 6,
    };

    /// What the octet of the option `if_tsresol` says.
    pub(crate) fn of_octet(octet: u8) -> Resolution
        ensures { resolution_in result ≡ resolution_of octet }
    {
        if octet < 128 {
            return Resolution {
                base: 10,
                exponent: octet,
            };
        }
        Resolution {
            base: 2,
            exponent: octet - 128,
        }
    }

    /// So many parts of a second, in whole nanoseconds.
    fn nanoseconds(self, ticks: u64) -> u128
        ensures { result ≡ whole_nanoseconds (resolution_in self) ticks }
    {
        let scaled = u128::from(ticks) * SECOND;
        match u128::from(self.base).checked_pow(u32::from(self.exponent)) {
            Some(0) | None => 0,
            Some(parts) => scaled / parts,
        }
    }

    /// The time of so many parts of a second, behind an offset of whole seconds; None where that is below 0, or 2^48 s or more.
    pub(crate) fn time(self, offset: i64, ticks: u64) -> Option<Timestamp>
        ensures { result ≡ time_at (resolution_in self) offset ticks }
    {
        let nanoseconds = self.nanoseconds(ticks);
        let seconds = i128::from(offset) + (nanoseconds / SECOND) as i128;
        let seconds = u64::try_from(seconds).ok()?;
        Timestamp::new(seconds, (nanoseconds % SECOND) as u32).ok()
    }
}
