//! A moment in seconds, with all the decimals that it has.

ghost use Rattle.std.specs.Prelude.{◌<◌, Some};
ghost use Rattle.ptp_units.specs.Nanoseconds.{decimals};
ghost use Rattle.datagram_text.specs.Shown.{stamp_text};
ghost use Rattle.recording_measure.specs.Moment.{moment_text};

use ptp_units::{ScaledTime, Timestamp};
use std::fmt;
use std::fmt::{Display, Formatter};

/// A nanosecond in halves of 2^-16 ns.
const NANOSECOND: u32 = 131_072;

/// Decimals of nanoseconds, at most.
const PLACES: u32 = 17;

/// What is left of a nanosecond, in halves of 2^-16 ns, as decimals.
#[derive(Clone, Copy)]
struct Decimals {
    rest: u32,
    ghost below: { rest < 131072 },
}

impl Display for Decimals {
    ghost output = { λ left. Some (decimals 17 left.rest) };

    fn fmt<W: fmt::Write>(&self, f: &mut Formatter<W>) -> fmt::Result {
        let mut rest = self.rest;
        for _place in 0..PLACES {
            if rest == 0 {
                break;
            }
            write!(f, "{}", rest * 10 / NANOSECOND)?;
            rest = rest * 10 % NANOSECOND;
        }
        Ok(())
    }
}

/// Seconds, a point, and nine digits of nanoseconds.
#[derive(Clone, Copy)]
struct Stamp(Timestamp);

impl Display for Stamp {
    ghost output = { λ stamp. Some (stamp_text stamp.0) };

    fn fmt<W: fmt::Write>(&self, f: &mut Formatter<W>) -> fmt::Result {
        write!(f, "{}.{:09}", self.0.seconds(), self.0.nanos())
    }
}

/// A moment, which shows as seconds since the beginning of the timescale with nine decimals, and behind these with all that it has.
#[derive(Clone, Copy)]
pub(crate) struct Moment(pub(crate) ScaledTime);

impl Display for Moment {
    ghost output = { λ moment. Some (moment_text moment.0) };

    fn fmt<W: fmt::Write>(&self, f: &mut Formatter<W>) -> fmt::Result {
        let (stamp, fraction) = self.0.split();
        let rest = 2 * u32::from(fraction);
        write!(f, "{}{}", Stamp(stamp), Decimals { rest })
    }
}
