//! Why a result is wrong, or isn't judged, in words.

use ptp_units::Seq;
use recording_lines::Half;
use result_verdict::Difference;
use std::fmt;
use std::fmt::{Display, Formatter};

/// Why a result is wrong, or isn't judged.
#[derive(Clone, Copy, Debug)]
pub enum Why {
    /// No Sync behind an exchange came before it.
    NothingCame,
    /// The Sync of this number wasn't the newest one, and wasn't waited for any longer.
    NoSync(Seq),
    /// It is of a line in front of that of the newest report.
    Passed(u64),
    /// Its offset is so far from all that the slave tells that no path delay makes it.
    TooFar,
    /// This message is missing beside its own.
    Missing(Half, Seq),
    /// The sender of this half began anew beside its own.
    BeganAnew(Half),
    /// No message of this half came behind its own, by which it would be known that none is missing.
    NothingBehind(Half),
    /// Not each delay at the last responses is known.
    Unknown,
    /// The path delay lies so far outside of the newest delays.
    PathBeyond(Difference),
    /// The offset is by the newest delay, and the path delay is so far from that, and none at the last responses.
    PathOff(Difference),
    /// The offset is so far from that by the path delay, and so far from that by the newest delay; one of both is so many whole seconds.
    OffsetOff(Difference, Difference, Option<u128>),
    /// The offset is by no delay between the least and the greatest of the newest ones, and so far from that by the newest, which is so many
    /// whole seconds.
    NoDelay(Difference, Option<u128>),
}

/// What is said further of an offset that is off by whole seconds.
#[derive(Clone, Copy)]
struct Seconds(Option<u128>);

impl Display for Seconds {
    fn fmt<W: fmt::Write>(&self, f: &mut Formatter<W>) -> fmt::Result {
        match self.0 {
            Some(count) => write!(
                f,
                ": a whole {count} s, as with currentUtcOffset in the result alone, or in the readings alone"
            ),
            None => Ok(()),
        }
    }
}

impl Display for Why {
    fn fmt<W: fmt::Write>(&self, f: &mut Formatter<W>) -> fmt::Result {
        match self {
            Why::NothingCame => f.write_str("no Sync behind an exchange came before it"),
            Why::NoSync(number) => write!(
                f,
                "Sync {} wasn't the newest one when it was judged",
                number.0
            ),
            Why::Passed(line) => write!(
                f,
                "line {line} lies in front of the newest report already"
            ),
            Why::TooFar => f.write_str("offset is farther from all that was read than can be told"),
            Why::Missing(Half::Sync, number) => write!(f, "Sync {} is missing", number.0),
            Why::Missing(Half::Response, number) => {
                write!(f, "the exchange of Delay_Req {} is missing", number.0)
            }
            Why::BeganAnew(Half::Sync) => f.write_str(
                "the numbers of Syncs began anew behind its own",
            ),
            Why::BeganAnew(Half::Response) => {
                f.write_str("the numbers of Delay_Reqs began anew behind its own")
            }
            Why::NothingBehind(Half::Sync) => f.write_str(
                "no Sync came behind its own, so it may be of one that is missing",
            ),
            Why::NothingBehind(Half::Response) => f.write_str(
                "no exchange came behind its own, so it may be by one that is missing",
            ),
            Why::Unknown => f.write_str("not each of the last 16 delays at responses is known"),
            Why::PathBeyond(beyond) => write!(
                f,
                "offset is by path, which lies {beyond} ns outside of the newest delays"
            ),
            Why::PathOff(path) => write!(
                f,
                "offset is by the newest delay; path is {path} ns from that, and none at the last responses"
            ),
            Why::OffsetOff(by_path, by_newest, seconds) => write!(
                f,
                "offset is {by_path} ns from that by path, and {by_newest} ns from that by the newest delay{}",
                Seconds(*seconds)
            ),
            Why::NoDelay(by_newest, seconds) => write!(
                f,
                "offset is {by_newest} ns from that by the newest delay, and by none within the newest ones{}",
                Seconds(*seconds)
            ),
        }
    }
}
