//! Results that are wrong in a way that is known.

use crate::past::{Past, PastReport, results_of};
use crate::refused::Refused;
use crate::report::tells_otherwise;
use exchange_check::Results;
use std::alloc::AllocError;
use std::fmt;
use std::fmt::{Display, Formatter};

/// A nanosecond in twice a result.
const NANOSECOND: u128 = 131_072;

/// In which way results are equal to others, or close to them.
#[derive(Clone, Copy, PartialEq, Eq)]
enum Way {
    /// Both are whole nanoseconds, less than one away.
    Whole,
    Exchanged,
    OffsetTurned,
    PathTurned,
    BothTurned,
}

/// Whether a number is another one with its sign turned.
fn is_turned(one: i128, other: i128) -> bool {
    one != 0 && one == other.saturating_neg()
}

/// Whether twice a result is whole nanoseconds, and less than one away from this.
fn is_whole(one: i128, other: i128) -> bool {
    one.unsigned_abs() % NANOSECOND == 0 && one.abs_diff(other) < NANOSECOND
}

impl Way {
    /// In which way reported results are equal to these or close to them, where it is one of these ways.
    fn of(reported: &Results, results: &Results) -> Option<Way> {
        if reported == results {
            return None;
        }
        if reported.offset2 == results.path2 && reported.path2 == results.offset2 {
            return Some(Way::Exchanged);
        }
        let offset_turned = is_turned(reported.offset2, results.offset2);
        let path_turned = is_turned(reported.path2, results.path2);
        if offset_turned && path_turned {
            return Some(Way::BothTurned);
        }
        if offset_turned && reported.path2 == results.path2 {
            return Some(Way::OffsetTurned);
        }
        if path_turned && reported.offset2 == results.offset2 {
            return Some(Way::PathTurned);
        }
        if is_whole(reported.offset2, results.offset2) && is_whole(reported.path2, results.path2) {
            return Some(Way::Whole);
        }
        None
    }
}

/// A way in which results are wrong, against those by the readings or by the messages.
#[derive(Clone, Copy)]
struct Against {
    way: Way,
    by: &'static str,
}

impl Display for Against {
    fn fmt<W: fmt::Write>(&self, f: &mut Formatter<W>) -> fmt::Result {
        let by = self.by;
        let turned = match self.way {
            Way::Whole => {
                return write!(
                    f,
                    "the results are whole nanoseconds, each less than 1 ns from that by the {by}"
                );
            }
            Way::Exchanged => "offset2 and path2 in each other's place",
            Way::OffsetTurned => "the sign of offset2 turned",
            Way::PathTurned => "the sign of path2 turned",
            Way::BothTurned => "both signs turned",
        };
        write!(
            f,
            "the results are equal to those by the {by}, with {turned}"
        )
    }
}

impl Refused<'_> {
    /// Appends in which known way the results are wrong: against those by the readings or else by the messages, or that they
    /// are equal to those of the report before or of another pair of halves. Nothing where they are those by the messages.
    pub(crate) fn push_values(&self, text: &mut String) -> Result<(), AllocError> {
        let Some(by_readings) = self.case.reported.judgement.by_readings else {
            return Ok(());
        };
        let reported = results_of(&self.case.reported.report);
        if self.by_messages == Some(reported) {
            return Ok(());
        }
        if let Some(way) = Way::of(&reported, &by_readings) {
            return write!(
                text,
                "    {}\n",
                Against {
                    way,
                    by: "readings"
                }
            );
        }
        if let Some(told) = &self.by_messages
            && tells_otherwise(Some(by_readings), self.by_messages)
            && let Some(way) = Way::of(&reported, told)
        {
            return write!(
                text,
                "    {}\n",
                Against {
                    way,
                    by: "messages"
                }
            );
        }
        match self.past {
            Some(past) => self.push_past(text, past, &reported),
            None => Ok(()),
        }
    }

    /// Appends that the results are equal to those of the report before, or of another pair of halves.
    fn push_past(
        &self,
        text: &mut String,
        past: &Past,
        reported: &Results,
    ) -> Result<(), AllocError> {
        if let Some(before) = past.before()
            && let Some(whose) = whose(&before, reported)
        {
            return write!(
                text,
                "    the results are equal to those of the report before, {}, {whose}\n",
                self.case.known.place(before.event)
            );
        }
        match past.pair_giving(reported) {
            Some((sync, response)) => write!(
                text,
                "    the results are equal to those by the readings of another pair: of the Sync of {} and of the Delay_Resp of {}\n",
                self.case.known.place(sync.heard),
                self.case.known.place(response.heard)
            ),
            None => Ok(()),
        }
    }
}

/// Whether results are equal to those that a report has, or to those that it is to have by the readings.
fn whose(before: &PastReport, reported: &Results) -> Option<&'static str> {
    if before.by_readings == *reported {
        return Some("by the readings");
    }
    if before.reported == *reported {
        return Some("as they were reported there");
    }
    None
}
