//! Why a journey isn't followed back to where its message was sent, and where it stops.

ghost use Rattle.std.specs.Prelude.{◌≡◌, option_map};
ghost use Rattle.std.specs.BTreeMap.{get};
ghost use Rattle.std.specs.Ordering.{nat_cmp};
ghost use Rattle.network_model.specs.Kinds.{entered_copy};
ghost use Rattle.exchange_check.specs.Inner.Machine.{facts_of};
ghost use Rattle.exchange_check.specs.Evidence.{stop_told, stops_in};
ghost use Rattle.exchange_check.specs.Inner.Noting.{stop_of_copy, entered_stop, left_stop, stop_entry};

use crate::facts::Fact;
use crate::kept::Kept;
use std::collections::BTreeMap;
use trace_model::Lack;

/// Where a journey stops.
#[derive(Clone, Copy)]
pub(crate) struct Stop {
    /// The number of the line that names the one where it ends.
    pub(crate) by: u64,
    /// What that lacks.
    pub(crate) lack: Lack,
}

/// Why the journey to an arrival isn't one of a sound report.
#[derive(Clone, Copy)]
pub(crate) enum Unfollowed {
    /// The line of the number `by`, at which the message arrives, names a line that lacks this.
    Stops { by: u64, lack: Lack },
    /// The journey of this copy, which the line `by` names, stops earlier.
    Lost { by: u64, copy: u64 },
    /// On the journey of this copy a stay was left twice.
    LeftTwice(u64),
}

impl Kept {
    /// Where the journey of the copy stops that the line of this number made, which the line `by` names; none
    /// where it can be followed.
    pub(crate) fn stop_of(&self, stops: &BTreeMap<u64, Stop>, by: u64, copy: u64) -> Option<Stop>
        ensures { option_map stop_told result
            ≡ stop_of_copy (stops_in (get nat_cmp stops.now)) by copy (facts_of self.now copy) }
    {
        let Some(fact) = self.at(copy) else {
            return Some(Stop {
                by,
                lack: Lack::CameToNothing(copy),
            });
        };
        if fact.event.named_transit().is_some() {
            return stops.get(&copy).copied();
        }
        if fact.event.draws_sync() || fact.event.is_request() {
            return None;
        }
        Some(Stop {
            by,
            lack: Lack::OtherEvent(copy),
        })
    }

    /// The same of a copy that left a clock, from where it entered.
    fn entered_stop(&self, stops: &BTreeMap<u64, Stop>, left: &Fact, entered: &Fact) -> Option<Stop>
        ensures { option_map stop_told result
            ≡ entered_stop (facts_of self.now) (stops_in (get nat_cmp stops.now)) left.now entered.now
            (entered_copy entered.now.event) }
    {
        let no_enter = Stop {
            by: left.line,
            lack: Lack::OtherEvent(entered.line),
        };
        let Some(copy) = entered.event.entered_copy() else {
            return Some(no_enter);
        };
        if entered.event.node() != left.event.node() {
            return Some(no_enter);
        }
        if copy < entered.line {
            self.stop_of(stops, entered.line, copy)
        } else {
            Some(Stop {
                by: entered.line,
                lack: Lack::NotBefore(copy),
            })
        }
    }

    /// The same from the line by which it left.
    fn left_stop(&self, stops: &BTreeMap<u64, Stop>, left: &Fact, transit: u64) -> Option<Stop>
        ensures { option_map stop_told result
            ≡ left_stop (facts_of self.now) (stops_in (get nat_cmp stops.now)) left.now transit }
    {
        let by = left.line;
        if transit >= by {
            return Some(Stop {
                by,
                lack: Lack::NotBefore(transit),
            });
        }
        match self.at(transit) {
            Some(entered) => self.entered_stop(stops, left, entered),
            None => Some(Stop {
                by,
                lack: Lack::CameToNothing(transit),
            }),
        }
    }

    /// Where the journey stops of the copy that left a clock at a line, if it did and the journey stops.
    pub(crate) fn stop_kept(&self, stops: &BTreeMap<u64, Stop>, fact: &Fact) -> Option<Stop>
        ensures { option_map stop_told result
            ≡ stop_entry (facts_of self.now) (stops_in (get nat_cmp stops.now)) fact.now }
    {
        match fact.event.named_transit() {
            Some(transit) => self.left_stop(stops, fact, transit),
            None => None,
        }
    }
}
