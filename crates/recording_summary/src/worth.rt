//! What the numbers are worth: all that speaks against them.

ghost use Rattle.std.specs.Prelude.{◌≡◌};
ghost use Rattle.recording_summary.specs.Bewares.{bewares, AreBewares, has_beware, is_doubtful, is_beyond};
ghost use Rattle.recording_summary.specs.declared.beware.Rounded.{Rounded};

use crate::beware::{Beware, Rounded};
use crate::count_bewares::{cut_short, ends, out_of_order, repeated, whole_microseconds};
use crate::counts::Counts;
use crate::message_bewares::{
    corrected_requests, master_anew, missing_follow_ups, missing_requests, missing_responses,
    missing_syncs, other_domains, other_masters, other_slaves, request_interval, slave_anew,
};
use crate::report_bewares::{
    at_once, offset_apart, offsets_change, old_delay, paths_below, paths_change, whole_seconds,
    zeros_by,
};
use ptp_units::ScaledTime;
use statistics::{shift_of, slope};

/// How many bewares there can be.
pub const BEWARES: usize = 23;

/// The nanoseconds of half a second: offsets are counted in halves.
const HALF_SECOND: u128 = 500_000_000;

impl Counts {
    /// What is rounded of the reports.
    fn rounded(&self) -> Rounded {
        let statistics = &self.quality.statistics;
        Rounded {
            offset_shift: shift_of(&statistics.offsets, &statistics.trend),
            offset_growth: slope(&statistics.offsets.all, &statistics.trend),
            path_shift: shift_of(&statistics.paths, &statistics.path_trend),
        }
    }

    /// What speaks against the numbers, by what is rounded of them.
    fn bewares_by(&self, rounded: &Rounded) -> [Option<Beware>; BEWARES]
        ensures { result ≡ bewares rounded.now self.now }
    {
        let (statistics, times) = (&self.quality.statistics, &self.quality.times);
        let flows = &self.others.flows;
        [
            at_once(statistics),
            paths_below(&statistics.paths.all),
            zeros_by(statistics),
            whole_seconds(&statistics.offsets.all),
            offsets_change(rounded, statistics),
            paths_change(rounded, statistics),
            ends(self),
            repeated(self),
            other_masters(&self.others),
            other_slaves(&self.others),
            other_domains(&self.others),
            out_of_order(times),
            old_delay(statistics, request_interval(&flows.requests)),
            missing_syncs(flows),
            missing_follow_ups(flows),
            missing_requests(flows),
            missing_responses(flows),
            corrected_requests(flows),
            master_anew(flows),
            slave_anew(flows),
            offset_apart(&statistics.spikes),
            cut_short(self.quality.cut),
            whole_microseconds(times),
        ]
    }

    /// What speaks against the numbers, in the order in which it is told. Whether values step or run away, and by how much, is rounded;
    /// all else is exact.
    pub fn bewares(&self) -> [Option<Beware>; BEWARES]
        ensures { AreBewares self.now result }
    {
        self.bewares_by(&self.rounded())
    }

    /// Whether anything speaks against the numbers, by what is rounded of them.
    fn has_beware(&self, rounded: &Rounded) -> bool
        ensures { result ≡ has_beware rounded.now self.now }
    {
        self.bewares_by(rounded).iter().any(Option::is_some)
    }

    /// Whether there is no report, or anything speaks against the numbers.
    pub fn is_doubtful(&self) -> bool
        ensures { (rounded : Rounded) × (result ≡ is_doubtful rounded self.now) }
    {
        self.is_doubtful_by(&self.rounded())
    }

    /// The same, by what is rounded of the numbers.
    fn is_doubtful_by(&self, rounded: &Rounded) -> bool
        ensures { result ≡ is_doubtful rounded.now self.now }
    {
        self.reports == 0 || self.has_beware(rounded)
    }

    /// Whether an offset is greater than a limit, either way. The limit is so many seconds as it is to be nanoseconds.
    pub fn is_beyond(&self, limit: ScaledTime) -> bool
        ensures { result ≡ is_beyond limit self.now }
    {
        limit.value() / HALF_SECOND < self.quality.statistics.farthest
    }
}
