//! What reports of a slave were like before, against which results are held that are wrong.

use exchange_check::Results;
use explain_findings::Reported;
use network_model::Report;
use std::alloc::{AllocError, Global};
use std::collections::BTreeMap;

/// How many halves of each kind are kept of a slave.
const HALVES_MOST: usize = 4;

/// A half of a report, by the readings.
#[derive(Clone, Copy, Debug, PartialEq, Eq)]
pub(crate) struct PastHalf {
    /// The event by which the slave heard the Sync or the Delay_Resp.
    pub(crate) heard: u64,
    /// Twice what the half gives, in units of 2^-16 ns.
    pub(crate) bracket2: i128,
}

/// The last halves of one kind, the newest first.
#[derive(Clone, Copy, Debug)]
struct PastHalves {
    halves: [Option<PastHalf>; HALVES_MOST],
}

/// A report, as it is reported and by the readings.
#[derive(Clone, Copy, Debug)]
pub(crate) struct PastReport {
    pub(crate) event: u64,
    pub(crate) reported: Results,
    pub(crate) by_readings: Results,
}

/// The last reports of a slave that have results by the readings, and the halves of which they are.
#[derive(Clone, Copy, Debug)]
pub(crate) struct Past {
    last: Option<PastReport>,
    before: Option<PastReport>,
    syncs: PastHalves,
    responses: PastHalves,
}

/// What was reported.
pub(crate) fn results_of(report: &Report) -> Results {
    Results {
        offset2: report.offset2,
        path2: report.path2,
    }
}

/// Twice what the Sync gives, of these results.
pub(crate) fn sync_bracket2(results: &Results) -> i128 {
    results.path2.saturating_add(results.offset2)
}

/// Twice what the Delay_Req gives, of these results.
pub(crate) fn response_bracket2(results: &Results) -> i128 {
    results.path2.saturating_sub(results.offset2)
}

impl PastHalves {
    fn none() -> PastHalves {
        PastHalves {
            halves: [None; HALVES_MOST],
        }
    }

    /// One half more, in place of the oldest; nothing where the same event brought the newest one.
    fn push(&mut self, half: PastHalf) {
        if let Some(newest) = &self.halves[0]
            && newest.heard == half.heard
        {
            return;
        }
        let mut next = Some(half);
        for place in &mut self.halves {
            let passed = *place;
            *place = next;
            next = passed;
        }
    }

    /// The newest that gives this.
    fn giving(&self, bracket2: i128) -> Option<PastHalf> {
        for half in self.halves.iter().flatten() {
            if half.bracket2 == bracket2 {
                return Some(*half);
            }
        }
        None
    }
}

impl Past {
    fn none() -> Past {
        Past {
            last: None,
            before: None,
            syncs: PastHalves::none(),
            responses: PastHalves::none(),
        }
    }

    /// One report more, with its results by the readings.
    fn push(&mut self, reported: &Reported, by_readings: Results) {
        let report = &reported.report;
        self.before = self.last;
        self.last = Some(PastReport {
            event: reported.event,
            reported: results_of(report),
            by_readings,
        });
        self.syncs.push(PastHalf {
            heard: report.sync_tag,
            bracket2: sync_bracket2(&by_readings),
        });
        self.responses.push(PastHalf {
            heard: report.response_tag,
            bracket2: response_bracket2(&by_readings),
        });
    }

    /// The report before the last one.
    pub(crate) fn before(&self) -> Option<PastReport> {
        self.before
    }

    /// The two halves that give these results, the newest of those that do.
    pub(crate) fn pair_giving(&self, results: &Results) -> Option<(PastHalf, PastHalf)> {
        let sync = self.syncs.giving(sync_bracket2(results))?;
        let response = self.responses.giving(response_bracket2(results))?;
        Some((sync, response))
    }
}

/// What reports of slaves were like before, by the places of the slaves among the nodes.
#[derive(Drop)]
pub(crate) struct Pasts {
    by_slave: BTreeMap<u64, Past>,
}

impl Pasts {
    /// There was no report yet.
    pub(crate) fn new(alloc: Global) -> Pasts {
        Pasts {
            by_slave: BTreeMap::new(alloc),
        }
    }

    /// One report more of the slave at this place, where it has results by the readings.
    pub(crate) fn push(
        &mut self,
        slave: Option<u64>,
        reported: &Reported,
    ) -> Result<(), AllocError> {
        let Some((slave, by_readings)) = slave.zip(reported.judgement.by_readings) else {
            return Ok(());
        };
        if let Some(past) = self.by_slave.get_mut(&slave) {
            past.push(reported, by_readings);
            return Ok(());
        }
        let mut past = Past::none();
        past.push(reported, by_readings);
        self.by_slave.insert(slave, past)?;
        Ok(())
    }

    /// That of the slave at this place.
    pub(crate) fn of(&self, slave: u64) -> Option<&Past> {
        self.by_slave.get(&slave)
    }
}
