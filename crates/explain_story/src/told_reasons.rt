//! What reasons met in reports that were told, so that what is behind several reports is told once.

use exchange_check::Why;
use explain_findings::Reported;
use std::alloc::{AllocError, Global};
use std::collections::BTreeMap;

/// What a reason met last, and the event and the line of the report of which it was told.
#[derive(Drop)]
struct Told {
    event: u64,
    line: u64,
    met: String,
}

impl Told {
    /// Keeps what the reason met in this report, in the room of what it met before; where that is the same, it says so.
    fn keep(&mut self, reported: &Reported, met: &mut String) -> Result<(), AllocError> {
        if self.met.as_str() == met.as_str() {
            met.clear();
            return write!(
                met,
                "    as told of the report of event {}, line {}\n",
                self.event, self.line
            );
        }
        self.event = reported.event;
        self.line = reported.line;
        self.met.clear();
        self.met.push_str(met.as_str())
    }
}

/// What reasons met in reports that were told: of each, by its number, what it met last.
#[derive(Drop)]
pub struct ToldReasons {
    last: BTreeMap<u16, Told>,
}

impl ToldReasons {
    /// Nothing was told yet.
    pub fn new(alloc: Global) -> ToldReasons {
        ToldReasons {
            last: BTreeMap::new(alloc),
        }
    }

    /// Keeps what a reason met in this report. Where it met just the same last, that comes in its place: of which report it was
    /// told. Results that are wrong, and residences that are too long, are told of each report.
    pub(crate) fn keep(
        &mut self,
        why: Why,
        reported: &Reported,
        met: &mut String,
    ) -> Result<(), AllocError> {
        if matches!(why, Why::WrongValue | Why::TooBig) || met.is_empty() {
            return Ok(());
        }
        let code = why.code();
        match self.last.get_mut(&code) {
            Some(told) => told.keep(reported, met),
            None => {
                let Reported { event, line, .. } = *reported;
                let met = met.clone()?;
                self.last.insert(code, Told { event, line, met })?;
                Ok(())
            }
        }
    }
}
