//! What is kept of lines and nodes, so that nothing is searched for again.

ghost use Rattle.std.specs.Prelude.{◌≡◌};
ghost use Rattle.exchange_check.specs.Inner.Telling.{known_again, hears_earlier};
ghost use Rattle.exchange_check.specs.Inner.Noting.{line_of_fact};

use crate::kept_line::KeptLine;
use crate::residence::Residence;
use crate::wrong_lines::WrongLines;
use network_model::{Event, Name};
use ptp_units::{ScaledTime, Seq};

/// What is kept of the journey of a copy of an event message, from the line that sent it.
#[derive(Clone, Copy)]
pub(crate) struct KeptJourney {
    /// How long it was in clocks.
    pub(crate) residence: Residence,
    /// The number of the line that sent it.
    pub(crate) origin: u64,
    /// The first lines on it where something is wrong.
    pub(crate) wrong: WrongLines,
}

/// A line that counts, as far as later lines ask. What is kept of a line, this and its place in the tables, takes
/// some 220 octets (`bench/check` measures it).
#[derive(Clone, Copy)]
pub(crate) struct Fact {
    /// The line's number.
    pub(crate) line: u64,
    /// Whether it made a message.
    pub(crate) made: bool,
    /// Whether a message completed a pair.
    pub(crate) completes: bool,
    /// The sequenceId that its event drew.
    pub(crate) number: Seq,
    /// Whether its reading is right.
    pub(crate) reads_right: bool,
    /// Whether its octets are right.
    pub(crate) writes_right: bool,
    /// The line's event.
    pub(crate) event: Event,
    /// The line's reading, 0 where there is none.
    pub(crate) reading: ScaledTime,
    /// The number of the last line before it at which its node sent a two-step Sync.
    pub(crate) last_sync: Option<u64>,
    /// The journey of the copy that it made, where that is a Sync or a Delay_Req.
    pub(crate) journey: Option<KeptJourney>,
}

impl Fact {
    /// What was known of the line when it was taken in.
    pub(crate) fn known(&self) -> Known
        ensures { result ≡ known_again self.now }
    {
        Known {
            line: self.line,
            reading: self.reading,
            number: self.number,
            reads: self.reads_right,
            last_sync: self.last_sync,
        }
    }

    /// What is told of the line.
    pub(crate) fn told(&self) -> KeptLine
        ensures { result ≡ line_of_fact self.now }
    {
        KeptLine {
            number: self.line,
            event: self.event,
            reading: self.reading,
            sequence: self.number,
            made: self.made,
            completes: self.completes,
            reads_right: self.reads_right,
            writes_right: self.writes_right,
            last_sync: self.last_sync,
        }
    }

    /// Whether the copy that the line hears, if any, was made before it.
    pub(crate) fn hears_earlier(&self) -> bool
        ensures { result ≡ hears_earlier self.now }
    {
        match self.event.heard_copy() {
            Some(copy) => copy < self.line,
            None => true,
        }
    }
}

/// What the lines so far say of a node.
#[derive(Clone, Copy, Default)]
pub(crate) struct Site {
    /// How far its clock is ahead of the true time, in units of 2^-16 ns.
    pub(crate) difference: i128,
    /// How many Syncs it sent, modulo 65,536.
    pub(crate) syncs: Seq,
    /// How many requests it sent, modulo 65,536.
    pub(crate) requests: Seq,
    /// The number of the line of its last two-step Sync.
    pub(crate) last_sync: Option<u64>,
    /// The number of the line of its last request.
    pub(crate) last_request: Option<u64>,
    /// The master that it was told last, and the number of that line.
    pub(crate) set_master: Option<(Name, u64)>,
    /// The number of the line that set its clock last.
    pub(crate) last_step: Option<u64>,
}

/// What is known of a line from the line itself and from its node.
#[derive(Clone, Copy)]
pub(crate) struct Known {
    /// The line's number.
    pub(crate) line: u64,
    /// The line's reading, 0 where there is none.
    pub(crate) reading: ScaledTime,
    /// The sequenceId that its event draws.
    pub(crate) number: Seq,
    /// Whether its reading is right.
    pub(crate) reads: bool,
    /// The number of the last line before it at which its node sent a two-step Sync.
    pub(crate) last_sync: Option<u64>,
}

/// The journey of a copy, with the line that sent it.
#[derive(Clone, Copy)]
pub(crate) struct FoundJourney {
    pub(crate) kept: KeptJourney,
    pub(crate) origin: Fact,
}

/// The lines of a report.
#[derive(Clone, Copy)]
pub(crate) struct Found {
    /// The Sync's arrival at the slave.
    pub(crate) sync_arrival: Fact,
    /// The line that sent the Follow_Up, of a two-step Sync.
    pub(crate) follow: Option<Fact>,
    /// The line that sent the Delay_Req.
    pub(crate) request: Fact,
    /// The Delay_Req's arrival at a master, which sent the Delay_Resp.
    pub(crate) request_arrival: Fact,
}
