ghost use Rattle.std.specs.Prelude.{◌≡◌, reverse, MatchResult, IfOk, ◌++◌, ◌∷◌, [], length, option_map};
ghost use Rattle.event_codec.specs.Profile.{contents_of};
ghost use Rattle.network_model.specs.Premises.{IsFreshAndTicked, IsWithinTurn, exact_limits};
ghost use Rattle.trace_model.specs.Record.{line_place, first_stamp};
ghost use Rattle.trace_model.specs.Verdict.{line_judgement, verdict};
ghost use Rattle.trace_model.specs.Soundness.{TellsSoundness};
ghost use Rattle.trace_model.specs.Complete.{AcceptsTruth};
ghost use Rattle.exchange_check.specs.Exchange.{last_exchange};
ghost use Rattle.exchange_check.specs.Message.{message_at};
ghost use Rattle.exchange_check.specs.KeptLine.{kept_line_at, origin_at, master_told};
ghost use Rattle.exchange_check.specs.Inner.Machine.{IsKept, machine};
ghost use Rattle.trace_model.specs.Finding.{leave_of};
ghost use Rattle.exchange_check.specs.declared.refusal.CheckFault.TheVariants.{Memory};

use crate::exchange::Exchange;
use crate::history::History;
use crate::kept::Kept;
use crate::kept_line::KeptLine;
use crate::refusal::CheckFault;
use event_codec::PortMessage;
use network_model::{Name, Nodes, Report};
use std::alloc::Global;
use std::marker::Model;
use trace_model::{Judgement, TraceLine, Verdict};

/// The verdict on a transcript of a network, its lines oldest first, whatever their origin. It is accepted
/// exactly where every report line is sound, with their number, and refused exactly where one isn't, with the
/// number of the first such line and the first condition that it fails. Refused with 709 where there was no
/// room, as [`CheckFault`] says.
pub fn check(alloc: Global, nodes: &Nodes, lines: &[TraceLine]) -> Result<Verdict, CheckFault>
    ensures verdict { MatchResult result
        (λ answer. answer ≡ verdict nodes.now (reverse lines.now))
        (λ fault. fault ≡ Memory) }
    ensures sound { IfOk result (λ answer. TellsSoundness nodes.now (reverse lines.now) answer) }
    // Nothing is missed: lines that tell a run with exact reports are accepted.
    ensures complete { IfOk result
        (λ answer. AcceptsTruth (IsFreshAndTicked exact_limits) nodes.now (reverse lines.now) answer) }
    ensures complete_within_one_turn { IfOk result
        (λ answer. AcceptsTruth IsWithinTurn nodes.now (reverse lines.now) answer) }
{
    let mut kept = Kept::new(alloc);
    for line in lines {
        kept.step(nodes, line)?;
    }
    Ok(kept.verdict)
}

/// A checker that is fed the lines of a transcript one by one. It keeps what later lines can ask of
/// a line, and not the line itself.
#[derive(Drop)]
pub struct Checker {
    nodes: Nodes,
    /// The lines that it was fed, newest first, which contracts alone read.
    fed: History,
    kept: Kept,
}

impl Model for Checker {
    ghost use Rattle.std.specs.Prelude.{length, reverse};
    ghost use Rattle.exchange_check.specs.Transcript.{Transcript};
    ghost use Rattle.exchange_check.specs.Inner.Machine.{IsKept, machine};

    ghost Value = { Transcript };

    ghost view = { λ c. record { network = c.nodes; lines = reverse c.fed } };

    ghost invariant = { λ c. IsKept c.nodes c.kept (length c.fed) (machine c.nodes c.fed) };
}

impl Checker {
    /// A checker of transcripts of this network, which was fed no line yet. Refused with 709 where
    /// memory was refused; the nodes are then dropped.
    pub fn new(alloc: Global, nodes: Nodes) -> Result<Checker, CheckFault>
        ensures { MatchResult result
            (λ checker. checker ≡ record { network = nodes; lines = [] })
            (λ fault. fault ≡ Memory) }
    {
        Ok(Checker {
            nodes,
            fed: History::new(alloc),
            kept: Kept::new(alloc),
        })
    }

    /// Takes in the next line. Refused with 709 where there was no room: the line is then dropped, and
    /// the checker is as it was.
    pub fn feed(&mut self, line: TraceLine) -> Result<(), CheckFault>
        ensures { MatchResult result
            (λ _. self.new ≡ record { network = self.old.network; lines = self.old.lines ++ line ∷ [] })
            (λ fault. (fault ≡ Memory) × (self.new ≡ self.old)) }
    {
        self.feed_judged(&line)?;
        Ok(())
    }

    /// Takes in the next line as [`feed`](Checker::feed) does, and answers what its report is judged to
    /// be, by this line and those before it; none where the line has no report.
    pub fn feed_judged(&mut self, line: &TraceLine) -> Result<Option<Judgement>, CheckFault>
        ensures fed { MatchResult result
            (λ _. self.new ≡ record { network = self.old.network; lines = self.old.lines ++ line.now ∷ [] })
            (λ fault. (fault ≡ Memory) × (self.new ≡ self.old)) }
        // Each condition that fails is told, and the results by the readings.
        ensures judged { IfOk result (λ answer. answer
            ≡ line_judgement self.old.network (line_place line.now (reverse self.old.lines))) }
    {
        self.fed.push(line)?;
        match self.kept.step(&self.nodes, line) {
            Ok(answer) => Ok(answer),
            Err(fault) => {
                self.fed.pop();
                Err(fault)
            }
        }
    }

    /// The lines that a report of the line which was fed last is of (IEEE 1588-2019, 11.3), where they are all there
    /// and the journeys of the Sync and of the Delay_Req can be followed: where neither 701 nor 704 stands against
    /// the report. The time that it takes doesn't grow with the lines that were fed, but for looking one of them up.
    pub fn exchange(&self, report: &Report) -> Option<Exchange>
        ensures { result ≡ last_exchange self.now.network (reverse self.now.lines) report.now }
    {
        match self.len() {
            0 => None,
            count => self.kept.exchange(count - 1, report),
        }
    }

    /// The message that the line of this number, counted from 0, makes by the lines before it, as its port or its
    /// clock writes it (IEEE 1588-2019, 10.2 and 13.6 to 13.8); none where the line doesn't count or makes none.
    /// 708 stands against a report where such a line has other octets.
    pub fn message_at(&self, number: u64) -> Option<PortMessage>
        ensures { option_map contents_of result ≡ message_at self.now.network (reverse self.now.lines) number }
    {
        self.kept.message_at(&self.nodes, number)
    }

    /// The nodes of the network.
    pub fn nodes(&self) -> &Nodes
        ensures { result.now ≡ self.now.network }
    {
        &self.nodes
    }

    /// What is kept of the line of this number, counted from 0; none where it doesn't count, or isn't there.
    pub fn line_at(&self, number: u64) -> Option<KeptLine>
        ensures { result ≡ kept_line_at self.now.network (reverse self.now.lines) number }
    {
        self.kept.told_at(number)
    }

    /// The event that sent the message of which the line of this number made a copy, followed back through clocks;
    /// none where the line doesn't count or makes no copy of an event message, or where that can't be followed.
    pub fn origin_of(&self, number: u64) -> Option<u64>
        ensures { result ≡ origin_at self.now.network (reverse self.now.lines) number }
    {
        self.kept.origin_at(number)
    }

    /// The last event that told a slave its master.
    pub fn master_told(&self, slave: &Name) -> Option<u64>
        ensures { result ≡ master_told self.now.network (reverse self.now.lines) slave.now }
    {
        self.kept.master_told(&self.nodes, slave)
    }

    /// The first event by which a message left the clock that it entered by the event of this number.
    pub fn first_leave(&self, entered: u64) -> Option<u64>
        ensures { result ≡ leave_of self.now.network entered (reverse self.now.lines) }
    {
        self.kept.stays.first(entered)
    }

    /// The first event by which a slave learned when the Delay_Req of this number departed.
    pub fn first_stamp(&self, request: u64) -> Option<u64>
        ensures { result ≡ first_stamp self.now.network request (reverse self.now.lines) }
    {
        self.kept.first_stamp(request)
    }

    /// The nodes, and what is kept of the lines.
    pub(crate) fn inside(&self) -> (&Nodes, &Kept)
        ensures network { result.0.now ≡ self.now.network }
        ensures kept { IsKept self.now.network result.1.now (length (reverse self.now.lines))
            (machine self.now.network (reverse self.now.lines)) }
    {
        (&self.nodes, &self.kept)
    }

    /// How many lines were fed so far.
    pub fn len(&self) -> u64
        ensures { result ≡ length self.now.lines }
    {
        self.kept.facts.len() as u64
    }

    /// The verdict on the lines fed so far, as [`check`] answers it.
    pub fn verdict(&self) -> Verdict
        ensures verdict { result ≡ verdict self.now.network (reverse self.now.lines) }
        ensures sound { TellsSoundness self.now.network (reverse self.now.lines) result }
        ensures complete { AcceptsTruth (IsFreshAndTicked exact_limits) self.now.network
            (reverse self.now.lines) result }
        ensures complete_within_one_turn { AcceptsTruth IsWithinTurn self.now.network (reverse self.now.lines) result }
    {
        self.kept.verdict
    }
}
