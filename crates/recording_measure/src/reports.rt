//! Datagrams that a port hears, and what goes out of its reports.

ghost use Rattle.std.specs.Prelude.{◌≡◌, [], ◌∷◌, ◌++◌, ⊤, List, MatchResult, OnOk, Some, None, option_to_list};
ghost use Rattle.std.specs.String.{string_bytes};
ghost use Rattle.text_lines.specs.Counted.{device_of, HasNotFailed, HasFailedIf};
ghost use Rattle.text_lines.specs.Fault.{is_write};
ghost use Rattle.recording_model.specs.Listening.{after_all};
ghost use Rattle.recording_model.specs.Recorded.{Recorded};
ghost use Rattle.datagram_source.specs.Datagram.{datagram_of};
ghost use Rattle.recording_measure.specs.Row.{Row, row_of, datagrams};
ghost use Rattle.recording_measure.specs.Made.{Measured};
ghost use Rattle.recording_measure.specs.Measured.{half_of, text_as, measured_at, measurements};
ghost use Rattle.recording_measure.specs.Inner.Handing.{begun_handing};
ghost use Rattle.recording_measure.specs.Recents.{AreRecents};
ghost use Rattle.recording_measure.specs.Counts.{Fate, fate_in, fate_at, fates, IsCounts};
ghost use Rattle.recording_measure.specs.Inner.Recordings.{AreKeptRows};
ghost use Rattle.recording_measure.specs.Inner.Became.{exchange_by};
ghost use Rattle.recording_measure.specs.Inner.StandsFor.{StandsFor};
ghost use Rattle.recording_measure.specs.Inner.Hearing.{report_by};
ghost use Rattle.recording_measure.specs.Inner.Hearing.{recorded_of, completion, made_of, measured_by, IsOfOutput, Goes, GoesAtOnce};

use crate::form::Form;
use crate::listener::{Became, Listener};
use crate::recents::Recents;
use crate::recording::Kept;
use crate::tally::Tally;
use datagram_source::Datagram;
use event_codec::Body;
use ptp_units::ScaledTime;
use recording_lines::{Half, Measurement, push_json, push_row};
use recording_model::Watched;
use slave_port::{Heard, LastExchange, Report};
use std::alloc::{AllocError, Global};
use std::io::Write;
use text_lines::{Counted, LineFault, write_text};

/// A measurement, and the exchange that it was made of, which is there.
#[derive(Clone, Copy)]
pub(crate) struct Made<'a> {
    pub(crate) measured: Measurement<'a>,
    pub(crate) exchange: Option<LastExchange>,
}

/// A report, which half of it a datagram completed, and the exchange that it was made of.
#[derive(Clone, Copy)]
pub(crate) struct Completed {
    by: Half,
    report: Report,
    exchange: Option<LastExchange>,
}

impl Completed {
    /// The measurement of the datagram of this number, own or not, whose time is written so.
    pub(crate) fn at(self, own: bool, line: u64, time: &str) -> Made<'_>
        ensures { made_of result ≡ measured_by self own time.now line }
    {
        let measured = Measurement {
            by: self.by,
            own,
            line,
            time,
            report: self.report,
        };
        Made {
            measured,
            exchange: self.exchange,
        }
    }
}

/// Which half of a report a message completes.
fn half_of(body: &Body) -> Half
    ensures { result ≡ half_of body.now }
{
    match body {
        Body::DelayResp { .. } => Half::Response,
        _ => Half::Sync,
    }
}

/// The report in what became of a message.
fn report_in(became: &Became) -> Option<Report>
    ensures { result ≡ report_by became.now }
{
    match became {
        Became::Heard(reply) | Became::HeardAnew(reply) => match reply.heard {
            Heard::Report(report) => Some(report),
            _ => None,
        },
        _ => None,
    }
}

/// The exchange of the port's last report once it heard a message, of which this became.
fn exchange_in(became: &Became) -> Option<LastExchange>
    ensures { result ≡ exchange_by became.now }
{
    match became {
        Became::Heard(reply) | Became::HeardAnew(reply) => reply.exchange,
        _ => None,
    }
}

/// Appends a measurement as it is asked for.
fn push_as(form: Form, text: &mut String, made: &Made<'_>) -> Result<(), AllocError>
    ensures { OnOk result (string_bytes text.new ≡ string_bytes text.old ++ text_as form (made_of made.now)) }
{
    let Made { measured, exchange } = made;
    match (form, exchange) {
        (Form::Json, _) => push_json(text, measured),
        (Form::Table, _) => push_row(text, measured),
        (Form::FullJson, Some(exchange)) => crate::exchange::push_json(text, measured, exchange),
        (Form::FullTable, Some(exchange)) => crate::exchange::push_row(text, measured, exchange),
        (Form::FullJson | Form::FullTable, None) | (Form::Sums | Form::Completions, _) => Ok(()),
    }
}

/// Where reports go.
#[derive(Drop)]
pub(crate) struct Reports {
    pub(crate) form: Form,
    /// The line of the last one, in the one text that all share.
    text: String,
    pub(crate) tally: Tally,
    pub(crate) recents: Recents,
}

impl Reports {
    /// No report came yet.
    pub(crate) fn new(alloc: Global, form: Form) -> Reports
        ensures form { result.form ≡ form }
        ensures counted { IsCounts [] result.tally.counts }
        ensures recents { AreRecents [] result.recents }
        ensures handing { result.recents.fresh.handing ≡ begun_handing form }
    {
        Reports {
            form,
            text: String::new(alloc),
            tally: Tally::new(),
            recents: Recents::new(alloc, form),
        }
    }

    /// A port hears a datagram. Answers the report that this completes.
    pub(crate) fn listen(
        &mut self,
        listener: &mut Listener,
        datagram: &Datagram<'_>,
    ) -> Option<Completed>
        ensures heard { (watched : Watched) (earlier : List Recorded)
            → StandsFor watched listener.old (after_all watched earlier)
            → StandsFor watched listener.new (after_all watched (recorded_of datagram.now ∷ earlier))
            × (result ≡ completion watched earlier (recorded_of datagram.now)) }
        ensures counted { (watched : Watched) (earlier : List Recorded) (all : List Fate)
            → StandsFor watched listener.old (after_all watched earlier) → IsCounts all self.old.tally.counts
            → IsCounts (fate_in watched (recorded_of datagram.now) datagram.now.octets.now (after_all watched earlier) ∷ all)
            self.new.tally.counts }
        ensures recents { self.new.recents ≡ self.old.recents }
        ensures form { self.new.form ≡ self.old.form }
    {
        self.tally.note(datagram);
        let message = match &datagram.said {
            Ok(message) => message,
            Err(refusal) => {
                self.tally.count_refused(*refusal);
                self.tally
                    .count_announcement(listener.announcement(datagram.number, datagram.octets));
                return None;
            }
        };
        let became = listener.hear(datagram.number, datagram.time, message);
        self.tally.count_heard(
            datagram.number,
            datagram.time,
            message,
            listener.domain(),
            &became,
        );
        Some(Completed {
            by: half_of(&message.body),
            report: report_in(&became)?,
            exchange: exchange_in(&became),
        })
    }

    /// Writes the report of the last datagram, which is of this time, in one write.
    pub(crate) fn write<W: Write>(
        &mut self,
        time: ScaledTime,
        made: &Made<'_>,
        output: &mut Counted<W>,
    ) -> Result<(), LineFault>
        ensures written { GoesAtOnce result (text_as self.old.form (made_of made.now))
            (W.contents (device_of output.old)) (W.contents (device_of output.new)) }
        ensures counted { (fate : Fate) (all : List Fate) → fate.measured ≡ None → fate.datagram.line ≡ made.now.measured.line
            → fate.datagram.time ≡ time → IsCounts (fate ∷ all) self.old.tally.counts
            → OnOk result (IsCounts (record fate { measured = Some (made_of made.now) } ∷ all) self.new.tally.counts) }
        ensures recents { (earlier : List Measured) → AreRecents earlier self.old.recents
            → OnOk result (AreRecents (made_of made.now ∷ earlier) self.new.recents) }
        ensures handing { self.new.recents.fresh.handing ≡ self.old.recents.fresh.handing }
        ensures form { self.new.form ≡ self.old.form }
        ensures failures { MatchResult result
            (λ _. HasNotFailed output.old output.new)
            (λ fault. HasFailedIf (is_write fault) output.old output.new) }
    {
        self.text.clear();
        push_as(self.form, &mut self.text, made)?;
        self.recents.take(made)?;
        write_text::<W, LineFault>(self.text.as_str(), output)?;
        self.tally.count_report(time, made);
        Ok(())
    }
}

/// Reports, and where their times are written.
#[derive(Drop)]
pub(crate) struct TimedReports {
    pub(crate) reports: Reports,
    /// The time of the last one, in the one text that all share.
    time: String,
}

impl TimedReports {
    /// No report came yet.
    pub(crate) fn new(alloc: Global, form: Form) -> TimedReports
        ensures form { result.reports.form ≡ form }
        ensures counted { IsCounts [] result.reports.tally.counts }
        ensures recents { AreRecents [] result.reports.recents }
        ensures handing { result.reports.recents.fresh.handing ≡ begun_handing form }
    {
        TimedReports {
            reports: Reports::new(alloc, form),
            time: String::new(alloc),
        }
    }

    /// A port hears a datagram, and its report goes out.
    pub(crate) fn hear<W: Write>(
        &mut self,
        listener: &mut Listener,
        datagram: &Datagram<'_>,
        output: &mut Counted<W>,
    ) -> Result<(), LineFault>
        ensures heard { (watched : Watched) (earlier : List Row)
            → StandsFor watched listener.old (after_all watched (datagrams earlier))
            → OnOk result (StandsFor watched listener.new (after_all watched (datagrams (row_of (datagram_of datagram.now) ∷ earlier))))
            × Goes self.old.reports.form result (option_to_list (measured_at watched earlier (row_of (datagram_of datagram.now))))
            (W.contents (device_of output.old)) (W.contents (device_of output.new)) }
        ensures counted { (watched : Watched) (earlier : List Row) (all : List Fate)
            → StandsFor watched listener.old (after_all watched (datagrams earlier)) → IsCounts all self.old.reports.tally.counts
            → OnOk result (IsCounts (fate_at watched earlier (row_of (datagram_of datagram.now)) ∷ all) self.new.reports.tally.counts) }
        ensures recents { (watched : Watched) (earlier : List Row) (all : List Measured)
            → StandsFor watched listener.old (after_all watched (datagrams earlier)) → AreRecents all self.old.reports.recents
            → OnOk result (AreRecents (option_to_list (measured_at watched earlier (row_of (datagram_of datagram.now))) ++ all)
            self.new.reports.recents) }
        ensures handing { self.new.reports.recents.fresh.handing ≡ self.old.reports.recents.fresh.handing }
        ensures of_output { MatchResult result (λ _. ⊤) IsOfOutput }
        ensures form { self.new.reports.form ≡ self.old.reports.form }
        ensures failures { MatchResult result
            (λ _. HasNotFailed output.old output.new)
            (λ fault. HasFailedIf (is_write fault) output.old output.new) }
    {
        let Some(completed) = self.reports.listen(listener, datagram) else {
            return Ok(());
        };
        self.time.clear();
        datagram.stamp.push(&mut self.time)?;
        self.reports.write(
            datagram.time,
            &completed.at(datagram.own, datagram.number, self.time.as_str()),
            output,
        )
    }

    /// A port hears all datagrams that were kept.
    pub(crate) fn hear_kept<W: Write>(
        &mut self,
        listener: &mut Listener,
        kept: &[Kept],
        output: &mut Counted<W>,
    ) -> Result<(), LineFault>
        ensures heard { (watched : Watched) (rows : List Row) → AreKeptRows [] kept.now rows
            → StandsFor watched listener.old (after_all watched [])
            → OnOk result (StandsFor watched listener.new (after_all watched (datagrams rows)))
            × Goes self.old.reports.form result (measurements watched rows)
            (W.contents (device_of output.old)) (W.contents (device_of output.new)) }
        ensures counted { (watched : Watched) (rows : List Row) → AreKeptRows [] kept.now rows
            → StandsFor watched listener.old (after_all watched []) → IsCounts [] self.old.reports.tally.counts
            → OnOk result (IsCounts (fates watched rows) self.new.reports.tally.counts) }
        ensures recents { (watched : Watched) (rows : List Row) → AreKeptRows [] kept.now rows
            → StandsFor watched listener.old (after_all watched []) → AreRecents [] self.old.reports.recents
            → OnOk result (AreRecents (measurements watched rows) self.new.reports.recents) }
        ensures handing { self.new.reports.recents.fresh.handing ≡ self.old.reports.recents.fresh.handing }
        ensures of_output { MatchResult result (λ _. ⊤) IsOfOutput }
        ensures form { self.new.reports.form ≡ self.old.reports.form }
        ensures failures { MatchResult result
            (λ _. HasNotFailed output.old output.new)
            (λ fault. HasFailedIf (is_write fault) output.old output.new) }
    {
        for it in kept {
            self.hear(listener, &it.datagram(), output)?;
        }
        Ok(())
    }
}
