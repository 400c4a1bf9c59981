//! What is done with the datagrams and the results of an input.

ghost use Rattle.std.specs.Prelude.{◌≡◌, ◌≤◌, ◌++◌, true, length, MatchResult, OnOk, reverse, string_bytes};
ghost use Rattle.text_lines.specs.Counted.{device_of, HasNotFailed, HasFailedIf};
ghost use Rattle.text_lines.specs.Fault.{is_write};
ghost use Rattle.text_lines.specs.Lines.{line_limit};
ghost use Rattle.result_audit.specs.Auditor.{Auditing, Begins, auditing_of};
ghost use Rattle.audit_command.specs.Audit.{Audited, audit_begun, audit_rules, report_of, text_of};
ghost use Rattle.audit_command.specs.Audit.{TakesCompletion, TakesAll, TakesReports, StopsReports, TakesTold, StopsTold};
ghost use Rattle.audit_command.specs.AuditLines.{IsResult, IsNoResult, TakesAs, StopsAs};
ghost use Rattle.audit_command.specs.Ending.{TellsAside, IsEnding};
ghost use Rattle.audit_command.specs.Input.{head_text};
ghost use Rattle.recording_measure.specs.Measure.{has_reported};
ghost use Rattle.audit_command.specs.Inner.Task.{IsAt, GoesAtOnce, GoesOr, Says, SaysInPart, TakesNew};

use crate::ending::Ending;
use crate::tally::Tally;
use capture_file::InterfaceName;
use datagram_source::{Datagram, DatagramTask, LineForm};
use json::Scratch;
use recording_measure::{Aside, Completion, MeasureTask, WantedPorts};
use result_audit::{Answer, Auditor, ReportAt, Told, push_json, push_row, read_told, table_head};
use result_verdict::Exact;
use std::alloc::{AllocError, Global};
use std::io::Write;
use text_lines::{Counted, LineFault, write_text};

/// How results are judged, and what is said of them written.
#[derive(Clone, Copy)]
pub(crate) struct AuditForm {
    /// By so much a number may be off.
    pub(crate) tolerance: Exact,
    /// Whether results have path delays.
    pub(crate) has_path: bool,
    /// Whether the output is CSV, in place of JSON.
    pub(crate) is_table: bool,
}

impl AuditForm {
    /// What stands above all that is said.
    pub(crate) fn head(&self) -> &'static str
        ensures { result.now ≡ head_text self.now.is_table }
    {
        if self.is_table { table_head() } else { "" }
    }
}

/// A report with its exchange, which is there.
fn report_at(completion: &Completion) -> Option<ReportAt>
    ensures { result ≡ report_of completion.now }
{
    Some(ReportAt {
        by: completion.by,
        line: completion.line,
        report: completion.report,
        exchange: completion.exchange?,
    })
}

/// Takes a report.
fn take_completion(auditor: &mut Auditor, completion: &Completion) -> Result<(), AllocError>
    ensures { OnOk result (TakesCompletion completion.now (auditing_of auditor.old) (auditing_of auditor.new)) }
{
    match report_at(completion) {
        Some(at) => auditor.take(&at),
        None => Ok(()),
    }
}

/// Takes reports in order.
fn take_completions(auditor: &mut Auditor, completions: &[Completion]) -> Result<(), AllocError>
    ensures { OnOk result (TakesAll (reverse completions.now) (auditing_of auditor.old) (auditing_of auditor.new)) }
{
    for completion in completions {
        take_completion(auditor, completion)?;
    }
    Ok(())
}

/// Measures the datagrams of an input, and judges the results that it tells by that.
#[derive(Drop)]
pub(crate) struct AuditTask {
    alloc: Global,
    form: AuditForm,
    pub(crate) measure: MeasureTask,
    auditor: Auditor,
    scratch: Scratch,
    /// What is said of the last result, in the one text that all share.
    text: String,
    pub(crate) tally: Tally,
}

impl AuditTask {
    /// Nothing came yet.
    pub(crate) fn new(alloc: Global, wanted: &WantedPorts, form: AuditForm) -> AuditTask
        ensures { (a : Auditing) × Begins form.tolerance a × IsAt result (audit_begun wanted.now form a) }
    {
        AuditTask {
            alloc,
            form,
            measure: MeasureTask::for_completions(alloc, wanted),
            auditor: Auditor::new(alloc, form.tolerance),
            scratch: Scratch::new(alloc),
            text: String::new(alloc),
            tally: Tally::new(),
        }
    }

    /// How many datagrams were left aside, once a report was measured.
    fn aside(&self) -> Option<Aside>
        ensures { (s : Audited) → IsAt self.now s → TellsAside (has_reported s.reading) s.reading result }
    {
        if self.measure.has_reported() {
            Some(self.measure.aside())
        } else {
            None
        }
    }

    /// What is told of results by now.
    pub(crate) fn ending(&self) -> Ending
        ensures { (s : Audited) → IsAt self.now s → IsEnding s result }
    {
        Ending {
            results: self.tally.told,
            totals: self.tally.totals,
            without_result: self.auditor.without_result(),
            is_own: self.measure.is_own(),
            aside: self.aside(),
        }
    }

    /// Takes a result, and what may be said then goes out.
    pub(crate) fn take_told<W: Write, E: Write>(
        &mut self,
        told: Told,
        output: &mut Counted<W>,
        errors: &mut E,
    ) -> Result<(), LineFault>
        ensures taken { GoesOr result (TakesTold told) (StopsTold told) self.old self.new
            (W.contents (device_of output.old)) (W.contents (device_of output.new)) }
        ensures failures { MatchResult result
            (λ _. HasNotFailed output.old output.new)
            (λ fault. HasFailedIf (is_write fault) output.old output.new) }
    {
        self.tally.count_told();
        self.auditor.take_told(told)?;
        self.write_answers(output, errors)
    }

    /// Reads the result that a line tells, and takes it.
    pub(crate) fn take_line<W: Write, E: Write>(
        &mut self,
        line: &[u8],
        number: u64,
        output: &mut Counted<W>,
        errors: &mut E,
    ) -> Result<(), LineFault>
        requires { length line.now ≤ line_limit }
        ensures taken { GoesOr result (TakesAs true number line.now) (StopsAs true number line.now) self.old self.new
            (W.contents (device_of output.old)) (W.contents (device_of output.new)) }
        ensures failures { MatchResult result
            (λ _. HasNotFailed output.old output.new)
            (λ fault. HasFailedIf (is_write fault) output.old output.new) }
    {
        let told = read_line(
            self.alloc,
            &mut self.scratch,
            line,
            number,
            self.form.has_path,
        )?;
        self.take_told(told, output, errors)
    }

    /// Takes the reports that were new once the datagrams up to this number were measured, and what may be said then goes out.
    fn take_reports<W: Write, E: Write>(
        &mut self,
        number: u64,
        output: &mut Counted<W>,
        errors: &mut E,
    ) -> Result<(), LineFault>
        ensures taken { GoesOr result (TakesReports number) (StopsReports number) self.old self.new
            (W.contents (device_of output.old)) (W.contents (device_of output.new)) }
        ensures failures { MatchResult result
            (λ _. HasNotFailed output.old output.new)
            (λ fault. HasFailedIf (is_write fault) output.old output.new) }
    {
        self.take_new(number)?;
        self.write_answers(output, errors)
    }

    /// Takes the reports that were new, and notes up to which number the datagrams were measured.
    fn take_new(&mut self, number: u64) -> Result<(), AllocError>
        ensures { OnOk result (TakesNew number self.old self.new) }
    {
        take_completions(&mut self.auditor, self.measure.completions())?;
        self.measure.hand_on()?;
        self.auditor.pass(number)
    }

    /// What may be said goes out.
    fn write_answers<W: Write, E: Write>(
        &mut self,
        output: &mut Counted<W>,
        errors: &mut E,
    ) -> Result<(), LineFault>
        ensures said { GoesOr result Says SaysInPart self.old self.new (W.contents (device_of output.old)) (W.contents (device_of output.new)) }
        ensures failures { MatchResult result
            (λ _. HasNotFailed output.old output.new)
            (λ fault. HasFailedIf (is_write fault) output.old output.new) }
    {
        while let Some(answer) = self.auditor.next_answer() {
            self.write(&answer, output)?;
            self.tally.take(&answer, errors);
        }
        Ok(())
    }

    /// Writes what is said of a result, in one write.
    fn write<W: Write>(&mut self, answer: &Answer, output: &mut Counted<W>) -> Result<(), LineFault>
        ensures written { GoesAtOnce result (text_of self.old.form.is_table answer.now)
            (W.contents (device_of output.old)) (W.contents (device_of output.new)) }
        ensures others { self.new ≡ record self.old { text = self.new.text } }
        ensures failures { MatchResult result
            (λ _. HasNotFailed output.old output.new)
            (λ fault. HasFailedIf (is_write fault) output.old output.new) }
    {
        self.text.clear();
        push_answer(&mut self.text, self.form.is_table, answer)?;
        write_text::<W, LineFault>(self.text.as_str(), output)
    }
}

/// Appends what is said of a result.
fn push_answer(text: &mut String, is_table: bool, answer: &Answer) -> Result<(), AllocError>
    ensures { OnOk result (string_bytes text.new ≡ string_bytes text.old ++ text_of is_table answer.now) }
{
    if is_table {
        push_row(text, answer)
    } else {
        push_json(text, answer)
    }
}

/// Reads the result that a line tells.
fn read_line(
    alloc: Global,
    scratch: &mut Scratch,
    line: &[u8],
    number: u64,
    has_path: bool,
) -> Result<Told, LineFault>
    requires { length line.now ≤ line_limit }
    ensures { MatchResult result (IsResult has_path number line.now) (λ fault. IsNoResult fault has_path number line.now) }
{
    match str::from_utf8(line) {
        Ok(text) => read_told(alloc, scratch, text, number, has_path),
        Err(_) => Err(LineFault::Field),
    }
}

impl DatagramTask for AuditTask {
    type Fault = LineFault;

    ghost State = { Audited };

    ghost rules = { audit_rules };

    ghost is_at = { IsAt };

    fn subcommand() -> &'static str {
        "audit"
    }

    fn line_form() -> LineForm {
        LineForm::Timed
    }

    fn asked(&self) -> Option<InterfaceName> {
        self.measure.asked()
    }

    fn fault_of(fault: LineFault) -> LineFault {
        fault
    }

    fn take<W: Write, E: Write>(
        &mut self,
        datagram: &Datagram<'_>,
        output: &mut Counted<W>,
        errors: &mut E,
    ) -> Result<(), LineFault> {
        self.measure.take(datagram, output, errors)?;
        self.take_reports(datagram.number, output, errors)
    }

    fn finish<W: Write, E: Write>(
        &mut self,
        output: &mut Counted<W>,
        errors: &mut E,
    ) -> Result<(), LineFault> {
        self.auditor.end()?;
        self.write_answers(output, errors)
    }
}
