//! What follows from the definitions alone, for any octets.
ghost use Rattle.recording_measure.specs.declared.form.Form.{Form};
ghost use Rattle.recording_measure.specs.declared.watch.WantedPorts.{WantedPorts};
ghost use Rattle.recording_measure.specs.Measure.{begun, head_text, measure_rules};
ghost use Rattle.datagram_source.specs.Input.{AnswersLines};
ghost use Rattle.datagram_text.specs.Show as lines;
ghost use Rattle.whole_program.specs.Show.{Shows};
ghost use Rattle.transcript_text.specs.CheckText.{Checks};
ghost use Rattle.transcript_text.specs.Fault.{kind_at, line_kind};
ghost use Rattle.transcript_text.specs.OneAnswer.{HasOneAnswer};
ghost use Rattle.transcript_text.specs.Replay.{Replays};

pub use datagram_text::laws::{shown_by_one_text, shown_by_some_text};
pub use schedule_lines::laws::told_lines_are_recorded;
pub use transcript_text::laws::{
    faults_have_one_number, replayed_runs_are_accepted, replayed_runs_are_transcripts,
    replays_are_accepted,
};

/// Octets have one answer: two answers over the same octets, of which neither is a fault of a device
/// or of memory, are the same answer, leave the same octets unread and have written the same. A fault
/// is the same fault at the same line then.
pub fn octets_have_one_answer()
    ensures show { HasOneAnswer kind_at Shows }
    ensures show_lines { HasOneAnswer line_kind lines.Shows }
    ensures replay { HasOneAnswer kind_at Replays }
    ensures check_text { HasOneAnswer kind_at Checks }
    ensures measure { (form : Form) (wanted : WantedPorts) → HasOneAnswer line_kind (AnswersLines measure_rules (head_text form) (begun form wanted)) }
{}
