//! What follows from the definitions alone, for what is written of any run.
ghost use Rattle.network_model.specs.Premises.{exact_limits, IsFreshAndTicked, IsWithinTurn};
ghost use Rattle.transcript_text.specs.Accepted.{EachRunIsTranscribed, EachRunIsAccepted, EachRunIsChecked};
ghost use Rattle.transcript_text.specs.Accepted.{EachReplayIsAccepted};
ghost use Rattle.transcript_text.specs.Fault.{FaultsHaveOneNumber};

/// What is written of nodes and of a fresh and ticked run of them is a transcript that tells the run,
/// where all values are within their ranges and there are no more lines than are allowed. So each
/// line is within 4,096 octets and is read as it was written. The same within one turn of the
/// sequence numbers.
pub fn replayed_runs_are_transcripts()
    ensures fresh_and_ticked { EachRunIsTranscribed (IsFreshAndTicked exact_limits) }
    ensures within_turn { EachRunIsTranscribed IsWithinTurn }
{}

/// Whatever verdict `check_text` answers over what `replay` writes of nodes and of a fresh and ticked
/// run of them, it accepts it, with the number of the run's reports. Where it answers a fault, a
/// device failed or memory was refused: none of 803 to 807 is answered. The same within one turn of
/// the sequence numbers.
pub fn replayed_runs_are_accepted()
    ensures accepted { EachRunIsAccepted (IsFreshAndTicked exact_limits) }
    ensures accepted_within_turn { EachRunIsAccepted IsWithinTurn }
    ensures checked { EachRunIsChecked (IsFreshAndTicked exact_limits) }
    ensures checked_within_turn { EachRunIsChecked IsWithinTurn }
{}

/// On Ok `replay` has written what `check_text` accepts: whatever octets the schedule was, if its run
/// is fresh and ticked, then over what was written `check_text` answers that it accepts, with the
/// number of the run's reports, unless a device failed or memory was refused. The same within one
/// turn of the sequence numbers.
pub fn replays_are_accepted()
    ensures fresh_and_ticked { EachReplayIsAccepted (IsFreshAndTicked exact_limits) }
    ensures within_turn { EachReplayIsAccepted IsWithinTurn }
{}

/// A fault has one number, whoever tells it: a kind of fault has that of what stopped the lines.
pub fn faults_have_one_number()
    ensures { FaultsHaveOneNumber }
{}
