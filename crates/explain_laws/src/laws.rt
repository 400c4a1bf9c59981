//! Laws of what `explain` and `measure` write: contracts of functions that do nothing.

ghost use Rattle.explain_laws.specs.AsChecked.{ExplainsAsChecked, JudgementsHaveOneAnswer, JudgesAsChecked};
ghost use Rattle.explain_laws.specs.ReadBack.{EachJudgementIsJson};
ghost use Rattle.explain_laws.specs.Unread.{EachOtherTellsTheReadings};
ghost use Rattle.explain_laws.specs.Measurements.{EachMeasurementIsJson};
ghost use Rattle.explain_laws.specs.FullMeasurements.{EachFullMeasurementIsJson};

/// What `explain --json` writes of a report is one line of printed octets, which is read as an object of 18 members:
/// `brackets`, `by_messages`, `by_readings`, `error`, `event`, `line`, `node`, `octets`, `offset2`, `otherwise`, `path2`,
/// `reasons`, `t1`, `t2`, `t3`, `t4`, `tags` and `time`, with the values of that judgement. This holds of all numbers of 64 bits, of results of 128 bits, of any name that a node may have,
/// and of each moment.
pub fn judgements_are_json()
    ensures { EachJudgementIsJson }
{}

/// Octets have one answer of `write_judgements`: two answers over the same octets, of which neither is a fault of a device or
/// of memory, are the same verdict or number of events, or the same fault at the same line; they leave the same octets, and
/// one text was written by both, whatever the writers held before.
pub fn judgements_have_one_answer()
    ensures { JudgementsHaveOneAnswer }
{}

/// `write_judgements` answers over a transcript what `check_text` answers over the same octets, the verdict or the fault at
/// its line, and over a schedule what `replay` does, the number of events or the fault; and both leave the same octets. Left
/// out are faults of a device and want of memory.
pub fn judges_as_checked()
    ensures { JudgesAsChecked }
{}

/// `explain` answers so, too, with its first fault: what `check_text` answers over the same octets, and over a schedule
/// what `replay` does. Where a line can't be read, they have that fault, or one of a line before it: `explain` reads on
/// behind its first fault.
pub fn explains_as_checked()
    ensures { ExplainsAsChecked }
{}

/// What `"octets":"other"` of `explain --json` says of a report against which none of 701, 702, 704 and 707 stands: its two
/// results by the messages are those by the readings, so that the slave was told nothing else than what the clocks read.
pub fn other_octets_tell_the_readings()
    ensures { EachOtherTellsTheReadings }
{}

/// What `measure` writes of a report as JSON is one line of printed octets, which is read as an object of eight members: `by`, `line`,
/// `offset`, `offset2`, `path`, `path2`, `tags` and `time`, with the values of that report, of its line and of its time. This holds
/// of all numbers of 64 bits, of results of 128 bits, and of any time that is read.
pub fn measurements_are_json()
    ensures { EachMeasurementIsJson }
{}

/// What `measure` writes in full is an object of seventeen members: those eight, and `delay_correction`,
/// `request_number`, `sync_correction`, `sync_number`, `t1`, `t2`, `t2_to_t3`, `t3` and `t4`, with the values of its exchange.
pub fn full_measurements_are_json()
    ensures { EachFullMeasurementIsJson }
{}
