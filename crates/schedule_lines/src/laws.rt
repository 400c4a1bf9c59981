//! Laws that follow from the definitions, each the contract of a function that does nothing: a caller
//! that needs one in its proof calls it.

ghost use Rattle.network_model.specs.Premises.{exact_limits, IsFreshAndTicked, IsWithinTurn};
ghost use Rattle.schedule_lines.specs.Keys.{LinesHaveOwnKeys, TranscriptLinesHaveOwnKeys, NumbersHaveOneText};
ghost use Rattle.schedule_lines.specs.Ranges.{NodesReadBack, ScheduledReadBack, EventsReadBack};
ghost use Rattle.schedule_lines.specs.Ranges.{NodeTextsReadBack, EventTextsReadBack, ReadsInRange};
ghost use Rattle.schedule_lines.specs.Ranges.{EachToldLineIsRecorded, EachToldLineIsTagged};

/// What is written of a node is read as that node, what an event's own keys say in a schedule as that
/// event, and what is written of an event as the number and what was recorded that it was written
/// from, for all values that are within their ranges.
pub fn written_lines_are_read()
    ensures nodes { NodesReadBack }
    ensures scheduled { ScheduledReadBack }
    ensures events { EventsReadBack }
{}

/// The compact text of a line, without its LF, is read by `serde_json` as the value that it was
/// written from, for all values that are within their ranges and tags of 64 bits.
pub fn written_texts_are_read()
    ensures nodes { NodeTextsReadBack }
    ensures events { EventTextsReadBack }
{}

/// Whatever is read is within its ranges: names are names, moments are below 2^48 s, texts of numbers
/// have 32 octets at the most, a message has at most 54 octets, and a reading stands where there is a
/// true moment and nowhere else. So each line of a transcript that is read can be written and read
/// again.
pub fn read_lines_are_in_range()
    ensures { ReadsInRange }
{}

/// What is read as a line has just the keys of what is written of that line: in a schedule those of a
/// node or of the event itself, in a transcript those that tell what was recorded too.
pub fn read_lines_have_own_keys()
    ensures schedule { LinesHaveOwnKeys }
    ensures transcript { TranscriptLinesHaveOwnKeys }
{}

/// A signed number has one text: texts that are read as the same number are the same.
pub fn numbers_have_one_text()
    ensures { NumbersHaveOneText }
{}

/// Each line that tells an event of a run, which is fresh and ticked or within one turn, is within its
/// ranges, where the event is: its reading is a moment, it is there exactly where the event has a true
/// moment, and what it has of the outcome can be written. Its tags have 64 bits, where its number has.
pub fn told_lines_are_recorded()
    ensures recorded { EachToldLineIsRecorded (IsFreshAndTicked exact_limits) }
    ensures recorded_within_turn { EachToldLineIsRecorded IsWithinTurn }
    ensures tagged { EachToldLineIsTagged (IsFreshAndTicked exact_limits) }
    ensures tagged_within_turn { EachToldLineIsTagged IsWithinTurn }
{}
