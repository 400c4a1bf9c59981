//! Laws of lines, each the contract of a function that does nothing: a caller that needs the law in its
//! proof calls it.

ghost use Rattle.trace_model.specs.ByMessages.{EachTellsTheReadings, EachSoundTellsTheReadings};
ghost use Rattle.trace_model.specs.Complete.{Complete, CompleteWithinOneTurn, EachExchangeIsWritten};
ghost use Rattle.trace_model.specs.Complete.{EachMessageIsWritten};
ghost use Rattle.trace_model.specs.Faithful.{EachEventHasItsLine, EachEventIsRecorded};
ghost use Rattle.trace_model.specs.Faithful.{EachJourneyIsTold, EachLineIsGood};
ghost use Rattle.trace_model.specs.Field.{EachFieldIsTested, EachTellsAlike};
ghost use Rattle.trace_model.specs.Finding.{EachReasonHasItsFinding};
ghost use Rattle.trace_model.specs.Octets.{EachPacketIsTested};
ghost use Rattle.trace_model.specs.Soundness.{ReasonsMissNothing, VerdictsTellSoundness};

/// Whatever wrote the lines, there is no reason against a report line exactly where all eight
/// conditions of a sound line hold.
pub fn reasons_miss_nothing()
    ensures { ReasonsMissNothing }
{}

/// Whatever wrote the lines, the verdict on them is accepted exactly where each report line is sound,
/// with their number, and refused exactly where one isn't, with the first such line and the first
/// condition that it fails.
pub fn verdicts_tell_soundness()
    ensures { VerdictsTellSoundness }
{}

/// The test of octets that a sound line's last condition asks is the layout's one relation: it holds
/// exactly where the octets are the message.
pub fn each_packet_is_tested()
    ensures { EachPacketIsTested }
{}

/// Octets are a message exactly where they have no field otherwise: the list of those that they have
/// otherwise leaves nothing out.
pub fn fields_are_tested()
    ensures { EachFieldIsTested }
{}

/// Whatever octets tell the same as a message is used by a slave as the message is, and answered by a
/// master as it is: in what fields they differ from it, nobody reads anything.
pub fn unread_fields_change_nothing()
    ensures { EachTellsAlike }
{}

/// The results by the messages are those by the readings where the messages that came to the slave tell
/// the same as those that ports and clocks write: of octets, only fields that are read are asked for.
/// So it is where all octets of the exchange are right.
pub fn messages_tell_the_readings()
    ensures told { EachTellsTheReadings }
    ensures sound { EachSoundTellsTheReadings }
{}

/// Whatever wrote the lines, there is a finding of a reason exactly where it is among the reasons against
/// a report.
pub fn each_reason_has_its_finding()
    ensures { EachReasonHasItsFinding }
{}

/// Each line that tells an event of a world is good, and counts exactly where the event took effect:
/// where no port and no clock refused it, and no slave ignored it. An event that took effect is told
/// by the line that has its tag for a number.
pub fn each_line_is_good()
    ensures good { EachLineIsGood }
    ensures found { EachEventHasItsLine }
{}

/// Each line that tells an event with a true moment has its reading, and the lines before it ask for
/// no other: they tell of each step of the clock.
pub fn each_reading_is_recorded()
    ensures { EachEventIsRecorded }
{}

/// The journey of each copy of a Sync or a Delay_Req is the one that lines tell: it begins at the line
/// of the same event, and each of its stays is the stay of the same two events.
pub fn each_journey_is_told()
    ensures { EachJourneyIsTold }
{}

/// Of lines that tell any run of a world, each that tells of a message has the octets that its port or
/// its clock writes, by the readings and the numbers that the lines before it tell. So whatever
/// exchange a line has, its octets are right.
pub fn each_message_is_written()
    ensures message { EachMessageIsWritten }
    ensures exchange { EachExchangeIsWritten }
{}

/// Nothing is missed: lines that tell a run which is fresh and ticked, of whatever length, are accepted, with
/// the number of its reports. Each line that tells a report meets every condition of a sound line but that on
/// octets, which each exchange meets.
pub fn verdicts_miss_nothing()
    ensures { Complete }
{}

/// The same where the numbers of no port have come round, however old what is heard and however rare
/// the ticks.
pub fn verdicts_miss_nothing_within_one_turn()
    ensures { CompleteWithinOneTurn }
{}
