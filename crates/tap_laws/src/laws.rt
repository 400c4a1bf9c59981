//! Laws of what is met at two taps, and of messages that are followed between them: contracts of functions that do nothing.

ghost use Rattle.tap_laws.specs.Asymmetry.{ShowsAsymmetry};
ghost use Rattle.tap_laws.specs.Lines.{AClockTellsWhatItDid, WhatRestsIsCablesAndClocks};
ghost use Rattle.tap_laws.specs.Record.{NothingRestsOfAClock, CablesAndTapsRest, CablesAndClocksRest};
ghost use Rattle.tap_laws.specs.Way.{EachJourneyIsAWay};
ghost use Rattle.tap_laws.specs.Choice.{TellsWhom, ChoosesWhereMetFirst, ChoosesOnceMetAtBoth};
ghost use Rattle.tap_laws.specs.InCourse.{EachCourseIsByChoice};
ghost use Rattle.tap_laws.specs.Complete.{EachCompleteIsTold, EachBeginsFree, EachStaysFree, EachToldIsFree};
ghost use Rattle.tap_laws.specs.Sound.{EachCrossingIsMade, EachWasMet, TheseAreTold};

/// A clock of this repository tells what it did: of a record that tells what entered it and what left it of that, by its
/// readings, nothing rests (`one`), and so of each crossing that is told of lines which tell such (`lines`).
pub fn nothing_rests_of_a_clock()
    ensures one { NothingRestsOfAClock }
    ensures lines { AClockTellsWhatItDid }
{}

/// What rests is cables and clocks: of a record that tells a message at two events of its way, the true times of the cables
/// in between, and what the stamp at the second tap is more ahead than that at the first. By any two stamps (`taps`), by the
/// readings of the nodes (`nodes`), and of each crossing that is told of lines which tell such (`lines`).
pub fn cables_and_clocks_rest()
    ensures taps { CablesAndTapsRest }
    ensures nodes { CablesAndClocksRest }
    ensures lines { WhatRestsIsCablesAndClocks }
{}

/// Of a Sync that went one way and a Delay_Req that went back, what the one rests more is what its cables take more, and
/// twice what the clock of the second tap is more ahead; in the sum of both the clocks don't stand. Where one clock stamps
/// both taps, at the slave's port and at the master's, twice the offset of the slave's report is twice the true difference
/// and what the Sync rests more.
pub fn asymmetry_is_of_the_ways()
    ensures { ShowsAsymmetry }
{}

/// Each copy of an event message that comes to a node has come its way: the journey of a copy is a way, by the same cables.
pub fn each_journey_is_a_way()
    ensures { EachJourneyIsAWay }
{}

/// Where no tap is asked for, `from` is the one at which the first Sync of the master that was met at both taps, within the
/// last of each, has the earlier time; where both times are equal, the one that met it first (`from`). It is known once one
/// was met at both (`some`). Domain and master are those that are asked for, or else those of the first Sync that is of what is asked
/// for (`whom`).
pub fn first_sync_at_both_taps_chooses()
    ensures whom { TellsWhom }
    ensures from { ChoosesWhereMetFirst }
    ensures some { ChoosesOnceMetAtBoth }
{}

/// Each crossing is told of messages of one number and kind, the event message at both taps, and the other at `from` and at
/// `to` where one is needed, and each message is of one crossing at the most (`made`). The messages are those that were met
/// and are followed (`met`), and what is told of these are these crossings (`told`).
pub fn each_crossing_is_of_its_messages()
    ensures made { EachCrossingIsMade }
    ensures met { EachWasMet }
    ensures told { TheseAreTold }
{}

/// A Sync or a Delay_Req that was met at both taps, with the Follow_Ups or the Delay_Resps that it needs, is told. That
/// is where no second message of its number was met at one of them since the first, which opened a record, fewer
/// records were opened since than count (256), no correction is too big, the timestamp is the same at both taps, and a
/// Sync isn't two-step at `from` alone.
pub fn each_complete_record_is_told()
    ensures { EachCompleteIsTold }
{}

/// A number has no open record before a message of it was met (`begins`, `stays`), nor between the crossing of an earlier
/// one that had the same number and the next message of it (`told`, `stays`).
pub fn a_number_is_free_until_it_is_met()
    ensures begins { EachBeginsFree }
    ensures stays { EachStaysFree }
    ensures told { EachToldIsFree }
{}

/// Messages that come to a course are followed from the tap that was chosen: what it knows is what the messages tell that were
/// met until then.
pub fn a_course_follows_from_the_chosen_tap()
    ensures { EachCourseIsByChoice }
{}
