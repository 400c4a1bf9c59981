//! Laws of recordings, each the contract of a function that does nothing: a caller that needs the law in its
//! proof calls it.

ghost use Rattle.recording_model.specs.Apart.{NoReportJoinsTwoLives};
ghost use Rattle.recording_model.specs.Begins.{EachBeginningIsTold};
ghost use Rattle.recording_model.specs.Completes.{WhatIsHeldCompletes};
ghost use Rattle.recording_model.specs.Copies.{NoCopyIsReported};
ghost use Rattle.recording_model.specs.Exact.{EachReportIsExact};
ghost use Rattle.recording_model.specs.Finds.{EachExchangeIsFound};
ghost use Rattle.recording_model.specs.Lives.{NoReportMixesLives};
ghost use Rattle.recording_model.specs.Pairs.{NoReportedPairIsApart};
ghost use Rattle.recording_model.specs.WhatIsRead.{EachAnswerRestsOnWhatIsRead};

/// What a slave's port answers to messages rests on what it reads of them: on their type; of a Sync, a Follow_Up or
/// a Delay_Resp on domain, source, sequenceId and correction; of a Sync on the twoStepFlag, and where it is
/// one-step on originTimestamp; of a Follow_Up on preciseOriginTimestamp; of a Delay_Resp on receiveTimestamp and
/// requestingPortIdentity. To messages with nothing else in them it answers the same, whatever it is told.
pub fn each_answer_rests_on_what_is_read()
    ensures { EachAnswerRestsOnWhatIsRead }
{}

/// What a port reports that listens to a recording at a slave is exact: of one Sync of the master and of one
/// Delay_Req to it, those that its lines tell, and twice the standard's two results for them, without any
/// error. This holds over every accepted run of a network, of whatever length, that the recording tells at
/// the slave, and in which no number is too old when it is used, ticks come often enough, and few
/// Delay_Reqs are missing in a row.
///
/// A recorded message tells one of the run where both agree in what a slave's port reads, and of a Delay_Req in
/// domain, source and sequenceId; all else of it is free. Any part of the correction of a two-step Sync may stand
/// in its Follow_Up instead, by the same amount in all copies of both, as two-step transparent clocks have it.
/// Between may stand what is none of the four messages, a Sync, Follow_Up or Delay_Resp that the port doesn't
/// use, Delay_Reqs of other ports, and the slave's last one again.
pub fn each_report_is_exact()
    ensures { EachReportIsExact }
{}

/// No report of a port that listens to a recording rests on a line from before its last beginning: each line that
/// a report names is that at which the slave or the master was told to have begun anew, or one behind it. This
/// holds of whatever is recorded, in lines with growing numbers. Which lines tell that is said by
/// [`each_beginning_is_told`].
pub fn no_report_mixes_lives()
    ensures { NoReportMixesLives }
{}

/// No report of a port that listens to a recording rests on a Sync and a Follow_Up whose recorded times are a
/// second or more apart. This holds of whatever is recorded, in lines with growing numbers, under two premises:
///
/// - Both have the same unicastFlag. The port pairs by sequenceId alone, while numbers with the flag and numbers
///   without it are known apart: a Follow_Up whose flag isn't its Sync's completes it whenever it comes.
/// - Fewer than 256 messages like the first of the two are heard between them: Syncs of the master with its flag
///   where the Sync came first, else such Follow_Ups. The last 256 of these that were heard are known, but the port
///   holds fewer: no one-step Sync, and nothing that it ignores as too big a correction (507) or as not newer (512).
///   Where 256 come between and such are among them, the first is known no more, though the port may hold it still,
///   and pair it.
pub fn no_reported_pair_is_apart()
    ensures { NoReportedPairIsApart }
{}

/// No report of a port that listens to a recording joins messages of two lives of its master whose Syncs are told apart:
/// where a Sync tells a beginning, each line that a report names then, or later, is that of this Sync or one behind it. A
/// Sync tells one for certain where its number isn't 1 to 256 ahead of that of the newest Sync of the life before, and each
/// Sync of that life is a second or more from it or far from it by its number. This holds of whatever is recorded, in
/// lines with growing numbers.
pub fn no_report_joins_two_lives()
    ensures { NoReportJoinsTwoLives }
{}

/// A port that listens to a recording begins anew exactly where a recording tells that the slave or the master did,
/// whatever is recorded: the line at which it began last is that of the last of these, or 0.
///
/// - A Delay_Req of the slave, not its first, whose number is neither its last one's again nor 1 to 256 ahead of that.
/// - A Sync of the master by which the rules of `sync_watch` say that it began anew. Of the Syncs with its flag since the master
///   began, without copies, N is the newest. Among the last 256 of these one has its number and came a second or more from
///   it, or else such a Follow_Up did among the last 256; or none of them has its number, and it isn't of the life of N:
///   it is neither 1 to 256 ahead of N, unless it is more than 16 ahead, and more than twice as many as fit in the time since
///   N by the interval that it tells, nor up to 255 behind N and less than a second from it.
///
/// Of the port the rule asks nothing: it is one of what is recorded alone.
pub fn each_beginning_is_told()
    ensures { EachBeginningIsTold }
{}

/// What a port holds that listens to a recording completes, whatever is recorded. A two-step Sync that it uses completes
/// with the newest Follow_Up that it holds under its number, and exactly where it holds one; a Follow_Up with the
/// newest two-step Sync; and a Delay_Resp with the newest request of which it is known when it left. At each such
/// completion, and at that of a one-step Sync, there is a report exactly where a Sync and a request completed in the
/// window: the last two that did. Which messages it hears and holds is said by [`each_exchange_is_found`] alone.
pub fn what_is_held_completes()
    ensures { WhatIsHeldCompletes }
{}

/// An exchange that stands in a recording is found: the last of a two-step Sync and its Follow_Up, or of a one-step Sync,
/// and of a Delay_Req of the slave and its Delay_Resp brings the report of these, in whatever order they come that has
/// the Delay_Req before its Delay_Resp. This holds of whatever else is recorded, in lines with growing numbers, under
/// these premises:
///
/// - The Sync is of the master, and its correction isn't too big. A two-step one has a Follow_Up of the master with its
///   number, less than a second apart, whose correction isn't too big either. Between these two stand at most 255
///   Syncs of the master where the Sync came first, else at most 255 Follow_Ups and 4,095 Syncs, and the port hears none
///   of these that has their number: copies may stand there.
/// - The port uses the Sync, and both where there are two. It does so where none of their number is among the last 256
///   Syncs of a flag that it heard until the first of the two, nor among the last 256 Follow_Ups; where the Follow_Up's
///   number is up to 255 behind or up to 256 ahead of that of the newest Sync with its flag since the master began; and
///   where each number of which it was said when its Sync left, by a Follow_Up or as a one-step Sync, behind which fewer than
///   16,384 Syncs were heard, is the same or at most 32,767 behind. Of a one-step Sync that is asked only of those with its
///   flag that came before it.
/// - The Delay_Resp is to the slave, and its correction isn't too big. The Delay_Req, whose number it has, isn't the
///   slave's last one again, and those between them are at most 255 numbers ahead of it. The port uses the Delay_Resp,
///   as it does where no other of this number is among the last 256 to the slave that it heard.
/// - After the half that completes first, which may be a one-step Sync alone, fewer than 4,096 Syncs of the master come,
///   and nothing that completes another: no Delay_Resp to the slave, or else no Follow_Up, no one-step Sync, and no Sync
///   whose Follow_Up came before it, but for what the port doesn't hear, ignores or merely holds.
/// - No line behind the first of these tells that the slave or the master began anew, by [`each_beginning_is_told`].
///
/// The premises are on what is recorded, with numbers below 65,536, as octets have them, but that the port is asked what it
/// hears, so that copies don't count; and in place of three of them what it answers may stand: that it uses the Sync, or
/// the Delay_Resp, and that nothing completes after. They look back over the whole recording, behind a beginning too, where
/// the port forgets: soon after one, while numbers come again, they may fail. The law says nothing of what more is reported:
/// that each report is right is said by [`each_report_is_exact`].
pub fn each_exchange_is_found()
    ensures { EachExchangeIsFound }
{}

/// What a port doesn't hear that listens to a recording brings no report, whatever is recorded. It hears no copy of a Sync or
/// a Follow_Up of the master, or of its Delay_Resp to the slave: where it heard such a message, it doesn't hear the same one
/// again less than a second from it, behind datagrams that are none of these and no Delay_Req of the slave.
pub fn no_copy_is_reported()
    ensures { NoCopyIsReported }
{}
