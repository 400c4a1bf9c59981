//! Laws of runs, each the contract of a function that does nothing: a caller that needs the law in its
//! proof calls it.

ghost use Rattle.network_model.specs.Evidence.{ShowsEvidence};
ghost use Rattle.network_model.specs.Headline.{Headline, HeadlineWithinOneTurn};
ghost use Rattle.network_model.specs.Order.{ReportsDontGoBack};
ghost use Rattle.network_model.specs.Outcome.{EachLeaveForwards};
ghost use Rattle.network_model.specs.Pairs.{NoPairIsMissed};
ghost use Rattle.network_model.specs.TrueTime.{TellsTrueTime};

/// What a slave reports in a run that is fresh and ticked for it, of whatever length and whatever other
/// slaves do, is of one Sync and of one Delay_Req, which its tags name, and is twice the standard's two
/// results for them, without any error.
pub fn each_report_is_exact()
    ensures { Headline }
{}

/// The same where the numbers of no port have come round, however old what is heard and however rare
/// the ticks.
pub fn each_report_is_exact_within_one_turn()
    ensures { HeadlineWithinOneTurn }
{}

/// In a run that is fresh and ticked for a slave, of whatever length, it pairs what belongs together and
/// nothing else. A usable two-step Sync or Follow_Up completes just where the other message of its Sync
/// event is held, and with one of that event; a usable Delay_Resp just where the request that it answers
/// is held and known to have left, and with that request. The event's outcome says that something
/// completes just where this is so. In every accepted run each message that a slave hears is told to its
/// port, and one event drew its number.
pub fn no_pair_is_missed()
    ensures { NoPairIsMissed }
{}

/// The error of each report is the asymmetry of its two paths, where clocks are steady, in runs, of whatever
/// length, that are fresh and ticked for the slaves that report: twice the offset is twice the true
/// difference of the two clocks and that asymmetry, and twice the path delay is both paths together. In a
/// level network two slaves of one master agree at every true moment, and in every accepted run both paths
/// take one time.
pub fn reports_tell_true_time()
    ensures { TellsTrueTime }
{}

/// A slave's later report is of no older Sync than the one before it, in a run, of whatever length, that is
/// fresh and ticked for the slave within half of the limits. Other slaves may do whatever they do; but since
/// the Sync of the one before completed, it was told no master and ticked at most once.
pub fn reports_dont_go_back()
    ensures { ReportsDontGoBack }
{}

/// Every accepted run shows the evidence of each of its reports, whether that is exact or not. The tags
/// are in the order of their events and one of them is the report's own, and the messages were used. The
/// slave learnt when the request left before it heard the answer, and sent no other request between. The
/// Sync that arrived was drawn by the slave's present master, which is of the slave's domain, and the
/// Follow_Up, if the report has one, is of the same master. The Delay_Resp answers a Delay_Req of the slave
/// that arrived there. The corrections of the Sync and the Delay_Req, at the end of their journeys, aren't
/// too big. Where a report was measured, the measurement is of these messages. No stay in a clock is left
/// twice.
pub fn runs_show_evidence()
    ensures { ShowsEvidence }
{}

/// The copy that a Leave event makes is what a transparent clock forwards of the copy that entered, by the
/// clock's readings, and there is none where the clock refuses it. So the definitions of runs, which add
/// up the residence of a whole journey, have the messages that clocks write.
pub fn each_leave_forwards()
    ensures { EachLeaveForwards }
{}
