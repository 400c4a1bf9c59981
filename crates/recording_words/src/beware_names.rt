//! What programs are told of what speaks against the numbers.
ghost use Rattle.std.specs.Prelude.{◌≡◌};
ghost use Rattle.recording_words.specs.BewareNames.{name_text};

use recording_summary::Beware;

/// The name by which programs are told of it.
#[tactic(auto, unfolding(crate::specs::BewareNames::name_text))]
pub(crate) fn name(beware: &Beware) -> &'static str
    ensures { result.now ≡ name_text beware.now }
{
    match beware {
        Beware::RequestsAtOnce(_) => "requests_at_once",
        Beware::SyncsAtOnce(_) => "syncs_at_once",
        Beware::PathsBelow { .. } => "paths_below",
        Beware::PathsZero { .. } => "paths_zero",
        Beware::WholeSeconds { .. } => "whole_seconds",
        Beware::OffsetSteps(_) => "offset_steps",
        Beware::OffsetIsSetBack(_) => "offset_is_set_back",
        Beware::OffsetRunsAway(_) => "offset_runs_away",
        Beware::PathSteps(_) => "path_steps",
        Beware::SyncsEnd { .. } => "syncs_end",
        Beware::ReportsEnd { .. } => "reports_end",
        Beware::Repeated { .. } => "repeated",
        Beware::OtherMasters => "other_masters",
        Beware::OtherSlaves => "other_slaves",
        Beware::OtherDomains => "other_domains",
        Beware::OutOfOrder(_) => "out_of_order",
        Beware::OldDelay { .. } => "old_delay",
        Beware::MissingSyncs(_) => "missing_syncs",
        Beware::MissingFollowUps(_) => "missing_follow_ups",
        Beware::MissingRequests(_) => "missing_requests",
        Beware::MissingResponses(_) => "missing_responses",
        Beware::CorrectedRequests(_) => "corrected_requests",
        Beware::MasterAnew(_) => "master_anew",
        Beware::SlaveAnew(_) => "slave_anew",
        Beware::OffsetApart(_) => "offset_apart",
        Beware::CutShort(_) => "cut_short",
        Beware::WholeMicroseconds => "whole_microseconds",
    }
}
