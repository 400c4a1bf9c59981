//! What is counted of what was measured: how many datagrams gave no report and why, who else is there, what the master announces, what
//! reports, times and datagrams say of what the numbers are worth, and what speaks against them.
#![tactic(auto)]

mod announces;
mod beware;
mod callers;
mod count_bewares;
mod counts;
mod flows;
mod kind;
mod message_bewares;
mod no_report;
mod others;
mod quality;
mod report_bewares;
mod whom;
mod worth;

pub use announces::{Announced, Announcement, Announces, Change};
pub use beware::{Beware, Jump, Lost, Rounded, SetBack};
pub use callers::Callers;
pub use counts::Counts;
pub use flows::Flows;
pub use kind::{ALL_KINDS, KINDS, Kind};
pub use no_report::{ALL_REASONS, NoReport, REASONS};
pub use others::{
    Meeting, MessageKind, Met, Newcomer, Numbered, Others, Repeats, Sender, Senders, Turn,
};
pub use quality::{Quality, Statistics, Times};
pub use whom::{Known, Whom};
pub use worth::BEWARES;
