//! A checker of transcripts that trusts nobody: whatever wrote the lines, it accepts them only
//! where every report in them is sound.
#![tactic(auto)]

mod by_messages;
mod checker;
mod evidence;
mod exceptions;
mod exchange;
mod facts;
mod finding;
mod good;
mod history;
mod judging;
mod kept;
mod kept_line;
mod lookup;
mod octets;
mod otherwise;
mod place_finding;
mod refusal;
mod residence;
mod sites;
mod way_finding;
mod ways;
mod wrong_lines;

pub use checker::{Checker, check};
pub use evidence::Evidence;
pub use exchange::{Exchange, ExchangeLine, Leg, STAYS_MOST, Stay};
pub use kept_line::{Came, KeptLine, Uncounted, WrongReading};
pub use refusal::CheckFault;
pub use trace_model::{
    Finding, Judgement, Lack, Part, Reasons, Results, TraceLine, TraceOut, Verdict, Why, laws,
};
