//! What breaks 702, in a sentence: a message is taken for one of another exchange.
ghost use Rattle.std.specs.Prelude.{◌≡◌, Some};
ghost use Rattle.explain_findings.specs.Known.{IsNoted, lines_of};
ghost use Rattle.explain_findings.specs.Mispaired.{follows_at, follows_text, mispaired_text, no_follow_up_at, other_request_at, other_sync_at};

use crate::heard::Sent;
use crate::known::{Known, Named};
use std::fmt;
use std::fmt::{Display, Formatter};

/// What stands behind a message that is taken for another one, in a line of its own.
const OF_NO_EXCHANGE: &str =
    "\n    so what its messages tell together is the result of no exchange";

/// The Sync that a Follow_Up is of, where there is one.
#[derive(Clone, Copy)]
pub struct Follows(Option<Sent>);

/// What breaks 702.
#[derive(Clone, Copy)]
pub enum Mispaired {
    /// The Sync is taken with a Follow_Up, which is of another one or of none.
    OtherSync(Sent, Named, Follows),
    /// A two-step Sync is taken for one that needs no Follow_Up.
    NoFollowUp(Sent),
    /// The answer to a Delay_Req is taken for one to another.
    OtherRequest(Sent, Sent),
}

impl Display for Follows {
    ghost output = { λ follows. Some (follows_text follows.0) };

    fn fmt<W: fmt::Write>(&self, f: &mut Formatter<W>) -> fmt::Result {
        match &self.0 {
            Some(other) => write!(f, "which is of {other}"),
            None => f.write_str("before which its master sent no two-step Sync"),
        }
    }
}

impl Display for Mispaired {
    ghost output = { λ mispaired. Some (mispaired_text mispaired) };

    fn fmt<W: fmt::Write>(&self, f: &mut Formatter<W>) -> fmt::Result {
        match self {
            Mispaired::OtherSync(sync, follow_up, follows) => write!(
                f,
                "{sync}, is taken with the Follow_Up of {follow_up}, {follows}{OF_NO_EXCHANGE}"
            ),
            Mispaired::NoFollowUp(sync) => write!(
                f,
                "{sync}, is two-step, and is taken for one that needs no Follow_Up{OF_NO_EXCHANGE}"
            ),
            Mispaired::OtherRequest(request, own) => write!(
                f,
                "the Delay_Resp answers {request}; it is taken for one to {own}{OF_NO_EXCHANGE}"
            ),
        }
    }
}

impl Known<'_> {
    /// The Sync that a Follow_Up is of, where there is one.
    fn follows(&self, follows: Option<u64>) -> Option<Sent>
        ensures { IsNoted self.now → result ≡ follows_at (lines_of self.now) follows }
    {
        match follows {
            Some(other) => Some(self.sent(other)),
            None => None,
        }
    }

    /// The Sync of this number is taken with the Follow_Up of another one.
    pub(crate) fn other_sync(&self, sync: u64, follow_up: u64, follows: Option<u64>) -> Mispaired
        ensures { IsNoted self.now → result ≡ other_sync_at (lines_of self.now) sync follow_up follows }
    {
        Mispaired::OtherSync(
            self.sent(sync),
            self.named(follow_up),
            Follows(self.follows(follows)),
        )
    }

    /// The two-step Sync of this number has no Follow_Up.
    pub(crate) fn no_follow_up(&self, sync: u64) -> Mispaired
        ensures { IsNoted self.now → result ≡ no_follow_up_at (lines_of self.now) sync }
    {
        Mispaired::NoFollowUp(self.sent(sync))
    }

    /// The answer to the Delay_Req of this number is taken for one to another.
    pub(crate) fn other_request(&self, request: u64, own: u64) -> Mispaired
        ensures { IsNoted self.now → result ≡ other_request_at (lines_of self.now) request own }
    {
        Mispaired::OtherRequest(self.sent(request), self.sent(own))
    }
}
