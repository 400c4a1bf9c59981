//! What messages, taps, lines and packets are called.
ghost use Rattle.std.specs.Prelude.{Some};
ghost use Rattle.tap_follow.specs.Words.{name_of, names_of, other_name_of, many_text, unit_name};

use crate::ending::InputUnit;
use std::fmt;
use std::fmt::{Display, Formatter};
use tap_choice::TapName;
use tap_crossing::Kind;

/// An event message of a kind.
#[derive(Clone, Copy)]
struct Name(Kind);

#[tactic(auto, unfolding(crate::specs::Words::name_of))]
impl Display for Name {
    ghost output = { λ kind. Some (name_of kind.0) };

    fn fmt<W: fmt::Write>(&self, f: &mut Formatter<W>) -> fmt::Result {
        f.write_str(match self.0 {
            Kind::Sync => "Sync",
            Kind::DelayReq => "Delay_Req",
        })
    }
}

/// More of them.
#[derive(Clone, Copy)]
pub(crate) struct Names(pub(crate) Kind);

#[tactic(auto, unfolding(crate::specs::Words::names_of))]
impl Display for Names {
    ghost output = { λ kind. Some (names_of kind.0) };

    fn fmt<W: fmt::Write>(&self, f: &mut Formatter<W>) -> fmt::Result {
        f.write_str(match self.0 {
            Kind::Sync => "Syncs",
            Kind::DelayReq => "Delay_Reqs",
        })
    }
}

/// The message that belongs to an event message of a kind.
#[derive(Clone, Copy)]
pub(crate) struct OtherName(pub(crate) Kind);

#[tactic(auto, unfolding(crate::specs::Words::other_name_of))]
impl Display for OtherName {
    ghost output = { λ kind. Some (other_name_of kind.0) };

    fn fmt<W: fmt::Write>(&self, f: &mut Formatter<W>) -> fmt::Result {
        f.write_str(match self.0 {
            Kind::Sync => "Follow_Up",
            Kind::DelayReq => "Delay_Resp",
        })
    }
}

/// So many event messages of a kind.
#[derive(Clone, Copy)]
pub(crate) struct Many {
    pub(crate) kind: Kind,
    pub(crate) count: u64,
}

#[tactic(auto, unfolding(crate::specs::Words::many_text))]
impl Display for Many {
    ghost output = { λ many. Some (many_text many.kind many.count) };

    fn fmt<W: fmt::Write>(&self, f: &mut Formatter<W>) -> fmt::Result {
        match self.count {
            0 => write!(f, "no {}", Name(self.kind)),
            1 => write!(f, "1 {}", Name(self.kind)),
            count => write!(f, "{count} {}", Names(self.kind)),
        }
    }
}

/// A tap, by its name.
#[derive(Clone, Copy)]
pub(crate) struct Tap(pub(crate) TapName);

impl Display for Tap {
    ghost output = { λ tap. Some tap.0 };

    fn fmt<W: fmt::Write>(&self, f: &mut Formatter<W>) -> fmt::Result {
        f.write_str(self.0.text())
    }
}

#[tactic(auto, unfolding(crate::specs::Words::unit_name))]
impl Display for InputUnit {
    ghost output = { λ unit. Some (unit_name unit) };

    fn fmt<W: fmt::Write>(&self, f: &mut Formatter<W>) -> fmt::Result {
        f.write_str(match self {
            InputUnit::Line => "line",
            InputUnit::Packet => "packet",
        })
    }
}
