//! What lines and packets are called.
ghost use Rattle.std.specs.Prelude.{Some};
ghost use Rattle.recording_words.specs.Unit.{unit_name};

use std::fmt;
use std::fmt::{Display, Formatter};

/// What an input has.
#[derive(Clone, Copy, PartialEq, Eq)]
pub enum InputUnit {
    /// Lines.
    Line,
    /// Packets.
    Packet,
}

#[tactic(auto, unfolding(crate::specs::Unit::unit_name))]
impl Display for InputUnit {
    ghost output = { λ unit. Some (unit_name unit) };

    fn fmt<W: fmt::Write>(&self, f: &mut Formatter<W>) -> fmt::Result {
        f.write_str(match self {
            InputUnit::Line => "line",
            InputUnit::Packet => "packet",
        })
    }
}
