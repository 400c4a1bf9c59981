//! A message beside the one that its port or its clock writes.
ghost use Rattle.std.specs.Prelude.{◌≡◌, IfSome, not};
ghost use Rattle.event_codec.specs.Profile.{contents_of};
ghost use Rattle.trace_model.specs.Field.{tells_same};

use crate::difference::{Difference, Differs};
use crate::wrong_field::{WrongField, with_read_of, wrong_in};
use event_codec::{DecodeRefusal, PortMessage, decode};
use std::alloc::AllocError;
use std::fmt::Display;
use std::marker::Model;
use trace_model::{Field, tells_same};

/// The message that is to be written, and how octets that came in its place differ. Contracts see whether they tell the same:
/// whether nobody reads what differs.
#[derive(Drop)]
pub struct Compared {
    wanted: PortMessage,
    /// What the octets say, or why nobody can read them.
    found: Result<PortMessage, DecodeRefusal>,
    tells_same: bool,
    /// How they differ, but for fields that are read.
    pub(crate) rest: Option<Difference>,
}

impl Model for Compared {
    ghost use Rattle.std.specs.Prelude.{Bool};

    ghost Value = { Bool };

    ghost view = { λ c. c.tells_same };
}

impl Compared {
    /// Octets beside the message that is to be written; none where that has no octets.
    pub fn of(wanted: &PortMessage, octets: &[u8]) -> Option<Compared>
        ensures { IfSome result (λ told. told ≡ tells_same (contents_of wanted.now) octets.now) }
    {
        let found = message_in(octets);
        let told = match &found {
            Ok(found) => with_read_of(wanted, found),
            Err(_) => *wanted,
        };
        Some(Compared {
            wanted: *wanted,
            found,
            tells_same: tells_same(&wanted.message(), octets),
            rest: Difference::from(octets, &told)?,
        })
    }

    /// Why nobody can read the octets, where that is so.
    pub(crate) fn refusal(&self) -> Option<DecodeRefusal> {
        match &self.found {
            Ok(_) => None,
            Err(refusal) => Some(*refusal),
        }
    }

    /// What is wrong in this field, where somebody reads it.
    pub(crate) fn wrong(&self, field: Field) -> Option<WrongField> {
        match &self.found {
            Ok(found) => wrong_in(field, found, &self.wanted),
            Err(_) => None,
        }
    }

    /// Whether a field that is read differs, or nobody can read the octets.
    pub(crate) fn is_read_otherwise(&self) -> bool
        ensures { result ≡ not self.now }
    {
        !self.tells_same
    }

    /// Whether all octets are right.
    pub fn is_right(&self) -> bool {
        self.rest.is_none() && self.tells_same
    }

    /// Appends how the message of this name differs, a line each: first what it says in fields that are read, or why nobody
    /// can read it.
    pub fn push<N: Display>(&self, text: &mut String, name: &N) -> Result<(), AllocError> {
        if let Some(refusal) = self.refusal() {
            write!(
                text,
                "    {name}: nobody can read it, {}: {refusal}\n",
                refusal.code()
            )?;
        }
        for field in Field::ALL {
            if let Some(wrong) = self.wrong(field) {
                write!(text, "    {name}: {wrong}\n")?;
            }
        }
        let Some(difference) = self.rest else {
            return Ok(());
        };
        let differs = Differs {
            difference,
            body: &self.wanted.body,
            is_rest: self.refusal().is_none() && self.is_read_otherwise(),
        };
        write!(text, "    {name}: {differs}\n")
    }
}

/// What octets say, or why nobody can read them.
fn message_in(octets: &[u8]) -> Result<PortMessage, DecodeRefusal> {
    match decode(octets) {
        Ok((said, _)) => Ok(PortMessage {
            header: said.header,
            body: said.body,
        }),
        Err(refusal) => Err(refusal),
    }
}
