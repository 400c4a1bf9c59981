//! Which fields other than corrections differ between the taps, for people.
ghost use Rattle.std.specs.Prelude.{◌≡◌, Some};
ghost use Rattle.tap_follow.specs.Words.{is_named, field_text, fields_text, messages_text, differ_text, changed_text};

use std::fmt;
use std::fmt::{Display, Formatter};
use tap_sums::Changed;

/// A field that differs in so many messages, if it does in any.
#[derive(Clone, Copy)]
struct Field {
    /// Whether another field is named in front of it.
    behind: bool,
    name: &'static str,
    count: u64,
}

impl Field {
    /// The next field.
    fn then(&self, name: &'static str, count: u64) -> Field
        ensures { result ≡ record { behind = is_named self.now.behind self.now.count; name = name.entry; count = count } }
    {
        Field {
            behind: self.behind || self.count != 0,
            name,
            count,
        }
    }
}

#[tactic(auto, unfolding(crate::specs::Words::field_text))]
impl Display for Field {
    ghost output = { λ field. Some (field_text field.behind field.name.now field.count) };

    fn fmt<W: fmt::Write>(&self, f: &mut Formatter<W>) -> fmt::Result {
        if self.count == 0 {
            return Ok(());
        }
        let mark = if self.behind { ", " } else { ": " };
        write!(f, "{mark}{} in {}", self.name, self.count)
    }
}

/// The fields that differ, and in how many messages each.
#[derive(Clone, Copy)]
struct Fields(Changed);

#[tactic(auto, unfolding(crate::specs::Words::fields_text))]
impl Display for Fields {
    ghost output = { λ fields. Some (fields_text fields.0) };

    fn fmt<W: fmt::Write>(&self, f: &mut Formatter<W>) -> fmt::Result {
        let sdo = Field {
            behind: false,
            name: "sdoId",
            count: self.0.sdo,
        };
        let version = sdo.then("minorVersionPTP", self.0.minor_version);
        let flags = version.then("flagField", self.0.flags);
        let specific = flags.then("messageTypeSpecific", self.0.specific);
        let control = specific.then("controlField", self.0.control);
        let log = control.then("logMessageInterval", self.0.log);
        let timestamp = log.then("originTimestamp", self.0.timestamp);
        write!(
            f,
            "{sdo}{version}{flags}{specific}{control}{log}{timestamp}"
        )
    }
}

/// So many messages.
#[derive(Clone, Copy)]
struct Messages(u64);

#[tactic(auto, unfolding(crate::specs::Words::messages_text))]
impl Display for Messages {
    ghost output = { λ count. Some (messages_text count.0) };

    fn fmt<W: fmt::Write>(&self, f: &mut Formatter<W>) -> fmt::Result {
        f.write_str(if self.0 == 1 { "message" } else { "messages" })
    }
}

/// In so many messages fields differ.
#[derive(Clone, Copy)]
struct Differ(Changed);

#[tactic(auto, unfolding(crate::specs::Words::differ_text))]
impl Display for Differ {
    ghost output = { λ x. Some (differ_text x.0) };

    fn fmt<W: fmt::Write>(&self, f: &mut Formatter<W>) -> fmt::Result {
        let count = self.0.messages;
        let (messages, fields) = (Messages(count), Fields(self.0));
        write!(
            f,
            "{count} {messages} fields other than correctionField differ between the taps{fields}"
        )
    }
}

/// How many messages had other fields changed between the taps than their corrections, if any had.
#[derive(Clone, Copy)]
pub(crate) struct ChangedLine(pub(crate) Changed);

#[tactic(auto, unfolding(crate::specs::Words::changed_text))]
impl Display for ChangedLine {
    ghost output = { λ line. Some (changed_text line.0) };

    fn fmt<W: fmt::Write>(&self, f: &mut Formatter<W>) -> fmt::Result {
        match self.0.messages {
            0 => Ok(()),
            _ => write!(f, "ptpx: in {}\n", Differ(self.0)),
        }
    }
}
