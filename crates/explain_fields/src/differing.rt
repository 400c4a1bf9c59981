//! How many messages of a transcript have other octets than ports and clocks write.
ghost use Rattle.std.specs.Prelude.{◌≡◌, ◌++◌, List, ℕ, OnOk, true};
ghost use Rattle.std.specs.String.{string_bytes};
ghost use Rattle.explain_fields.specs.Differing.{TellsMessages, messages_text, other_octets_text};

use crate::compared::Compared;
use crate::difference::Difference;
use crate::wrong_field::{ROWS, WrongField};
use explain_words::{Length, push_lines};
use std::alloc::{AllocError, Global};
use trace_model::Field;

/// The place of the suffix, the last of all fields.
const SUFFIX: usize = Field::ALL.len() - 1;

/// How many messages differ in a field that is read.
#[derive(Clone, Copy, Debug)]
struct FieldCount {
    /// The name of the field, once there is one.
    name: &'static str,
    messages: u64,
    /// By how much at the most, in units of 2^-16 ns, where that can be said of each.
    most: Option<i128>,
}

/// How many messages differ, and where. Counts stay at 2^64 - 1.
#[derive(Clone, Copy, Debug)]
pub struct Differing {
    messages: u64,
    differ: u64,
    /// In a field that is read, or so that nobody can read them.
    read: u64,
    /// So that nobody can read them.
    unreadable: u64,
    /// In each field that is read.
    read_fields: [FieldCount; ROWS],
    /// In no field that is read: in minorVersionPTP alone, which is 0.
    minor_version: u64,
    /// From each field on, but for the suffix, where it isn't that alone.
    from_field: [u64; SUFFIX],
    /// In the suffix or in length alone.
    other: u64,
}

impl FieldCount {
    /// One more message, in which the field is wrong so.
    fn count(&mut self, wrong: &WrongField) {
        self.name = wrong.name;
        self.messages = self.messages.saturating_add(1);
        self.most = match (self.most, wrong.excess()) {
            (Some(most), Some(excess)) => Some(most.max(excess.saturating_abs())),
            _ => None,
        };
    }
}

impl Differing {
    /// There is no message yet.
    pub fn new() -> Differing {
        let none = FieldCount {
            name: "",
            messages: 0,
            most: Some(0),
        };
        Differing {
            messages: 0,
            differ: 0,
            read: 0,
            unreadable: 0,
            read_fields: [none; ROWS],
            minor_version: 0,
            from_field: [0; SUFFIX],
            other: 0,
        }
    }

    /// One more message, which has the octets that are wanted.
    pub fn count_right(&mut self) {
        self.messages = self.messages.saturating_add(1);
    }

    /// One more message, beside the one that is wanted.
    pub fn count(&mut self, compared: &Compared) {
        self.messages = self.messages.saturating_add(1);
        if compared.is_right() {
            return;
        }
        self.differ = self.differ.saturating_add(1);
        if compared.is_read_otherwise() {
            self.count_read(compared);
        } else if let Some(rest) = compared.rest {
            let count = self.count_of(rest);
            *count = count.saturating_add(1);
        }
    }

    /// One more message that is read otherwise.
    fn count_read(&mut self, compared: &Compared) {
        self.read = self.read.saturating_add(1);
        if compared.refusal().is_some() {
            self.unreadable = self.unreadable.saturating_add(1);
        }
        for field in Field::ALL {
            if let Some(wrong) = compared.wrong(field) {
                if let Some(count) = self.read_fields.get_mut(wrong.row) {
                    count.count(&wrong);
                }
            }
        }
    }

    /// The count of those that differ so, in no field that is read.
    fn count_of(&mut self, difference: Difference) -> &mut u64 {
        if difference.is_minor_version() {
            return &mut self.minor_version;
        }
        match difference
            .first_field()
            .and_then(|field| self.from_field.get_mut(field as usize))
        {
            Some(count) => count,
            None => &mut self.other,
        }
    }

    /// How many messages differ in a field that is read.
    pub fn read(&self) -> u64 {
        self.read
    }

    /// Appends how many messages differ in which field that is read, then how many messages differ at all, and where those
    /// that don't differ in such a field do.
    pub fn push(&self, alloc: Global, text: &mut String) -> Result<(), AllocError>
        ensures { OnOk result ((told : List ℕ) × TellsMessages true told
            × (string_bytes text.new ≡ string_bytes text.old ++ told)) }
    {
        let mut lines = String::new(alloc);
        self.push_read(&mut lines)?;
        push_lines(text, "  ", lines.as_str())?;
        self.push_count(text)?;
        lines.clear();
        self.push_places(&mut lines)?;
        push_lines(text, "  ", lines.as_str())
    }

    /// Appends how many messages differ at all.
    fn push_count(&self, text: &mut String) -> Result<(), AllocError>
        ensures { OnOk result (string_bytes text.new
            ≡ string_bytes text.old ++ other_octets_text self.now.differ self.now.messages) }
    {
        write!(
            text,
            "other octets than a port or a clock writes: {} of {} messages\n",
            self.differ, self.messages
        )
    }

    /// Appends where those differ that don't in a field that is read.
    fn push_places(&self, text: &mut String) -> Result<(), AllocError> {
        if self.minor_version > 0 {
            write!(
                text,
                "  in one nibble alone: {}; minorVersionPTP is 0, as real devices of IEEE 1588-2008 write it, \
                 where IEEE 1588-2019 has 1\n",
                self.minor_version
            )?;
        }
        for (count, field) in self.from_field.iter().zip(Field::ALL) {
            if *count > 0 {
                write!(text, "  from {} on: {count}\n", field.name())?;
            }
        }
        if self.other > 0 {
            write!(text, "  in the suffix or in length alone: {}\n", self.other)?;
        }
        Ok(())
    }

    /// Appends how many messages differ in which field that is read, and by how much at the most.
    fn push_read(&self, text: &mut String) -> Result<(), AllocError> {
        if self.unreadable > 0 {
            write!(
                text,
                "  {} {} that nobody can read\n",
                self.unreadable,
                messages_noun(self.unreadable)
            )?;
        }
        for count in &self.read_fields {
            match (count.messages, count.most) {
                (0, _) => {}
                (messages, None) => write!(text, "  {} in {messages}\n", count.name)?,
                (messages, Some(most)) => write!(
                    text,
                    "  {} in {messages}, by {} at the most\n",
                    count.name,
                    Length(most)
                )?,
            }
        }
        Ok(())
    }
}

/// The word for so many messages.
pub fn messages_noun(messages: u64) -> &'static str
    ensures { result.now ≡ messages_text messages }
{
    if messages == 1 { "message" } else { "messages" }
}
