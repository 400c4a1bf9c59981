//! How octets differ from those that are wanted, in words.

use event_codec::{Body, PortMessage, encode};
use std::fmt;
use std::fmt::{Display, Formatter};
use trace_model::{Field, differing};

/// How the octets of a message differ from those that its port or its clock writes.
#[derive(Clone, Copy)]
pub(crate) struct Difference {
    /// The first octet that differs, from 0; None where one just ends before the other.
    first: Option<Octet>,
    /// How many octets differ, of those that both have.
    count: usize,
    /// How many octets the message has.
    found: usize,
    /// How many octets are written.
    wanted: usize,
}

/// An octet that differs.
#[derive(Clone, Copy)]
struct Octet {
    /// Its place, from 0.
    place: usize,
    /// The field that differs there.
    field: Field,
    found: u8,
    wanted: u8,
}

impl Difference {
    /// How octets differ from those of a message, where they do; none where that can't be written.
    pub(crate) fn from(octets: &[u8], message: &PortMessage) -> Option<Option<Difference>> {
        let mut room = [0; 54];
        let length = encode(&message.message(), &mut room).ok()?;
        let field = first_differing(octets, message);
        Some(Difference::of(octets, room.get(..length)?, field))
    }

    /// How these octets differ from those that are wanted, first in this field; None where they don't.
    fn of(found: &[u8], wanted: &[u8], field: Field) -> Option<Difference> {
        let mut first = None;
        let mut count = 0_usize;
        for (place, (found, wanted)) in found.iter().zip(wanted).enumerate() {
            if found == wanted {
                continue;
            }
            count = count.saturating_add(1);
            if first.is_none() {
                first = Some(Octet {
                    place,
                    field,
                    found: *found,
                    wanted: *wanted,
                });
            }
        }
        if count == 0 && found.len() == wanted.len() {
            return None;
        }
        Some(Difference {
            first,
            count,
            found: found.len(),
            wanted: wanted.len(),
        })
    }

    /// The field that has the first octet that differs; None where one just ends before the other.
    pub(crate) fn first_field(self) -> Option<Field> {
        Some(self.first?.field)
    }

    /// Whether minorVersionPTP is all that differs, and is 0 in place of 1.
    pub(crate) fn is_minor_version(self) -> bool {
        let minor = matches!(
            self.first,
            Some(Octet {
                field: Field::MinorVersion,
                found: 0x02,
                wanted: 0x12,
                ..
            })
        );
        minor && self.count == 1 && self.found == self.wanted
    }
}

/// The first field that octets have otherwise than a message; the suffix where they have none. A test of a field isn't one.
fn first_differing(octets: &[u8], message: &PortMessage) -> Field {
    for field in differing(&message.message(), octets).as_slice() {
        if !matches!(field, Field::Whole | Field::Nanoseconds) {
            return *field;
        }
    }
    Field::Suffix
}

/// What differs in a message, in words.
#[derive(Clone, Copy)]
pub(crate) struct Differs<'a> {
    pub(crate) difference: Difference,
    pub(crate) body: &'a Body,
    /// Whether this is beside fields that are read and differ.
    pub(crate) is_rest: bool,
}

impl Display for Differs<'_> {
    fn fmt<W: fmt::Write>(&self, f: &mut Formatter<W>) -> fmt::Result {
        let difference = self.difference;
        if self.is_rest {
            f.write_str("of what isn't read, ")?;
        }
        if difference.is_minor_version() {
            f.write_str(
                "minorVersionPTP, the high half of octet 1 from 0, is 0 (IEEE 1588-2008); wanted is 1 (IEEE \
                 1588-2019)",
            )?;
            return if self.is_rest {
                Ok(())
            } else {
                f.write_str("; all other octets are right")
            };
        }
        if let Some(octet) = difference.first {
            write!(
                f,
                "octet {} from 0, in {}, is {:02x}; wanted is {:02x}",
                octet.place,
                octet.field.name_in(self.body),
                octet.found,
                octet.wanted
            )?;
        }
        match difference.count.checked_sub(1) {
            None => f.write_str("all its octets are right")?,
            Some(0) => {}
            Some(more) => write!(f, ", and {more} more differ")?,
        }
        if difference.found == difference.wanted {
            return Ok(());
        }
        write!(
            f,
            "; it has {} octets; wanted are {}",
            difference.found, difference.wanted
        )
    }
}
