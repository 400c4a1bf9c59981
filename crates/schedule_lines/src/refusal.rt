//! Why a line is refused.

use crate::wanted::Part;
use line_object::Key;

/// Why a line's value is neither a node nor an event.
#[derive(Clone, Copy, Debug, PartialEq, Eq)]
pub enum Refusal {
    /// It is no object, or has neither `ev` nor `kind`.
    NoKind,
    /// It lacks a key.
    Missing {
        /// The key.
        key: Key,
    },
    /// A key's value isn't what is wanted.
    Wrong {
        /// The key.
        key: Key,
    },
    /// A part of a key's value isn't what is wanted.
    WrongPart {
        /// The key.
        key: Key,
        /// The part of its value, which is an array.
        part: Part,
    },
    /// It has each key that such a line needs, and others.
    TooMuch,
}
