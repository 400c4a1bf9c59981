//! Values of JSON, wherever they stand.
ghost use Rattle.std.specs.Prelude.{◌≡◌, ◌==◌, false, option_map, option_and_then, unwrap_or};
ghost use Rattle.serde_json.specs.Data.{Data};
ghost use Rattle.serde_json.specs.Find as spec;
ghost use Rattle.serde_json.specs.Find.{get, at, as_number, as_array, as_object};
ghost use Rattle.serde_json.specs.Events.{items_len, members_len};
ghost use Rattle.serde_json.specs.View.{view};
ghost use Rattle.line_object.specs.Key.{key_text};
ghost use Rattle.line_object.specs.PlainValue.{is_null};

use crate::key::Key;
use serde_json::Value;

/// A value of a line, read in place or by `serde_json`; both answer alike.
pub trait LineValue {
    ghost as_data: { Self → Data };

    /// The number from 0 to 2^64 - 1 that it is, written without point and exponent and not as `-0`; None for all else.
    fn as_u64(&self) -> Option<u64>
        ensures { result ≡ option_and_then spec.as_u64 (as_number (as_data self.now)) };

    /// The number from -2^63 to 2^63 - 1 that it is, written so; None for all else.
    fn as_i64(&self) -> Option<i64>
        ensures { result ≡ option_and_then spec.as_i64 (as_number (as_data self.now)) };

    /// The text that it is, with its escapes read; None for all else.
    fn as_str(&self) -> Option<&str>
        ensures { option_map (λ s. s.now) result ≡ spec.as_str (as_data self.now) };

    /// Whether it is an array of just so many items.
    fn has_items(&self, count: usize) -> bool
        ensures { result ≡ unwrap_or (option_map (λ items. items_len items == count) (as_array (as_data self.now))) false };

    /// The item at an index from 0, as `as_u64` has it; None where there is no such item.
    fn u64_at(&self, index: usize) -> Option<u64>
        ensures { result ≡ option_and_then (λ d. option_and_then spec.as_u64 (as_number d)) (at index (as_data self.now)) };

    /// Whether it is an array with null at an index from 0.
    fn is_null_at(&self, index: usize) -> bool
        ensures { result ≡ unwrap_or (option_map is_null (at index (as_data self.now))) false };
}

/// A line's JSON value, whose keys are looked up: read in place, or by `serde_json`.
pub trait LineMembers {
    /// The value of a key.
    type Value: LineValue;

    ghost as_data: { Self → Data };

    /// The value of a key; None where it isn't there, or the line is no object.
    fn get(&self, key: Key) -> Option<&Self::Value>
        ensures { option_map (λ v. Self.Value.as_data v.now) result ≡ get (key_text key) (as_data self.now) };

    /// Whether it is an object of just so many keys; one that stands twice counts once.
    fn has_keys(&self, count: usize) -> bool
        ensures { result ≡ unwrap_or (option_map (λ members. members_len members == count) (as_object (as_data self.now))) false };
}

impl LineValue for Value {
    ghost as_data = { view };

    fn as_u64(&self) -> Option<u64> {
        Value::as_u64(self)
    }

    fn as_i64(&self) -> Option<i64> {
        Value::as_i64(self)
    }

    fn as_str(&self) -> Option<&str> {
        Value::as_str(self)
    }

    fn has_items(&self, count: usize) -> bool {
        match self.as_array() {
            Some(items) => items.len() == count,
            None => false,
        }
    }

    fn u64_at(&self, index: usize) -> Option<u64> {
        Value::as_u64(Value::get(self, index)?)
    }

    fn is_null_at(&self, index: usize) -> bool {
        match Value::get(self, index) {
            Some(item) => item.is_null(),
            None => false,
        }
    }
}

impl LineMembers for Value {
    type Value = Value;

    ghost as_data = { view };

    fn get(&self, key: Key) -> Option<&Value> {
        Value::get(self, key.text())
    }

    fn has_keys(&self, count: usize) -> bool {
        match self.as_object() {
            Some(members) => members.len() == count,
            None => false,
        }
    }
}
