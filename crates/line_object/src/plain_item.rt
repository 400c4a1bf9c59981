//! An item of an array.
ghost use Rattle.std.specs.Prelude.{◌≡◌, IfSome, Some, None};

use std::marker::Model;

/// An item of an array: null, or a whole number from 0 to 2^64 - 2. Null stands as 2^64 - 1, so that an item takes half the room
/// of an `Option`: each line's are cleared and moved.
#[derive(Debug, Default, Drop)]
pub struct PlainItem {
    number: u64,
}

impl Model for PlainItem {
    ghost use Rattle.std.specs.Prelude.{ℕ, ◌==◌, if◌then◌else◌, Option, Some, None};

    ghost Value = { Option ℕ };

    ghost view = { λ item. if item.number == 18446744073709551615 then None else Some item.number };
}

impl PlainItem {
    /// Null.
    pub(crate) fn null() -> PlainItem
        ensures { result ≡ None }
    {
        PlainItem { number: u64::MAX }
    }

    /// A number; None for 2^64 - 1.
    pub(crate) fn of(number: u64) -> Option<PlainItem>
        ensures { IfSome result (λ item. item ≡ Some number) }
    {
        if number == u64::MAX {
            None
        } else {
            Some(PlainItem { number })
        }
    }

    /// The number; None where it is null.
    pub(crate) fn number(&self) -> Option<u64>
        ensures { result ≡ self.now }
    {
        if self.number == u64::MAX {
            None
        } else {
            Some(self.number)
        }
    }
}
