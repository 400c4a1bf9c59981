//! The two taps that messages are followed between, by their names.
ghost use Rattle.std.specs.Prelude.{◌≡◌};
ghost use Rattle.tap_choice.specs.Sides.{is_named, side_of, sides_after, sides_wanted, both_named, lacks_tap};

use crate::met::Side;
use crate::tap_name::TapName;
use crate::wanted::WantedTaps;

/// The names of two taps, as far as they are known, and which of them were met.
#[derive(Clone, Copy, Debug, PartialEq, Eq)]
pub struct Sides {
    /// The one that is asked for as `from`, or else the first that was met.
    pub first: Option<TapName>,
    /// The other.
    pub second: Option<TapName>,
    /// Whether the first was met.
    pub is_first_met: bool,
    /// Whether the other was.
    pub is_second_met: bool,
}

/// Whether a tap is called so.
fn is_named(tap: Option<TapName>, name: TapName) -> bool
    ensures { result ≡ is_named tap name }
{
    match tap {
        Some(tap) => tap == name,
        None => false,
    }
}

impl Sides {
    /// The taps that are asked for, before any was met.
    pub fn new(wanted: &WantedTaps) -> Sides
        ensures { result ≡ sides_wanted wanted.now }
    {
        Sides {
            first: wanted.from,
            second: wanted.to,
            is_first_met: false,
            is_second_met: false,
        }
    }

    /// Which of the two a tap is that was met. Where it isn't known to be one of them, and one of them isn't known, it is
    /// that from now on. None where it is a third one.
    pub fn meet(&mut self, name: TapName) -> Option<Side>
        ensures side { result ≡ side_of self.old name }
        ensures sides { self.new ≡ sides_after self.old name }
    {
        if is_named(self.first, name) {
            self.is_first_met = true;
            return Some(Side::First);
        }
        if is_named(self.second, name) {
            self.is_second_met = true;
            return Some(Side::Second);
        }
        if self.first.is_none() {
            self.first = Some(name);
            self.is_first_met = true;
            return Some(Side::First);
        }
        if self.second.is_none() {
            self.second = Some(name);
            self.is_second_met = true;
            return Some(Side::Second);
        }
        None
    }

    /// Whether a tap that is asked for wasn't met.
    pub fn lack_one_of(&self, wanted: &WantedTaps) -> bool
        ensures { result ≡ lacks_tap wanted.now self.now }
    {
        (wanted.from.is_some() && !self.is_first_met)
            || (wanted.to.is_some() && !self.is_second_met)
    }
}

impl WantedTaps {
    /// Whether both taps are asked for.
    pub fn names_both(&self) -> bool
        ensures { result ≡ both_named self.now }
    {
        self.from.is_some() && self.to.is_some()
    }
}
