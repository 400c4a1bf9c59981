ghost use Rattle.std.specs.Prelude.{◌≡◌, ◌<◌, IfSome};
ghost use Rattle.tap_crossing.specs.Open.{bit, number_of, filled, open_number};
ghost use Rattle.tap_crossing.specs.Record.{no_places, place_in, with_place, needed, complete, after};

use crate::sighting::{Place, Sighting};

/// The places of a record, and what was met of each.
#[derive(Clone, Copy, Debug, PartialEq, Eq)]
pub struct Places {
    /// The event message at the tap that it meets first.
    pub first: Option<Sighting>,
    /// The event message at the other tap.
    pub second: Option<Sighting>,
    /// Its Follow_Up or Delay_Resp at `from`.
    pub at_from: Option<Sighting>,
    /// Its Follow_Up or Delay_Resp at `to`.
    pub at_to: Option<Sighting>,
}

/// In which places of a record something was met.
#[derive(Clone, Copy, Debug, PartialEq, Eq)]
pub struct Filled {
    /// The event message at the tap that it meets first.
    pub first: bool,
    /// The event message at the other tap.
    pub second: bool,
    /// Its Follow_Up or Delay_Resp at `from`.
    pub at_from: bool,
    /// Its Follow_Up or Delay_Resp at `to`.
    pub at_to: bool,
}

fn bit(is_set: bool) -> usize
    ensures value { result ≡ bit is_set }
    ensures within { result < 2 }
{
    if is_set { 1 } else { 0 }
}

impl Filled {
    /// The places as one number.
    pub(crate) fn number(&self) -> usize
        ensures value { result ≡ number_of self.now }
        ensures within { result < 16 }
    {
        bit(self.first) + 2 * bit(self.second) + 4 * bit(self.at_from) + 8 * bit(self.at_to)
    }
}

/// What is met of one number.
#[derive(Clone, Copy, Debug, Default, PartialEq, Eq)]
pub enum Record {
    /// It waits for messages.
    Open(Places),
    /// A message came twice, so nothing more is told of it.
    Spoiled,
    /// It had what it needs.
    #[default]
    Closed,
}

/// What a record needs, and had.
#[derive(Clone, Copy)]
pub(crate) struct Complete {
    pub(crate) first: Sighting,
    pub(crate) second: Sighting,
    /// None where it needs none.
    pub(crate) at_from: Option<Sighting>,
    pub(crate) at_to: Option<Sighting>,
}

/// What a record needs of a place: None while it lacks that.
fn needed(is_needed: bool, place: Option<Sighting>) -> Option<Option<Sighting>>
    ensures { result ≡ needed is_needed place }
{
    if !is_needed {
        return Some(None);
    }
    match place {
        Some(sighting) => Some(Some(sighting)),
        None => None,
    }
}

impl Places {
    /// Nothing was met.
    pub(crate) fn none() -> Places
        ensures { result ≡ no_places }
    {
        Places {
            first: None,
            second: None,
            at_from: None,
            at_to: None,
        }
    }

    /// What was met of this place.
    pub(crate) fn place(&self, place: Place) -> Option<Sighting>
        ensures { result ≡ place_in self.now place }
    {
        match place {
            Place::First => self.first,
            Place::Second => self.second,
            Place::AtFrom => self.at_from,
            Place::AtTo => self.at_to,
        }
    }

    fn filled(&self) -> Filled
        ensures { result ≡ filled self.now }
    {
        Filled {
            first: self.first.is_some(),
            second: self.second.is_some(),
            at_from: self.at_from.is_some(),
            at_to: self.at_to.is_some(),
        }
    }

    /// The same with what was met of this place.
    pub(crate) fn with(&self, place: Place, sighting: Sighting) -> Places
        ensures { result ≡ with_place place sighting self.now }
    {
        let sighting = Some(sighting);
        match place {
            Place::First => Places {
                first: sighting,
                ..*self
            },
            Place::Second => Places {
                second: sighting,
                ..*self
            },
            Place::AtFrom => Places {
                at_from: sighting,
                ..*self
            },
            Place::AtTo => Places {
                at_to: sighting,
                ..*self
            },
        }
    }

    /// What the record needs, once it has it: both event messages; the Follow_Up or Delay_Resp at `to` where the
    /// event message needs one there, and that at `from` where it needs one at both taps.
    pub(crate) fn complete(&self) -> Option<Complete>
        ensures { result ≡ complete self.now }
    {
        let first = self.first?;
        let second = self.second?;
        let at_from = needed(first.needs_other && second.needs_other, self.at_from)?;
        let at_to = needed(second.needs_other, self.at_to)?;
        Some(Complete {
            first,
            second,
            at_from,
            at_to,
        })
    }
}

impl Record {
    /// The number of the filled places, where it is open.
    pub(crate) fn open_number(&self) -> Option<usize>
        ensures value { result ≡ open_number self.now }
        ensures within { IfSome result (λ number. number < 16) }
    {
        match self {
            Record::Open(places) => Some(places.filled().number()),
            Record::Spoiled | Record::Closed => None,
        }
    }

    /// What becomes of the record when a message comes to it.
    pub(crate) fn after(self, place: Place, sighting: Sighting) -> Record
        ensures { result ≡ after place sighting self }
    {
        let Record::Open(places) = self else {
            return self;
        };
        if places.place(place).is_some() {
            return Record::Spoiled;
        }
        let places = places.with(place, sighting);
        if places.complete().is_some() {
            return Record::Closed;
        }
        Record::Open(places)
    }
}
