//! What is wanted of a value.
ghost use Rattle.std.specs.Prelude.{◌≡◌};
ghost use Rattle.schedule_lines.specs.Wanted.{part_wanted, place_of, wanted_of};

use line_object::Key;

/// What is wanted of a value.
#[derive(Clone, Copy, Debug, PartialEq, Eq)]
pub enum Wanted {
    /// `"master"`, `"slave"` or `"clock"`.
    NodeKind,
    /// A text that names a kind of event.
    EventKind,
    /// A text that names what came of an event.
    Outcome,
    /// A text of 1 to 16 ASCII letters, digits, `_` and `-`.
    Name,
    /// A text of 16 hexadecimal digits.
    Identity,
    /// A whole number from 0 to below this one.
    Whole { bound: u64 },
    /// A whole number from 0 to 2^64 - 1.
    Tag,
    /// A whole number from -128 to 127.
    SignedOctet,
    /// An array of seconds, nanoseconds and units of 2^-16 ns.
    Moment,
    /// A text of a whole number.
    Difference,
    /// A text of at most 54 octets in hexadecimal.
    Octets,
    /// An array of four tags.
    Tags,
    /// A tag, or `null`.
    TagOrNull,
}

impl Wanted {
    /// What is wanted of a key's value.
    pub fn of(key: Key) -> Wanted
        ensures { result ≡ wanted_of key }
    {
        match key {
            Key::Ev => Wanted::EventKind,
            Key::Kind => Wanted::NodeKind,
            Key::Node => Wanted::Name,
            Key::Id => Wanted::Identity,
            Key::Port => Wanted::Whole { bound: 65_536 },
            Key::Domain => Wanted::Whole { bound: 256 },
            Key::First => Wanted::Whole { bound: 65_536 },
            Key::Log => Wanted::SignedOctet,
            Key::At => Wanted::Moment,
            Key::CopyTag => Wanted::Tag,
            Key::TransitTag => Wanted::Tag,
            Key::Master => Wanted::Name,
            Key::Diff => Wanted::Difference,
            Key::Number => Wanted::Tag,
            Key::Reading => Wanted::Moment,
            Key::Out => Wanted::Outcome,
            Key::Hex => Wanted::Octets,
            Key::Code => Wanted::Whole { bound: 65_536 },
            Key::Offset2 => Wanted::Difference,
            Key::Path2 => Wanted::Difference,
            Key::Tags => Wanted::Tags,
        }
    }
}

/// A part of an array.
#[derive(Clone, Copy, Debug, PartialEq, Eq)]
pub enum Part {
    /// The seconds of a moment.
    Seconds,
    /// The nanoseconds of a moment.
    Nanoseconds,
    /// The fraction of a moment, in units of 2^-16 ns.
    Fraction,
    /// The tag by which the Sync of a report came.
    SyncTag,
    /// The tag by which the Follow_Up of a report came.
    FollowTag,
    /// The tag by which the Delay_Req of a report left.
    RequestTag,
    /// The tag by which the Delay_Resp of a report came.
    ResponseTag,
}

impl Part {
    /// What is wanted of the part.
    pub fn wanted(self) -> Wanted
        ensures { result ≡ part_wanted self }
    {
        match self {
            Part::Seconds => Wanted::Whole { bound: 1 << 48 },
            Part::Nanoseconds => Wanted::Whole {
                bound: 1_000_000_000,
            },
            Part::Fraction => Wanted::Whole { bound: 65_536 },
            Part::SyncTag => Wanted::Tag,
            Part::FollowTag => Wanted::TagOrNull,
            Part::RequestTag => Wanted::Tag,
            Part::ResponseTag => Wanted::Tag,
        }
    }

    /// The place of the part in its array, from 0.
    pub fn place(self) -> usize
        ensures { result ≡ place_of self }
    {
        match self {
            Part::Seconds => 0,
            Part::Nanoseconds => 1,
            Part::Fraction => 2,
            Part::SyncTag => 0,
            Part::FollowTag => 1,
            Part::RequestTag => 2,
            Part::ResponseTag => 3,
        }
    }
}
