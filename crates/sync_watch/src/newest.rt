//! The newest Syncs of a master, and whether the number of another fits to them.

ghost use Rattle.std.specs.Prelude.{◌≡◌, ◌≤◌, ◌*◌, ◌-◌, ℕ, Bool, List, [], IfSome};
ghost use Rattle.ptp_units.specs.Sequence.{ahead};
ghost use Rattle.pairing.specs.Marked.{Entry, entry};
ghost use Rattle.sync_watch.specs.Told.{of_flag};
ghost use Rattle.sync_watch.specs.Life.{second, is_apart, is_ahead, is_behind, is_far, interval_of, comes_too_soon};
ghost use Rattle.sync_watch.specs.Life.{is_of_life, newest, newer_of};
ghost use Rattle.sync_watch.specs.StandsFor.{HoldsNewest};

use crate::arrival::Arrival;
use ptp_units::{ScaledTime, Seq};
use std::marker::Model;

/// A second, in units of 2^-16 ns.
const SECOND: u128 = 65_536_000_000_000;

/// How many numbers a Sync may be ahead of the newest one, and fewer than how many behind it.
const REACH: u16 = 256;

/// How many numbers a Sync may be ahead, whatever its interval is.
const LOST_MOST: u16 = 16;

/// The Sync of a master with the newest number.
#[derive(Clone, Copy)]
pub(crate) struct Newest {
    pub(crate) number: Seq,
    pub(crate) time: ScaledTime,
}

impl Model for Newest {
    ghost use Rattle.std.specs.Prelude.{ℕ};
    ghost use Rattle.pairing.specs.Marked.{Entry};

    ghost Value = { Entry ℕ };

    ghost view = { λ n. record { number = n.number.0; value = n.time } };

    ghost inverse = { λ e. record { number = record { 0 = e.number }; time = e.value } };
}

/// The newest Syncs of a master, those with unicastFlag apart from the others.
#[derive(Clone, Copy)]
pub(crate) struct NewestSyncs {
    pub(crate) multicast: Option<Newest>,
    pub(crate) unicast: Option<Newest>,
}

/// Whether two moments are a second or more apart.
pub(crate) fn is_apart(time: ScaledTime, other: ScaledTime) -> bool
    ensures { result ≡ is_apart time other }
{
    time.value().abs_diff(other.value()) >= SECOND
}

/// How far a number is ahead of another, modulo 65,536.
fn ahead(number: Seq, other: Seq) -> u16
    ensures { result ≡ ahead number.0 other.0 }
{
    number.0.wrapping_sub(other.0)
}

/// Whether a number is 1 to 256 ahead of another.
fn is_ahead(number: Seq, other: Seq) -> bool
    ensures { result ≡ is_ahead number.0 other.0 }
{
    (1..=REACH).contains(&ahead(number, other))
}

/// Whether a number is another, or up to 255 behind it.
fn is_behind(number: Seq, other: Seq) -> bool
    ensures { result ≡ is_behind number.0 other.0 }
{
    ahead(other, number) < REACH
}

/// Whether a number is neither up to 255 behind another nor up to 256 ahead of it.
pub(crate) fn is_far(number: Seq, other: Seq) -> bool
    ensures { result ≡ is_far number.0 other.0 }
{
    !is_ahead(number, other) && !is_behind(number, other)
}

/// The interval between Syncs that logMessageInterval tells, in units of 2^-16 ns, where that is from -7 to 6.
fn interval(log: i8) -> Option<u128>
    ensures { result ≡ interval_of log }
{
    match log {
        0..=6 => Some(SECOND << log),
        -7..=-1 => Some(SECOND >> -log),
        _ => None,
    }
}

/// Whether a Sync is so many numbers ahead that not half of them fit in the time since the newest one, by the interval
/// that it tells, and more than 16.
#[tactic(auto, using(crate::proofs::Intervals::interval_within))]
fn comes_too_soon(arrival: &Arrival, newest: &Newest) -> bool
    ensures { result ≡ comes_too_soon arrival.now newest.now }
{
    let ahead = ahead(arrival.number, newest.number);
    let elapsed = arrival.time.value().saturating_sub(newest.time.value());
    match interval(arrival.log) {
        Some(interval) => ahead > LOST_MOST && u128::from(ahead) * interval > 2 * elapsed,
        None => false,
    }
}

/// Whether a Sync is of the life of its master in which this one is the newest.
pub(crate) fn is_of_life(arrival: &Arrival, newest: &Newest) -> bool
    ensures { result ≡ is_of_life arrival.now newest.now }
{
    if is_ahead(arrival.number, newest.number) {
        !comes_too_soon(arrival, newest)
    } else {
        is_behind(arrival.number, newest.number) && !is_apart(arrival.time, newest.time)
    }
}

impl NewestSyncs {
    /// No Sync came.
    pub(crate) fn new() -> Self
        ensures { HoldsNewest (λ flag. []) result }
    {
        NewestSyncs {
            multicast: None,
            unicast: None,
        }
    }

    /// The newest one of this flag.
    pub(crate) fn of(&self, is_unicast: bool) -> Option<Newest>
        ensures { (entries : Bool → List (Entry ℕ)) → HoldsNewest entries self.now
            → result ≡ newest (entries is_unicast) }
    {
        if is_unicast {
            self.unicast
        } else {
            self.multicast
        }
    }

    /// A Sync came.
    pub(crate) fn take(&mut self, arrival: &Arrival)
        ensures { (entries : Bool → List (Entry ℕ)) → HoldsNewest entries self.old
            → HoldsNewest (λ flag. of_flag flag arrival.now (entries flag)) self.new }
    {
        if arrival.is_unicast {
            self.unicast = Some(newer_of(arrival, self.unicast));
        } else {
            self.multicast = Some(newer_of(arrival, self.multicast));
        }
    }
}

/// The newest of a Sync and those before it.
fn newer_of(arrival: &Arrival, before: Option<Newest>) -> Newest
    ensures { result ≡ newer_of (entry arrival.now.number.0 arrival.now.time) before }
{
    match before {
        Some(newest) if !is_ahead(arrival.number, newest.number) => newest,
        _ => Newest {
            number: arrival.number,
            time: arrival.time,
        },
    }
}
