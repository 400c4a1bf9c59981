ghost use Rattle.std.specs.Prelude.{◌≡◌, List, [], ◌∷◌, Option};
ghost use Rattle.statistics.specs.Spike.{AreSpikes, size_between, is_rise, is_fall, lies_apart, spike_of, greater_spike};

use crate::counting::count_if;
use crate::series::Point;

/// A value that lies above both of its neighbours, or below both.
#[derive(Clone, Copy)]
pub struct Spike {
    /// The value.
    pub at: Point,
    /// How far it is from the nearer one of its neighbours.
    pub size: u128,
    /// How far it is from both together.
    pub both: u128,
}

/// Values in their order: how much they change from one to the next, and the greatest spike.
#[derive(Clone, Copy)]
pub struct Spikes {
    /// How many values there are, up to 2^64 - 1.
    pub count: u64,
    /// The sum of the sizes of all changes from one to the next, up to 2^128 - 1.
    pub changes: u128,
    /// How many values are above the one before, up to 2^64 - 1.
    pub rises: u64,
    /// How many are below it, up to 2^64 - 1.
    pub falls: u64,
    /// The newest value.
    pub newest: Option<Point>,
    /// The one before it.
    pub before: Option<Point>,
    /// The greatest spike, the first of those that are equal.
    pub greatest: Option<Spike>,
}

/// How far two values are apart, if there are two.
fn size_between(one: &Option<Point>, other: Point) -> u128
    ensures { result ≡ size_between one.now other }
{
    match one {
        Some(one) => other.value.abs_diff(one.value),
        None => 0,
    }
}

/// Whether a value is above the one before it, if there is one.
fn is_rise(before: &Option<Point>, at: Point) -> bool
    ensures { result ≡ is_rise before.now at }
{
    match before {
        Some(before) => before.value < at.value,
        None => false,
    }
}

/// Whether a value is below the one before it, if there is one.
fn is_fall(before: &Option<Point>, at: Point) -> bool
    ensures { result ≡ is_fall before.now at }
{
    match before {
        Some(before) => at.value < before.value,
        None => false,
    }
}

/// Whether a value lies above both of its neighbours, or below both.
fn lies_apart(before: &Point, at: &Point, behind: Point) -> bool
    ensures { result ≡ lies_apart before.now at.now behind }
{
    (before.value < at.value && behind.value < at.value)
        || (at.value < before.value && at.value < behind.value)
}

/// The spike that a value is between its neighbours, if it is one.
fn spike_of(before: &Option<Point>, at: &Option<Point>, behind: Point) -> Option<Spike>
    ensures { result ≡ spike_of before.now at.now behind }
{
    let (Some(before), Some(at)) = (before, at) else {
        return None;
    };
    if !lies_apart(before, at, behind) {
        return None;
    }
    let (one, other) = (
        at.value.abs_diff(before.value),
        at.value.abs_diff(behind.value),
    );
    Some(Spike {
        at: *at,
        size: one.min(other),
        both: one.saturating_add(other),
    })
}

/// The greater of two spikes, the earlier one where they are equal.
fn greater_spike(spike: Option<Spike>, greatest: Option<Spike>) -> Option<Spike>
    ensures { result ≡ greater_spike spike greatest }
{
    match (spike, greatest) {
        (Some(spike), Some(greatest)) if !(greatest.size < spike.size) => Some(greatest),
        (Some(spike), _) => Some(spike),
        (None, greatest) => greatest,
    }
}

impl Spikes {
    /// Of no values.
    pub fn new() -> Spikes
        ensures { AreSpikes [] result }
    {
        Spikes {
            count: 0,
            changes: 0,
            rises: 0,
            falls: 0,
            newest: None,
            before: None,
            greatest: None,
        }
    }

    /// Takes one more value.
    pub fn take(&mut self, point: Point)
        ensures { (points : List Point) → AreSpikes points self.old → AreSpikes (point ∷ points) self.new }
    {
        let spike = spike_of(&self.before, &self.newest, point);
        self.greatest = greater_spike(spike, self.greatest);
        self.changes = self
            .changes
            .saturating_add(size_between(&self.newest, point));
        self.rises = count_if(self.rises, is_rise(&self.newest, point));
        self.falls = count_if(self.falls, is_fall(&self.newest, point));
        self.count = self.count.saturating_add(1);
        self.before = self.newest;
        self.newest = Some(point);
    }
}
