//! How many datagrams were met at which place.

use crate::recording::PLACES_MOST;

/// The datagrams at each of the places that are looked at, by their indices, and at all others. Counts stay at 2^64 - 1.
#[derive(Clone, Copy)]
pub(crate) struct PlaceCounts {
    counts: [u64; PLACES_MOST],
    others: u64,
}

impl PlaceCounts {
    /// No datagram came.
    pub(crate) fn new() -> PlaceCounts {
        PlaceCounts {
            counts: [0; PLACES_MOST],
            others: 0,
        }
    }

    /// Counts a datagram at the place of an index, or at one that isn't looked at.
    pub(crate) fn count(&mut self, index: Option<usize>) {
        let count = match index {
            Some(index) if index < PLACES_MOST => &mut self.counts[index],
            _ => &mut self.others,
        };
        *count = count.saturating_add(1);
    }

    /// How many there were at the place of an index.
    pub(crate) fn at(&self, index: usize) -> u64 {
        self.counts.get(index).copied().unwrap_or(0)
    }

    /// How many there were at places that weren't looked at.
    pub(crate) fn others(&self) -> u64 {
        self.others
    }
}
