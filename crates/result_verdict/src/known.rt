use crate::exact::Exact;
use arrayvec::ArrayVec;

/// Delays at responses that are looked at, at the most.
pub const NEWEST: usize = 16;

/// What a slave's own readings tell at a Sync.
#[derive(Drop)]
pub struct Known {
    /// t2 - t1 - correction of the Sync (IEEE 1588-2019, 11.2).
    pub bracket: Exact,
    /// meanPathDelay by this Sync and the newest exchange (11.3).
    pub latest: Exact,
    /// meanPathDelay at each of the last responses, by the newest Sync then; the newest in front.
    pub responses: ArrayVec<Exact, NEWEST>,
}
