ghost use Rattle.std.specs.Prelude.{◌≡◌, ◌≤◌, ℕ, is_some, option_copied};
ghost use Rattle.pairing.specs.Marked.{Marked, IsWithin, entry, empty, push, find, set, tick};

use ptp_units::Seq;

/// A table of at most [`CAPACITY`](PairTable::CAPACITY) values, each under a sequenceId
/// (IEEE 1588-2019, 7.3.7), in the order in which they came. Some of the oldest may be marked.
///
/// Places in which nothing is held have the default value. No call allocates.
pub trait PairTable<V: Copy + Default> {
    /// How many values fit, 1 to 256.
    const CAPACITY: usize;

    /// The same number, for contracts.
    ghost CAPACITY: { ℕ };

    /// What the table holds, however it is kept.
    ghost marked: { Self → Marked V };

    /// A table that holds nothing. The capacity must be 1 to 256.
    fn empty() -> Self
        requires some_fit { 1 ≤ CAPACITY }
        requires few_fit { CAPACITY ≤ 256 }
        ensures { marked result ≡ empty };

    /// Adds a value as the newest. Where the table was full the oldest goes first, a marked one if
    /// any is marked.
    fn push(&mut self, number: Seq, value: V)
        ensures { marked self.new ≡ push CAPACITY (entry number.0 value) (marked self.old) };

    /// The newest value of this number, or None where there is none.
    fn find(&self, number: Seq) -> Option<&V>
        ensures { option_copied result ≡ find number.0 (marked self.now) };

    /// Replaces the newest value of this number alone. Where there is none, answers false and
    /// changes nothing.
    fn set(&mut self, number: Seq, value: V) -> bool
        ensures held { result ≡ is_some (find number.0 (marked self.old)) }
        ensures replaced { marked self.new ≡ set number.0 value (marked self.old) };

    /// Drops the marked values, and marks the others. So a value outlives one tick, and goes at the
    /// next.
    fn tick(&mut self)
        ensures { marked self.new ≡ tick (marked self.old) };

    /// Drops every value.
    fn clear(&mut self)
        ensures { marked self.new ≡ empty };

    /// Whatever was done, the capacity is 1 to 256 and is kept.
    ghost within: { (table : Self) → IsWithin CAPACITY (marked table) };
}
