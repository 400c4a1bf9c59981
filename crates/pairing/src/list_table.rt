ghost use Rattle.std.specs.Prelude.{◌≡◌, ◌≤◌, length, reverse, nat_eq, is_some, option_copied, option_map, find};
ghost use Rattle.std.specs.Prelude.{position};
ghost use Rattle.pairing.specs.Marked.{first_value, replace_first};
ghost use Rattle.pairing.specs.Inner.Listed.{entries_of};

use crate::pair_table::PairTable;
use arrayvec::ArrayVec;
use ptp_units::Seq;

/// A table that keeps its values side by side, oldest first. Each call takes time in proportion to
/// `N` at most.
#[derive(Drop)]
pub struct ListTable<V, const N: usize> {
    entries: ArrayVec<(Seq, V), N>,
    marked: usize,
    ghost some_fit: { 1 ≤ N },
    ghost few_fit: { N ≤ 256 },
    ghost fits: { length entries.items ≤ N },
    ghost marked_there: { marked ≤ length entries.items },
}

impl<V: Copy + Default, const N: usize> PairTable<V> for ListTable<V, N> {
    ghost use Rattle.std.specs.Prelude.{◌≡◌, ◌≤◌, length, option_copied, is_some};
    ghost use Rattle.std.proofs.Common.{rules};
    ghost use Rattle.std.proofs.lemmas.List.{length-map};
    ghost use Rattle.pairing.specs.Marked.{IsWithin};
    ghost use Rattle.pairing.specs.Inner.Listed.{marked_of};

    const CAPACITY: usize = N;

    ghost CAPACITY = { N };

    ghost marked = { λ table. marked_of table.entries.items table.marked };

    ghost within = { λ table. record {
      some_fit = table.some_fit;
      few_fit = table.few_fit;
      fits = Prim.rw length-map table.fits;
      marked_there = Prim.rw length-map table.marked_there;
    } };

    fn empty() -> Self {
        ListTable {
            entries: ArrayVec::new(),
            marked: 0,
        }
    }

    fn push(&mut self, number: Seq, value: V) {
        if self.entries.is_full() {
            self.entries.remove(0);
            self.marked = self.marked.saturating_sub(1);
        }
        self.entries.push((number, value));
    }

    fn find(&self, number: Seq) -> Option<&V> {
        last_value(self.entries.as_slice(), number)
    }

    fn set(&mut self, number: Seq, value: V) -> bool {
        replace_last(self.entries.as_mut_slice(), number, value)
    }

    fn tick(&mut self) {
        self.entries.drain(..self.marked);
        self.marked = self.entries.len();
    }

    fn clear(&mut self) {
        self.entries.clear();
        self.marked = 0;
    }
}

/// The value of the last pair of this number.
fn last_value<V: Copy>(pairs: &[(Seq, V)], number: Seq) -> Option<&V>
    ensures { option_copied result
        ≡ option_map (λ p. p.1) (find (λ p. nat_eq p.0.0 number.0) (reverse pairs.now)) }
{
    pairs
        .iter()
        .rev()
        .find(|pair| pair.0 == number)
        .map(|pair| &pair.1)
}

/// How many pairs come after the last one of this number.
fn pairs_after<V: Copy>(pairs: &[(Seq, V)], number: Seq) -> Option<usize>
    ensures { result ≡ position (λ p. nat_eq p.0.0 number.0) (reverse pairs.now) }
{
    pairs.iter().rev().position(|pair| pair.0 == number)
}

/// Replaces the value of the last pair of this number, and says whether there was one.
fn replace_last<V: Copy>(pairs: &mut [(Seq, V)], number: Seq, value: V) -> bool
    ensures held { result ≡ is_some (first_value number.0 (reverse (entries_of pairs.old))) }
    ensures replaced { entries_of pairs.new
        ≡ reverse (replace_first number.0 value (reverse (entries_of pairs.old))) }
{
    let Some(after) = pairs_after(pairs, number) else {
        return false;
    };
    let index = pairs.len() - 1 - after;
    pairs[index].1 = value;
    true
}
