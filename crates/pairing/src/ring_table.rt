ghost use Rattle.std.specs.Prelude.{◌≡◌, ◌+◌, ◌-◌, ◌<◌, ◌≤◌, [], ◌∷◌, ◌++◌, length, reverse, drop, nat_eq, position};
ghost use Rattle.std.specs.Prelude.{option_map, slice_index, slice_set, IfSome};
ghost use Rattle.pairing.specs.Inner.Ringed.{IsLinked, numbers_of, place_of, slot_at, place_at, members};

use crate::pair_table::PairTable;
use arrayvec::ArrayVec;
use ptp_units::Seq;

/// A table that keeps its values in a ring of `N` slots. Numbers with one remainder modulo `N` share
/// a bucket, and `find` and `set` walk the values of one bucket, from the newest back. `push`, `tick`
/// and `clear` take the same time, however large the table is.
///
/// A link to a slot counts only while it leads to an older value of the same bucket. So a value
/// that is dropped leaves its bucket with no link changed.
#[derive(Drop)]
pub struct RingTable<V, const N: usize> {
    slots: ArrayVec<(Seq, V), N>,
    /// For each slot the one that was its bucket's newest before it.
    older: [Option<u8>; N],
    /// For each bucket the slot that came to it last.
    newest: [Option<u8>; N],
    /// The slot of the oldest value, or of the next one where there is none.
    oldest: usize,
    count: usize,
    marked: usize,
    ghost some_fit: { 1 ≤ N },
    ghost few_fit: { N ≤ 256 },
    ghost filled: { length slots.items ≡ N },
    ghost begins: { oldest < N },
    ghost fits: { count ≤ N },
    ghost marked_there: { marked ≤ count },
    ghost linked: { IsLinked N oldest count (numbers_of slots.items) older newest },
}

impl<V: Copy + Default, const N: usize> PairTable<V> for RingTable<V, N> {
    ghost use Rattle.std.specs.Prelude.{◌≡◌, ◌≤◌, length, option_copied, is_some};
    ghost use Rattle.pairing.specs.Marked.{IsWithin};
    ghost use Rattle.pairing.specs.Inner.Listed.{marked_of};
    ghost use Rattle.pairing.specs.Inner.Ringed.{members};
    ghost use Rattle.std.proofs.Common.{arith};
    ghost use Rattle.std.proofs.lemmas.List.{length-map, length-take, length-append, length-drop};

    const CAPACITY: usize = N;

    ghost CAPACITY = { N };

    ghost marked = { λ table. marked_of (members table.oldest table.count table.slots.items) table.marked };

    ghost within = { λ table. record {
      some_fit = table.some_fit;
      few_fit = table.few_fit;
      fits = Prim.simp (length-map, length-take, length-append, length-drop)
          (Prim.omega (arith, table.fits, table.filled, table.begins));
      marked_there = Prim.simp (length-map, length-take, length-append, length-drop)
          (Prim.omega (arith, table.fits, table.filled, table.begins, table.marked_there));
    } };

    fn empty() -> Self {
        RingTable {
            slots: default_slots(),
            older: [None; N],
            newest: [None; N],
            oldest: 0,
            count: 0,
            marked: 0,
        }
    }

    fn push(&mut self, number: Seq, value: V) {
        if self.count == N {
            self.drop_oldest(1);
        }
        self.add(number, value);
    }

    fn find(&self, number: Seq) -> Option<&V> {
        let slot = self.newest_of(number)?;
        Some(&self.slots[slot].1)
    }

    fn set(&mut self, number: Seq, value: V) -> bool {
        let Some(slot) = self.newest_of(number) else {
            return false;
        };
        write(&mut self.slots, slot, (number, value));
        true
    }

    fn tick(&mut self) {
        self.drop_oldest(self.marked);
        self.marked = self.count;
    }

    fn clear(&mut self) {
        self.count = 0;
        self.marked = 0;
    }
}

impl<V: Copy + Default, const N: usize> RingTable<V, N> {
    /// The slot of the value that so many are older than, or of the next one to come.
    fn slot_at(&self, place: usize) -> usize
        requires { place ≤ N }
        ensures at { result ≡ slot_at N self.now.oldest place }
        ensures within { result < N }
    {
        if place < N - self.oldest {
            self.oldest + place
        } else {
            place - (N - self.oldest)
        }
    }

    /// How many places after the oldest a slot comes.
    fn place_of(&self, slot: usize) -> usize
        requires { slot < N }
        ensures { result ≡ place_of N self.now.oldest slot }
    {
        if slot < self.oldest {
            slot + (N - self.oldest)
        } else {
            slot - self.oldest
        }
    }

    /// The number in a slot.
    fn number_at(&self, slot: usize) -> Seq
        requires { slot < N }
        ensures { result.0 ≡ slice_index (numbers_of self.now.slots.items) slot }
    {
        self.slots[slot].0
    }

    /// The slot of the newest value of this number.
    fn newest_of(&self, number: Seq) -> Option<usize>
        ensures within { IfSome result (λ slot. (slot < N) × (place_of N self.now.oldest slot < self.now.count)
            × (slice_index (numbers_of self.now.slots.items) slot ≡ number.0)) }
        ensures newest { option_map (λ slot. self.now.count - 1 - place_of N self.now.oldest slot) result
            ≡ position (λ p. nat_eq p.0.0 number.0)
            (reverse (members self.now.oldest self.now.count self.now.slots.items)) }
    {
        let bucket = usize::from(number.0) % N;
        let mut link = self.newest[bucket];
        let mut newer = self.count;
        while let Some(slot) = link {
            let slot = usize::from(slot);
            let place = self.place_of(slot);
            let held = self.number_at(slot);
            if place >= newer || usize::from(held.0) % N != bucket {
                return None;
            }
            if held == number {
                return Some(slot);
            }
            link = self.older[slot];
            newer = place;
        }
        None
    }

    /// Puts a value after the newest.
    fn add(&mut self, number: Seq, value: V)
        requires { self.old.count < N }
        ensures members { members self.new.oldest self.new.count self.new.slots.items
            ≡ members self.old.oldest self.old.count self.old.slots.items ++ (number, value) ∷ [] }
        ensures count { self.new.count ≡ self.old.count + 1 }
        ensures marked { self.new.marked ≡ self.old.marked }
    {
        let slot = self.slot_at(self.count);
        let bucket = usize::from(number.0) % N;
        write(&mut self.slots, slot, (number, value));
        self.older[slot] = self.newest[bucket];
        self.newest[bucket] = Some(slot as u8);
        self.count += 1;
    }

    /// Drops so many of the oldest, the marked ones first.
    fn drop_oldest(&mut self, dropped: usize)
        requires { dropped ≤ self.old.count }
        ensures members { members self.new.oldest self.new.count self.new.slots.items
            ≡ drop dropped (members self.old.oldest self.old.count self.old.slots.items) }
        ensures count { self.new.count ≡ self.old.count - dropped }
        ensures marked { self.new.marked ≡ self.old.marked - dropped }
    {
        self.oldest = self.slot_at(dropped);
        self.count -= dropped;
        self.marked = self.marked.saturating_sub(dropped);
    }
}

/// As many slots as fit, that hold nothing yet.
fn default_slots<V: Copy + Default, const N: usize>() -> ArrayVec<(Seq, V), N>
    ensures { length result.items ≡ N }
{
    let mut slots = ArrayVec::new();
    for _ in 0..N {
        slots.push((Seq(0), V::default()));
    }
    slots
}

/// Puts a pair in a slot.
fn write<V: Copy, const N: usize>(slots: &mut ArrayVec<(Seq, V), N>, slot: usize, pair: (Seq, V))
    requires { slot < length slots.old.items }
    ensures { slots.new.items ≡ slice_set slots.old.items slot pair }
{
    let slots = slots.as_mut_slice();
    slots[slot] = pair;
}
