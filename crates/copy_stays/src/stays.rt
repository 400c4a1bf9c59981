//! What is kept of stays and copies.
//!
//! The copies of a message make a tree: a copy grew from the one that entered the clock which it
//! left. They stand in an order, each linked to the next: after a copy comes all that grew from it,
//! each deeper than it, up to the first that isn't deeper. A new copy is put right after the one that
//! it grew from. When a stay is left again, the copy that left after it first is marked, and stays in
//! the order; all that grew from that copy stands right behind it, and is marked and taken out.

ghost use Rattle.std.specs.Prelude.{◌≡◌, ℕ, ◌<◌, ◌+◌, true, false, IfSome, Some};
ghost use Rattle.std.specs.Prelude.{None, option_map, length, OnOk, OnErr};
ghost use Rattle.std.specs.BTreeMap.{get};
ghost use Rattle.std.specs.Ordering.{nat_cmp};
ghost use Rattle.copy_stays.specs.Leaves.{LastStays, with_stay, Leaves, left_again, is_once, once_of, first_kept};
ghost use Rattle.copy_stays.specs.Stays.{root, state_in, AreStays, StaysAfter, first_leaves, once_in};
ghost use Rattle.copy_stays.specs.Inner.Steps.{with_state, with_first};

use std::alloc::{AllocError, Global};
use std::collections::BTreeMap;

/// What is kept of a copy of an event message.
#[derive(Clone, Copy)]
pub(crate) struct CopyState {
    /// Whether each stay of its journey was left once.
    pub(crate) once: bool,
    /// How many stays its journey has; 0 also where it was marked when it left.
    pub(crate) depth: u64,
    /// The copy after it in the order.
    pub(crate) next: Option<u64>,
}

impl CopyState {
    /// A copy without a stay, as one that was just sent; also the place of a line that made no copy.
    fn root() -> CopyState
        ensures { result ≡ root }
    {
        CopyState {
            once: true,
            depth: 0,
            next: None,
        }
    }

    /// A copy that is marked when it leaves.
    fn marked() -> CopyState
        ensures { result ≡ record root { once = false } }
    {
        CopyState {
            once: false,
            ..CopyState::root()
        }
    }
}

/// The stays of messages in transparent clocks (IEEE 1588-2019, 10.2), by the lines of a transcript that tell them: which of them
/// were left, and which copies have a stay on their journey that was left again. Lines have numbers, from 0 on.
#[derive(Drop)]
pub struct Stays {
    /// Of each number that a Leave line names as its Enter line's: the first such Leave line. Whoever
    /// writes lines picks these numbers, so they aren't hashed.
    firsts: BTreeMap<u64, u64>,
    /// Of each line up to the last Leave line: the copy that it made.
    states: Vec<CopyState>,
}

impl Stays {
    /// No stay yet. Takes no memory.
    pub fn new(alloc: Global) -> Stays
        ensures stays { AreStays result (λ n. None) (λ n. None) 0 }
        ensures firsts { first_leaves result ≡ λ n. None }
    {
        Stays {
            firsts: BTreeMap::new(alloc),
            states: Vec::new(alloc),
        }
    }

    fn at(&self, copy: u64) -> CopyState
        ensures { result ≡ state_in self.now.states.items copy }
    {
        match self.states.get(copy as usize) {
            Some(state) => *state,
            None => CopyState::root(),
        }
    }

    /// Whether each stay on the journey of the copy that the line of this number made was left once; true where it made none.
    pub fn once(&self, copy: u64) -> bool
        ensures kept { result ≡ once_in self.now copy }
        ensures once { (stays : LastStays) (leaves : Leaves) (number : ℕ) → AreStays self.now stays leaves number
            → result ≡ once_of stays leaves copy }
    {
        self.at(copy).once
    }

    fn set(&mut self, copy: u64, state: CopyState)
        requires { copy < length self.old.states.items }
        ensures states { state_in self.new.states.items
            ≡ with_state copy state (state_in self.old.states.items) }
        ensures length { length self.new.states.items ≡ length self.old.states.items }
        ensures firsts { self.new.firsts ≡ self.old.firsts }
    {
        self.states[copy as usize] = state;
    }

    /// Makes room for the copy of this number. Where memory is refused, copies of which nothing is
    /// kept may have been added.
    fn reach(&mut self, number: u64) -> Result<(), AllocError>
        ensures room { OnOk result (number < length self.new.states.items) }
        ensures states { state_in self.new.states.items ≡ state_in self.old.states.items }
        ensures firsts { self.new.firsts ≡ self.old.firsts }
    {
        while self.states.len() as u64 <= number {
            self.states.push(CopyState::root())?;
        }
        Ok(())
    }

    /// A stay was left again: marks the copy that left after it first and all that grew from it, and
    /// takes these out of the order. That copy stays in it, so over all calls each copy is taken out
    /// once at most.
    fn cut(&mut self, first: u64)
        ensures stays { (stays : LastStays) (leaves : Leaves) (number transit : ℕ)
            → get nat_cmp self.old.firsts transit ≡ Some first
            → AreStays self.old stays leaves number → AreStays self.new stays (left_again transit leaves) number }
        ensures length { length self.new.states.items ≡ length self.old.states.items }
        ensures firsts { self.new.firsts ≡ self.old.firsts }
    {
        let left = self.at(first);
        let depth = left.depth;
        if depth == 0 {
            return;
        }
        self.set(
            first,
            CopyState {
                once: false,
                ..left
            },
        );
        while let Some(copy) = self.at(first).next {
            let grown = self.at(copy);
            if grown.depth <= depth {
                return;
            }
            self.set(
                copy,
                CopyState {
                    once: false,
                    depth: grown.depth,
                    next: None,
                },
            );
            self.set(
                first,
                CopyState {
                    once: false,
                    depth,
                    next: grown.next,
                },
            );
        }
    }

    /// Puts the copy of this number, which left its clock after a stay that no other line left,
    /// after the copy that entered there, or marks it where that one is marked.
    fn grow(&mut self, from: u64, number: u64)
        requires room { number < length self.old.states.items }
        requires below { from < number }
        ensures stays { (stays : LastStays) (leaves : Leaves) (transit : ℕ)
            → AreStays self.old stays leaves (number + 1) → stays number ≡ None
            → get nat_cmp self.old.firsts transit ≡ Some number → is_once (leaves transit) ≡ true
            → ((other : ℕ) → get nat_cmp self.old.firsts other ≡ Some number → other ≡ transit)
            → AreStays self.new (with_stay number (Some (transit, from)) stays) leaves (number + 1) }
        ensures firsts { self.new.firsts ≡ self.old.firsts }
    {
        let parent = self.at(from);
        if parent.once {
            let depth = parent.depth.saturating_add(1);
            self.set(
                from,
                CopyState {
                    next: Some(number),
                    ..parent
                },
            );
            self.set(
                number,
                CopyState {
                    once: true,
                    depth,
                    next: parent.next,
                },
            );
        } else {
            self.set(number, CopyState::marked());
        }
    }

    /// The first Leave line of the stay that began at the Enter line `transit`.
    pub fn first(&self, transit: u64) -> Option<u64>
        ensures { result ≡ first_leaves self.now transit }
    {
        self.firsts.get(&transit).copied()
    }

    /// The Leave line of this number is the first that names a stay.
    fn keep_first(&mut self, transit: u64, number: u64) -> Result<(), AllocError>
        ensures named { OnOk result (get nat_cmp self.new.firsts
            ≡ with_first transit number (get nat_cmp self.old.firsts)) }
        ensures unchanged { OnErr result (get nat_cmp self.new.firsts ≡ get nat_cmp self.old.firsts) }
        ensures states { self.new.states ≡ self.old.states }
    {
        self.firsts.insert(transit, number)?;
        Ok(())
    }

    /// The line of this number leaves the stay that began at the Enter line `transit`. `from` is the copy that entered there,
    /// where the journey of the one that left is known. Lines come in the order of their numbers, each once at most; those that
    /// leave nothing may be left out. Takes room for all lines up to this one. Where memory is refused, nothing that is kept
    /// changes.
    pub fn leave(&mut self, number: u64, transit: u64, from: Option<u64>) -> Result<(), AllocError>
        requires { IfSome from (λ copy. copy < number) }
        ensures stays { StaysAfter self.old self.new number (option_map (λ copy. (transit, copy)) from)
            (left_again transit) result }
        ensures firsts { OnOk result (first_leaves self.new ≡ first_kept transit number (first_leaves self.old)) }
        ensures same_firsts { OnErr result (first_leaves self.new ≡ first_leaves self.old) }
    {
        self.reach(number)?;
        if let Some(first) = self.first(transit) {
            self.cut(first);
            if from.is_some() {
                self.set(number, CopyState::marked());
            }
            return Ok(());
        }
        self.keep_first(transit, number)?;
        if let Some(copy) = from {
            self.grow(copy, number);
        }
        Ok(())
    }
}
