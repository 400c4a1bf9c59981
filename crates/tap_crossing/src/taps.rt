ghost use Rattle.std.specs.Prelude.{◌≡◌, ◌≤◌, ◌<◌, ◌%◌, ◌^◌, ℕ, List, [], Option, IfSome, unwrap_or, option_and_then};
ghost use Rattle.pairing.specs.Marked.{find};
ghost use Rattle.tap_crossing.specs.Records.{unclosed};
ghost use Rattle.tap_crossing.specs.Told.{told, IfCrossed};
ghost use Rattle.tap_crossing.specs.StandsFor.{StandsFor, StandsAfter, IsTold};
ghost use Rattle.tap_crossing.specs.declared.sighting.Placed.{Placed};
ghost use Rattle.tap_crossing.specs.Open.{open_number, number_of, open_count};
ghost use Rattle.tap_crossing.specs.Records.{with, new_record, records};
ghost use Rattle.tap_crossing.specs.Crossing.{IsWithin};
ghost use Rattle.tap_crossing.specs.Inner.Counted.{one_more, one_less, recounted};
ghost use Rattle.tap_crossing.specs.Inner.Kept.{kept, told_in};

use crate::crossing::{MessageOutcome, comes_to};
use crate::places::{Filled, Places, Record};
use crate::sighting::{Kind, Placed};
use pairing::PairTable;
use std::marker::Model;

/// What was met at two taps: of Syncs and of Delay_Reqs the records that were opened last, as many as a table
/// holds. No call allocates.
#[derive(Drop)]
pub struct Taps<T: PairTable<Record>> {
    syncs: T,
    requests: T,
    /// How many records of Syncs are open, by the number of their filled places.
    open_syncs: [u64; 16],
    /// The same of Delay_Reqs.
    open_requests: [u64; 16],
}

impl<T: PairTable<Record>> Model for Taps<T> {
    ghost use Rattle.tap_crossing.specs.StandsFor.{Tables};

    ghost Value = { Tables };

    ghost view = { λ t. record {
      capacity = T.CAPACITY;
      syncs = T.marked t.syncs;
      requests = T.marked t.requests;
      open_syncs = t.open_syncs;
      open_requests = t.open_requests;
    } };
}

/// A record that may take a message.
fn unclosed(found: Option<Record>) -> Option<Record>
    ensures { result ≡ unclosed found }
{
    match found {
        Some(Record::Closed) | None => None,
        Some(record) => Some(record),
    }
}

/// The number of the filled places of an open record, where there is one.
fn open_number(found: &Option<Record>) -> Option<usize>
    ensures value { result ≡ option_and_then open_number found.now }
    ensures within { IfSome result (λ number. number < 16) }
{
    match found {
        Some(record) => record.open_number(),
        None => None,
    }
}

fn one_more(counts: &mut [u64; 16], number: Option<usize>)
    requires { IfSome number (λ number. number < 16) }
    ensures { counts.new ≡ one_more number counts.old }
{
    if let Some(number) = number {
        counts[number] = counts[number].wrapping_add(1);
    }
}

fn one_less(counts: &mut [u64; 16], number: Option<usize>)
    requires { IfSome number (λ number. number < 16) }
    ensures { counts.new ≡ one_less number counts.old }
{
    if let Some(number) = number {
        counts[number] = counts[number].wrapping_sub(1);
    }
}

/// A message comes to the newest record of its number, or opens one.
fn come<T: PairTable<Record>>(
    table: &mut T,
    counts: &mut [u64; 16],
    placed: Placed,
) -> MessageOutcome
    ensures kept { T.marked table.new ≡ kept T.CAPACITY placed
        (unclosed (find placed.number.0 (T.marked table.old))) (T.marked table.old) }
    ensures told { result ≡ told_in placed (unclosed (find placed.number.0 (T.marked table.old))) }
    ensures within { IfCrossed result IsWithin }
    ensures counted { counts.new ≡ recounted (unclosed (find placed.number.0 (T.marked table.old)))
        (with placed (unwrap_or (unclosed (find placed.number.0 (T.marked table.old))) new_record)) counts.old }
{
    let number = placed.number;
    let found = unclosed(table.find(number).copied());
    let is_new = found.is_none();
    let before = open_number(&found);
    let record = found.unwrap_or(Record::Open(Places::none()));
    let outcome = comes_to(&placed, &record);
    let after = record.after(placed.place, placed.sighting);
    one_less(counts, before);
    one_more(counts, after.open_number());
    if is_new {
        table.push(number, after);
    } else {
        table.set(number, after);
    }
    outcome
}

impl<T: PairTable<Record>> Taps<T> {
    /// Two taps at which nothing was met yet.
    pub fn new() -> Self
        requires { (1 ≤ T.CAPACITY) × (T.CAPACITY ≤ 256) }
        ensures { StandsFor T.CAPACITY result [] }
    {
        Taps {
            syncs: T::empty(),
            requests: T::empty(),
            open_syncs: [0; 16],
            open_requests: [0; 16],
        }
    }

    /// What a message brings that was met: nothing yet, that its record is spoiled, that this closes and is no
    /// crossing, and why, or the crossing. It takes its place in the record of its number that waits for messages, and
    /// opens one where none of the last ones does.
    pub fn meet(&mut self, placed: Placed) -> MessageOutcome
        ensures told { IsTold placed self.old result }
        ensures within { IfCrossed result IsWithin }
        ensures stands { StandsAfter placed self.old self.new }
    {
        match placed.kind {
            Kind::Sync => come(&mut self.syncs, &mut self.open_syncs, placed),
            Kind::DelayReq => come(&mut self.requests, &mut self.open_requests, placed),
        }
    }

    /// How many records of a kind are open in which just these places are filled, modulo 2^64. At the end these are
    /// the records that lack a message; before, some of them wait for it.
    pub fn open_records(&self, kind: Kind, filled: Filled) -> u64
        ensures { (capacity : ℕ) (met : List Placed) → StandsFor capacity self.now met
            → result ≡ open_count (number_of filled) (records capacity kind met) % 2 ^ 64 }
    {
        let number = filled.number();
        match kind {
            Kind::Sync => self.open_syncs[number],
            Kind::DelayReq => self.open_requests[number],
        }
    }
}
