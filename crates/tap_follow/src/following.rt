//! Messages that are followed, and what is told of them.
ghost use Rattle.std.specs.Prelude.{◌≡◌, ◌∷◌, ◌++◌, ◌%◌, ◌^◌, ℕ, List, [], option_to_list, OnOk};
ghost use Rattle.std.specs.String.{string_bytes};
ghost use Rattle.datagram_text.specs.Shown.{stamp_text};
ghost use Rattle.tap_crossing.specs.Crossing.{IsWithin};
ghost use Rattle.tap_crossing.specs.Open.{number_of, open_count};
ghost use Rattle.tap_crossing.specs.Records.{records};
ghost use Rattle.tap_crossing.specs.StandsFor.{StandsFor};
ghost use Rattle.tap_crossing.specs.declared.crossing.MessageOutcome.{MessageOutcome};
ghost use Rattle.tap_crossing.specs.declared.sighting.Kind.TheVariants as kinds;
ghost use Rattle.tap_crossing.specs.declared.sighting.Placed.{Placed};
ghost use Rattle.tap_sums.specs.Untold.{AreUntold};
ghost use Rattle.tap_follow.specs.Written.{text_as, text_at, told_of, outcome_of};
ghost use Rattle.tap_follow.specs.Held.{IsFollowing};
ghost use Rattle.tap_follow.specs.Inner.Learned.{learned};
ghost use Rattle.tap_follow.specs.Inner.OfKind.{untold_of};

use crate::followed::{Followed, message_of, requester, tap_at};
use pairing::RingTable;
use ptp_units::Timestamp;
use std::alloc::{AllocError, Global};
use std::fmt::Write;
use std::marker::Model;
use tap_choice::Met;
use tap_crossing::{Crossing, Filled, Kind, MessageOutcome, Record, Taps};
use tap_sums::{Crossed, Figures, Sums, Untold, push_json, push_row};

/// How many records of a kind count.
const RECORDS_MOST: usize = 256;

/// How crossings are written.
#[derive(Clone, Copy)]
pub enum Form {
    /// JSON, one object a line.
    Json,
    /// Rows of a table, with commas between the columns.
    Table,
    /// Not at all: their sums are wanted.
    Sums,
}

/// The messages that are followed.
#[derive(Drop)]
pub(crate) struct Following {
    form: Form,
    /// Whose messages; the slave is told by the first Delay_Req at `to`, where it isn't known before.
    followed: Followed,
    taps: Taps<RingTable<Record, RECORDS_MOST>>,
    /// The sums over the crossings.
    sums: Sums,
    /// What people are told of the crossings beside these.
    figures: Figures,
    /// Of how many records of Syncs nothing is told.
    untold_syncs: Untold,
    /// The same of Delay_Reqs.
    untold_requests: Untold,
    /// The time of the last crossing, in the one text that all share.
    time: String,
}

impl Model for Following {
    ghost use Rattle.tap_follow.specs.Held.{Held};

    ghost Value = { Held };

    ghost view = { λ f. record {
      form = f.form;
      followed = f.followed;
      tables = f.taps;
      sums = f.sums;
      figures = f.figures;
      untold_syncs = f.untold_syncs;
      untold_requests = f.untold_requests;
    } };
}

/// Puts the text of a time in place of what `text` holds: seconds, a point, and nine decimals.
fn write_time(text: &mut String, time: Timestamp) -> Result<(), AllocError>
    ensures { OnOk result (string_bytes text.new ≡ stamp_text time) }
{
    text.clear();
    write!(text, "{}.{:09}", time.seconds(), time.nanos())
}

impl Following {
    /// Nothing was met.
    pub(crate) fn new(alloc: Global, form: Form, followed: &Followed) -> Following
        ensures { IsFollowing form followed.now [] result }
    {
        Following {
            form,
            followed: *followed,
            taps: Taps::new(),
            sums: Sums::new(),
            figures: Figures::new(alloc),
            untold_syncs: Untold::new(),
            untold_requests: Untold::new(),
            time: String::new(alloc),
        }
    }

    /// Whose messages are followed, the slave as far as it is known.
    pub(crate) fn followed(&self) -> Followed
        ensures { result ≡ self.now.followed }
    {
        self.followed
    }

    /// How many records of a kind are open in which just these places are filled, modulo 2^64.
    pub(crate) fn open_records(&self, kind: Kind, filled: Filled) -> u64
        ensures { (capacity : ℕ) (met : List Placed) → StandsFor capacity self.now.tables met
            → result ≡ open_count (number_of filled) (records capacity kind met) % 2 ^ 64 }
    {
        self.taps.open_records(kind, filled)
    }

    /// The sums over the crossings.
    pub(crate) fn sums(&self) -> Sums
        ensures { result ≡ self.now.sums }
    {
        self.sums
    }

    /// What people are told of the crossings beside their sums.
    pub(crate) fn figures(&self) -> &Figures
        ensures { result.now ≡ self.now.figures }
    {
        &self.figures
    }

    /// Of how many records of a kind nothing is told, and why.
    pub(crate) fn untold(&self, kind: Kind) -> Untold
        ensures { result ≡ untold_of kind self.now }
    {
        match kind {
            Kind::Sync => self.untold_syncs,
            Kind::DelayReq => self.untold_requests,
        }
    }

    /// Counts what a message of a kind brings.
    fn count(&mut self, kind: Kind, outcome: &MessageOutcome)
        ensures syncs { (earlier : List MessageOutcome) → AreUntold earlier self.old.untold_syncs
            → AreUntold (option_to_list (outcome_of kinds.Sync kind outcome.now) ++ earlier) self.new.untold_syncs }
        ensures requests { (earlier : List MessageOutcome) → AreUntold earlier self.old.untold_requests
            → AreUntold (option_to_list (outcome_of kinds.DelayReq kind outcome.now) ++ earlier) self.new.untold_requests }
        ensures others { self.new ≡ record self.old {
          untold_syncs = self.new.untold_syncs;
          untold_requests = self.new.untold_requests;
        } }
    {
        match kind {
            Kind::Sync => self.untold_syncs.take(outcome),
            Kind::DelayReq => self.untold_requests.take(outcome),
        }
    }

    /// Takes who the slave is, where that isn't known and the message tells it.
    fn learn(&mut self, met: &Met)
        ensures { self.new ≡ record self.old { followed = learned self.old.followed met.now } }
    {
        let Followed { watched, from, .. } = self.followed;
        if watched.slave.is_none() {
            self.followed.watched.slave = requester(watched.domain, from, met);
        }
    }

    /// Appends a crossing.
    fn push(&mut self, crossing: &Crossing, text: &mut String) -> Result<(), AllocError>
        requires { IsWithin crossing.now }
        ensures written { OnOk result (string_bytes text.new ≡ string_bytes text.old
            ++ text_as self.old.form (told_of self.old.followed crossing.now)) }
        ensures kept { self.new ≡ self.old }
    {
        let (time, _) = crossing.time.split();
        write_time(&mut self.time, time)?;
        let crossed = Crossed {
            crossing: *crossing,
            time: self.time.as_str(),
            from: self.followed.from_name.text(),
            to: self.followed.to_name.text(),
        };
        match self.form {
            Form::Json => push_json(text, &crossed),
            Form::Table => push_row(text, &crossed),
            Form::Sums => Ok(()),
        }
    }

    /// Takes a message, and appends the crossing that it completes.
    pub(crate) fn follow(&mut self, met: &Met, text: &mut String) -> Result<(), AllocError>
        ensures { (form : Form) (f : Followed) (earlier : List Met) → IsFollowing form f earlier self.old →
            OnOk result (IsFollowing form f (met.now ∷ earlier) self.new
            × (string_bytes text.new ≡ string_bytes text.old ++ text_at form f met.now earlier)) }
    {
        self.learn(met);
        let tap = tap_at(self.followed.from, met.side);
        let message = message_of(met);
        let Some(placed) = self
            .followed
            .watched
            .placed(tap, met.line, met.time, &message)
        else {
            return Ok(());
        };
        let kind = placed.kind;
        let outcome = self.taps.meet(placed);
        self.count(kind, &outcome);
        match outcome {
            MessageOutcome::Crossed(crossing) => {
                self.sums.take(&crossing);
                self.figures.take(&crossing)?;
                self.push(&crossing, text)
            }
            MessageOutcome::Waits
            | MessageOutcome::Spoils
            | MessageOutcome::IsSpoiled
            | MessageOutcome::Closed(_) => Ok(()),
        }
    }
}
