//! Messages from the first on: kept until it is known which of them are followed, and then followed.
ghost use Rattle.std.specs.Prelude.{◌≡◌, ◌==◌, ◌++◌, ◌∷◌, List, OnOk, MatchOption, reverse};
ghost use Rattle.std.specs.String.{string_bytes};
ghost use Rattle.tap_choice.specs.Sides.{lacks_tap};
ghost use Rattle.tap_follow.specs.Followed.{slave_in};
ghost use Rattle.tap_follow.specs.Written.{written};
ghost use Rattle.tap_follow.specs.Course.{Course, begun, name_at, followed_by, arrival_of, with_tap, after, ended, new_text, end_text};
ghost use Rattle.tap_follow.specs.SoFar.{followed_so_far, crossings_so_far, open_so_far, outcomes_so_far};
ghost use Rattle.tap_sums.specs.Held.{AreSums};
ghost use Rattle.tap_sums.specs.Figures.{AreFigures};
ghost use Rattle.tap_sums.specs.Untold.{AreUntold};
ghost use Rattle.tap_follow.specs.Held.{IsFollower, IsKept, KeepsFor};

use crate::followed::{Followed, requester};
use crate::following::{Following, Form};
use event_codec::PortIdentity;
use pairing::RingTable;
use ptp_units::ScaledTime;
use std::alloc::{AllocError, Global};
use std::marker::Model;
use tap_choice::{Choice, Met, Pair, Side, Sides, TapName, WantedTaps};
use tap_crossing::{Filled, Kind, Watched};
use tap_sums::{Figures, Sums, Untold};

/// How many messages are kept until it is known which are followed.
const KEPT_MOST: u64 = 1024;

/// How many Syncs of a tap are looked at.
const SYNCS_MOST: usize = 256;

/// What a tap is.
#[derive(Clone, Copy)]
pub enum Arrival {
    /// One of the two.
    At(Side),
    /// A further one, where both were asked for.
    Elsewhere,
    /// A third one, where not both were asked for.
    Third,
}

/// Messages that are met at taps.
#[derive(Drop)]
pub struct Follower {
    alloc: Global,
    form: Form,
    wanted: WantedTaps,
    sides: Sides,
    choice: Choice<RingTable<ScaledTime, SYNCS_MOST>>,
    /// Those that would be followed if it were known now which: all, or behind so many the newest alone.
    kept: Vec<Met>,
    /// How many there were, up to the most.
    count: u64,
    following: Option<Following>,
}

impl Model for Follower {
    ghost use Rattle.tap_follow.specs.Held.{Holding};

    ghost Value = { Holding };

    ghost view = { λ f. record {
      form = f.form;
      wanted = f.wanted;
      sides = f.sides;
      known = f.choice;
      kept = f.kept.items;
      count = f.count;
      following = f.following;
    } };
}

impl Follower {
    /// Nothing was met yet, and what is asked for is known.
    pub fn new(alloc: Global, form: Form, wanted: &WantedTaps) -> Follower
        ensures { IsFollower result (begun form wanted.now) }
    {
        Follower {
            alloc,
            form,
            wanted: *wanted,
            sides: Sides::new(wanted),
            choice: Choice::new(wanted),
            kept: Vec::new(alloc),
            count: 0,
            following: None,
        }
    }

    /// Which of the two taps one of this name is, at which something was met; or that it is a further one, or
    /// a third.
    pub fn arrive(&mut self, name: TapName) -> Arrival
        ensures { (c : Course) → IsFollower self.old c
            → (result ≡ arrival_of c name) × IsFollower self.new (with_tap name c) }
    {
        match self.sides.meet(name) {
            Some(side) => Arrival::At(side),
            None if self.wanted.names_both() => Arrival::Elsewhere,
            None => Arrival::Third,
        }
    }

    /// Takes a message that was met, and appends what is told of it, and of those that were kept, to a text. Nothing more is
    /// promised after want of memory.
    pub fn take(&mut self, met: &Met, text: &mut String) -> Result<(), AllocError>
        ensures { (c : Course) → IsFollower self.old c → OnOk result (IsFollower self.new (after met.now c)
            × (string_bytes text.new ≡ string_bytes text.old ++ new_text met.now c)) }
    {
        if let Some(following) = &mut self.following {
            return following.follow(met, text);
        }
        self.choice.notice(met);
        self.keep(met)?;
        match self.chosen(self.is_full()) {
            Some(followed) => self.begin(&followed, text),
            None => Ok(()),
        }
    }

    /// Ends the course, and appends what the end tells: where the slave alone isn't known, Syncs are followed
    /// without it.
    pub fn finish(&mut self, text: &mut String) -> Result<(), AllocError>
        ensures { (c : Course) → IsFollower self.old c → OnOk result (IsFollower self.new (ended c)
            × (string_bytes text.new ≡ string_bytes text.old ++ end_text c)) }
    {
        if let Some(_following) = &self.following {
            return Ok(());
        }
        match self.chosen(true) {
            Some(followed) => self.begin(&followed, text),
            None => Ok(()),
        }
    }

    /// The names of the two taps, as far as they are known.
    pub fn sides(&self) -> Sides
        ensures { (c : Course) → IsFollower self.now c → result ≡ c.sides }
    {
        self.sides
    }

    /// Whether a tap that is asked for wasn't met.
    pub fn lacks_tap(&self) -> bool
        ensures { (c : Course) → IsFollower self.now c → result ≡ lacks_tap c.wanted c.sides }
    {
        let sides = self.sides;
        sides.lack_one_of(&self.wanted)
    }

    /// Whose messages are followed, and between which taps, once that is known; the slave as far as it is known.
    pub fn followed(&self) -> Option<Followed>
        ensures { (c : Course) → IsFollower self.now c → result ≡ followed_so_far c }
    {
        match &self.following {
            Some(following) => Some(following.followed()),
            None => None,
        }
    }

    /// How many records of a kind are open in which just these places are filled, modulo 2^64, once it is known which messages
    /// are followed. At the end these are the records that lack a message.
    pub fn open_records(&self, kind: Kind, filled: Filled) -> Option<u64>
        ensures { (c : Course) → IsFollower self.now c → result ≡ open_so_far kind filled c }
    {
        match &self.following {
            Some(following) => Some(following.open_records(kind, filled)),
            None => None,
        }
    }

    /// The sums over the crossings so far.
    pub fn sums(&self) -> Sums
        ensures { (c : Course) → IsFollower self.now c → AreSums (crossings_so_far c) result }
    {
        match &self.following {
            Some(following) => following.sums(),
            None => Sums::new(),
        }
    }

    /// What people are told of the crossings so far beside their sums, once it is known which messages are followed.
    pub fn figures(&self) -> Option<&Figures>
        ensures { (c : Course) → IsFollower self.now c
            → MatchOption result (c.followed ≡ None) (λ figures. AreFigures (crossings_so_far c) figures.now) }
    {
        match &self.following {
            Some(following) => Some(following.figures()),
            None => None,
        }
    }

    /// Of how many records of a kind nothing is told so far, and why.
    pub fn untold(&self, kind: Kind) -> Untold
        ensures { (c : Course) → IsFollower self.now c → AreUntold (outcomes_so_far kind c) result }
    {
        match &self.following {
            Some(following) => following.untold(kind),
            None => Untold::new(),
        }
    }

    /// Keeps a message.
    fn keep(&mut self, met: &Met) -> Result<(), AllocError>
        ensures kept { (met_before : List Met) → IsKept met_before self.old.kept self.old.count
            → OnOk result (IsKept (met.now ∷ met_before) self.new.kept self.new.count) }
        ensures others { self.new ≡ record self.old { kept = self.new.kept; count = self.new.count } }
    {
        if self.count < KEPT_MOST {
            self.count += 1;
        } else {
            self.kept.clear();
        }
        let Met {
            side,
            line,
            time,
            header,
            body,
        } = *met;
        self.kept.push(Met {
            side,
            line,
            time,
            header,
            body,
        })?;
        Ok(())
    }

    /// Whether there were as many messages as are kept, or more.
    fn is_full(&self) -> bool
        ensures { result ≡ (self.now.count == 1024) }
    {
        self.count == KEPT_MOST
    }

    /// The name of a tap, where it is known.
    fn name_at(&self, side: Side) -> Option<TapName>
        ensures { result ≡ name_at self.now.sides side }
    {
        match side {
            Side::First => self.sides.first,
            Side::Second => self.sides.second,
        }
    }

    /// The slave: the one that is asked for, or the source of the first Delay_Req that is kept, at `to`.
    fn slave_of(&self, pair: &Pair) -> Option<PortIdentity>
        ensures { result ≡ slave_in self.now.wanted.slave pair.now.domain pair.now.from (reverse self.now.kept) }
    {
        let mut slave = self.wanted.slave;
        for met in &self.kept {
            if slave.is_none() {
                slave = requester(pair.domain, pair.from, met);
            }
        }
        slave
    }

    /// Which messages are followed, where all is known but, if this is enough, the slave.
    fn chosen(&self, is_enough: bool) -> Option<Followed>
        ensures { result ≡ followed_by is_enough self.now.wanted self.now.sides self.now.known (reverse self.now.kept) }
    {
        let pair = self.choice.pair()?;
        let from_name = self.name_at(pair.from)?;
        let to_name = self.name_at(pair.from.other())?;
        let slave = self.slave_of(&pair);
        if slave.is_none() && !is_enough {
            return None;
        }
        Some(Followed {
            watched: Watched {
                domain: pair.domain,
                master: pair.master,
                slave,
            },
            from: pair.from,
            from_name,
            to_name,
        })
    }

    /// From now on messages are followed, those first that were kept.
    fn begin(&mut self, followed: &Followed, text: &mut String) -> Result<(), AllocError>
        ensures begun { OnOk result (KeepsFor self.old.form followed.now (reverse self.old.kept) self.new.following
            × (string_bytes text.new ≡ string_bytes text.old ++ written self.old.form followed.now (reverse self.old.kept))) }
        ensures others { self.new ≡ record self.old { following = self.new.following } }
    {
        let mut following = Following::new(self.alloc, self.form, followed);
        for met in &self.kept {
            following.follow(met, text)?;
        }
        self.following = Some(following);
        Ok(())
    }
}
