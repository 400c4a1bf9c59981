//! What the Announces of the master tell, and where that changed.

ghost use Rattle.std.specs.Prelude.{◌≡◌, ◌∷◌, List, [], Some};
ghost use Rattle.std.specs.List.{cons_option};
ghost use Rattle.std.specs.Option.{option_or};
ghost use Rattle.recording_summary.specs.Announces.{announced_of, change_by, AreAnnounces};
ghost use Rattle.recording_summary.specs.Counts.{with_one};

use event_codec::Announce;

/// The octet of flagField that has the flags of the timescale (IEEE 1588-2019, table 37).
const TIME_FLAGS: usize = 1;

/// currentUtcOffsetValid in that octet.
const UTC_OFFSET_VALID: u8 = 4;

/// ptpTimescale in that octet.
const PTP_TIMESCALE: u8 = 8;

/// What an Announce tells of the clock from which the time comes (IEEE 1588-2019, 13.5).
#[derive(Clone, Copy, PartialEq, Eq)]
pub struct Announced {
    /// grandmasterIdentity.
    pub grandmaster: [u8; 8],
    /// clockClass of grandmasterClockQuality.
    pub clock_class: u8,
    /// stepsRemoved.
    pub steps_removed: u16,
    /// currentUtcOffset, in s.
    pub utc_offset: i16,
    /// currentUtcOffsetValid.
    pub is_utc_offset_valid: bool,
    /// ptpTimescale.
    pub is_ptp_timescale: bool,
}

/// An Announce, by its line or packet.
#[derive(Clone, Copy)]
pub struct Announcement {
    /// The line or packet.
    pub line: u64,
    /// What it tells.
    pub announced: Announced,
}

/// An Announce that tells another thing than the one before it.
#[derive(Clone, Copy)]
pub struct Change {
    /// Its line or packet.
    pub line: u64,
    /// What the one before it told.
    pub before: Announced,
    /// What it tells.
    pub after: Announced,
}

/// What Announces tell. Each count stays at 2^64 - 1.
#[derive(Clone, Copy)]
pub struct Announces {
    /// How many there are.
    pub count: u64,
    /// What the last one tells, and the line or packet of the first one since which all tell that.
    pub told: Option<Announcement>,
    /// How many tell another thing than the one before them.
    pub changes: u64,
    /// The first of these.
    pub first_change: Option<Change>,
}

impl Announced {
    /// What this Announce tells.
    pub fn of(announce: &Announce) -> Announced
        ensures { result ≡ announced_of announce.now }
    {
        let flags = announce.header.flags[TIME_FLAGS];
        Announced {
            grandmaster: announce.grandmaster,
            clock_class: announce.clock_class,
            steps_removed: announce.steps_removed,
            utc_offset: announce.utc_offset,
            is_utc_offset_valid: flags / UTC_OFFSET_VALID % 2 == 1,
            is_ptp_timescale: flags / PTP_TIMESCALE % 2 == 1,
        }
    }
}

impl Announces {
    /// No Announce came.
    pub(crate) fn new() -> Announces
        ensures { AreAnnounces [] result }
    {
        Announces {
            count: 0,
            told: None,
            changes: 0,
            first_change: None,
        }
    }

    /// The change with which an Announce comes, if it tells another thing than the last one.
    fn change_by(&self, announcement: &Announcement) -> Option<Change>
        ensures { result ≡ change_by self.now.told announcement.now }
    {
        match self.told {
            Some(told) if told.announced != announcement.announced => Some(Change {
                line: announcement.line,
                before: told.announced,
                after: announcement.announced,
            }),
            _ => None,
        }
    }

    /// Takes a change.
    fn take_change(&mut self, change: Change)
        ensures { self.new ≡ record self.old {
          changes = with_one self.old.changes;
          first_change = option_or self.old.first_change (Some change);
        } }
    {
        self.changes = self.changes.saturating_add(1);
        if self.first_change.is_none() {
            self.first_change = Some(change);
        }
    }

    /// Takes an Announce.
    fn take(&mut self, announcement: &Announcement)
        ensures { (all : List Announcement) → AreAnnounces all self.old → AreAnnounces (announcement.now ∷ all) self.new }
    {
        self.count = self.count.saturating_add(1);
        if let Some(change) = self.change_by(announcement) {
            self.take_change(change);
            self.told = Some(*announcement);
        } else if self.told.is_none() {
            self.told = Some(*announcement);
        }
    }

    /// Takes an Announce, if there is one.
    pub fn take_some(&mut self, announcement: Option<Announcement>)
        ensures { (all : List Announcement) → AreAnnounces all self.old → AreAnnounces (cons_option announcement all) self.new }
    {
        if let Some(announcement) = announcement {
            self.take(&announcement);
        }
    }
}
