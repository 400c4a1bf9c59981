//! How many messages had other fields changed between the taps than their corrections.
ghost use Rattle.std.specs.Prelude.{◌≡◌, List, [], ◌∷◌};
ghost use Rattle.tap_crossing.specs.declared.changes.Changes.{Changes};
ghost use Rattle.tap_sums.specs.Changed.{AreChanged};

use statistics::count_if;
use tap_crossing::Changes;

/// How many messages of crossings had a field changed between the taps, each as far as 2^64 - 1; corrections are none of these.
#[derive(Clone, Copy)]
pub struct Changed {
    /// Any of those below.
    pub messages: u64,
    /// majorSdoId or minorSdoId.
    pub sdo: u64,
    /// minorVersionPTP.
    pub minor_version: u64,
    /// flagField.
    pub flags: u64,
    /// messageTypeSpecific.
    pub specific: u64,
    /// controlField.
    pub control: u64,
    /// logMessageInterval.
    pub log: u64,
    /// Their timestamp, whatever its name in their type of message.
    pub timestamp: u64,
}

impl Changed {
    /// Of no message.
    pub(crate) fn new() -> Changed
        ensures { AreChanged [] result }
    {
        Changed {
            messages: 0,
            sdo: 0,
            minor_version: 0,
            flags: 0,
            specific: 0,
            control: 0,
            log: 0,
            timestamp: 0,
        }
    }

    /// Counts one message more.
    pub(crate) fn take(&mut self, changes: &Changes)
        ensures { (earlier : List Changes) → AreChanged earlier self.old → AreChanged (changes.now ∷ earlier) self.new }
    {
        self.messages = count_if(self.messages, changes.is_any());
        self.sdo = count_if(self.sdo, changes.sdo);
        self.minor_version = count_if(self.minor_version, changes.minor_version);
        self.flags = count_if(self.flags, changes.flags);
        self.specific = count_if(self.specific, changes.specific);
        self.control = count_if(self.control, changes.control);
        self.log = count_if(self.log, changes.log);
        self.timestamp = count_if(self.timestamp, changes.timestamp);
    }
}
