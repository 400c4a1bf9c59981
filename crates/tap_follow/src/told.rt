//! Whose messages are followed, told as soon as that is known, and at which taps something was met.
ghost use Rattle.std.specs.Prelude.{◌≡◌, OnOk};
ghost use Rattle.std.specs.Io.KnownBytes.{Appends};
ghost use Rattle.tap_follow.specs.Course.{Course};
ghost use Rattle.tap_follow.specs.Held.{IsFollower};
ghost use Rattle.tap_follow.specs.SoFar.{followed_so_far};
ghost use Rattle.tap_follow.specs.Whom.{whom_text, untold_whom};

use crate::followed::Followed;
use crate::follower::Follower;
use crate::whom::Whom;
use std::io;
use std::io::Write;
use tap_choice::TapName;

/// How many taps are named.
const NAMED_MOST: usize = 8;

/// What was told of whom is followed, and the taps at which something was met.
#[derive(Clone, Copy)]
pub(crate) struct Told {
    /// The two taps, the domain and the master.
    is_way_told: bool,
    is_slave_told: bool,
    /// The first of them.
    met: [Option<TapName>; NAMED_MOST],
    has_more: bool,
}

impl Told {
    /// Nothing was told.
    pub(crate) fn new() -> Told {
        Told {
            is_way_told: false,
            is_slave_told: false,
            met: [None; NAMED_MOST],
            has_more: false,
        }
    }

    /// Something was met at a tap of this name.
    pub(crate) fn meet(&mut self, tap: TapName) {
        for known in &mut self.met {
            match known {
                Some(other) if *other == tap => return,
                Some(_) => {}
                None => {
                    *known = Some(tap);
                    return;
                }
            }
        }
        self.has_more = true;
    }

    /// Tells, in a line, that nothing was met at a tap, which an option names, and which taps were met. What can't be written is lost.
    pub(crate) fn tell_lacking<E: Write>(&self, tap: &TapName, option: &str, errors: &mut E) {
        let _ = write!(
            errors,
            "ptpx: nothing was met at {}, which {option} names",
            tap.text()
        );
        for (place, tap) in self.met.iter().flatten().enumerate() {
            let _ = match place {
                0 => write!(errors, ": the taps are {}", tap.text()),
                _ => write!(errors, ", {}", tap.text()),
            };
        }
        let _ = match (self.met[0], self.has_more) {
            (None, _) => writeln!(errors, ", or at any other tap"),
            (Some(_), false) => writeln!(errors, ""),
            (Some(_), true) => writeln!(errors, " and others"),
        };
    }

    /// What is known by now and wasn't told.
    pub(crate) fn untold(&self, known: &Option<Followed>) -> Whom
        ensures { result ≡ untold_whom self.now known.now }
    {
        let slave = match known {
            Some(followed) => followed.watched.slave,
            None => None,
        };
        Whom {
            way: if self.is_way_told { None } else { *known },
            slave: if self.is_slave_told { None } else { slave },
        }
    }

    /// Tells, in lines, what is known by now and wasn't told.
    pub(crate) fn tell<E: Write>(&mut self, follower: &Follower, errors: &mut E) -> io::Result<()>
        ensures { (c : Course) → IsFollower follower.now c → OnOk result (Appends (E.contents errors.old) (E.contents errors.new)
            (whom_text (untold_whom self.old (followed_so_far c)))) }
    {
        let whom = self.untold(&follower.followed());
        if whom.way.is_some() {
            self.is_way_told = true;
        }
        if whom.slave.is_some() {
            self.is_slave_told = true;
        }
        write!(errors, "{whom}")
    }
}
