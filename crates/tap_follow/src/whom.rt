//! Whose messages are followed, and between which taps, for people.
ghost use Rattle.std.specs.Prelude.{Some};
ghost use Rattle.tap_follow.specs.Whom.{from_text, master_text, way_text, slave_text, whom_text, taps_text};

use crate::followed::Followed;
use crate::names::Tap;
use datagram_text::Identity;
use event_codec::PortIdentity;
use std::fmt;
use std::fmt::{Display, Formatter};
use tap_choice::TapName;

/// What is told of whom is followed.
#[derive(Clone, Copy)]
pub(crate) struct Whom {
    /// The two taps, the domain and the master.
    pub(crate) way: Option<Followed>,
    pub(crate) slave: Option<PortIdentity>,
}

/// The two taps.
#[derive(Clone, Copy)]
struct FromLine {
    from: TapName,
    to: TapName,
}

#[tactic(auto, unfolding(crate::specs::Whom::from_text))]
impl Display for FromLine {
    ghost output = { λ x. Some (from_text x.from x.to) };

    fn fmt<W: fmt::Write>(&self, f: &mut Formatter<W>) -> fmt::Result {
        write!(f, "ptpx: from {} to {}\n", Tap(self.from), Tap(self.to))
    }
}

/// The domain and the master.
#[derive(Clone, Copy)]
struct MasterLines {
    domain: u8,
    master: PortIdentity,
}

#[tactic(auto, unfolding(crate::specs::Whom::master_text))]
impl Display for MasterLines {
    ghost output = { λ x. Some (master_text x.domain x.master) };

    fn fmt<W: fmt::Write>(&self, f: &mut Formatter<W>) -> fmt::Result {
        write!(
            f,
            "ptpx: domain {}\nptpx: master {}\n",
            self.domain,
            Identity(&self.master)
        )
    }
}

/// The two taps, the domain and the master.
#[derive(Clone, Copy)]
struct WayLines(Option<Followed>);

#[tactic(auto, unfolding(crate::specs::Whom::way_text))]
impl Display for WayLines {
    ghost output = { λ way. Some (way_text way.0) };

    fn fmt<W: fmt::Write>(&self, f: &mut Formatter<W>) -> fmt::Result {
        let Some(followed) = self.0 else {
            return Ok(());
        };
        let taps = FromLine {
            from: followed.from_name,
            to: followed.to_name,
        };
        let master = MasterLines {
            domain: followed.watched.domain,
            master: followed.watched.master,
        };
        write!(f, "{taps}{master}")
    }
}

/// The slave.
#[derive(Clone, Copy)]
struct SlaveLine(Option<PortIdentity>);

#[tactic(auto, unfolding(crate::specs::Whom::slave_text))]
impl Display for SlaveLine {
    ghost output = { λ slave. Some (slave_text slave.0) };

    fn fmt<W: fmt::Write>(&self, f: &mut Formatter<W>) -> fmt::Result {
        match &self.0 {
            Some(slave) => write!(f, "ptpx: slave {}\n", Identity(slave)),
            None => Ok(()),
        }
    }
}

#[tactic(auto, unfolding(crate::specs::Whom::whom_text))]
impl Display for Whom {
    ghost output = { λ whom. Some (whom_text whom) };

    fn fmt<W: fmt::Write>(&self, f: &mut Formatter<W>) -> fmt::Result {
        write!(f, "{}{}", WayLines(self.way), SlaveLine(self.slave))
    }
}

/// What is known where nothing was followed: the taps that are asked for or were met.
#[derive(Clone, Copy)]
pub(crate) struct TapsLine {
    pub(crate) first: Option<TapName>,
    pub(crate) second: Option<TapName>,
}

#[tactic(auto, unfolding(crate::specs::Whom::taps_text))]
impl Display for TapsLine {
    ghost output = { λ taps. Some (taps_text taps.first taps.second) };

    fn fmt<W: fmt::Write>(&self, f: &mut Formatter<W>) -> fmt::Result {
        match (self.first, self.second) {
            (Some(first), Some(second)) => write!(
                f,
                "ptpx: nothing was followed between {} and {}: the domain, the master, the slave or the way isn't known\n",
                Tap(first),
                Tap(second)
            ),
            (Some(tap), None) | (None, Some(tap)) => {
                write!(
                    f,
                    "ptpx: nothing was met at another tap than {}\n",
                    Tap(tap)
                )
            }
            (None, None) => f.write_str("ptpx: nothing was met at a tap\n"),
        }
    }
}
