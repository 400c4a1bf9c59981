//! What speaks against the numbers, in words.
ghost use Rattle.std.specs.Prelude.{Some};
ghost use Rattle.recording_words.specs.Bewares.{masters_text, slaves_text, other_domains_text, beware_text, beware_line, bewares_text};

use crate::beware_messages::{
    Corrected, CutShort, Missing, OutOfOrder, Repeated, ReportsEnd, SyncsEnd,
};
use crate::beware_parts::Anew;
use crate::beware_reports::{
    AtOnce, IsSetBack, OffsetApart, OldDelay, PathsBelow, PathsZero, RunsAway, Steps, WholeSeconds,
};
use crate::others::{DOMAINS, Domains, Listed};
use crate::unit::InputUnit;
use recording_summary::{BEWARES, Beware, Senders};
use std::fmt;
use std::fmt::{Display, Formatter};

/// Other masters of the domain.
#[derive(Clone, Copy)]
struct OtherMasters(Senders);

#[tactic(auto, unfolding(crate::specs::Bewares::masters_text))]
impl Display for OtherMasters {
    ghost output = { λ masters. Some (masters_text masters.0) };

    fn fmt<W: fmt::Write>(&self, f: &mut Formatter<W>) -> fmt::Result {
        write!(
            f,
            "messages of other masters of the domain: {}; --master picks one",
            Listed(self.0)
        )
    }
}

/// Other slaves of the domain.
#[derive(Clone, Copy)]
struct OtherSlaves(Senders);

#[tactic(auto, unfolding(crate::specs::Bewares::slaves_text))]
impl Display for OtherSlaves {
    ghost output = { λ slaves. Some (slaves_text slaves.0) };

    fn fmt<W: fmt::Write>(&self, f: &mut Formatter<W>) -> fmt::Result {
        write!(
            f,
            "Delay_Reqs of other slaves of the domain: {}; --slave picks one",
            Listed(self.0)
        )
    }
}

/// Other domains.
#[derive(Clone, Copy)]
struct OtherDomains([u64; DOMAINS]);

#[tactic(auto, unfolding(crate::specs::Bewares::other_domains_text))]
impl Display for OtherDomains {
    ghost output = { λ counts. Some (other_domains_text counts.0) };

    fn fmt<W: fmt::Write>(&self, f: &mut Formatter<W>) -> fmt::Result {
        write!(
            f,
            "messages of other domains: {}; --domain picks one",
            Domains(self.0)
        )
    }
}

/// What speaks against the numbers, in words.
#[derive(Clone, Copy)]
struct Told {
    unit: InputUnit,
    masters: Senders,
    slaves: Senders,
    domains: [u64; DOMAINS],
    beware: Beware,
}

#[tactic(auto, unfolding(crate::specs::Bewares::beware_text))]
impl Display for Told {
    ghost output = { λ x. Some (beware_text x.unit x.masters x.slaves x.domains x.beware) };

    fn fmt<W: fmt::Write>(&self, f: &mut Formatter<W>) -> fmt::Result {
        let unit = self.unit;
        match self.beware {
            Beware::RequestsAtOnce(count) => {
                let names = "requests";
                write!(f, "{}", AtOnce { count, names })
            }
            Beware::SyncsAtOnce(count) => {
                let names = "Syncs";
                write!(f, "{}", AtOnce { count, names })
            }
            Beware::PathsBelow { below, of, least } => write!(
                f,
                "{}",
                PathsBelow {
                    unit,
                    below,
                    of,
                    least
                }
            ),
            Beware::PathsZero { zeros, of } => write!(f, "{}", PathsZero { zeros, of }),
            Beware::WholeSeconds {
                is_negative,
                seconds,
            } => write!(
                f,
                "{}",
                WholeSeconds {
                    is_negative,
                    seconds
                }
            ),
            Beware::OffsetSteps(jump) => write!(
                f,
                "{}",
                Steps {
                    unit,
                    jump,
                    name: "offset",
                    why: "a clock was set there, or the way changed",
                }
            ),
            Beware::OffsetRunsAway(rate) => write!(f, "{}", RunsAway(rate)),
            Beware::OffsetIsSetBack(set_back) => write!(f, "{}", IsSetBack { unit, set_back }),
            Beware::PathSteps(jump) => write!(
                f,
                "{}",
                Steps {
                    unit,
                    jump,
                    name: "path delay",
                    why: "the way changed, or a clock was set there",
                }
            ),
            Beware::SyncsEnd { tenths, newcomer } => write!(
                f,
                "{}",
                SyncsEnd {
                    unit,
                    tenths,
                    newcomer
                }
            ),
            Beware::ReportsEnd { tenths } => write!(f, "{}", ReportsEnd(tenths)),
            Beware::Repeated {
                count,
                least,
                greatest,
            } => write!(
                f,
                "{}",
                Repeated {
                    count,
                    least,
                    greatest
                }
            ),
            Beware::OtherMasters => write!(f, "{}", OtherMasters(self.masters)),
            Beware::OtherSlaves => write!(f, "{}", OtherSlaves(self.slaves)),
            Beware::OtherDomains => write!(f, "{}", OtherDomains(self.domains)),
            Beware::OutOfOrder(falls) => write!(f, "{}", OutOfOrder { unit, falls }),
            Beware::OldDelay { offsets, oldest } => write!(
                f,
                "{}",
                OldDelay {
                    unit,
                    offsets,
                    oldest
                }
            ),
            Beware::MissingSyncs(lost) => {
                let what = "Syncs are missing, by their numbers: lost on the way or in recording";
                write!(f, "{}", Missing { lost, what })
            }
            Beware::MissingFollowUps(lost) => {
                let what =
                    "two-step Syncs have no Follow_Up and give no offset: lost, or general messages (port 320) weren't recorded";
                write!(f, "{}", Missing { lost, what })
            }
            Beware::MissingRequests(lost) => {
                let what =
                    "Delay_Reqs are missing, by their numbers: lost on the way or in recording";
                write!(f, "{}", Missing { lost, what })
            }
            Beware::MissingResponses(lost) => {
                let what = "Delay_Reqs have no Delay_Resp: lost, or the master doesn't answer them";
                write!(f, "{}", Missing { lost, what })
            }
            Beware::CorrectedRequests(cases) => write!(f, "{}", Corrected { unit, cases }),
            Beware::MasterAnew(cases) => write!(
                f,
                "{}",
                Anew {
                    unit,
                    cases,
                    what: "the master began its numbers",
                    why: "another one took its identity, or many of its Syncs are missing",
                }
            ),
            Beware::SlaveAnew(cases) => write!(
                f,
                "{}",
                Anew {
                    unit,
                    cases,
                    what: "the slave began",
                    why: "many of its Delay_Reqs are missing",
                }
            ),
            Beware::OffsetApart(spike) => write!(f, "{}", OffsetApart { unit, spike }),
            Beware::CutShort(cut) => write!(f, "{}", CutShort(cut)),
            Beware::WholeMicroseconds => f.write_str(
                "all times are of whole microseconds: no offset is better than 1 us; record with tcpdump --time-stamp-precision nano, or \
                 dumpcap",
            ),
        }
    }
}

/// A line for this, where there is any.
#[derive(Clone, Copy)]
struct BewareLine {
    unit: InputUnit,
    masters: Senders,
    slaves: Senders,
    domains: [u64; DOMAINS],
    beware: Option<Beware>,
}

#[tactic(auto, unfolding(crate::specs::Bewares::beware_line))]
impl Display for BewareLine {
    ghost output = { λ x. Some (beware_line x.unit x.masters x.slaves x.domains x.beware) };

    fn fmt<W: fmt::Write>(&self, f: &mut Formatter<W>) -> fmt::Result {
        let Some(beware) = self.beware else {
            return Ok(());
        };
        let told = Told {
            unit: self.unit,
            masters: self.masters,
            slaves: self.slaves,
            domains: self.domains,
            beware,
        };
        write!(f, "ptpx: beware: {told}\n")
    }
}

/// All that speaks against the numbers, a line each.
#[derive(Clone, Copy)]
pub struct BewareLines {
    /// Whether the input has lines or packets.
    pub unit: InputUnit,
    /// What speaks against the numbers.
    pub bewares: [Option<Beware>; BEWARES],
    /// Other masters of the domain.
    pub masters: Senders,
    /// Other slaves of the domain.
    pub slaves: Senders,
    /// How many messages are of each other domain.
    pub domains: [u64; DOMAINS],
}

#[tactic(auto, unfolding(crate::specs::Bewares::bewares_text))]
impl Display for BewareLines {
    ghost output = { λ x. Some (bewares_text x.unit x.masters x.slaves x.domains x.bewares) };

    fn fmt<W: fmt::Write>(&self, f: &mut Formatter<W>) -> fmt::Result {
        for beware in &self.bewares {
            let line = BewareLine {
                unit: self.unit,
                masters: self.masters,
                slaves: self.slaves,
                domains: self.domains,
                beware: *beware,
            };
            write!(f, "{line}")?;
        }
        Ok(())
    }
}
