//! Whom an input is of.
ghost use Rattle.std.specs.Prelude.{◌≡◌, Some};
ghost use Rattle.recording_words.specs.Whom.{source_text, domain_teller, domain_line, master_teller, master_line, slave_line, whom_text};

use crate::unit::InputUnit;
use datagram_text::Identity;
use event_codec::PortIdentity;
use recording_summary::{Known, Whom};
use std::fmt;
use std::fmt::{Display, Formatter};

/// How something is known: by the line or packet of a number, if not by what was asked for.
#[derive(Clone, Copy)]
struct Source {
    unit: InputUnit,
    number: Option<u64>,
}

#[tactic(auto, unfolding(crate::specs::Whom::source_text))]
impl Display for Source {
    ghost output = { λ source. Some (source_text source.unit source.number) };

    fn fmt<W: fmt::Write>(&self, f: &mut Formatter<W>) -> fmt::Result {
        match self.number {
            Some(number) => write!(f, "told by {} {number}", self.unit),
            None => f.write_str("as asked for"),
        }
    }
}

/// Which message would have told the domain.
fn domain_teller(is_master_known: bool) -> &'static str
    ensures { result.now ≡ domain_teller is_master_known }
{
    if is_master_known {
        "Sync of the master"
    } else {
        "Sync"
    }
}

/// The domain, and how it is known.
#[derive(Clone, Copy)]
struct DomainLine {
    unit: InputUnit,
    domain: Option<Known<u8>>,
    is_master_known: bool,
}

#[tactic(auto, unfolding(crate::specs::Whom::domain_line))]
impl Display for DomainLine {
    ghost output = { λ x. Some (domain_line x.unit x.domain x.is_master_known) };

    fn fmt<W: fmt::Write>(&self, f: &mut Formatter<W>) -> fmt::Result {
        match self.domain {
            Some(Known { value, line }) => {
                let source = Source {
                    unit: self.unit,
                    number: line,
                };
                write!(f, "ptpx: domain {value}, {source}\n")
            }
            None => {
                let teller = domain_teller(self.is_master_known);
                write!(f, "ptpx: no {teller} tells the domain\n")
            }
        }
    }
}

/// Which message would have told the master.
fn master_teller(is_domain_known: bool) -> &'static str
    ensures { result.now ≡ master_teller is_domain_known }
{
    if is_domain_known {
        "Sync of the domain"
    } else {
        "Sync"
    }
}

/// The master, and how it is known.
#[derive(Clone, Copy)]
struct MasterLine {
    unit: InputUnit,
    master: Option<Known<PortIdentity>>,
    is_domain_known: bool,
}

#[tactic(auto, unfolding(crate::specs::Whom::master_line))]
impl Display for MasterLine {
    ghost output = { λ x. Some (master_line x.unit x.master x.is_domain_known) };

    fn fmt<W: fmt::Write>(&self, f: &mut Formatter<W>) -> fmt::Result {
        match self.master {
            Some(Known { value, line }) => {
                let source = Source {
                    unit: self.unit,
                    number: line,
                };
                write!(f, "ptpx: master {}, {source}\n", Identity(&value))
            }
            None => {
                let teller = master_teller(self.is_domain_known);
                write!(f, "ptpx: no {teller} tells the master\n")
            }
        }
    }
}

/// The slave, and how it is known.
#[derive(Clone, Copy)]
struct SlaveLine {
    unit: InputUnit,
    slave: Option<Known<PortIdentity>>,
}

#[tactic(auto, unfolding(crate::specs::Whom::slave_line))]
impl Display for SlaveLine {
    ghost output = { λ x. Some (slave_line x.unit x.slave) };

    fn fmt<W: fmt::Write>(&self, f: &mut Formatter<W>) -> fmt::Result {
        match self.slave {
            Some(Known { value, line }) => {
                let source = Source {
                    unit: self.unit,
                    number: line,
                };
                write!(f, "ptpx: slave {}, {source}\n", Identity(&value))
            }
            None => f.write_str("ptpx: no Delay_Req of the domain tells the slave\n"),
        }
    }
}

/// Whom an input is of, and which of its lines or packets told that. Shows as three lines.
#[derive(Clone, Copy)]
pub struct WhomLines {
    /// What lines or packets are called.
    pub unit: InputUnit,
    /// Whom the input is of.
    pub whom: Whom,
}

#[tactic(auto, unfolding(crate::specs::Whom::whom_text))]
impl Display for WhomLines {
    ghost output = { λ x. Some (whom_text x.unit x.whom) };

    fn fmt<W: fmt::Write>(&self, f: &mut Formatter<W>) -> fmt::Result {
        let Whom {
            domain,
            master,
            slave,
        } = self.whom;
        let unit = self.unit;
        let domain_line = DomainLine {
            unit,
            domain,
            is_master_known: master.is_some(),
        };
        let master_line = MasterLine {
            unit,
            master,
            is_domain_known: domain.is_some(),
        };
        write!(f, "{domain_line}{master_line}{}", SlaveLine { unit, slave })
    }
}
