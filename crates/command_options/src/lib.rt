//! What the subcommands of `ptpx` can be asked for.
#![tactic(auto)]

use capture_file::InterfaceName;
use datagram_source::Readings;
use event_codec::PortIdentity;
use ptp_units::ScaledTime;
use tap_choice::TapName;

/// The options of `extract`.
#[derive(Clone, Copy, Debug, Default, PartialEq, Eq)]
pub struct ExtractOptions {
    /// The interface whose packets are taken; without it, those of all are.
    pub interface: Option<InterfaceName>,
    /// Whether the octets are written alone, without times.
    pub octets: bool,
    /// Whether a table of who sent what is written, in place of lines.
    pub list: bool,
}

/// The options of `measure`.
#[derive(Clone, Copy, Debug, Default, PartialEq, Eq)]
pub struct MeasureOptions {
    /// The port of the slave; without it, the source of the first Delay_Req of the domain.
    pub slave: Option<PortIdentity>,
    /// The port of the master; without it, the source of the first Sync of the domain.
    pub master: Option<PortIdentity>,
    /// domainNumber; without it, that of the first Sync, of the master where that is given.
    pub domain: Option<u8>,
    /// The interface of a capture; without it, that of the first stream in which slave, master and domain are known.
    pub interface: Option<InterfaceName>,
    /// Whose readings are measured; without it, a slave's own if any come before the first report.
    pub readings: Option<Readings>,
    /// The greatest offset, either way, that isn't told by the exit status: so many seconds as it is nanoseconds.
    pub limit: Option<ScaledTime>,
    /// Whether the output is CSV, in place of JSON.
    pub csv: bool,
    /// Whether each report has also the exchange that it was made of.
    pub full: bool,
    /// Whether the exit status tells that there is no report, or that anything speaks against the numbers.
    pub strict: bool,
    /// Whether the output is what the reports come to, in place of these, and neither CSV nor full.
    pub sum: bool,
}

/// The options of `audit`.
#[derive(Clone, Copy, Debug, Default, PartialEq, Eq)]
pub struct AuditOptions {
    /// The port of the slave; without it, the source of the first Delay_Req of the domain.
    pub slave: Option<PortIdentity>,
    /// The port of the master; without it, the source of the first Sync of the domain.
    pub master: Option<PortIdentity>,
    /// domainNumber; without it, that of the first Sync, of the master where that is given.
    pub domain: Option<u8>,
    /// The interface of a capture; without it, that of the first stream in which slave, master and domain are known.
    pub interface: Option<InterfaceName>,
    /// By whose readings results are judged; without it, by a slave's own if any come before the first report.
    pub readings: Option<Readings>,
    /// By how much a number may be off; without it, by 1 ns: so many seconds as it is nanoseconds.
    pub tolerance: Option<ScaledTime>,
    /// Whether the output is CSV, in place of JSON.
    pub csv: bool,
    /// Whether offsets alone are judged, and path delays of results aren't read.
    pub offset_only: bool,
}

/// The options of `follow`.
#[derive(Clone, Copy, Debug, Default, PartialEq, Eq)]
pub struct FollowOptions {
    /// The tap that a Sync meets first; without it, the one at which the first Sync that was met at both was met earlier.
    pub from: Option<TapName>,
    /// The tap that a Delay_Req meets first, another one than that; without it, the other of the two.
    pub to: Option<TapName>,
    /// The port of the slave; without it, the source of the first Delay_Req of the domain at `to`.
    pub slave: Option<PortIdentity>,
    /// The port of the master; without it, the source of the first Sync of the domain.
    pub master: Option<PortIdentity>,
    /// domainNumber; without it, that of the first Sync, of the master where that is given.
    pub domain: Option<u8>,
    /// The greatest rest, either way, that isn't told by the exit status: so many seconds as it is nanoseconds.
    pub limit: Option<ScaledTime>,
    /// Whether the output is CSV, in place of JSON.
    pub csv: bool,
    /// Whether the output is sums, in place of crossings, and not CSV.
    pub sum: bool,
}

/// The options of `explain`.
#[derive(Clone, Copy, Debug, Default, PartialEq, Eq)]
pub struct ExplainOptions {
    /// Whether only the first report that is refused is told, in place of each.
    pub first: bool,
    /// Whether the output is JSON, a line a report, in place of text.
    pub json: bool,
}
