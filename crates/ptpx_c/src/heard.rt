ghost use Rattle.std.specs.Prelude.{◌≡◌};
ghost use Rattle.slave_port.specs.Refusal.{code_of_reason};
ghost use Rattle.ptpx_c.specs.Answers.{Says, without_report, IsReport};

use crate::words::RawSigned;
use slave_port::{Heard, Report};

/// What became of a message that a slave heard.
#[repr(C)]
#[derive(Clone, Copy)]
pub struct RawHeard {
    /// 0: it is held; 1: it completed one half of a report, and the other half isn't there; 2: it completed one half,
    /// and the other half is there; 3: it is ignored.
    pub kind: u16,
    /// Why it is ignored, else 0.
    pub reason: u16,
    /// Whether the Sync of the report is a one-step Sync, which has no Follow_Up.
    pub one_step: bool,
    /// Twice offsetFromMaster of the report, in 2^-16 ns, else 0.
    pub offset2: RawSigned,
    /// Twice meanPathDelay of the report, in 2^-16 ns, else 0.
    pub path2: RawSigned,
    /// The tag of the report's Sync, else 0.
    pub sync_tag: u64,
    /// The tag of the report's Follow_Up, else 0.
    pub follow_tag: u64,
    /// The tag of the report's Delay_Req, else 0.
    pub request_tag: u64,
    /// The tag of the report's Delay_Resp, else 0.
    pub response_tag: u64,
}

impl RawHeard {
    /// The answer for C.
    pub(crate) fn of(heard: Heard) -> RawHeard
        ensures { Says result heard }
    {
        match heard {
            Heard::Held => RawHeard::without_report(0, 0),
            Heard::Completed => RawHeard::without_report(1, 0),
            Heard::Report(report) => RawHeard::of_report(report),
            Heard::Ignored(reason) => RawHeard::without_report(3, reason.code()),
        }
    }

    /// An answer of this kind, which is no report.
    fn without_report(kind: u16, reason: u16) -> RawHeard
        ensures { result ≡ without_report kind reason }
    {
        RawHeard {
            kind,
            reason,
            one_step: false,
            offset2: RawSigned { high: 0, low: 0 },
            path2: RawSigned { high: 0, low: 0 },
            sync_tag: 0,
            follow_tag: 0,
            request_tag: 0,
            response_tag: 0,
        }
    }

    /// A report.
    fn of_report(report: Report) -> RawHeard
        ensures { IsReport result report }
    {
        RawHeard {
            kind: 2,
            reason: 0,
            one_step: report.follow_tag.is_none(),
            offset2: RawSigned::of(report.offset2),
            path2: RawSigned::of(report.path2),
            sync_tag: report.sync_tag,
            follow_tag: report.follow_tag.unwrap_or(0),
            request_tag: report.request_tag,
            response_tag: report.response_tag,
        }
    }
}
