//! The words that lines have for what came of an event.
ghost use Rattle.std.specs.Prelude.{◌≡◌};
ghost use Rattle.schedule_lines.specs.Written.{out_text, out_code};

use trace_model::TraceOut;

/// The text of `out`.
pub(crate) fn out_text(out: &TraceOut) -> &'static str
    ensures { result.now ≡ out_text out.now }
{
    match out {
        TraceOut::Done => "done",
        TraceOut::Made(_) => "made",
        TraceOut::Entered => "entered",
        TraceOut::Held => "held",
        TraceOut::Completed => "completed",
        TraceOut::Report(_) => "report",
        TraceOut::Ignored(_) => "ignored",
        TraceOut::Refused(_) => "refused",
    }
}

/// The number of a reason or a refusal.
pub(crate) fn out_code(out: &TraceOut) -> Option<u64>
    ensures { result ≡ out_code out.now }
{
    match out {
        TraceOut::Ignored(code) | TraceOut::Refused(code) => Some(u64::from(*code)),
        _ => None,
    }
}
