//! What is left aside: captured datagrams, where a slave's own readings are measured, and messages that tell readings which aren't taken.

ghost use Rattle.std.specs.Prelude.{◌≡◌, ℕ, Some};
ghost use Rattle.recording_measure.specs.Counts.{at_most};
ghost use Rattle.recording_measure.specs.Measure.{more_if};
ghost use Rattle.recording_measure.specs.AsideText.{several_text, captured_text, why_untaken, untaken_text, aside_text};
ghost use Rattle.recording_measure.specs.Inner.Vain.{why_none, vain_text};
ghost use Rattle.recording_measure.specs.Inner.Task.{AreCounted};

use std::fmt;
use std::fmt::{Display, Formatter};

/// How many datagrams are left aside. Each count stays at 2^64 - 1.
#[derive(Clone, Copy)]
pub struct Aside {
    /// How many of the four messages were captured, where a slave's own readings are measured.
    pub captured: u64,
    /// How many messages tell readings that aren't taken.
    pub untaken: u64,
}

/// So many of one, in words.
#[derive(Clone, Copy)]
struct Several(u64, &'static str);

impl Display for Several {
    ghost output = { λ several. Some (several_text several.0 several.1.now) };

    fn fmt<W: fmt::Write>(&self, f: &mut Formatter<W>) -> fmt::Result {
        let plural = if self.0 == 1 { "" } else { "s" };
        write!(f, "{} {}{plural}", self.0, self.1)
    }
}

/// How many captured messages were left aside, where any were.
#[derive(Clone, Copy)]
struct CapturedLine(u64);

impl Display for CapturedLine {
    ghost output = { λ count. Some (captured_text count.0) };

    #[tactic(auto, unfolding(crate::specs::AsideText::captured_text))]
    fn fmt<W: fmt::Write>(&self, f: &mut Formatter<W>) -> fmt::Result {
        match self.0 {
            0 => Ok(()),
            count => write!(
                f,
                "ptpx: {} left aside; --readings capture measures what was captured\n",
                Several(count, "captured message")
            ),
        }
    }
}

/// Why messages with own readings were left aside.
fn why_untaken(is_own: bool) -> &'static str
    ensures { result.now ≡ why_untaken is_own }
{
    if is_own {
        "of another slave or domain"
    } else {
        "since what was captured is measured, or they are of another slave or domain; --readings own measures a slave's own readings"
    }
}

/// How many messages with own readings were left aside, where any were.
#[derive(Clone, Copy)]
struct UntakenLine {
    count: u64,
    is_own: bool,
}

impl Display for UntakenLine {
    ghost output = { λ untaken. Some (untaken_text untaken.is_own untaken.count) };

    #[tactic(auto, unfolding(crate::specs::AsideText::untaken_text))]
    fn fmt<W: fmt::Write>(&self, f: &mut Formatter<W>) -> fmt::Result {
        match self.count {
            0 => Ok(()),
            count => write!(
                f,
                "ptpx: {} with own readings left aside, {}\n",
                Several(count, "message"),
                why_untaken(self.is_own)
            ),
        }
    }
}

/// How many datagrams were left aside, where own readings are measured or not. Shows as lines.
#[derive(Clone, Copy)]
pub struct AsideLines {
    /// How many.
    pub aside: Aside,
    /// Whether a slave's own readings are measured.
    pub is_own: bool,
}

#[tactic(auto, unfolding(crate::specs::AsideText::aside_text))]
impl Display for AsideLines {
    ghost output = { λ lines. Some (aside_text lines.is_own lines.aside) };

    fn fmt<W: fmt::Write>(&self, f: &mut Formatter<W>) -> fmt::Result {
        let Aside { captured, untaken } = self.aside;
        let is_own = self.is_own;
        let captured = CapturedLine(captured);
        let untaken = UntakenLine {
            count: untaken,
            is_own,
        };
        write!(f, "{captured}{untaken}")
    }
}

/// Why no own reading was measured, where they are asked for.
fn why_none(untaken: u64) -> &'static str
    ensures { result.now ≡ why_none untaken }
{
    match untaken {
        0 => {
            "no slave tells readings of its own: ptp4l does to its slave_event_monitor, and examples/monitor writes them as lines"
        }
        _ => "no slave that is asked for tells readings of its own",
    }
}

/// That own readings are asked for in vain, and how many datagrams were left aside. Shows as lines.
#[derive(Clone, Copy)]
pub(crate) struct VainLines(pub(crate) Aside);

#[tactic(auto, unfolding(crate::specs::Inner::Vain::vain_text))]
impl Display for VainLines {
    ghost output = { λ lines. Some (vain_text lines.0) };

    fn fmt<W: fmt::Write>(&self, f: &mut Formatter<W>) -> fmt::Result {
        let aside = self.0;
        let lines = AsideLines {
            aside,
            is_own: true,
        };
        write!(
            f,
            "ptpx: {}\nptpx: no report\n{lines}",
            why_none(aside.untaken)
        )
    }
}

/// How many datagrams passed by. Each count stays at 2^64 - 1.
#[derive(Clone, Copy)]
pub(crate) struct Passed {
    /// How many of the four messages were captured.
    pub(crate) captured: u64,
    /// How many messages told readings that weren't taken.
    pub(crate) untaken: u64,
}

/// One more, where it counts, up to 2^64 - 1.
fn count_if(count: &mut u64, is_more: bool)
    ensures { (n : ℕ) → count.old ≡ at_most n → count.new ≡ at_most (more_if is_more n) }
{
    if is_more {
        *count = count.saturating_add(1);
    }
}

impl Passed {
    /// No datagram came.
    pub(crate) fn new() -> Passed
        ensures { AreCounted 0 0 result }
    {
        Passed {
            captured: 0,
            untaken: 0,
        }
    }

    /// Counts a datagram, by what it is.
    pub(crate) fn count(&mut self, is_message: bool, is_untaken: bool)
        ensures { (captured untaken : ℕ) → AreCounted captured untaken self.old
            → AreCounted (more_if is_message captured) (more_if is_untaken untaken) self.new }
    {
        count_if(&mut self.captured, is_message);
        count_if(&mut self.untaken, is_untaken);
    }
}
