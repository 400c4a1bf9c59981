//! Whose readings are measured: those of what was captured, or a slave's own.

ghost use Rattle.std.specs.Prelude.{◌≡◌};
ghost use Rattle.recording_measure.specs.Measure.{by_asked, are_by};

use datagram_source::Readings;
use event_codec::PortIdentity;

/// Whose readings are measured, as far as that is known.
#[derive(Clone, Copy)]
pub(crate) enum By {
    /// Those of what was captured, unless own ones come before the first report.
    Any,
    /// Those of what was captured.
    Captured,
    /// Those of one slave, which the first of them tells.
    Own(Option<PortIdentity>),
}

impl By {
    /// What is asked for.
    pub(crate) fn asked(readings: Option<Readings>) -> By
        ensures { result ≡ by_asked readings }
    {
        match readings {
            None => By::Any,
            Some(Readings::Captured) => By::Captured,
            Some(Readings::Own) => By::Own(None),
        }
    }

    /// Whether a slave's own readings are measured, after a first report or before it.
    pub(crate) fn takes(self, slave: PortIdentity, has_reported: bool) -> bool
        ensures { result ≡ are_by self slave has_reported }
    {
        match self {
            By::Any => !has_reported,
            By::Captured => false,
            By::Own(None) => true,
            By::Own(Some(own)) => slave == own,
        }
    }
}
