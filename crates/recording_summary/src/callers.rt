//! Who sent messages while it wasn't known whom to watch.
ghost use Rattle.std.specs.Prelude.{◌≡◌};
ghost use Rattle.recording_summary.specs.Callers.{no_callers, with_message};

use crate::others::Senders;
use event_codec::{Body, Message};

/// Who sent Syncs, and who sent Delay_Reqs.
#[derive(Clone, Copy)]
pub struct Callers {
    /// Who sent Syncs.
    pub masters: Senders,
    /// Who sent Delay_Reqs.
    pub slaves: Senders,
}

impl Callers {
    /// No message came.
    pub fn new() -> Callers
        ensures { result ≡ no_callers }
    {
        Callers {
            masters: Senders::new(),
            slaves: Senders::new(),
        }
    }

    /// Takes a message.
    pub fn take(&mut self, message: &Message<'_>)
        ensures { self.new ≡ with_message message.now.header.source message.now.body self.old }
    {
        let source = message.header.source;
        match message.body {
            Body::Sync { .. } => self.masters.take(source),
            Body::DelayReq { .. } => self.slaves.take(source),
            Body::FollowUp { .. } | Body::DelayResp { .. } => {}
        }
    }
}
