//! Why a line or a packet is followed no further.
ghost use Rattle.std.specs.Prelude.{◌≡◌};
ghost use Rattle.text_lines.specs.Fault.{no_refusal};
ghost use Rattle.tap_follow.specs.Inner.Number.{follow_number};
ghost use Rattle.tap_follow.specs.declared.fault.FollowFault.TheVariants.{Memory, Write};

use std::alloc::AllocError;
use tap_choice::TapName;
use text_lines::{Numbered, WriteFailed};

/// Why a line or a packet isn't taken.
#[derive(Clone, Copy, Debug, PartialEq, Eq)]
pub enum FollowFault {
    /// The writer failed.
    Write,
    /// The line isn't what is asked for.
    Field,
    /// Memory was refused.
    Memory,
    /// PTP was met at a third tap, which is called so, and not both taps are asked for.
    ThirdTap(TapName),
}

impl Numbered for FollowFault {
    ghost number_of = { follow_number };

    ghost refusal_of = { no_refusal };

    fn number(&self) -> u16 {
        match self {
            FollowFault::Write => 802,
            FollowFault::Field => 806,
            FollowFault::Memory => 808,
            FollowFault::ThirdTap(_) => 809,
        }
    }

    fn refusal(&self) -> Option<u16> {
        None
    }
}

impl From<WriteFailed> for FollowFault {
    ghost from_gives = { λ _ fault. fault ≡ Write };

    fn from(_failed: WriteFailed) -> FollowFault {
        FollowFault::Write
    }
}

impl From<AllocError> for FollowFault {
    ghost from_gives = { λ _ fault. fault ≡ Memory };

    fn from(_refused: AllocError) -> FollowFault {
        FollowFault::Memory
    }
}
