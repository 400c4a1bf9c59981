//! How long messages were in clocks.

ghost use Rattle.std.specs.Prelude.{◌≡◌, ◌+◌, ◌^◌, ◌<◌, IfOk};
ghost use Rattle.ptp_units.specs.Moment.{bound};

use crate::refusal::CheckFault;
use std::marker::Model;

/// No residence is this long or longer, in units of 2^-16 ns. It takes more than 2^31 stays in clocks to get there.
const BOUND: u128 = 1 << 125;

/// How long a message was in clocks, in units of 2^-16 ns.
#[derive(Clone, Copy)]
pub(crate) struct Residence {
    units: u128,
}

impl Model for Residence {
    ghost use Rattle.std.specs.Prelude.{ℕ, ◌<◌, ◌^◌};

    ghost Value = { ℕ };

    ghost view = { λ r. r.units };

    ghost invariant = { λ r. r.units < 2 ^ 125 };

    ghost inverse = { λ units. record { units = units } };
}

impl Residence {
    /// That of a message that was in no clock yet.
    pub(crate) fn zero() -> Residence
        ensures { result ≡ 0 }
    {
        Residence { units: 0 }
    }

    /// With one more stay of this many units. Refused where there is no room for so many.
    pub(crate) fn plus(self, stay: u128) -> Result<Residence, CheckFault>
        requires { stay < bound }
        ensures { IfOk result (λ residence. residence ≡ self + stay) }
    {
        let units = self.units + stay;
        if units >= BOUND {
            return Err(CheckFault::Memory);
        }
        Ok(Residence { units })
    }

    /// The number of units.
    pub(crate) fn units(self) -> u128
        ensures value { result ≡ self }
        ensures within { result < 2 ^ 125 }
    {
        self.units
    }
}
