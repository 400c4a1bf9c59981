//! C's handle of a wide slave port: where its memory is.

ghost use Rattle.std.specs.Prelude.{◌≡◌, IsSome, Option, Some, None};
ghost use Rattle.std.specs.Borrow.{sem};
ghost use Rattle.ptpx_c.specs.declared.ring.WideRingSlave.{WideRingSlave};

use crate::ring::WideRingSlave;
use std::marker::{Model, Send};

/// A wide slave port, in memory that C gave.
#[repr(C)]
pub struct RawWideSlave {
    /// The memory.
    pub at: *mut u8,
    /// The port that lies there, once there is one.
    pub ghost port: { Option WideRingSlave },
}

impl Model for RawWideSlave {
    ghost use Rattle.ptpx_c.specs.Memory.{wide_memory};

    ghost also_owns = { λ h. wide_memory h.at h.port };
}

unsafe impl Send for RawWideSlave {}

impl RawWideSlave {
    ghost use Rattle.ptpx_c.specs.Slaves.{with_wide_port};
    ghost use Rattle.ptpx_c.specs.Inner.Lending.{LendsWidePort};

    /// Puts a port into the memory.
    pub(crate) fn put(&mut self, slave: WideRingSlave)
        requires { self.old.port ≡ None }
        ensures { self.new ≡ with_wide_port self.old slave }
    {
        unsafe {
            (self.at as *mut WideRingSlave).write(slave);
        }
    }

    /// The port.
    pub(crate) fn port(&mut self) -> &mut WideRingSlave
        requires { IsSome self.old.port }
        ensures* writes_back { sem 𝓛 (LendsWidePort self.entry result) }
        ensures value { self.old.port ≡ Some result.now }
    {
        unsafe { &mut *(self.at as *mut WideRingSlave) }
    }
}
