//! C's handle of a slave port: where its memory is.

ghost use Rattle.std.specs.Prelude.{◌≡◌, IsSome, Option, Some, None};
ghost use Rattle.std.specs.Borrow.{sem};
ghost use Rattle.ptpx_c.specs.declared.ring.RingSlave.{RingSlave};

use crate::ring::RingSlave;
use std::marker::{Model, Send};

/// A slave port, in memory that C gave.
#[repr(C)]
pub struct RawSlave {
    /// The memory.
    pub at: *mut u8,
    /// The port that lies there, once there is one.
    pub ghost port: { Option RingSlave },
}

impl Model for RawSlave {
    ghost use Rattle.ptpx_c.specs.Memory.{memory};

    ghost also_owns = { λ h. memory h.at h.port };
}

unsafe impl Send for RawSlave {}

impl RawSlave {
    ghost use Rattle.ptpx_c.specs.Slaves.{with_port};
    ghost use Rattle.ptpx_c.specs.Inner.Lending.{LendsPort};

    /// Puts a port into the memory.
    pub(crate) fn put(&mut self, slave: RingSlave)
        requires { self.old.port ≡ None }
        ensures { self.new ≡ with_port self.old slave }
    {
        unsafe {
            (self.at as *mut RingSlave).write(slave);
        }
    }

    /// The port.
    pub(crate) fn port(&mut self) -> &mut RingSlave
        requires { IsSome self.old.port }
        ensures* writes_back { sem 𝓛 (LendsPort self.entry result) }
        ensures value { self.old.port ≡ Some result.now }
    {
        unsafe { &mut *(self.at as *mut RingSlave) }
    }
}
