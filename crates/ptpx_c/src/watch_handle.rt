//! C's handle of a watch: where its memory is.

ghost use Rattle.std.specs.Prelude.{◌≡◌, IsSome, Option, Some, None};
ghost use Rattle.std.specs.Borrow.{sem};
ghost use Rattle.ptpx_c.specs.declared.ring_watch.RingWatch.{RingWatch};

use crate::ring_watch::RingWatch;
use std::marker::{Model, Send};

/// A watch, in memory that C gave.
#[repr(C)]
pub struct RawWatch {
    /// The memory.
    pub at: *mut u8,
    /// The watch that lies there, once there is one.
    pub ghost port: { Option RingWatch },
}

impl Model for RawWatch {
    ghost use Rattle.ptpx_c.specs.Memory.{watch_memory};

    ghost also_owns = { λ h. watch_memory h.at h.port };
}

unsafe impl Send for RawWatch {}

impl RawWatch {
    ghost use Rattle.ptpx_c.specs.Watches.{with_watch};
    ghost use Rattle.ptpx_c.specs.Inner.Lending.{LendsWatch};

    /// Puts a watch into the memory.
    pub(crate) fn put(&mut self, watch: RingWatch)
        requires { self.old.port ≡ None }
        ensures { self.new ≡ with_watch self.old watch }
    {
        unsafe {
            (self.at as *mut RingWatch).write(watch);
        }
    }

    /// The watch.
    pub(crate) fn port(&mut self) -> &mut RingWatch
        requires { IsSome self.old.port }
        ensures* writes_back { sem 𝓛 (LendsWatch self.entry result) }
        ensures value { self.old.port ≡ Some result.now }
    {
        unsafe { &mut *(self.at as *mut RingWatch) }
    }
}
