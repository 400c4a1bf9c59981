//! The packets at interfaces that aren't asked for.

use capture_file::{Interface, InterfaceName};
use std::fmt;
use std::fmt::{Display, Formatter};
use std::io::Write;

/// How many interfaces are named.
const NAMED_MOST: usize = 16;

/// What an interface is called.
#[derive(Clone, Copy, Debug, PartialEq, Eq)]
enum Called {
    /// By its own name.
    Name(InterfaceName),
    /// By its place, as it has none.
    Place(u32),
    /// By a name that is too long to be asked for.
    Long,
}

impl Called {
    fn of(interface: &Interface<'_>) -> Called {
        match interface.name {
            Some(name) => InterfaceName::new(name).map_or(Called::Long, Called::Name),
            None => Called::Place(interface.place),
        }
    }
}

impl Display for Called {
    fn fmt<W: fmt::Write>(&self, f: &mut Formatter<W>) -> fmt::Result {
        match self {
            Called::Name(name) => write!(f, "{name}"),
            Called::Place(place) => write!(f, "if{place}"),
            Called::Long => f.write_str("one with a name of more than 255 octets"),
        }
    }
}

/// How many packets there were at interfaces that aren't asked for, and what the first of these are called. The count stays at 2^64 - 1.
#[derive(Clone, Copy, Debug)]
pub(crate) struct Elsewhere {
    packets: u64,
    called: [Option<Called>; NAMED_MOST],
    has_more: bool,
}

impl Elsewhere {
    /// No packet came.
    pub(crate) fn new() -> Elsewhere {
        Elsewhere {
            packets: 0,
            called: [None; NAMED_MOST],
            has_more: false,
        }
    }

    /// Counts a packet at an interface.
    pub(crate) fn count(&mut self, interface: &Interface<'_>) {
        self.packets = self.packets.saturating_add(1);
        let called = Called::of(interface);
        for known in &mut self.called {
            match known {
                Some(other) if *other == called => return,
                Some(_) => {}
                None => {
                    *known = Some(called);
                    return;
                }
            }
        }
        self.has_more = true;
    }

    /// Tells it in a line, where there were any. What can't be written is lost.
    pub(crate) fn tell<E: Write>(&self, errors: &mut E) {
        let _ = match self.packets {
            0 => return,
            1 => write!(
                errors,
                "ptpx: 1 packet at another interface, which isn't looked at:"
            ),
            count => write!(
                errors,
                "ptpx: {count} packets at other interfaces, which aren't looked at:"
            ),
        };
        for (place, called) in self.called.iter().flatten().enumerate() {
            let _ = match place {
                0 => write!(errors, " {called}"),
                _ => write!(errors, ", {called}"),
            };
        }
        let _ = errors.write_all(if self.has_more {
            b", and others\n"
        } else {
            b"\n"
        });
    }
}
