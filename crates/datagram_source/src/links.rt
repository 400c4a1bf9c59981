//! How many packets had link types in which PTP isn't looked for, by their numbers.

use std::io::Write;

/// How many link types are counted by themselves.
const LINKS: usize = 8;

/// How many packets had a link type.
#[derive(Clone, Copy, Debug)]
struct LinkCount {
    link: u16,
    count: u64,
}

/// How many packets had which link type: those of the first eight, and of all others together. Counts stay at 2^64 - 1.
#[derive(Clone, Copy, Debug)]
pub(crate) struct Links {
    counts: [Option<LinkCount>; LINKS],
    further: u64,
}

impl Links {
    /// No packet came.
    pub(crate) fn new() -> Links {
        Links {
            counts: [None; LINKS],
            further: 0,
        }
    }

    /// Counts a packet of a link type.
    pub(crate) fn count(&mut self, link: u16) {
        for place in &mut self.counts {
            match place {
                Some(known) if known.link != link => {}
                Some(known) => {
                    known.count = known.count.saturating_add(1);
                    return;
                }
                None => {
                    *place = Some(LinkCount { link, count: 1 });
                    return;
                }
            }
        }
        self.further = self.further.saturating_add(1);
    }

    /// Tells them, in lines. What can't be written is lost.
    pub(crate) fn tell<E: Write>(&self, errors: &mut E) {
        for known in self.counts.iter().flatten() {
            let packets = if known.count == 1 {
                "packet"
            } else {
                "packets"
            };
            let _ = writeln!(
                errors,
                "ptpx: {} {packets} of link type {}, in which PTP isn't looked for",
                known.count, known.link
            );
        }
        let _ = match self.further {
            0 => Ok(()),
            1 => writeln!(
                errors,
                "ptpx: 1 packet of another link type, in which PTP isn't looked for"
            ),
            count => writeln!(
                errors,
                "ptpx: {count} packets of other link types, in which PTP isn't looked for"
            ),
        };
    }
}
