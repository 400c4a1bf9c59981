//! The port of a slave, which is played along.

use arrayvec::ArrayVec;
use event_codec::{PortConfig, PortIdentity};
use network_model::Heard;
use pairing::RingTable;
use ptp_units::{ScaledTime, Seq};
use slave_port::{HeldFollow, HeldRequest, HeldSync, SlavePort};

/// What holds the messages of a slave: at most 16 of each kind.
type Table<V> = RingTable<V, 16>;

/// How many Delay_Reqs are kept with the number that the slave gave them: as many as its port holds.
const REQUESTS_MOST: usize = 16;

/// Where a message has its sequenceId.
const NUMBER: usize = 30;

/// The messageType of a Delay_Resp.
const DELAY_RESP: u8 = 9;

/// A Delay_Req by the number that the slave gave it, and by the one that the port drew.
#[derive(Clone, Copy, Debug)]
struct Numbers {
    said: Seq,
    drawn: Seq,
}

/// A Delay_Req that waits for its departure time.
#[derive(Clone, Copy, Debug)]
struct Departure {
    number: Seq,
    at: ScaledTime,
}

/// A port that is told what came to a slave. It answers by its own rules; but the numbers of Delay_Reqs are those that the slave
/// gave them, whatever is missing between.
#[derive(Drop)]
pub(crate) struct Played {
    port: SlavePort<Table<HeldSync>, Table<HeldFollow>, Table<HeldRequest>>,
    waiting: Option<Departure>,
    /// The last Delay_Reqs, the newest first.
    requests: [Option<Numbers>; REQUESTS_MOST],
}

/// The sequenceId of a message; none where it has no such octets.
fn number_of(octets: &[u8]) -> Option<Seq> {
    let high = *octets.get(NUMBER)?;
    let low = *octets.get(NUMBER + 1)?;
    Some(Seq(u16::from_be_bytes([high, low])))
}

/// The same octets with another sequenceId.
fn with_number(octets: &[u8], number: Seq) -> ArrayVec<u8, 54> {
    let mut copy = ArrayVec::new();
    let _ = copy.try_extend_from_slice(octets);
    for (place, octet) in number.0.to_be_bytes().iter().enumerate() {
        if let Some(there) = copy.as_mut_slice().get_mut(NUMBER + place) {
            *there = *octet;
        }
    }
    copy
}

impl Played {
    /// A port that has no master, and to which nothing came.
    pub(crate) fn new(config: PortConfig, first: Seq) -> Played {
        Played {
            port: SlavePort::new(config, first),
            waiting: None,
            requests: [None; REQUESTS_MOST],
        }
    }

    /// The slave was told its master.
    pub(crate) fn set_master(&mut self, master: PortIdentity) {
        self.port.set_master(master);
    }

    /// Its hold timer ran out.
    pub(crate) fn tick(&mut self) {
        self.port.tick();
    }

    /// It sent this Delay_Req, as its clock showed this.
    pub(crate) fn request(&mut self, octets: &[u8], at: ScaledTime, tag: u64) {
        let drawn = self.port.draw_request(tag);
        self.waiting = Some(Departure { number: drawn, at });
        let said = match number_of(octets) {
            Some(said) => said,
            None => drawn,
        };
        let mut next = Some(Numbers { said, drawn });
        for place in &mut self.requests {
            let passed = *place;
            *place = next;
            next = passed;
        }
    }

    /// It learned when the Delay_Req left that waits for it.
    pub(crate) fn stamped(&mut self) {
        if let Some(request) = self.waiting {
            self.waiting = None;
            let _ = self.port.request_left(request.number, request.at);
        }
    }

    /// A message arrived on the event port.
    pub(crate) fn arrive(&mut self, octets: &[u8], t2: ScaledTime, tag: u64) -> Heard {
        self.port.sync(octets, t2, tag)
    }

    /// A message came to the general port.
    pub(crate) fn hear(&mut self, octets: &[u8], tag: u64) -> Heard {
        match self.drawn_for(octets) {
            Some(drawn) => self
                .port
                .general(with_number(octets, drawn).as_slice(), tag),
            None => self.port.general(octets, tag),
        }
    }

    /// The number that the port drew for the Delay_Req that a Delay_Resp answers; none where the slave gave that number to none of its
    /// last ones.
    fn drawn_for(&self, octets: &[u8]) -> Option<Seq> {
        if octets.first()? % 16 != DELAY_RESP {
            return None;
        }
        let said = number_of(octets)?;
        for numbers in self.requests.iter().flatten() {
            if numbers.said == said {
                return Some(numbers.drawn);
            }
        }
        None
    }
}
