ghost use Rattle.std.specs.Prelude.{◌≡◌, []};
ghost use Rattle.event_codec.specs.Layout.{type_of, fields_length};
ghost use Rattle.event_codec.specs.Packet.{Packet, contents};
ghost use Rattle.event_codec.specs.Profile.{header_of, contents_of};

use crate::encoding::encode;
use crate::message::{Body, Header, Message};
use crate::nibble::Nibble;
use crate::port::{PortConfig, PortIdentity};
use ptp_units::{Interval, Seq, Timestamp};

impl PortConfig {
    /// The header of a message that a port of this configuration writes: sdoId 0, version 2.1,
    /// messageTypeSpecific 0, and domain and identity of the port.
    pub fn header(
        &self,
        flags: [u8; 2],
        correction: Interval,
        sequence: Seq,
        control: u8,
        log: i8,
    ) -> Header
        ensures { result ≡ header_of self.now flags correction.0 sequence.0 control log }
    {
        Header {
            major_sdo: Nibble::new(0).unwrap(),
            minor_version: Nibble::new(1).unwrap(),
            domain: self.domain,
            minor_sdo: 0,
            flags,
            correction,
            specific: [0; 4],
            source: self.identity,
            sequence,
            control,
            log,
        }
    }
}

/// A message without suffix, as this profile's ports write them.
#[derive(Clone, Copy, Debug, PartialEq, Eq)]
pub struct PortMessage {
    /// The fields that all messages have.
    pub header: Header,
    /// The fields of the message's own type.
    pub body: Body,
}

impl PortMessage {
    /// The message of this header and body, with a suffix of no octets.
    pub fn message(&self) -> Message<'static>
        ensures { contents result ≡ contents_of self.now }
    {
        Message {
            header: self.header,
            body: self.body,
            suffix: &[],
        }
    }

    /// The octets of the message: N is 54 for a Delay_Resp, and 44 for the other types.
    pub fn octets<const N: usize>(self) -> [u8; N]
        requires { fields_length (type_of self.body) ≡ N }
        ensures { Packet (contents_of self) result }
    {
        let mut octets = [0; N];
        let written = encode(&self.message(), &mut octets);
        prove!(written.is_ok());
        octets
    }
}

impl Header {
    /// The octets of the Sync that has this header, and no suffix.
    pub fn sync(self, origin: Timestamp) -> [u8; 44]
        ensures { Packet (record { header = self; body = Body.Sync origin; suffix = [] }) result }
    {
        self.with_body(Body::Sync { origin }).octets()
    }

    /// The octets of the Delay_Req that has this header, and no suffix.
    pub fn delay_req(self, origin: Timestamp) -> [u8; 44]
        ensures { Packet (record { header = self; body = Body.DelayReq origin; suffix = [] }) result }
    {
        self.with_body(Body::DelayReq { origin }).octets()
    }

    /// The octets of the Follow_Up that has this header, and no suffix.
    pub fn follow_up(self, precise: Timestamp) -> [u8; 44]
        ensures { Packet (record { header = self; body = Body.FollowUp precise; suffix = [] }) result }
    {
        self.with_body(Body::FollowUp { precise }).octets()
    }

    /// The octets of the Delay_Resp that has this header, and no suffix.
    pub fn delay_resp(self, receive: Timestamp, requesting: PortIdentity) -> [u8; 54]
        ensures { Packet (record { header = self; body = Body.DelayResp receive requesting; suffix = [] }) result }
    {
        let body = Body::DelayResp {
            receive,
            requesting,
        };
        self.with_body(body).octets()
    }

    /// The message with this header and this body.
    pub fn with_body(self, body: Body) -> PortMessage
        ensures { result ≡ record { header = self; body = body } }
    {
        PortMessage { header: self, body }
    }
}
