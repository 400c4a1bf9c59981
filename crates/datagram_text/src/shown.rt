ghost use Rattle.std.specs.Prelude.{◌≡◌, ◌++◌, ◌<◌, ◌≤◌, length, OnOk, Some, slice_index};
ghost use Rattle.std.specs.String.{string_bytes};
ghost use Rattle.hex.specs.Hex.{encode_lower, lower_digits};
ghost use Rattle.event_codec.specs.Packet.{contents};
ghost use Rattle.datagram_text.specs.Shown.{name_of, identity_text, correction_text, stamp_text, requesting_text};
ghost use Rattle.datagram_text.specs.Shown.{header_text, message_text, refusal_text, AppendsShown};

use event_codec::{Body, DecodeRefusal, Header, Message, PortIdentity, decode};
use ptp_units::{Interval, Timestamp};
use std::alloc::AllocError;
use std::fmt::{Display, Formatter};
use std::{fmt, str};

/// The octets of a field, at most eight, in lower case hexadecimal.
#[derive(Clone, Copy)]
struct Hexadecimal<'a> {
    octets: &'a [u8],
    ghost short: { length octets.now ≤ 8 },
}

impl Display for Hexadecimal<'_> {
    ghost output = { λ field. Some (encode_lower field.octets.now) };

    fn fmt<W: fmt::Write>(&self, f: &mut Formatter<W>) -> fmt::Result {
        let mut room = [0; 16];
        let digits = &mut room[..2 * self.octets.len()];
        hex::encode_to_slice(self.octets, digits).unwrap();
        f.write_str(str::from_utf8(digits).unwrap())
    }
}

/// A lower case hexadecimal digit.
fn digit_of(value: u8) -> char
    requires { value < 16 }
    ensures digit { result ≡ slice_index lower_digits value }
    ensures ascii { result < 128 }
{
    match value {
        0..=9 => char::from(b'0' + value),
        _ => char::from(b'a' + (value - 10)),
    }
}

/// clockIdentity in hexadecimal, a slash, and portNumber.
#[derive(Clone, Copy)]
pub struct Identity<'a>(pub &'a PortIdentity);

impl Display for Identity<'_> {
    ghost output = { λ identity. Some (identity_text identity.0.now) };

    fn fmt<W: fmt::Write>(&self, f: &mut Formatter<W>) -> fmt::Result {
        write!(
            f,
            "{}/{}",
            Hexadecimal {
                octets: &self.0.clock
            },
            self.0.port
        )
    }
}

/// A number of units, or that it is too big.
#[derive(Clone, Copy)]
struct Correction(Interval);

impl Display for Correction {
    ghost output = { λ correction. Some (correction_text correction.0.0) };

    fn fmt<W: fmt::Write>(&self, f: &mut Formatter<W>) -> fmt::Result {
        match self.0.exact() {
            Some(units) => write!(f, "{units}"),
            None => write!(f, "too-big"),
        }
    }
}

/// Seconds, a point, and nine digits of nanoseconds.
#[derive(Clone, Copy)]
struct Stamp(Timestamp);

impl Display for Stamp {
    ghost output = { λ stamp. Some (stamp_text stamp.0) };

    fn fmt<W: fmt::Write>(&self, f: &mut Formatter<W>) -> fmt::Result {
        write!(f, "{}.{:09}", self.0.seconds(), self.0.nanos())
    }
}

/// A Delay_Resp's requestingPortIdentity, and nothing for the other types.
#[derive(Clone, Copy)]
struct Requesting<'a>(&'a Body);

impl Display for Requesting<'_> {
    ghost output = { λ body. Some (requesting_text body.0.now) };

    fn fmt<W: fmt::Write>(&self, f: &mut Formatter<W>) -> fmt::Result {
        match self.0 {
            Body::DelayResp { requesting, .. } => write!(f, " requesting={}", Identity(requesting)),
            _ => Ok(()),
        }
    }
}

/// The name of a message's type.
fn name_of(body: &Body) -> &'static str
    ensures { result.now ≡ name_of body.now }
{
    match body {
        Body::Sync { .. } => "Sync",
        Body::DelayReq { .. } => "Delay_Req",
        Body::FollowUp { .. } => "Follow_Up",
        Body::DelayResp { .. } => "Delay_Resp",
    }
}

/// Appends the text of a datagram: the fields of the message that it begins with, or the number of
/// the refusal.
pub fn push_datagram(text: &mut String, octets: &[u8]) -> Result<(), AllocError>
    ensures { OnOk result (AppendsShown octets.now (string_bytes text.old) (string_bytes text.new)) }
{
    match decode(octets) {
        Ok((message, used)) => push_message(text, &message, used),
        Err(refusal) => push_refusal(text, refusal),
    }
}

/// Appends the text of a message that takes `used` octets.
fn push_message(text: &mut String, message: &Message<'_>, used: usize) -> Result<(), AllocError>
    ensures { OnOk result (string_bytes text.new ≡ string_bytes text.old ++ message_text (contents message.now) used) }
{
    push_header(text, &message.header, name_of(&message.body))?;
    write!(
        text,
        " stamp={}{} suffix={} used={used}",
        Stamp(message.body.timestamp()),
        Requesting(&message.body),
        message.suffix.len()
    )
}

/// Appends the fields that all messages have, after the name of the type.
fn push_header(text: &mut String, header: &Header, name: &str) -> Result<(), AllocError>
    ensures { OnOk result (string_bytes text.new ≡ string_bytes text.old ++ header_text header.now name.now) }
{
    write!(
        text,
        "{name} sdo={}{} version=2.{} domain={} flags={}",
        digit_of(header.major_sdo.value()),
        Hexadecimal {
            octets: &[header.minor_sdo]
        },
        header.minor_version.value(),
        header.domain,
        Hexadecimal {
            octets: &header.flags
        }
    )?;
    write!(
        text,
        " correction={} specific={} source={}",
        Correction(header.correction),
        Hexadecimal {
            octets: &header.specific
        },
        Identity(&header.source)
    )?;
    write!(
        text,
        " seq={} control={} log={}",
        header.sequence.0, header.control, header.log
    )
}

/// Appends the number of a refusal, and the type of a message that isn't one of the four.
fn push_refusal(text: &mut String, refusal: DecodeRefusal) -> Result<(), AllocError>
    ensures { OnOk result (string_bytes text.new ≡ string_bytes text.old ++ refusal_text refusal) }
{
    write!(text, "refused {}", refusal.code())?;
    match refusal {
        DecodeRefusal::OtherType(kind) => write!(text, " type {kind}"),
        _ => Ok(()),
    }
}
