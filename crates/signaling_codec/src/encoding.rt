ghost use Rattle.std.specs.Prelude.{◌≡◌, ◌≤◌, ◌<◌, ◌+◌, ◌*◌, List, ℕ, length, take, drop, map, IfOk, OnErr, MatchResult, Some, None};
ghost use Rattle.std.specs.Prelude.{MatchOption};
ghost use Rattle.std.specs.List.{sum_by};
ghost use Rattle.event_codec.specs.Layout.{number};
ghost use Rattle.event_codec.specs.Packet.{IsHeader, IsIdentityAt, IsTimestampAt};
ghost use Rattle.signaling_codec.specs.Layout.{signaling_type, type_number};
ghost use Rattle.signaling_codec.specs.Record.{IsSyncReading, IsDelayReading, AreRecords};
ghost use Rattle.signaling_codec.specs.Tlv.{AreTlvs, IsTlv, tlv_length};
ghost use Rattle.signaling_codec.specs.Packet.{IsSignaling};
ghost use Rattle.signaling_codec.specs.Written.{tlv_written, message_of};
ghost use Rattle.signaling_codec.specs.EncodeRefusal.{octets_of, message_length, encode_refusal};
ghost use Rattle.signaling_codec.specs.Inner.Puts.{Puts};

use crate::encode_refusal::SignalingEncodeRefusal;
use crate::octets::array_at;
use crate::reading::{DelayReading, SyncReading};
use crate::tlv_type::TlvType;
use event_codec::{Header, PortIdentity};
use ptp_units::Timestamp;

/// A TLV to be written: a slave's readings of what came from a master.
#[derive(Clone, Copy, Debug, PartialEq, Eq)]
pub enum Tlv<'a> {
    /// SLAVE_RX_SYNC_TIMING_DATA.
    SyncTiming {
        /// sourcePortIdentity of the master.
        master: PortIdentity,
        /// Its records.
        readings: &'a [SyncReading],
    },
    /// SLAVE_DELAY_TIMING_DATA_NP.
    DelayTiming {
        /// sourcePortIdentity of the master.
        master: PortIdentity,
        /// Its records.
        readings: &'a [DelayReading],
    },
}

/// Puts octets at a place of the buffer, and gives the place behind them.
fn put<const N: usize>(buffer: &mut [u8], at: usize, octets: [u8; N]) -> usize
    requires { at + N ≤ length buffer.old }
    ensures { Puts buffer.old buffer.new at result octets.entry }
{
    buffer[at..at + N].copy_from_slice(&octets);
    at + N
}

/// The octets of the identity.
fn identity_octets(identity: PortIdentity) -> [u8; 10]
    ensures { IsIdentityAt identity result 0 }
{
    let [c0, c1, c2, c3, c4, c5, c6, c7] = identity.clock;
    let [p0, p1] = identity.port.to_be_bytes();
    [c0, c1, c2, c3, c4, c5, c6, c7, p0, p1]
}

/// The octets of the timestamp.
fn timestamp_octets(timestamp: Timestamp) -> [u8; 10]
    ensures { IsTimestampAt timestamp result 0 }
{
    let [_, _, s0, s1, s2, s3, s4, s5] = timestamp.seconds().to_be_bytes();
    let [n0, n1, n2, n3] = timestamp.nanos().to_be_bytes();
    [s0, s1, s2, s3, s4, s5, n0, n1, n2, n3]
}

/// The octets of the record of a Sync.
fn sync_octets(reading: &SyncReading) -> [u8; 34]
    ensures { IsSyncReading reading.now result }
{
    let [s0, s1] = reading.sequence.0.to_be_bytes();
    let [o0, o1, o2, o3, o4, o5, o6, o7, o8, o9] = timestamp_octets(reading.origin);
    let [c0, c1, c2, c3, c4, c5, c6, c7] = reading.correction.0.to_be_bytes();
    let [r0, r1, r2, r3] = reading.rate.to_be_bytes();
    let [i0, i1, i2, i3, i4, i5, i6, i7, i8, i9] = timestamp_octets(reading.ingress);
    [
        s0, s1, o0, o1, o2, o3, o4, o5, o6, o7, o8, o9, c0, c1, c2, c3, c4, c5, c6, c7, r0, r1, r2,
        r3, i0, i1, i2, i3, i4, i5, i6, i7, i8, i9,
    ]
}

/// The octets of the record of a Delay_Req.
fn delay_octets(reading: &DelayReading) -> [u8; 30]
    ensures { IsDelayReading reading.now result }
{
    let [s0, s1] = reading.sequence.0.to_be_bytes();
    let [d0, d1, d2, d3, d4, d5, d6, d7, d8, d9] = timestamp_octets(reading.departure);
    let [c0, c1, c2, c3, c4, c5, c6, c7] = reading.correction.0.to_be_bytes();
    let [r0, r1, r2, r3, r4, r5, r6, r7, r8, r9] = timestamp_octets(reading.receipt);
    [
        s0, s1, d0, d1, d2, d3, d4, d5, d6, d7, d8, d9, c0, c1, c2, c3, c4, c5, c6, c7, r0, r1, r2,
        r3, r4, r5, r6, r7, r8, r9,
    ]
}

/// The octets of the header: those of a Sync, but for messageType and messageLength.
fn header_octets(header: &Header, message_length: u16) -> [u8; 34]
    ensures { IsHeader header.now signaling_type message_length result }
{
    let sync = header.sync(Timestamp::default());
    let [l0, l1] = message_length.to_be_bytes();
    let mut octets: [u8; 34] = array_at(&sync, 0);
    octets[0] += 12;
    octets[2] = l0;
    octets[3] = l1;
    octets
}

/// The records, one behind the other.
fn put_sync_readings(buffer: &mut [u8], at: usize, readings: &[SyncReading]) -> usize
    requires { at + 34 * length readings.now ≤ length buffer.old }
    ensures { (b : List ℕ) × Puts buffer.old buffer.new at result b × AreRecords 34 IsSyncReading readings.now b
        × (result ≡ at + 34 * length readings.now) }
{
    let mut end = at;
    for reading in readings {
        end = put(buffer, end, sync_octets(reading));
    }
    end
}

/// The records, one behind the other.
fn put_delay_readings(buffer: &mut [u8], at: usize, readings: &[DelayReading]) -> usize
    requires { at + 30 * length readings.now ≤ length buffer.old }
    ensures { (b : List ℕ) × Puts buffer.old buffer.new at result b × AreRecords 30 IsDelayReading readings.now b
        × (result ≡ at + 30 * length readings.now) }
{
    let mut end = at;
    for reading in readings {
        end = put(buffer, end, delay_octets(reading));
    }
    end
}

/// tlvType, lengthField and sourcePortIdentity of the master.
fn tlv_head(kind: TlvType, length: u16, master: PortIdentity) -> [u8; 14]
    ensures kind { number result 0 2 ≡ type_number kind }
    ensures length { number result 2 2 ≡ length }
    ensures master { IsIdentityAt master result 4 }
{
    let [k0, k1] = kind.number().to_be_bytes();
    let [l0, l1] = length.to_be_bytes();
    let [m0, m1, m2, m3, m4, m5, m6, m7, m8, m9] = identity_octets(master);
    [k0, k1, l0, l1, m0, m1, m2, m3, m4, m5, m6, m7, m8, m9]
}

/// The whole TLV.
fn put_tlv(buffer: &mut [u8], at: usize, tlv: &Tlv<'_>) -> usize
    requires room { at + octets_of (tlv_written tlv.now) ≤ length buffer.old }
    requires short { octets_of (tlv_written tlv.now) < 65536 }
    ensures { (b : List ℕ) × Puts buffer.old buffer.new at result b × IsTlv (tlv_written tlv.now) b
        × (tlv_length b ≡ length b) × (length b ≡ octets_of (tlv_written tlv.now)) }
{
    match tlv {
        Tlv::SyncTiming { master, readings } => {
            let value_length = (10 + 34 * readings.len()) as u16;
            let head = tlv_head(TlvType::SyncTiming, value_length, *master);
            let end = put(buffer, at, head);
            put_sync_readings(buffer, end, readings)
        }
        Tlv::DelayTiming { master, readings } => {
            let value_length = (10 + 30 * readings.len()) as u16;
            let head = tlv_head(TlvType::DelayTiming, value_length, *master);
            let end = put(buffer, at, head);
            put_delay_readings(buffer, end, readings)
        }
    }
}

/// The TLVs, one behind the other.
fn put_tlvs(buffer: &mut [u8], at: usize, tlvs: &[Tlv<'_>]) -> usize
    requires room { at + sum_by octets_of (map tlv_written tlvs.now) ≤ length buffer.old }
    requires short { sum_by octets_of (map tlv_written tlvs.now) < 65536 }
    ensures { (b : List ℕ) × Puts buffer.old buffer.new at result b × AreTlvs (map tlv_written tlvs.now) b
        × (length b ≡ sum_by octets_of (map tlv_written tlvs.now)) }
{
    let mut end = at;
    for tlv in tlvs {
        end = put_tlv(buffer, end, tlv);
    }
    end
}

/// The octets that a TLV takes.
fn octets_of(tlv: &Tlv<'_>) -> usize
    ensures { result ≡ octets_of (tlv_written tlv.now) }
{
    match tlv {
        Tlv::SyncTiming { readings, .. } => 14 + 34 * readings.len(),
        Tlv::DelayTiming { readings, .. } => 14 + 30 * readings.len(),
    }
}

/// messageLength of a message with these TLVs, if it doesn't pass 65,535.
fn message_length(tlvs: &[Tlv<'_>]) -> Option<u16>
    ensures { MatchOption result
        (65536 ≤ 44 + sum_by octets_of (map tlv_written tlvs.now))
        (λ n. n ≡ 44 + sum_by octets_of (map tlv_written tlvs.now)) }
{
    let mut length: u16 = 44;
    for tlv in tlvs {
        let more = octets_of(tlv);
        if more > usize::from(u16::MAX - length) {
            return None;
        }
        length += more as u16;
    }
    Some(length)
}

/// The whole message, of this messageLength.
fn put_message(
    buffer: &mut [u8],
    header: &Header,
    target: PortIdentity,
    tlvs: &[Tlv<'_>],
    length_field: u16,
) -> usize
    requires whole { length_field ≡ message_length (message_of header.now target tlvs.now) }
    requires room { length_field ≤ length buffer.old }
    ensures whole { result ≡ length_field }
    ensures written { IsSignaling (message_of header.now target tlvs.now) (take length_field buffer.new) }
    ensures after { drop length_field buffer.new ≡ drop length_field buffer.old }
{
    let end = put(buffer, 0, header_octets(header, length_field));
    let end = put(buffer, end, identity_octets(target));
    put_tlvs(buffer, end, tlvs)
}

/// Writes a Signaling message of this header, this target and these TLVs into the front of the buffer, and gives its
/// messageLength. The octets after that stay as they are, and on a refusal all octets do. Refused with 231 where messageLength
/// would pass 65,535, else with 232 where the buffer is shorter than the message.
///
/// What is written is read again by [`decode_signaling`](crate::decode_signaling) as it was, whatever follows it: see
/// [`decode_of_encode`](crate::laws::decode_of_encode).
pub fn encode_signaling(
    header: &Header,
    target: PortIdentity,
    tlvs: &[Tlv<'_>],
    buffer: &mut [u8],
) -> Result<usize, SignalingEncodeRefusal>
    ensures written { IfOk result (λ n. (n ≤ length buffer.old)
        × IsSignaling (message_of header.now target tlvs.now) (take n buffer.new)
        × (drop n buffer.new ≡ drop n buffer.old)) }
    ensures refused { MatchResult result
        (λ _. encode_refusal (message_of header.now target tlvs.now) (length buffer.old) ≡ None)
        (λ e. encode_refusal (message_of header.now target tlvs.now) (length buffer.old) ≡ Some e) }
    ensures unchanged { OnErr result (buffer.new ≡ buffer.old) }
{
    let Some(length_field) = message_length(tlvs) else {
        return Err(SignalingEncodeRefusal::TooLong);
    };
    if buffer.len() < usize::from(length_field) {
        return Err(SignalingEncodeRefusal::NoRoom);
    }
    Ok(put_message(buffer, header, target, tlvs, length_field))
}
