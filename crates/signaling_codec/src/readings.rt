ghost use Rattle.std.specs.Prelude.{◌≡◌, ◌∷◌, [], ◌++◌, ◌≤◌, ◌<◌, ◌^◌, ◌+◌, length, drop, MatchOption, None};
ghost use Rattle.std.specs.Iterator.{YieldsFirst, item_count};
ghost use Rattle.event_codec.specs.Layout.{number};
ghost use Rattle.signaling_codec.specs.Layout.{record_length};
ghost use Rattle.signaling_codec.specs.Tlv.{type_numbered, readings_in, readings_of};
ghost use Rattle.signaling_codec.specs.Refusal.{records_refusal, value_refusal, tlvs_refusal};
ghost use Rattle.signaling_codec.specs.Inner.Parsed.{sync_reading, delay_reading, tlv_of, tlv_with, tlvs_in};
ghost use Rattle.signaling_codec.specs.Inner.Left.{left_readings, IsSound};

use crate::octets::{port_identity_at, timestamp_at, u16_at, u32_at, u64_at};
use crate::reading::{DelayReading, OwnReading, Reading, SyncReading};
use crate::signaling::Signaling;
use crate::tlv_type::TlvType;
use crate::tlvs::{FirstTlv, first_tlv};
use event_codec::PortIdentity;
use ptp_units::{Interval, Seq};
use std::marker::Model;

/// The records that are left of a TLV, and the octets of the TLVs behind it.
#[derive(Drop, Debug)]
struct Left<'a> {
    kind: TlvType,
    master: PortIdentity,
    records: &'a [u8],
    tlvs: &'a [u8],
}

/// A slave's own readings in a Signaling message, in the order in which they stand.
#[derive(Drop, Debug)]
pub struct Readings<'a> {
    left: Left<'a>,
}

impl<'a> Model for Readings<'a> {
    ghost use Rattle.std.specs.Prelude.{List};
    ghost use Rattle.signaling_codec.specs.declared.reading.OwnReading.{OwnReading};
    ghost use Rattle.signaling_codec.specs.Inner.Left.{left_readings, IsSound};

    ghost Value = { List OwnReading };

    ghost view = { λ r. left_readings r.left };

    ghost invariant = { λ r. IsSound r.left };
}

/// The record of a Sync at the front.
#[tactic(auto, unfolding(crate::specs::Inner::Parsed::sync_reading))]
fn sync_reading(octets: &[u8]) -> SyncReading
    requires whole { 34 ≤ length octets.now }
    requires origin { number octets.now 8 4 < 10 ^ 9 }
    requires ingress { number octets.now 30 4 < 10 ^ 9 }
    ensures { result ≡ sync_reading octets.now }
{
    SyncReading {
        sequence: Seq(u16_at(octets, 0)),
        origin: timestamp_at(octets, 2),
        correction: Interval(u64_at(octets, 12).cast_signed()),
        rate: u32_at(octets, 20).cast_signed(),
        ingress: timestamp_at(octets, 24),
    }
}

/// The record of a Delay_Req at the front.
#[tactic(auto, unfolding(crate::specs::Inner::Parsed::delay_reading))]
fn delay_reading(octets: &[u8]) -> DelayReading
    requires whole { 30 ≤ length octets.now }
    requires departure { number octets.now 8 4 < 10 ^ 9 }
    requires receipt { number octets.now 26 4 < 10 ^ 9 }
    ensures { result ≡ delay_reading octets.now }
{
    DelayReading {
        sequence: Seq(u16_at(octets, 0)),
        departure: timestamp_at(octets, 2),
        correction: Interval(u64_at(octets, 12).cast_signed()),
        receipt: timestamp_at(octets, 20),
    }
}

/// The first of the records that are left.
fn first_reading(kind: TlvType, master: PortIdentity, records: &[u8]) -> OwnReading
    requires some { 0 < length records.now }
    requires sound { records_refusal (record_length kind) records.now ≡ None }
    ensures whole { record_length kind ≤ length records.now }
    ensures first { readings_in (tlv_of kind master records.now)
        ≡ result ∷ readings_in (tlv_of kind master (drop (record_length kind) records.now)) }
    ensures sound { records_refusal (record_length kind) (drop (record_length kind) records.now) ≡ None }
{
    match kind {
        TlvType::SyncTiming => OwnReading {
            master,
            reading: Reading::Sync(sync_reading(records)),
        },
        TlvType::DelayTiming => OwnReading {
            master,
            reading: Reading::Delay(delay_reading(records)),
        },
    }
}

/// The records of a TLV, if it has any.
fn records_of(tlv: FirstTlv<'_>) -> Option<Left<'_>>
    requires { value_refusal (type_numbered tlv.number) tlv.value.now ≡ None }
    ensures { MatchOption result
        (readings_in (tlv_with (type_numbered tlv.entry.number) tlv.entry.number tlv.entry.value.now) ≡ [])
        (λ it. (0 < length it.records.now)
        × (records_refusal (record_length it.kind) it.records.now ≡ None)
        × (tlv_of it.kind it.master it.records.now
        ≡ tlv_with (type_numbered tlv.entry.number) tlv.entry.number tlv.entry.value.now)
        × (it.tlvs.now ≡ tlv.entry.rest.now)) }
{
    let FirstTlv {
        number,
        value,
        rest,
    } = tlv;
    let Some(kind) = TlvType::from_number(number) else {
        return None;
    };
    if value.len() <= 10 {
        return None;
    }
    Some(Left {
        kind,
        master: port_identity_at(value, 0),
        records: &value[10..],
        tlvs: rest,
    })
}

/// The first TLV that has records, and what is behind it.
fn next_records(tlvs: &[u8]) -> Option<Left<'_>>
    requires { tlvs_refusal 0 tlvs.now ≡ None }
    ensures { MatchOption result
        (readings_of (tlvs_in 0 tlvs.now) ≡ [])
        (λ it. (0 < length it.records.now) × IsSound it × (readings_of (tlvs_in 0 tlvs.now) ≡ left_readings it)) }
{
    let mut rest = tlvs;
    while let Some(tlv) = first_tlv(rest) {
        let behind = tlv.rest;
        if let Some(left) = records_of(tlv) {
            return Some(left);
        }
        rest = behind;
    }
    None
}

/// The same readings, with one at the front.
fn with_record<'a>(left: &Left<'a>) -> Option<Left<'a>>
    requires { IsSound left.now }
    ensures { MatchOption result
        (left_readings left.now ≡ [])
        (λ it. (0 < length it.records.now) × IsSound it × (left_readings left.now ≡ left_readings it)) }
{
    if left.records.is_empty() {
        return next_records(left.tlvs);
    }
    Some(Left {
        kind: left.kind,
        master: left.master,
        records: left.records,
        tlvs: left.tlvs,
    })
}

impl<'a> Iterator for Readings<'a> {
    type Item = OwnReading;

    // The first of those that are left, and the others are left.
    ghost next_gives = { YieldsFirst (λ left. left) };

    ghost remaining = { item_count (λ left. left) };

    /// The next reading, or None behind the last one.
    fn next(&mut self) -> Option<OwnReading> {
        let Some(
            Left {
                kind,
                master,
                records,
                tlvs,
            },
        ) = with_record(&self.left)
        else {
            return None;
        };
        let reading = first_reading(kind, master, records);
        self.left = Left {
            kind,
            master,
            records: &records[kind.record_length()..],
            tlvs,
        };
        Some(reading)
    }
}

impl<'a> Signaling<'a> {
    /// The slave's own readings, in the order in which they stand; each TLV of the two types may have any number of them.
    pub fn readings(&self) -> Readings<'a>
        ensures { result ≡ readings_of self.now.tlvs }
    {
        // No TLV is begun.
        Readings {
            left: Left {
                kind: TlvType::SyncTiming,
                master: self.header.source,
                records: &[],
                tlvs: self.tlvs.octets(),
            },
        }
    }
}
