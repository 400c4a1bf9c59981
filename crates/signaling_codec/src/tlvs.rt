ghost use Rattle.std.specs.Prelude.{◌≡◌, ◌<◌, ◌≤◌, ◌+◌, ◌*◌, ◌/◌, ◌%◌, ◌^◌, length, drop, slice_range, MatchResult, MatchOption};
ghost use Rattle.std.specs.Prelude.{Some, None};
ghost use Rattle.event_codec.specs.Layout.{number};
ghost use Rattle.signaling_codec.specs.Tlv.{type_numbered, tlv_length};
ghost use Rattle.signaling_codec.specs.Refusal.{times_fit, all_times_fit, records_refusal, value_refusal, tlv_refusal};
ghost use Rattle.signaling_codec.specs.Refusal.{tlvs_refusal};
ghost use Rattle.signaling_codec.specs.Inner.Parsed.{tlvs_in};

use crate::octets::{u16_at, u32_at};
use crate::refusal::SignalingRefusal;
use crate::tlv_type::TlvType;
use std::marker::Model;

/// The TLVs of a Signaling message, each of them sound.
#[derive(Drop, Debug)]
pub struct Tlvs<'a> {
    octets: &'a [u8],
}

impl<'a> Model for Tlvs<'a> {
    ghost use Rattle.std.specs.Prelude.{◌≡◌, List, None};
    ghost use Rattle.signaling_codec.specs.Tlv.{TlvOf};
    ghost use Rattle.signaling_codec.specs.Refusal.{tlvs_refusal};
    ghost use Rattle.signaling_codec.specs.Inner.Parsed.{tlvs_in};

    ghost Value = { List TlvOf };

    ghost view = { λ t. tlvs_in 0 t.octets.now };

    ghost invariant = { λ t. tlvs_refusal 0 t.octets.now ≡ None };
}

/// The TLV at the front of octets: tlvType, its value, and the octets behind it.
#[derive(Drop)]
pub(crate) struct FirstTlv<'a> {
    pub(crate) number: u16,
    pub(crate) value: &'a [u8],
    pub(crate) rest: &'a [u8],
}

/// The TLV at the front, if its octets are there.
#[tactic(auto, unfolding(crate::specs::Refusal::tlv_refusal))]
pub(crate) fn first_tlv(octets: &[u8]) -> Option<FirstTlv<'_>>
    ensures { MatchOption result
        (tlv_refusal octets.now ≡ Some SignalingRefusal.TlvLength)
        (λ tlv. (4 ≤ length octets.now) × (tlv_length octets.now ≤ length octets.now)
        × (tlv.number ≡ number octets.now 0 2)
        × (tlv.value.now ≡ slice_range octets.now 4 (tlv_length octets.now))
        × (tlv.rest.now ≡ drop (tlv_length octets.now) octets.now)) }
{
    if octets.len() < 4 {
        return None;
    }
    let length = 4 + usize::from(u16_at(octets, 2));
    if octets.len() < length {
        return None;
    }
    Some(FirstTlv {
        number: u16_at(octets, 0),
        value: &octets[4..length],
        rest: &octets[length..],
    })
}

/// Whether the nanoseconds of the record at the front fit.
fn times_fit(size: usize, octets: &[u8]) -> bool
    requires size { 30 ≤ size }
    requires whole { size ≤ length octets.now }
    ensures { result ≡ times_fit size octets.now }
{
    u32_at(octets, 8) < 1_000_000_000 && u32_at(octets, size - 4) < 1_000_000_000
}

/// Whether the nanoseconds fit in each of so many records.
fn all_times_fit(size: usize, count: usize, records: &[u8]) -> bool
    requires size { 30 ≤ size }
    requires whole { size * count ≤ length records.now }
    ensures { result ≡ all_times_fit size count records.now }
{
    let mut rest = records;
    for done in 0..count {
        if !times_fit(size, rest) {
            return false;
        }
        rest = &rest[size..];
    }
    true
}

/// Whether these are whole records, each of which is sound.
#[tactic(auto, unfolding(crate::specs::Refusal::records_refusal))]
fn check_records(size: usize, records: &[u8]) -> Result<(), SignalingRefusal>
    requires { 30 ≤ size }
    ensures { MatchResult result
        (λ _. records_refusal size records.now ≡ None)
        (λ e. records_refusal size records.now ≡ Some e) }
{
    if records.len() % size != 0 {
        return Err(SignalingRefusal::TlvLength);
    }
    if !all_times_fit(size, records.len() / size, records) {
        return Err(SignalingRefusal::Nanoseconds);
    }
    Ok(())
}

/// Whether the value of a TLV is sound.
#[tactic(auto, unfolding(crate::specs::Refusal::value_refusal))]
fn check_value(number: u16, value: &[u8]) -> Result<(), SignalingRefusal>
    ensures { MatchResult result
        (λ _. value_refusal (type_numbered number) value.now ≡ None)
        (λ e. value_refusal (type_numbered number) value.now ≡ Some e) }
{
    let Some(kind) = TlvType::from_number(number) else {
        return Ok(());
    };
    if value.len() < 10 {
        return Err(SignalingRefusal::TlvLength);
    }
    check_records(kind.record_length(), &value[10..])
}

/// The octets behind the TLV at the front, which is sound.
#[tactic(auto, unfolding(crate::specs::Refusal::tlv_refusal))]
fn behind_first(octets: &[u8]) -> Result<&[u8], SignalingRefusal>
    ensures { MatchResult result
        (λ rest. (tlv_refusal octets.now ≡ None) × (tlv_length octets.now ≤ length octets.now)
        × (rest.now ≡ drop (tlv_length octets.now) octets.now))
        (λ e. tlv_refusal octets.now ≡ Some e) }
{
    let Some(
        FirstTlv {
            number,
            value,
            rest,
        },
    ) = first_tlv(octets)
    else {
        return Err(SignalingRefusal::TlvLength);
    };
    check_value(number, value)?;
    Ok(rest)
}

/// Whether the TLVs are sound.
fn check_tlvs(octets: &[u8]) -> Result<(), SignalingRefusal>
    ensures { MatchResult result
        (λ _. tlvs_refusal 0 octets.now ≡ None)
        (λ e. tlvs_refusal 0 octets.now ≡ Some e) }
{
    let mut rest = octets;
    while !rest.is_empty() {
        rest = behind_first(rest)?;
    }
    Ok(())
}

impl<'a> Tlvs<'a> {
    /// The octets of the TLVs.
    pub(crate) fn octets(&self) -> &'a [u8]
        ensures { (self.now ≡ tlvs_in 0 result.now) × (tlvs_refusal 0 result.now ≡ None) }
    {
        self.octets
    }

    /// The TLVs that the octets are, all of them.
    pub(crate) fn new(octets: &'a [u8]) -> Result<Tlvs<'a>, SignalingRefusal>
        ensures { MatchResult result
            (λ tlvs. (tlvs ≡ tlvs_in 0 octets.now) × (tlvs_refusal 0 octets.now ≡ None))
            (λ e. tlvs_refusal 0 octets.now ≡ Some e) }
    {
        check_tlvs(octets)?;
        Ok(Tlvs { octets })
    }
}
