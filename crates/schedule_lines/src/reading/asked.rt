//! The values of keys that are asked for.
ghost use Rattle.std.specs.Prelude.{◌≡◌, [], ◌∷◌, MatchResult, Some, None};
ghost use Rattle.serde_json.specs.Find.{get};
ghost use Rattle.line_object.specs.Key.{key_text};
ghost use Rattle.schedule_lines.specs.Json.{field, clock_in, difference_in, moment_in, name_in, octets_in};
ghost use Rattle.schedule_lines.specs.Json.{signed_octet_in, whole_below, whole_in};
ghost use Rattle.schedule_lines.specs.Refusal.{HasEach, IsSoOf};
ghost use Rattle.schedule_lines.specs.Inner.Asked.{Asks};
ghost use Rattle.schedule_lines.specs.Wanted.{wanted_of};

use crate::reading::fields::{
    clock_in, difference_in, moment_in, name_in, octets_in, signed_octet_in, whole_below,
};
use crate::refusal::Refusal;
use crate::wanted::Wanted;
use arrayvec::ArrayVec;
use line_object::{Key, LineMembers, LineValue};
use network_model::Name;
use ptp_units::ScaledTime;

/// What stands at a key.
pub(crate) fn value_at<M: LineMembers>(members: &M, key: Key) -> Result<&M::Value, Refusal>
    ensures { MatchResult result
        (λ value. get (key_text key) (M.as_data members.now) ≡ Some (M.Value.as_data value.now))
        (λ refusal. (refusal ≡ Refusal.Missing key) × (get (key_text key) (M.as_data members.now) ≡ None)) }
{
    match members.get(key) {
        Some(value) => Ok(value),
        None => Err(Refusal::Missing { key }),
    }
}

/// The name at a key.
pub(crate) fn name_at<M: LineMembers>(members: &M, key: Key) -> Result<Name, Refusal>
    requires { wanted_of key ≡ Wanted.Name }
    ensures { Asks (field name_in (key_text key) (M.as_data members.now)) (M.as_data members.now) (key ∷ []) result }
{
    match name_in(value_at(members, key)?) {
        Some(name) => Ok(name),
        None => Err(Refusal::Wrong { key }),
    }
}

/// The clockIdentity at a key.
pub(crate) fn clock_at<M: LineMembers>(members: &M, key: Key) -> Result<[u8; 8], Refusal>
    requires { wanted_of key ≡ Wanted.Identity }
    ensures { Asks (field clock_in (key_text key) (M.as_data members.now)) (M.as_data members.now) (key ∷ []) result }
{
    match clock_in(value_at(members, key)?) {
        Some(clock) => Ok(clock),
        None => Err(Refusal::Wrong { key }),
    }
}

/// The whole number at a key.
pub(crate) fn whole_at<M: LineMembers>(members: &M, key: Key) -> Result<u64, Refusal>
    requires { wanted_of key ≡ Wanted.Tag }
    ensures { Asks (field whole_in (key_text key) (M.as_data members.now)) (M.as_data members.now) (key ∷ []) result }
{
    match value_at(members, key)?.as_u64() {
        Some(number) => Ok(number),
        None => Err(Refusal::Wrong { key }),
    }
}

/// The whole number at a key, below a bound.
pub(crate) fn below_at<M: LineMembers>(members: &M, key: Key, bound: u64) -> Result<u64, Refusal>
    requires { wanted_of key ≡ Wanted.Whole bound }
    ensures { Asks (field (whole_below bound) (key_text key) (M.as_data members.now)) (M.as_data members.now) (key ∷ []) result }
{
    match whole_below(value_at(members, key)?, bound) {
        Some(number) => Ok(number),
        None => Err(Refusal::Wrong { key }),
    }
}

/// The whole number at a key, from -128 to 127.
pub(crate) fn signed_octet_at<M: LineMembers>(members: &M, key: Key) -> Result<i8, Refusal>
    requires { wanted_of key ≡ Wanted.SignedOctet }
    ensures { Asks (field signed_octet_in (key_text key) (M.as_data members.now)) (M.as_data members.now) (key ∷ []) result }
{
    match signed_octet_in(value_at(members, key)?) {
        Some(number) => Ok(number),
        None => Err(Refusal::Wrong { key }),
    }
}

/// The signed number at a key.
pub(crate) fn difference_at<M: LineMembers>(members: &M, key: Key) -> Result<i128, Refusal>
    requires { wanted_of key ≡ Wanted.Difference }
    ensures { Asks (field difference_in (key_text key) (M.as_data members.now)) (M.as_data members.now) (key ∷ []) result }
{
    match difference_in(value_at(members, key)?) {
        Some(number) => Ok(number),
        None => Err(Refusal::Wrong { key }),
    }
}

/// The moment at a key.
pub(crate) fn moment_at<M: LineMembers>(members: &M, key: Key) -> Result<ScaledTime, Refusal>
    requires { wanted_of key ≡ Wanted.Moment }
    ensures { Asks (field moment_in (key_text key) (M.as_data members.now)) (M.as_data members.now) (key ∷ []) result }
{
    match moment_in(value_at(members, key)?) {
        Ok(time) => Ok(time),
        Err(None) => Err(Refusal::Wrong { key }),
        Err(Some(part)) => Err(Refusal::WrongPart { key, part }),
    }
}

/// The octets at a key.
pub(crate) fn octets_at<M: LineMembers>(members: &M, key: Key) -> Result<ArrayVec<u8, 54>, Refusal>
    requires { wanted_of key ≡ Wanted.Octets }
    ensures { MatchResult result
        (λ octets. (field octets_in (key_text key) (M.as_data members.now) ≡ Some octets.items) × HasEach (M.as_data members.now) (key ∷ []))
        (λ refusal. (field octets_in (key_text key) (M.as_data members.now) ≡ None) × IsSoOf (M.as_data members.now) refusal (key ∷ [])) }
{
    match octets_in(value_at(members, key)?) {
        Some(octets) => Ok(octets),
        None => Err(Refusal::Wrong { key }),
    }
}
