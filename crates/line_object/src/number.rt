//! Whole numbers.
ghost use Rattle.std.specs.Prelude.{◌≡◌, IfSome, Some, true};
ghost use Rattle.serde_json.specs.Data.{unsigned, negative};
ghost use Rattle.serde_json.specs.Read.{number_from, number_of};

use fast_float::Numeral;

/// The number from 0 on that a token is: digits alone.
pub(crate) fn whole_in(text: &str) -> Option<u64>
    ensures { IfSome result (λ n. number_of text.now ≡ Some (unsigned n)) }
{
    let octets = text.as_bytes();
    if octets.is_empty() || octets[0] == b'+' {
        return None;
    }
    fast_float::parse_u64(octets).ok()
}

/// The number of a numeral behind a minus, where it is whole and below zero.
fn negative_from(numeral: &Numeral<'_>) -> Option<i64>
    ensures { IfSome result (λ z. number_from true numeral.now ≡ Some (negative z)) }
{
    if let Some(number) = numeral.to_i64(true) {
        if number < 0 {
            return Some(number);
        }
    }
    None
}

/// The number below zero that a token is.
pub(crate) fn negative_in(text: &str) -> Option<i64>
    ensures { IfSome result (λ z. number_of text.now ≡ Some (negative z)) }
{
    let octets = text.as_bytes();
    if octets.is_empty() || octets[0] != b'-' {
        return None;
    }
    negative_from(&Numeral::scan(&octets[1..]))
}
