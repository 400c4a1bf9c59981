//! Numbers in decimal digits.
ghost use Rattle.std.specs.Prelude.{◌≡◌, ◌≤◌};
ghost use Rattle.command_line.specs.Number.{domain_of, number_of};

/// The number that 1 to `most` decimal digits write, of at most nine.
pub(crate) fn number_in(digits: &[u8], most: usize) -> Option<u32>
    requires few { most ≤ 9 }
    ensures { result ≡ number_of most digits.now }
{
    if digits.is_empty() || most < digits.len() {
        return None;
    }
    let mut number = 0;
    for digit in digits {
        number = 10 * number + char::from(*digit).to_digit(10)?;
    }
    Some(number)
}

/// The domainNumber that a text of 1 to 3 decimal digits writes.
pub(crate) fn domain_in(text: &str) -> Option<u8>
    ensures { result ≡ domain_of text.now }
{
    u8::try_from(number_in(text.as_bytes(), 3)?).ok()
}
