ghost use Rattle.std.specs.Prelude.{◌≡◌, ◌<◌, ◌^◌, IfSome};
ghost use Rattle.tap_sums.specs.Inner.Bounded.{IsValue};
ghost use Rattle.tap_sums.specs.Sums.{change, longer, longest};

/// The greater of a change and the greatest before it.
fn longer(change: u128, longest: Option<u128>) -> u128
    requires change { change < 2 ^ 98 }
    requires longest { IfSome longest (λ units. units < 2 ^ 98) }
    ensures value { result ≡ longer change longest }
    ensures within { result < 2 ^ 98 }
{
    match longest {
        Some(longest) if change < longest => longest,
        _ => change,
    }
}

/// By how much the rest changed, without its sign.
fn change(rest: i128, before: i128) -> u128
    requires rest { IsValue rest }
    requires before { IsValue before }
    ensures value { result ≡ change rest before }
    ensures within { result < 2 ^ 98 }
{
    (rest - before).unsigned_abs()
}

/// The greatest change of the rest once there is one more, by the rest of the one before and the greatest change so far.
pub(crate) fn longest(before: Option<i128>, rest: i128, so_far: Option<u128>) -> Option<u128>
    requires before { IfSome before IsValue }
    requires rest { IsValue rest }
    requires so_far { IfSome so_far (λ units. units < 2 ^ 98) }
    ensures value { result ≡ longest before rest so_far }
    ensures within { IfSome result (λ units. units < 2 ^ 98) }
{
    match before {
        Some(before) => Some(longer(change(rest, before), so_far)),
        None => so_far,
    }
}
