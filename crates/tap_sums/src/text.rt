ghost use Rattle.std.specs.Prelude.{◌≡◌, ◌++◌, List, OnOk, ◌^◌, ◌<◌, IfSome};
ghost use Rattle.std.specs.String.{string_bytes};
ghost use Rattle.tap_crossing.specs.declared.crossing.Crossing.{Crossing};
ghost use Rattle.tap_sums.specs.Held.{AreSums};
ghost use Rattle.tap_sums.specs.Text.{units_or_null, members_text, spread_text, step_units, statistics_front, statistics_rest, statistics_back};
ghost use Rattle.tap_sums.specs.Text.{statistics_text, both_text, lines_text, sums_text};
ghost use Rattle.tap_sums.specs.Shown.{IsShown, AreShown, AreToldShown, AreBothShown};

use crate::crossed::{KindName, nanoseconds};
use crate::spread::{BothWays, Spread, Statistics};
use crate::sums::Sums;
use std::alloc::AllocError;
use std::fmt::Write;
use tap_crossing::Kind;

/// Appends a number of units as nanoseconds, or null.
fn push_units(text: &mut String, units: Option<i128>) -> Result<(), AllocError>
    requires { IfSome units IsShown }
    ensures { OnOk result (string_bytes text.new ≡ string_bytes text.old ++ units_or_null units) }
{
    match units {
        Some(units) => write!(text, "\"{}\"", nanoseconds(units)),
        None => text.push_str("null"),
    }
}

/// Appends the members of a spread.
fn push_members(text: &mut String, spread: &Spread) -> Result<(), AllocError>
    requires { AreShown spread.now }
    ensures { OnOk result (string_bytes text.new ≡ string_bytes text.old ++ members_text spread.now) }
{
    write!(
        text,
        "\"greatest\":\"{}\",\"least\":\"{}\",\"mean\":\"{}\"",
        nanoseconds(spread.greatest),
        nanoseconds(spread.least),
        nanoseconds(spread.mean)
    )
}

/// Appends the members of a spread, or null for each.
fn push_spread(text: &mut String, spread: Option<Spread>) -> Result<(), AllocError>
    requires { IfSome spread AreShown }
    ensures { OnOk result (string_bytes text.new ≡ string_bytes text.old ++ spread_text spread) }
{
    match spread {
        Some(spread) => push_members(text, &spread),
        None => text.push_str("\"greatest\":null,\"least\":null,\"mean\":null"),
    }
}

/// A change of the rest as a signed number.
fn signed(step: Option<u128>) -> Option<i128>
    requires { IfSome step (λ units. units < 2 ^ 98) }
    ensures value { result ≡ step_units step }
    ensures shown { IfSome result IsShown }
{
    match step {
        Some(units) => Some(units as i128),
        None => None,
    }
}

/// Appends the first members of a line.
fn push_front(text: &mut String, statistics: &Statistics) -> Result<(), AllocError>
    requires { AreToldShown statistics.now }
    ensures { OnOk result (string_bytes text.new ≡ string_bytes text.old ++ statistics_front statistics.now) }
{
    text.push_str("{\"corrected\":{")?;
    push_spread(text, statistics.corrected)?;
    write!(
        text,
        "}},\"count\":{},\"kind\":\"{}\"",
        statistics.count,
        KindName(statistics.kind)
    )
}

/// Appends the members of the rest.
fn push_rest(text: &mut String, statistics: &Statistics) -> Result<(), AllocError>
    requires { AreToldShown statistics.now }
    ensures { OnOk result (string_bytes text.new ≡ string_bytes text.old ++ statistics_rest statistics.now) }
{
    text.push_str(",\"rest\":{")?;
    push_spread(text, statistics.rest)?;
    text.push_str(",\"step\":")?;
    push_units(text, signed(statistics.step))
}

/// Appends the last members of a line.
fn push_back(text: &mut String, statistics: &Statistics) -> Result<(), AllocError>
    requires { AreToldShown statistics.now }
    ensures { OnOk result (string_bytes text.new ≡ string_bytes text.old ++ statistics_back statistics.now) }
{
    text.push_str("},\"taken\":{")?;
    push_spread(text, statistics.taken)?;
    write!(text, "}}}}\n")
}

/// Appends what the crossings of a kind come to, a line.
fn push_statistics(text: &mut String, statistics: &Statistics) -> Result<(), AllocError>
    requires { AreToldShown statistics.now }
    ensures { OnOk result (string_bytes text.new ≡ string_bytes text.old ++ statistics_text statistics.now) }
{
    push_front(text, statistics)?;
    push_rest(text, statistics)?;
    push_back(text, statistics)
}

/// Appends what both kinds come to, a line.
fn push_both(text: &mut String, both: &BothWays) -> Result<(), AllocError>
    requires { AreBothShown both.now }
    ensures { OnOk result (string_bytes text.new ≡ string_bytes text.old ++ both_text both.now) }
{
    text.push_str("{\"asymmetry\":")?;
    push_units(text, both.asymmetry)?;
    text.push_str(",\"mean_rest\":")?;
    push_units(text, both.mean_rest)?;
    text.push_str("}\n")
}

/// Appends three lines: what each kind comes to, and both.
fn push_lines(
    text: &mut String,
    syncs: &Statistics,
    requests: &Statistics,
    both: &BothWays,
) -> Result<(), AllocError>
    requires syncs { AreToldShown syncs.now }
    requires requests { AreToldShown requests.now }
    requires both { AreBothShown both.now }
    ensures { OnOk result (string_bytes text.new ≡ string_bytes text.old ++ lines_text syncs.now requests.now both.now) }
{
    push_statistics(text, syncs)?;
    push_statistics(text, requests)?;
    push_both(text, both)
}

/// Appends the sums: a line of JSON for Syncs, one for Delay_Reqs, and one of what both tell.
pub fn push_sums(text: &mut String, sums: &Sums) -> Result<(), AllocError>
    ensures { (all : List Crossing) → AreSums all sums.now
        → OnOk result (string_bytes text.new ≡ string_bytes text.old ++ sums_text all) }
{
    push_lines(
        text,
        &sums.statistics(Kind::Sync),
        &sums.statistics(Kind::DelayReq),
        &sums.both_ways(),
    )
}
