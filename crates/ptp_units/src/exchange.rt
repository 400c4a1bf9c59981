ghost use Rattle.std.specs.Prelude.{◌≡◌};
ghost use Rattle.ptp_units.specs.Exchange.{departure, sync_bracket, delay_bracket, offset2, path2, IsBracket};

use crate::scaled_time::ScaledTime;
use crate::timestamp::Timestamp;

/// The Sync's departure from the master: the Follow_Up's timestamp and correction together.
fn departure(precise: Timestamp, c_follow: i64) -> i128
    ensures value { result ≡ departure precise c_follow }
    ensures within { IsBracket result }
{
    ScaledTime::join(precise, 0).signed_units() + i128::from(c_follow)
}

/// The Sync's arrival at the slave, less its corrected departure and its own correction: `a`, in
/// units of 2^-16 ns, strictly between -2^96 and 2^96. All arguments are as read from the messages
/// and the slave's clock.
pub fn sync_bracket(t2: ScaledTime, precise: Timestamp, c_follow: i64, c_sync: i64) -> i128
    ensures value { result ≡ sync_bracket t2 precise c_follow c_sync }
    ensures within { IsBracket result }
{
    t2.signed_units() - departure(precise, c_follow) - i128::from(c_sync)
}

/// The Delay_Req's corrected arrival at the master, less its departure from the slave: `b`, in
/// units of 2^-16 ns, strictly between -2^96 and 2^96.
pub fn delay_bracket(receive: Timestamp, c_resp: i64, t3: ScaledTime) -> i128
    ensures value { result ≡ delay_bracket receive c_resp t3 }
    ensures within { IsBracket result }
{
    let arrival = ScaledTime::join(receive, 0).signed_units() - i128::from(c_resp);
    arrival - t3.signed_units()
}

/// Twice offsetFromMaster, in units of 2^-16 ns, of two brackets, which lie between -2^96 and 2^96 (IEEE
/// 1588-2019, 11.2).
pub fn offset2(a: i128, b: i128) -> i128
    requires a_within { IsBracket a }
    requires b_within { IsBracket b }
    ensures { result ≡ offset2 a b }
{
    a - b
}

/// Twice meanPathDelay, in units of 2^-16 ns, of two brackets, which lie between -2^96 and 2^96 (IEEE
/// 1588-2019, 11.3).
pub fn path2(a: i128, b: i128) -> i128
    requires a_within { IsBracket a }
    requires b_within { IsBracket b }
    ensures { result ≡ path2 a b }
{
    a + b
}
