//! The messages that a master writes.

ghost use Rattle.std.specs.Prelude.{◌≡◌, Ok, Err, MatchResult};
ghost use Rattle.event_codec.specs.Profile.{contents_of};
ghost use Rattle.master_port.specs.Written.{sync, one_step_sync, follow_up, delay_resp, delay_resp_in_range};

use crate::refusal::MasterRefusal;
use event_codec::{Body, Header, NO_FLAGS, PortConfig, PortMessage, TWO_STEP};
use ptp_units::{Interval, ScaledTime, Seq, Timestamp};

/// The two-step Sync of this number.
pub fn sync(config: &PortConfig, number: Seq) -> PortMessage
    ensures { contents_of result ≡ sync config.now number.0 }
{
    let header = config.header(TWO_STEP, Interval(0), number, 0, config.log);
    let origin = Timestamp::default();
    header.with_body(Body::Sync { origin })
}

/// The one-step Sync of this number, which leaves at t1.
pub fn one_step_sync(config: &PortConfig, number: Seq, t1: ScaledTime) -> PortMessage
    ensures { contents_of result ≡ one_step_sync config.now number.0 t1 }
{
    let (origin, fraction) = t1.split();
    let correction = Interval(i64::from(fraction));
    let header = config.header(NO_FLAGS, correction, number, 0, config.log);
    header.with_body(Body::Sync { origin })
}

/// The Follow_Up of the Sync of this number, which left at t1.
pub fn follow_up(config: &PortConfig, number: Seq, t1: ScaledTime) -> PortMessage
    ensures { contents_of result ≡ follow_up config.now number.0 t1 }
{
    let (precise, fraction) = t1.split();
    let correction = Interval(i64::from(fraction));
    let header = config.header(NO_FLAGS, correction, number, 2, config.log);
    header.with_body(Body::FollowUp { precise })
}

/// The Delay_Resp to a Delay_Req with this header that arrived at t4. Refused with 305 where its
/// correction falls below the range.
pub fn delay_resp(
    config: &PortConfig,
    request: &Header,
    t4: ScaledTime,
) -> Result<PortMessage, MasterRefusal>
    ensures { MatchResult result
        (λ m. delay_resp_in_range config.now request.now t4 ≡ Ok (contents_of m))
        (λ refusal. delay_resp_in_range config.now request.now t4 ≡ Err refusal) }
{
    let (receive, fraction) = t4.split();
    let Ok(correction) = request.correction.minus_fraction(fraction) else {
        return Err(MasterRefusal::CorrectionTooLow);
    };
    let header = config.header(NO_FLAGS, correction, request.sequence, 3, config.log);
    let requesting = request.source;
    Ok(header.with_body(Body::DelayResp {
        receive,
        requesting,
    }))
}
