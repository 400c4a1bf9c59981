ghost use Rattle.std.specs.Prelude.{◌≡◌, IfOk, MatchResult, Ok, Err, option_map};
ghost use Rattle.std.specs.Result.{result_err};
ghost use Rattle.event_codec.specs.Packet.{contents};
ghost use Rattle.pairing.specs.Marked.{entry};
ghost use Rattle.slave_port.specs.Usable.{first_reason, is_two_step, is_not_newer, common_tests, sync_reason};
ghost use Rattle.slave_port.specs.Usable.{response_reason, sync_use, event_use, general_use};

use crate::held::{HeldFollow, HeldSync};
use crate::reason::Reason;
use crate::used::{OneStepSync, Response, Used};
use event_codec::{Body, Header, Message, PortConfig, PortIdentity, TWO_STEP};
use ptp_units::{ScaledTime, Seq, Timestamp};
use std::marker::Model;

/// By what a port judges a message.
#[derive(Drop)]
pub(crate) struct Criteria {
    pub(crate) config: PortConfig,
    /// The present master.
    pub(crate) master: Option<PortIdentity>,
    /// The sequenceId of the Sync that completed last.
    pub(crate) last: Option<Seq>,
}

impl Model for Criteria {
    ghost use Rattle.std.specs.Prelude.{option_map};
    ghost use Rattle.slave_port.specs.Usable.{Criteria as CriteriaValue};

    ghost Value = { CriteriaValue };

    ghost view = { λ c. record {
      config = c.config;
      master = c.master;
      last = option_map (λ number. number.0) c.last;
    } };
}

fn is_two_step(header: &Header) -> bool
    ensures { result ≡ is_two_step header.now }
{
    header.flags[0] & TWO_STEP[0] != 0
}

/// Whether it is another number than the last one, and not newer.
fn is_not_newer(last: Option<Seq>, number: Seq) -> bool
    ensures { result ≡ is_not_newer (option_map (λ last. last.0) last) number.0 }
{
    last.is_some_and(|last| number != last && !number.newer_than(last))
}

/// The correction, in units, of a message that passes the tests of all messages, beside that of their type.
fn tested(criteria: &Criteria, header: &Header) -> Result<i64, Reason>
    ensures reason { result_err result ≡ first_reason (common_tests criteria.now header.now) }
    ensures correction { IfOk result (λ correction. correction ≡ header.now.correction.0) }
{
    if header.domain != criteria.config.domain {
        return Err(Reason::OtherDomain);
    }
    let master = criteria.master.ok_or(Reason::NoMaster)?;
    if header.source != master {
        return Err(Reason::OtherMaster);
    }
    header.correction.exact().ok_or(Reason::TooBig)
}

/// The correction of a Sync or a Follow_Up, in units, where the message is usable.
fn tested_sync(criteria: &Criteria, header: &Header) -> Result<i64, Reason>
    ensures reason { result_err result ≡ sync_reason criteria.now header.now }
    ensures correction { IfOk result (λ correction. correction ≡ header.now.correction.0) }
{
    let correction = tested(criteria, header)?;
    if is_not_newer(criteria.last, header.sequence) {
        return Err(Reason::NotNewer);
    }
    Ok(correction)
}

/// The correction of a Delay_Resp, in units, where the message is usable.
fn tested_response(
    criteria: &Criteria,
    header: &Header,
    requesting: PortIdentity,
) -> Result<i64, Reason>
    ensures reason { result_err result ≡ response_reason criteria.now header.now requesting }
    ensures correction { IfOk result (λ correction. correction ≡ header.now.correction.0) }
{
    let correction = tested(criteria, header)?;
    if requesting != criteria.config.identity {
        return Err(Reason::OtherRequester);
    }
    Ok(correction)
}

/// What a Sync with this header is used as.
fn sync_use(header: &Header, origin: Timestamp, correction: i64, t2: ScaledTime, tag: u64) -> Used
    requires { correction ≡ header.now.correction.0 }
    ensures { result ≡ sync_use header.now origin t2 tag }
{
    if is_two_step(header) {
        Used::TwoStepSync(HeldSync {
            t2,
            correction,
            tag,
        })
    } else {
        Used::OneStepSync(OneStepSync {
            t2,
            origin,
            correction,
            tag,
        })
    }
}

/// What a message on the event port is used as.
pub(crate) fn event_use(
    criteria: &Criteria,
    message: &Message<'_>,
    t2: ScaledTime,
    tag: u64,
) -> Result<Used, Reason>
    ensures { MatchResult result
        (λ used. event_use criteria.now message.now.header message.now.body t2 tag
        ≡ Ok (entry message.now.header.sequence.0 used))
        (λ reason. event_use criteria.now message.now.header message.now.body t2 tag ≡ Err reason) }
{
    let header = &message.header;
    let Body::Sync { origin } = message.body else {
        return Err(Reason::WrongType);
    };
    let correction = tested_sync(criteria, header)?;
    Ok(sync_use(header, origin, correction, t2, tag))
}

/// What a message on the general port is used as.
pub(crate) fn general_use(
    criteria: &Criteria,
    message: &Message<'_>,
    tag: u64,
) -> Result<Used, Reason>
    ensures { MatchResult result
        (λ used. general_use criteria.now message.now.header message.now.body tag
        ≡ Ok (entry message.now.header.sequence.0 used))
        (λ reason. general_use criteria.now message.now.header message.now.body tag ≡ Err reason) }
{
    let header = &message.header;
    match message.body {
        Body::FollowUp { precise } => {
            let correction = tested_sync(criteria, header)?;
            Ok(Used::FollowUp(HeldFollow {
                precise,
                correction,
                tag,
            }))
        }
        Body::DelayResp {
            receive,
            requesting,
        } => {
            let correction = tested_response(criteria, header, requesting)?;
            Ok(Used::DelayResp(Response {
                receive,
                correction,
                tag,
            }))
        }
        Body::Sync { .. } | Body::DelayReq { .. } => Err(Reason::WrongType),
    }
}
