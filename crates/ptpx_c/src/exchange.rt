ghost use Rattle.ptpx_c.specs.Exchanges.{SaysExchange, IsPut};

use crate::refusal::InputRefusal;
use crate::words::{RawSigned, RawTime};
use slave_port::LastExchange;

/// What a report was made of. Corrections and age are in 2^-16 ns.
#[repr(C)]
#[derive(Clone, Copy)]
pub struct RawExchange {
    /// When the Sync left, by the master's clock, in whole nanoseconds; `follow_correction` has the rest.
    pub t1: RawTime,
    /// When the Sync arrived, by the slave's clock.
    pub t2: RawTime,
    /// When the Delay_Req left, by the slave's clock.
    pub t3: RawTime,
    /// When the Delay_Req arrived, by the master's clock, in whole nanoseconds; `response_correction` has the rest.
    pub t4: RawTime,
    /// How much older the older half is than the newer one: the time between `t2` and `t3`.
    pub age: RawSigned,
    /// The Sync's correction.
    pub sync_correction: i64,
    /// The Follow_Up's correction, 0 where the Sync is one-step.
    pub follow_correction: i64,
    /// The Delay_Resp's correction.
    pub response_correction: i64,
    /// The Sync's sequenceId.
    pub sync_number: u16,
    /// The Delay_Req's sequenceId.
    pub request_number: u16,
}

impl RawExchange {
    /// The exchange for C.
    fn of(exchange: LastExchange) -> RawExchange
        ensures { SaysExchange result exchange }
    {
        RawExchange {
            t1: RawTime::of(exchange.t1),
            t2: RawTime::of(exchange.t2),
            t3: RawTime::of(exchange.t3),
            t4: RawTime::of(exchange.t4),
            age: RawSigned::of(exchange.age() as i128),
            sync_correction: exchange.sync_correction,
            follow_correction: exchange.follow_correction,
            response_correction: exchange.response_correction,
            sync_number: exchange.sync_number.0,
            request_number: exchange.request_number.0,
        }
    }
}

/// Puts an exchange there, if there is one.
pub(crate) fn put_last(last: Option<LastExchange>, exchange: &mut RawExchange) -> u16
    ensures { IsPut last result exchange.old exchange.new }
{
    match last {
        Some(last) => {
            *exchange = RawExchange::of(last);
            0
        }
        None => InputRefusal::NoExchange.code(),
    }
}
