//! What each refusal says in words.

use event_codec::{DecodeRefusal, EncodeRefusal};
use exchange_check::CheckFault;
use master_port::MasterRefusal;
use network_model::{RunStop, WorldRefusal};
use ptp_units::UnitRefusal;
use slave_port::{Reason, SlaveRefusal};
use std::error::Error;
use std::process::Abort;
use std::test::Fail;
use trace_model::Why;
use transcript_text::{Fault, FaultKind};
use transparent_clock::ClockRefusal;

/// Each of these errors says its text.
fn assert_said<E: Error>(
    rt: &(impl Abort + AllocGlobal),
    errors: &[(E, &str)],
) -> Result<(), Fail> {
    for (error, text) in errors {
        let said = format!(in rt.alloc(); "{error}")?;
        assert_eq!(rt; said.as_str(), *text);
    }
    Ok(())
}

const UNITS: [(UnitRefusal, &str); 4] = texts! {
    UnitRefusal::OutOfRange => "no moment: it is below 0, or 2^48 s or more",
    UnitRefusal::Seconds => "no timestamp: the seconds are 2^48 or more",
    UnitRefusal::Nanoseconds => "no timestamp: the nanoseconds are 10^9 or more",
    UnitRefusal::TooLow => "no correction: it is below -2^63 units of 2^-16 ns",
};

const READING: [(DecodeRefusal, &str); 6] = texts! {
    DecodeRefusal::Short => "there are fewer than the 34 octets of a header",
    DecodeRefusal::Version => "versionPTP isn't 2",
    DecodeRefusal::OtherType(11) => "messageType 11 isn't Sync (0), Delay_Req (1), Follow_Up (8) or Delay_Resp (9)",
    DecodeRefusal::LengthField => "messageLength is below 44, or 54 for a Delay_Resp",
    DecodeRefusal::Truncated => "there are fewer octets than messageLength",
    DecodeRefusal::Nanoseconds => "the nanoseconds of the timestamp are 10^9 or more",
};

const WRITING: [(EncodeRefusal, &str); 2] = texts! {
    EncodeRefusal::NoRoom => "the buffer is shorter than the message",
    EncodeRefusal::SuffixTooLong => "the suffix is too long: messageLength would pass 65535",
};

const MASTERS: [(MasterRefusal, &str); 5] = texts! {
    MasterRefusal::NotWaiting => "no Sync of this number waits for its departure time",
    MasterRefusal::Decode(DecodeRefusal::OtherType(15)) => "the octets are no message: messageType 15 isn't Sync (0), Delay_Req (1), Follow_Up (8) or Delay_Resp (9)",
    MasterRefusal::NotRequest => "the message is no Delay_Req",
    MasterRefusal::OtherDomain => "domainNumber isn't that of the master",
    MasterRefusal::CorrectionTooLow => "the correction of the Delay_Resp would be below -2^63 units of 2^-16 ns",
};

const CLOCKS: [(ClockRefusal, &str); 3] = texts! {
    ClockRefusal::Decode(DecodeRefusal::Version) => "the octets are no message: versionPTP isn't 2",
    ClockRefusal::NotEvent => "the message is neither Sync nor Delay_Req",
    ClockRefusal::NegativeResidence => "the clock reads less than when the message entered",
};

const SLAVES: [(Reason, &str); 10] = texts! {
    Reason::Decode(DecodeRefusal::Short) => "the octets are no message: there are fewer than the 34 octets of a header",
    Reason::WrongType => "the message is of another type than the ones that are heard here",
    Reason::OtherDomain => "domainNumber isn't that of the slave",
    Reason::NoMaster => "the slave has no master",
    Reason::OtherMaster => "sourcePortIdentity isn't that of the present master",
    Reason::TooBig => "the correction is too big to be represented",
    Reason::OtherRequester => "requestingPortIdentity isn't that of the slave",
    Reason::UnknownRequest => "no held Delay_Req has this sequenceId",
    Reason::EgressUnknown => "it isn't known when the Delay_Req of this sequenceId left",
    Reason::NotNewer => "sequenceId is neither that of the last Sync that was completed nor newer",
};

const DEPARTURES: [(SlaveRefusal, &str); 1] = texts! {
    SlaveRefusal::NotHeld => "no held Delay_Req has this number",
};

const NETWORKS: [(WorldRefusal, &str); 9] = texts! {
    WorldRefusal::SameName => "two nodes have one name",
    WorldRefusal::SameIdentity => "two ports have one identity",
    WorldRefusal::NoNode => "no node has this name",
    WorldRefusal::WrongKind => "the event doesn't happen at nodes of this kind",
    WorldRefusal::NoCopy => "no event of this tag sent a message",
    WorldRefusal::NoTransit => "no message that entered by the event of this tag is still in this clock",
    WorldRefusal::ReadingOutOfRange => "the clock of the node would read no moment",
    WorldRefusal::NothingWaiting => "no Sync waits for its Follow_Up, or no Delay_Req for its departure time",
    WorldRefusal::Memory => "memory was refused",
};

const RUNS: [(RunStop, &str); 1] = texts! {
    RunStop { done: 14, why: WorldRefusal::NoCopy } => "the run ended after 14 events: no event of this tag sent a message",
};

const REPORTS: [(Why, &str); 8] = texts! {
    Why::NoSuchLine => "a tag of the report isn't that of an event as the report needs it, or no event tells when the Delay_Req left",
    Why::OtherNumber => "the Sync isn't the one of the Follow_Up, or the Delay_Req isn't the one of the report",
    Why::OtherMaster => "a message isn't of the present master of the slave, or came before the slave was told this master",
    Why::BrokenJourney => "the journey of the Sync or of the Delay_Req can't be followed back to where it was sent, or a stay on it was left twice",
    Why::WrongReading => "a reading isn't that of the clock of its node, or falls while a message is in a clock",
    Why::WrongValue => "the two results aren't those of the readings",
    Why::TooBig => "the Sync or the Delay_Req was in clocks for longer than a correction can say",
    Why::Bytes => "the octets of a message aren't those that a port or a clock writes",
};

const CHECKING: [(CheckFault, &str); 1] = texts! {
    CheckFault::Memory => "memory was refused",
};

const LINES: [(Fault, &str); 8] = texts! {
    Fault { line: 3, what: FaultKind::Read } => "fault 801 at line 3: the input can't be read",
    Fault { line: 3, what: FaultKind::Write } => "fault 802 at line 3: the output can't be written",
    Fault { line: 3, what: FaultKind::LineTooLong } => "fault 803 at line 3: the line has more than 4096 octets",
    Fault { line: 3, what: FaultKind::TooManyLines } => "fault 804 at line 3: an octet comes after the last of 1048576 lines",
    Fault { line: 3, what: FaultKind::Json } => "fault 805 at line 3: the line isn't UTF-8, or isn't JSON",
    Fault { line: 3, what: FaultKind::World(WorldRefusal::NoNode) } => "fault 807 at line 3: no node has this name (603)",
    Fault { line: 3, what: FaultKind::Field } => "fault 806 at line 3: the line isn't what is asked for",
    Fault { line: 3, what: FaultKind::Memory } => "fault 808 at line 3: memory was refused",
};

#[test]
fn refusals_say_why(rt: HostRuntime) -> Result<(), Fail> {
    assert_said(&rt, &UNITS)?;
    assert_said(&rt, &READING)?;
    assert_said(&rt, &WRITING)?;
    assert_said(&rt, &MASTERS)?;
    assert_said(&rt, &CLOCKS)?;
    assert_said(&rt, &SLAVES)?;
    assert_said(&rt, &DEPARTURES)?;
    assert_said(&rt, &NETWORKS)?;
    assert_said(&rt, &RUNS)?;
    assert_said(&rt, &REPORTS)?;
    assert_said(&rt, &CHECKING)?;
    assert_said(&rt, &LINES)
}

#[test]
fn faults_print_their_number(rt: HostRuntime) -> Result<(), Fail> {
    for (kind, number, text) in [
        (FaultKind::Read, 801, "801"),
        (FaultKind::Write, 802, "802"),
        (FaultKind::LineTooLong, 803, "803"),
        (FaultKind::TooManyLines, 804, "804"),
        (FaultKind::Json, 805, "805"),
        (FaultKind::Field, 806, "806"),
        (FaultKind::World(WorldRefusal::NoNode), 807, "807"),
        (FaultKind::Memory, 808, "808"),
    ] {
        assert_eq!(rt; kind.code(), number);
        assert_eq!(rt; kind.to_string(rt.alloc())?.as_str(), text);
    }
    Ok(())
}
