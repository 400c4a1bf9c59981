//! The calls of `ptpx measure` below a table.
ghost use Rattle.std.specs.Prelude.{◌≡◌, ◌++◌, ◌∷◌, [], codes, IfOk, OnOk, Some, map, nat_lt, option_map, if◌then◌else◌};
ghost use Rattle.std.specs.List.{concat};
ghost use Rattle.std.specs.String.{string_bytes};
ghost use Rattle.capture_extract.specs.Calls.{answered, call_line, call_text, calls_limit, calls_of, calls_text, interface_of_call, interface_option, measured_of, measured_text, remark};
ghost use Rattle.capture_extract.specs.Table.{TableOf};
ghost use Rattle.capture_extract.specs.Inner.Lines.{line_of_call, shown_call};
ghost use Rattle.capture_extract.specs.Inner.Rows.{IsTable, label_of};

use crate::interfaces::{Argument, Label};
use crate::message_type::MessageType;
use crate::row::RowKey;
use crate::stream::OfStream;
use crate::table::Table;
use datagram_source::Stream;
use datagram_text::Identity;
use event_codec::PortIdentity;
use std::alloc::{AllocError, Global};
use std::fmt;
use std::fmt::{Display, Formatter, Write};

/// The most calls of `ptpx measure` that are written.
const CALLS_MOST: usize = 8;

/// Whom a call measures.
#[derive(Clone, Copy)]
struct Measured {
    domain: u8,
    master: PortIdentity,
    slave: PortIdentity,
}

impl Display for Measured {
    ghost output = { λ measured. Some (measured_text measured) };

    fn fmt<W: fmt::Write>(&self, f: &mut Formatter<W>) -> fmt::Result {
        write!(
            f,
            " --domain {} --master {} --slave {}",
            self.domain,
            Identity(&self.master),
            Identity(&self.slave)
        )
    }
}

/// The option that names an interface, where it has to be named.
#[derive(Clone, Copy)]
struct InterfaceOption<'a>(Option<&'a Label>);

impl Display for InterfaceOption<'_> {
    ghost output = { λ x. Some (interface_option (option_map (λ label. label_of label.now) x.0)) };

    fn fmt<W: fmt::Write>(&self, f: &mut Formatter<W>) -> fmt::Result {
        match self.0 {
            Some(label) => write!(f, " --interface {}", Argument(label)),
            None => Ok(()),
        }
    }
}

/// A remark that tells the stream, where it isn't that of sdoId 0 in no VLAN by multicast.
#[derive(Clone, Copy)]
struct Remark(Option<Stream>);

impl Display for Remark {
    ghost output = { λ x. Some (remark x.0) };

    fn fmt<W: fmt::Write>(&self, f: &mut Formatter<W>) -> fmt::Result {
        match self.0 {
            Some(stream) if stream.is_named() => write!(f, " # stream {}", OfStream(stream)),
            _ => Ok(()),
        }
    }
}

/// A call that measures a slave.
#[derive(Clone, Copy)]
pub(crate) struct Call<'a> {
    /// The interface, where it has to be named.
    interface: Option<&'a Label>,
    measured: Measured,
    stream: Option<Stream>,
}

#[tactic(auto, unfolding(crate::specs::Calls::call_text))]
impl Display for Call<'_> {
    ghost output = { λ call. Some (shown_call call) };

    fn fmt<W: fmt::Write>(&self, f: &mut Formatter<W>) -> fmt::Result {
        write!(
            f,
            "ptpx measure{}{}{}",
            InterfaceOption(self.interface),
            self.measured,
            Remark(self.stream)
        )
    }
}

/// Whom the messages of a row answer, if they do: it is measured as a slave.
fn measured_by(key: &RowKey) -> Option<Measured>
    ensures { result ≡ option_map (measured_of key.now) (answered key.now) }
{
    let slave = key.requesting?;
    if key.message != MessageType::DelayResp {
        return None;
    }
    Some(Measured {
        domain: key.domain,
        master: key.source,
        slave,
    })
}

impl Table {
    /// The interface of a row, where a call has to name it.
    fn interface_of_call(&self, key: &RowKey) -> Option<&Label>
        ensures { (t : TableOf) → IsTable t self.now
            → option_map (λ label. label_of label.now) result ≡ interface_of_call t.interfaces key.now }
    {
        if self.interfaces.are_several() {
            self.label(key)
        } else {
            None
        }
    }

    /// The call that measures the slave whom the messages of a row answer, if they do.
    fn call(&self, key: &RowKey) -> Option<Call<'_>>
        ensures { (t : TableOf) → IsTable t self.now
            → option_map line_of_call result ≡ option_map (call_line t.interfaces key.now) (answered key.now) }
    {
        let measured = measured_by(key)?;
        Some(Call {
            interface: self.interface_of_call(key),
            measured,
            stream: key.stream,
        })
    }

    /// The calls that measure the slaves who are answered.
    pub(crate) fn calls(&self, alloc: Global) -> Result<Vec<Call<'_>>, AllocError>
        ensures { (t : TableOf) → IsTable t self.now
            → IfOk result (λ calls. map line_of_call calls.items ≡ calls_of t.interfaces (map (λ group. group.0) t.groups)) }
    {
        let mut calls = Vec::new(alloc);
        for key in self.rows.keys() {
            let Some(call) = self.call(key) else {
                continue;
            };
            calls.push(call)?;
        }
        Ok(calls)
    }
}

/// Appends calls, a line each.
fn push_all(text: &mut String, calls: &[Call<'_>]) -> Result<(), AllocError>
    ensures { OnOk result (string_bytes text.new ≡ string_bytes text.old ++ concat (map line_of_call calls.now)) }
{
    for call in calls {
        write!(text, "{call}\n")?;
    }
    Ok(())
}

/// What stands behind so many calls.
fn behind(count: usize) -> &'static str
    ensures { result.now ≡ (if nat_lt calls_limit count then codes "and so on, for each row of Delay_Resp\n" else []) }
{
    if count > CALLS_MOST {
        "and so on, for each row of Delay_Resp\n"
    } else {
        ""
    }
}

/// Appends the first calls behind an empty line, and that there are more where there are.
pub(crate) fn push_calls(text: &mut String, calls: &[Call<'_>]) -> Result<(), AllocError>
    ensures { OnOk result (string_bytes text.new ≡ string_bytes text.old ++ calls_text (map line_of_call calls.now)) }
{
    if calls.is_empty() {
        return Ok(());
    }
    text.push('\n')?;
    push_all(text, &calls[..calls.len().min(CALLS_MOST)])?;
    text.push_str(behind(calls.len()))
}
