//! Options as `clap` has met them: one function for each kind of value.
ghost use Rattle.std.specs.Prelude.{◌≡◌};
ghost use Rattle.clap.specs.Matches.{first_value, found_of};
ghost use Rattle.std.specs.Result.{result_ok};
ghost use Rattle.capture_file.specs.Name.{interface_name};
ghost use Rattle.command_line.specs.Limit.{limit_of};
ghost use Rattle.command_line.specs.Number.{domain_of};
ghost use Rattle.command_line.specs.Options.{is_text_used, readings_of, said_by};
ghost use Rattle.command_line.specs.PortText.{port_identity_of};
ghost use Rattle.command_line.specs.TapText.{tap_besides};
ghost use Rattle.tap_choice.specs.Sides.{is_named};

use crate::limit::limit_in;
use crate::number::domain_in;
use crate::port_identity::port_identity_in;
use capture_file::InterfaceName;
use clap::ArgMatches;
use datagram_source::Readings;
use event_codec::PortIdentity;
use ptp_units::ScaledTime;
use tap_choice::TapName;

/// A value that an option doesn't take.
#[derive(Clone, Copy, Debug)]
pub(crate) struct WrongValue<'a> {
    /// The option's name.
    pub(crate) option: &'static str,
    /// The value.
    pub(crate) value: &'a str,
    /// What the help calls the value; nothing where the option has none.
    pub(crate) name: &'static str,
    /// What is wanted.
    pub(crate) wanted: &'static str,
}

/// What a port's identity looks like.
const PORT: &str =
    "a port, as 00aabbfffeccddee/1 or 00aabb.fffe.ccddee-1, with a number of at most 65535";

/// What a domain's number looks like.
const DOMAIN: &str = "a domain, a number from 0 to 255 in 1 to 3 digits";

/// What the name of an interface is.
const INTERFACE: &str = "the name of an interface, of 1 to 255 octets";

/// Whether an option without a value is used: `clap` gives it a text.
pub(crate) fn is_used(matches: &ArgMatches<'_>, option: &str) -> bool
    ensures { result ≡ is_text_used (first_value (found_of matches.now) option.now) }
{
    match matches.get_str(option) {
        Some(text) => text == "true",
        None => false,
    }
}

/// The port of an option, where it is given.
pub(crate) fn port_option<'a>(
    matches: &ArgMatches<'a>,
    option: &'static str,
) -> Result<Option<PortIdentity>, WrongValue<'a>>
    ensures { result_ok result ≡ said_by port_identity_of (first_value (found_of matches.now) option.now) }
{
    let Some(value) = matches.get_str(option) else {
        return Ok(None);
    };
    match port_identity_in(value) {
        Some(port) => Ok(Some(port)),
        None => Err(WrongValue {
            option,
            value,
            name: "PORT",
            wanted: PORT,
        }),
    }
}

/// The domain of an option, where it is given.
pub(crate) fn domain_option<'a>(
    matches: &ArgMatches<'a>,
    option: &'static str,
) -> Result<Option<u8>, WrongValue<'a>>
    ensures { result_ok result ≡ said_by domain_of (first_value (found_of matches.now) option.now) }
{
    let Some(value) = matches.get_str(option) else {
        return Ok(None);
    };
    match domain_in(value) {
        Some(domain) => Ok(Some(domain)),
        None => Err(WrongValue {
            option,
            value,
            name: "NUMBER",
            wanted: DOMAIN,
        }),
    }
}

/// What a limit looks like.
const LIMIT: &str =
    "nanoseconds below 2^48, as 1000 or 12.5, without zeros in front and with 9 decimals at the most";

/// The nanoseconds of an option, where they are given: so many seconds.
pub(crate) fn limit_option<'a>(
    matches: &ArgMatches<'a>,
    option: &'static str,
) -> Result<Option<ScaledTime>, WrongValue<'a>>
    ensures { result_ok result ≡ said_by limit_of (first_value (found_of matches.now) option.now) }
{
    let Some(value) = matches.get_str(option) else {
        return Ok(None);
    };
    match limit_in(value) {
        Some(limit) => Ok(Some(limit)),
        None => Err(WrongValue {
            option,
            value,
            name: "NS",
            wanted: LIMIT,
        }),
    }
}

/// Whose readings are meant.
const WHOSE: &str = "own or capture";

/// Whose readings a text means.
fn readings_in(text: &str) -> Option<Readings>
    ensures { result ≡ readings_of text.now }
{
    if text == "own" {
        Some(Readings::Own)
    } else if text == "capture" {
        Some(Readings::Captured)
    } else {
        None
    }
}

/// Whose readings an option asks for, where it is given.
pub(crate) fn readings_option<'a>(
    matches: &ArgMatches<'a>,
    option: &'static str,
) -> Result<Option<Readings>, WrongValue<'a>>
    ensures { result_ok result ≡ said_by readings_of (first_value (found_of matches.now) option.now) }
{
    let Some(value) = matches.get_str(option) else {
        return Ok(None);
    };
    match readings_in(value) {
        Some(readings) => Ok(Some(readings)),
        None => Err(WrongValue {
            option,
            value,
            name: "WHOSE",
            wanted: WHOSE,
        }),
    }
}

/// The name of an interface in an option, where it is given.
pub(crate) fn interface_option<'a>(
    matches: &ArgMatches<'a>,
    option: &'static str,
) -> Result<Option<InterfaceName>, WrongValue<'a>>
    ensures { result_ok result ≡ said_by interface_name (first_value (found_of matches.now) option.now) }
{
    let Some(value) = matches.get_str(option) else {
        return Ok(None);
    };
    match InterfaceName::new(value.as_bytes()) {
        Some(name) => Ok(Some(name)),
        None => Err(WrongValue {
            option,
            value,
            name: "NAME",
            wanted: INTERFACE,
        }),
    }
}

/// What the name of a tap is.
const TAP: &str =
    "the name of a tap, of 1 to 16 letters, digits, '_', '-' or '.', and not that of the other tap";

/// Whether this is the name of the other tap.
fn is_other(other: Option<TapName>, name: TapName) -> bool
    ensures { result ≡ is_named other name }
{
    match other {
        Some(other) => other == name,
        None => false,
    }
}

/// The name of the tap that a text is; None where it is none, or that of the other tap.
fn tap_besides(other: Option<TapName>, text: &[u8]) -> Option<TapName>
    ensures { result ≡ tap_besides other text.now }
{
    let name = TapName::new(text)?;
    if is_other(other, name) {
        None
    } else {
        Some(name)
    }
}

/// The name of a tap in an option, where it is given, other than that of the other tap.
pub(crate) fn tap_option<'a>(
    matches: &ArgMatches<'a>,
    option: &'static str,
    other: Option<TapName>,
) -> Result<Option<TapName>, WrongValue<'a>>
    ensures { result_ok result ≡ said_by (tap_besides other) (first_value (found_of matches.now) option.now) }
{
    let Some(value) = matches.get_str(option) else {
        return Ok(None);
    };
    match tap_besides(other, value.as_bytes()) {
        Some(name) => Ok(Some(name)),
        None => Err(WrongValue {
            option,
            value,
            name: "TAP",
            wanted: TAP,
        }),
    }
}
