//! Members of objects, each written where there is a value for it.
ghost use Rattle.std.specs.Prelude.{◌≡◌, ◌++◌, [], OnOk, option_map};
ghost use Rattle.serde_json.specs.Data.{string};
ghost use Rattle.schedule_lines.specs.Written.{whole, moment_data, difference_data};
ghost use Rattle.line_writing.specs.Inner.Pieces.{piece};

use crate::values::{push_difference, push_moment, push_name, push_whole};
use network_model::Name;
use ptp_units::ScaledTime;
use std::alloc::AllocError;

/// Appends a whole number between two texts, where there is one.
pub(crate) fn put_whole(
    text: &mut Vec<u8>,
    front: &[u8],
    number: Option<u64>,
    back: &[u8],
) -> Result<(), AllocError>
    ensures { OnOk result (text.new.items ≡ text.old.items ++ piece front.now back.now (option_map whole number)) }
{
    match number {
        Some(number) => {
            text.extend_from_slice(front)?;
            push_whole(text, number)?;
            text.extend_from_slice(back)
        }
        None => Ok(()),
    }
}

/// Appends a moment between two texts, where there is one.
pub(crate) fn put_moment(
    text: &mut Vec<u8>,
    front: &[u8],
    time: Option<ScaledTime>,
    back: &[u8],
) -> Result<(), AllocError>
    ensures { OnOk result (text.new.items ≡ text.old.items ++ piece front.now back.now (option_map moment_data time)) }
{
    match time {
        Some(time) => {
            text.extend_from_slice(front)?;
            push_moment(text, time)?;
            text.extend_from_slice(back)
        }
        None => Ok(()),
    }
}

/// Appends a signed number between two texts, where there is one.
pub(crate) fn put_difference(
    text: &mut Vec<u8>,
    front: &[u8],
    units: Option<i128>,
    back: &[u8],
) -> Result<(), AllocError>
    ensures { OnOk result (text.new.items
        ≡ text.old.items ++ piece front.now back.now (option_map difference_data units)) }
{
    match units {
        Some(units) => {
            text.extend_from_slice(front)?;
            push_difference(text, units)?;
            text.extend_from_slice(back)
        }
        None => Ok(()),
    }
}

/// Appends a name behind a text, where there is one.
pub(crate) fn put_name(
    text: &mut Vec<u8>,
    front: &[u8],
    name: Option<Name>,
) -> Result<(), AllocError>
    ensures { OnOk result (text.new.items ≡ text.old.items ++ piece front.now [] (option_map string name)) }
{
    match name {
        Some(name) => {
            text.extend_from_slice(front)?;
            push_name(text, &name)
        }
        None => Ok(()),
    }
}
