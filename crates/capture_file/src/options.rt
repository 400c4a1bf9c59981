//! The options of an interface description.
ghost use Rattle.std.specs.Prelude.{◌≡◌, ◌≤◌, ◌+◌, length, true, MatchResult, ℕ, List};
ghost use Rattle.capture_file.specs.Options.{OptionOf, AreOptions, HasWrongOption, is_size_of, with_option, found_in};
ghost use Rattle.capture_file.specs.Inner.Options.{found_of};

use crate::block::padded;
use crate::order::ByteOrder;

/// The code that ends options.
const END: u16 = 0;

/// `if_name`.
const NAME: u16 = 2;

/// `if_tsresol`.
const RESOLUTION: u16 = 9;

/// `if_tsoffset`.
const OFFSET: u16 = 14;

/// The octets in front of the value of an option.
const OPTION_HEAD: u32 = 4;

/// What the options of an interface say.
#[derive(Clone, Copy)]
pub(crate) struct Options<'a> {
    /// Its name.
    pub(crate) name: Option<&'a [u8]>,
    /// Into how many parts a second is divided.
    pub(crate) resolution: Option<u8>,
    /// Seconds that are added to its times.
    pub(crate) offset: Option<i64>,
}

/// Whether an option may have so many octets.
fn is_size_of(code: u16, size: u16) -> bool
    ensures { result ≡ is_size_of code size }
{
    match code {
        RESOLUTION => size == 1,
        OFFSET => size == 8,
        _ => true,
    }
}

impl<'a> Options<'a> {
    /// What no options say.
    const NONE: Options<'static> = Options {
        name: None,
        resolution: None,
        offset: None,
    };

    /// With one more option: of two alike the first counts.
    fn with(self, order: ByteOrder, code: u16, value: &'a [u8]) -> Options<'a>
        requires { is_size_of code (length value.now) ≡ true }
        ensures { found_of result ≡ with_option order code value.now (found_of self.entry) }
    {
        match code {
            NAME => Options {
                name: self.name.or(Some(value)),
                ..self
            },
            RESOLUTION => Options {
                resolution: self.resolution.or(Some(value[0])),
                ..self
            },
            OFFSET => Options {
                offset: self.offset.or(Some(order.i64_in(value))),
                ..self
            },
            _ => self,
        }
    }
}

/// What options say that take `left` octets, of which these are there. Where one doesn't fit, or is of another length than it has, the
/// place of its length is answered.
pub(crate) fn options_in(order: ByteOrder, octets: &[u8], left: u32) -> Result<Options<'_>, u64>
    ensures { MatchResult result
        (λ found. (options : List OptionOf) × AreOptions order left options octets.now × (found_of found ≡ found_in order options))
        (λ place. HasWrongOption order left octets.now place) }
{
    let mut found = Options::NONE;
    let mut rest = octets;
    let mut behind = left;
    while behind > 0 && rest.len() >= OPTION_HEAD as usize {
        let (code, size) = (order.u16_at(rest, 0), order.u16_at(rest, 2));
        if code == END {
            break;
        }
        let whole = OPTION_HEAD + padded(u32::from(size)) as u32;
        if behind < whole || !is_size_of(code, size) {
            return Err(u64::from(left - behind) + 2);
        }
        if rest.len() < whole as usize {
            break;
        }
        found = found.with(
            order,
            code,
            &rest[OPTION_HEAD as usize..][..usize::from(size)],
        );
        rest = &rest[whole as usize..];
        behind -= whole;
    }
    Ok(found)
}
