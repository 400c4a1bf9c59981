//! clockIdentity in hexadecimal.
ghost use Rattle.std.specs.Prelude.{Some};
ghost use Rattle.hex.specs.Hex.{encode_lower};

use std::fmt::{Display, Formatter};
use std::{fmt, str};

/// clockIdentity, in lower case hexadecimal.
#[derive(Clone, Copy)]
pub(crate) struct ClockIdentity(pub(crate) [u8; 8]);

impl Display for ClockIdentity {
    ghost output = { λ identity. Some (encode_lower identity.0) };

    fn fmt<W: fmt::Write>(&self, f: &mut Formatter<W>) -> fmt::Result {
        let mut digits = [0; 16];
        hex::encode_to_slice(&self.0[..], &mut digits[..]).unwrap();
        f.write_str(str::from_utf8(&digits).unwrap())
    }
}
