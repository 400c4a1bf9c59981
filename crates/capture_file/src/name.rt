//! The name by which an interface is asked for.
ghost use Rattle.std.specs.Prelude.{◌≡◌, IfOk, option_map};
ghost use Rattle.std.specs.Char.{is_ascii_digit};
ghost use Rattle.std.specs.List.{list_all};
ghost use Rattle.std.specs.Str.{bytes_eq};
ghost use Rattle.capture_file.specs.Name.{interface_name, is_asked, is_called, is_like_place, name_octets, name_of, place_text};
ghost use Rattle.capture_file.specs.Packet.{interface_of};

use crate::packet::Interface;
use itoa::Buffer;
use std::alloc::{AllocError, Global};
use std::fmt;
use std::fmt::{Display, Formatter};

/// The most octets of a name.
const NAME_LIMIT: usize = 255;

/// A name of 1 to 255 octets. An interface is called by its own name, or else `if0`, `if1`, .. by its place in the section.
#[derive(Clone, Copy, Debug, PartialEq, Eq)]
pub struct InterfaceName {
    room: [u8; 255],
    size: u8,
}

/// Whether a name is what an interface of this place is called that has no name of its own.
fn is_place(name: &[u8], place: u32) -> bool
    ensures { result ≡ bytes_eq name.now (place_text place) }
{
    let mut digits = Buffer::new();
    match name.strip_prefix(b"if") {
        Some(rest) => rest == digits.format(place).as_bytes(),
        None => false,
    }
}

/// Whether all octets are digits of ASCII.
fn are_digits(octets: &[u8]) -> bool
    ensures { result ≡ list_all is_ascii_digit octets.now }
{
    for octet in octets {
        if !octet.is_ascii_digit() {
            return false;
        }
    }
    true
}

/// Whether a name is as that of a place: `if`, and digits alone.
pub(crate) fn is_like_place(name: &[u8]) -> bool
    ensures { result ≡ is_like_place name.now }
{
    match name.strip_prefix(b"if") {
        Some(digits) => !digits.is_empty() && are_digits(digits),
        None => false,
    }
}

/// The text of a place: what an interface is called that has no name of its own.
fn place_octets(alloc: Global, place: u32) -> Result<Vec<u8>, AllocError>
    ensures { IfOk result (λ text. text.items ≡ place_text place) }
{
    let mut digits = Buffer::new();
    let mut text = Vec::from_slice(alloc, b"if")?;
    text.extend_from_slice(digits.format(place).as_bytes())?;
    Ok(text)
}

impl Interface<'_> {
    /// What it is called: by its own name, or else by its place.
    pub fn called(&self, alloc: Global) -> Result<Vec<u8>, AllocError>
        ensures { IfOk result (λ text. text.items ≡ name_of (interface_of self.now)) }
    {
        match self.name {
            Some(name) => Vec::from_slice(alloc, name),
            None => place_octets(alloc, self.place),
        }
    }

    /// Whether it is called so.
    pub fn is_called(&self, name: &[u8]) -> bool
        ensures { result ≡ is_called name.now (interface_of self.now) }
    {
        match self.name {
            Some(own) => name == own,
            None => is_place(name, self.place),
        }
    }
}

impl InterfaceName {
    /// The name that is these octets; None where they are none, or more than 255.
    pub fn new(octets: &[u8]) -> Option<InterfaceName>
        ensures { result ≡ interface_name octets.now }
    {
        if octets.is_empty() || octets.len() > NAME_LIMIT {
            return None;
        }
        let mut room = [0; NAME_LIMIT];
        room[..octets.len()].copy_from_slice(octets);
        Some(InterfaceName {
            room,
            size: octets.len() as u8,
        })
    }

    /// The octets of the name.
    pub fn octets(&self) -> &[u8]
        ensures { result.now ≡ name_octets self.now }
    {
        &self.room[..usize::from(self.size)]
    }

    /// Whether an interface is called so.
    pub fn is_of(&self, interface: &Interface<'_>) -> bool
        ensures { result ≡ is_called (name_octets self.now) (interface_of interface.now) }
    {
        interface.is_called(self.octets())
    }
}

impl Display for InterfaceName {
    fn fmt<W: fmt::Write>(&self, f: &mut Formatter<W>) -> fmt::Result {
        for octet in self.octets() {
            write!(f, "{}", octet.escape_ascii())?;
        }
        Ok(())
    }
}

/// Whether an interface is the one that is asked for, if one is.
pub fn is_asked(asked: Option<&InterfaceName>, interface: &Interface<'_>) -> bool
    ensures { result ≡ is_asked (option_map (λ name. name.now) asked.entry) (interface_of interface.now) }
{
    match asked {
        Some(name) => name.is_of(interface),
        None => true,
    }
}
