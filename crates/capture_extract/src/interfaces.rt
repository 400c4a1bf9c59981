//! The interfaces at which messages were captured.
ghost use Rattle.std.specs.Prelude.{◌≡◌, List, [], ◌∷◌, IfOk, None, OnOk, Some, codes, length, nat_lt, option_map, take, if◌then◌else◌};
ghost use Rattle.std.specs.Fmt.{WritesOnOk};
ghost use Rattle.std.specs.List.{list_all};
ghost use Rattle.capture_file.specs.Packet.{InterfaceOf, interface_of};
ghost use Rattle.capture_extract.specs.Labels.{argument_text, escape, escaped, interface_at, is_plain, label_text, name_argument, name_text, shown_limit};
ghost use Rattle.capture_extract.specs.Table.{index_of};
ghost use Rattle.capture_extract.specs.Inner.Rows.{AreInterfaces, AreNamed, AreNameless, label_of};

use capture_file::Interface;
use std::alloc::{AllocError, Global};
use std::collections::BTreeMap;
use std::fmt;
use std::fmt::{Display, Formatter};

/// The most octets of a name that a row shows. A name may have 65,535, and each row has one.
const SHOWN_MOST: usize = 64;

/// What an interface is called: by its name where it has one of its own, or else by its place in its section.
#[derive(Drop)]
pub(crate) struct Label {
    number: u32,
    name: Option<Vec<u8>>,
}

impl Label {
    /// What an interface is called.
    fn new(alloc: Global, interface: &Interface<'_>) -> Result<Label, AllocError>
        ensures { IfOk result (λ label. label_of label ≡ interface_of interface.now) }
    {
        let name = match interface.name {
            Some(name) => Some(Vec::from_slice(alloc, name)?),
            None => None,
        };
        Ok(Label {
            number: interface.place,
            name,
        })
    }
}

/// Writes an octet, with an escape where it isn't printable.
fn write_escape<W: fmt::Write>(octet: u8, f: &mut Formatter<W>) -> fmt::Result
    ensures { WritesOnOk W.write_str_gives f.old result (escape octet) f.new }
{
    let mut rest = octet.escape_ascii();
    'escape: while let Some(escaped) = rest.next() {
        f.write_char(char::from(escaped))?;
    }
    Ok(())
}

/// Octets, with escapes where they aren't printable.
#[derive(Clone, Copy)]
struct Escaped<'a>(&'a [u8]);

impl Display for Escaped<'_> {
    ghost output = { λ octets. Some (escaped octets.0.now) };

    fn fmt<W: fmt::Write>(&self, f: &mut Formatter<W>) -> fmt::Result {
        for octet in self.0 {
            write_escape(*octet, f)?;
        }
        Ok(())
    }
}

/// What a row shows of a name.
fn shown_of(name: &[u8]) -> &[u8]
    ensures { result.now ≡ take shown_limit name.now }
{
    &name[..name.len().min(SHOWN_MOST)]
}

/// What stands behind what is shown of a name.
fn ending(name: &[u8]) -> &'static str
    ensures { result.now ≡ (if nat_lt shown_limit (length name.now) then codes ".." else []) }
{
    if name.len() > SHOWN_MOST { ".." } else { "" }
}

/// A name of an interface in a row.
#[derive(Clone, Copy)]
struct Name<'a>(&'a [u8]);

impl Display for Name<'_> {
    ghost output = { λ name. Some (name_text name.0.now) };

    fn fmt<W: fmt::Write>(&self, f: &mut Formatter<W>) -> fmt::Result {
        write!(f, "{}{}", Escaped(shown_of(self.0)), ending(self.0))
    }
}

impl Display for Label {
    ghost output = { λ label. Some (label_text (label_of label)) };

    fn fmt<W: fmt::Write>(&self, f: &mut Formatter<W>) -> fmt::Result {
        match &self.name {
            Some(name) => write!(f, "{}", Name(name)),
            None => write!(f, "if{}", self.number),
        }
    }
}

/// Whether an octet stands for itself in a shell.
fn is_plain(octet: u8) -> bool
    ensures { result ≡ is_plain octet }
{
    octet.is_ascii_alphanumeric() || matches!(octet, b'.' | b'_' | b'-' | b':' | b'@' | b'+')
}

/// Whether all do.
fn are_plain(name: &[u8]) -> bool
    ensures { result ≡ list_all is_plain name.now }
{
    name.iter().all(|octet| is_plain(*octet))
}

/// A name of an interface as a shell takes it for an argument.
#[derive(Clone, Copy)]
struct NameArgument<'a>(&'a [u8]);

impl Display for NameArgument<'_> {
    ghost output = { λ name. Some (name_argument name.0.now) };

    fn fmt<W: fmt::Write>(&self, f: &mut Formatter<W>) -> fmt::Result {
        let escaped = Escaped(self.0);
        if are_plain(self.0) {
            write!(f, "{escaped}")
        } else {
            write!(f, "$'{escaped}'")
        }
    }
}

/// What an interface is called as a shell takes it for an argument.
#[derive(Clone, Copy)]
pub(crate) struct Argument<'a>(pub(crate) &'a Label);

impl Display for Argument<'_> {
    ghost output = { λ label. Some (argument_text (label_of label.0.now)) };

    fn fmt<W: fmt::Write>(&self, f: &mut Formatter<W>) -> fmt::Result {
        match &self.0.name {
            Some(name) => write!(f, "{}", NameArgument(name)),
            None => write!(f, "if{}", self.0.number),
        }
    }
}

/// The interfaces in the order in which they were met. Those that are called alike are one, whatever section they are in.
#[derive(Drop)]
pub(crate) struct Interfaces {
    met: Vec<Label>,
    /// At which index the one of a name stands.
    named: BTreeMap<Vec<u8>, usize>,
    /// At which index the one of a place stands that has no name of its own.
    nameless: BTreeMap<u32, usize>,
}

impl Interfaces {
    /// None was met.
    pub(crate) fn new(alloc: Global) -> Interfaces
        ensures { AreInterfaces [] result }
    {
        Interfaces {
            met: Vec::new(alloc),
            named: BTreeMap::new(alloc),
            nameless: BTreeMap::new(alloc),
        }
    }

    /// At which index one stands, if it was met.
    pub(crate) fn find(&self, interface: &Interface<'_>) -> Option<usize>
        ensures { (met : List InterfaceOf) → AreInterfaces met self.now → result ≡ index_of (interface_of interface.now) met }
    {
        match interface.name {
            Some(name) => self.named.get(name).copied(),
            None => self.nameless.get(&interface.place).copied(),
        }
    }

    /// Adds one that wasn't met, and answers its index.
    pub(crate) fn add(
        &mut self,
        alloc: Global,
        interface: &Interface<'_>,
    ) -> Result<usize, AllocError>
        ensures { (met : List InterfaceOf) → AreInterfaces met self.old → index_of (interface_of interface.now) met ≡ None
            → IfOk result (λ index. (index ≡ length met) × AreInterfaces (interface_of interface.now ∷ met) self.new) }
    {
        let index = self.met.len();
        let label = Label::new(alloc, interface)?;
        self.met.reserve(1)?;
        self.note(alloc, interface, index)?;
        self.met.push(label)?;
        Ok(index)
    }

    /// Notes at which index one will stand.
    fn note(
        &mut self,
        alloc: Global,
        interface: &Interface<'_>,
        index: usize,
    ) -> Result<(), AllocError>
        ensures labels { self.new.met ≡ self.old.met }
        ensures named { (met : List InterfaceOf) → AreNamed met self.old → index ≡ length met
            → OnOk result (AreNamed (interface_of interface.now ∷ met) self.new) }
        ensures nameless { (met : List InterfaceOf) → AreNameless met self.old → index ≡ length met
            → OnOk result (AreNameless (interface_of interface.now ∷ met) self.new) }
    {
        match interface.name {
            Some(name) => {
                self.named.insert(Vec::from_slice(alloc, name)?, index)?;
            }
            None => {
                self.nameless.insert(interface.place, index)?;
            }
        }
        Ok(())
    }

    /// The one at an index.
    pub(crate) fn get(&self, index: usize) -> Option<&Label>
        ensures { (met : List InterfaceOf) → AreInterfaces met self.now
            → option_map (λ label. label_of label.now) result ≡ interface_at met (Some index) }
    {
        self.met.get(index)
    }

    /// Whether several were met.
    pub(crate) fn are_several(&self) -> bool
        ensures { (met : List InterfaceOf) → AreInterfaces met self.now → result ≡ nat_lt 1 (length met) }
    {
        self.met.len() > 1
    }
}
