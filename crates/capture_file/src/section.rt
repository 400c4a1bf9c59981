//! What a section of pcapng tells of its packets.
ghost use Rattle.std.specs.Prelude.{◌≡◌, ◌++◌, ◌∷◌, [], ◌||◌, ℕ, List, MatchResult};
ghost use Rattle.std.specs.List.{list_any};
ghost use Rattle.capture_file.specs.Section.{has_name};
ghost use Rattle.capture_file.specs.Inner.Described.{described_in, descriptions_in, is_among};

use crate::name::is_like_place;
use crate::options::Options;
use crate::order::ByteOrder;
use crate::resolution::Resolution;
use std::alloc::{AllocError, Global};
use std::collections::BTreeSet;

/// An interface.
#[derive(Drop)]
pub(crate) struct Described {
    /// The link type of its packets.
    pub(crate) link: u16,
    /// Into how many parts a second of its times is divided.
    pub(crate) resolution: Resolution,
    /// Seconds that are added to its times.
    pub(crate) offset: i64,
    /// Its name, where it has one of its own.
    pub(crate) name: Option<Vec<u8>>,
}

/// A section: the order of its numbers, the interfaces that were described so far, and the names that these have.
#[derive(Drop)]
pub(crate) struct Section {
    pub(crate) order: ByteOrder,
    pub(crate) interfaces: Vec<Described>,
    names: BTreeSet<Vec<u8>>,
    ghost named: { (name : List ℕ) → is_among name names ≡ list_any (has_name name) (descriptions_in interfaces.items) },
}

/// One more interface, and its name.
fn push_described(
    alloc: Global,
    interfaces: &mut Vec<Described>,
    names: &mut BTreeSet<Vec<u8>>,
    described: Described,
) -> Result<(), AllocError>
    ensures interfaces { MatchResult result
        (λ _. interfaces.new.items ≡ interfaces.old.items ++ described ∷ [])
        (λ _. interfaces.new.items ≡ interfaces.old.items) }
    ensures names { (name : List ℕ) → MatchResult result
        (λ _. is_among name names.new ≡ (has_name name (described_in described) || is_among name names.old))
        (λ _. is_among name names.new ≡ is_among name names.old) }
{
    interfaces.reserve(1)?;
    if let Some(name) = &described.name {
        names.insert(Vec::from_slice(alloc, name)?)?;
    }
    interfaces.push(described)?;
    Ok(())
}

impl Section {
    ghost use Rattle.std.specs.Prelude.{OnOk, option_map, slice_get};
    ghost use Rattle.capture_file.specs.Section.{own_name, description_of, with_interface, begun};
    ghost use Rattle.capture_file.specs.Inner.Options.{found_of};
    ghost use Rattle.capture_file.specs.Inner.Section.{section_in};

    /// Before the first interface.
    pub(crate) fn new(alloc: Global, order: ByteOrder) -> Section
        ensures { section_in result ≡ begun order }
    {
        Section {
            order,
            interfaces: Vec::new(alloc),
            names: BTreeSet::new(alloc),
        }
    }

    /// The interface of this place, if one was described.
    pub(crate) fn interface(&self, place: u32) -> Option<&Described>
        ensures { option_map (λ d. described_in d.now) result ≡ slice_get (section_in self.now).interfaces place }
    {
        self.interfaces.get(place as usize)
    }

    /// A name, where it isn't empty or as that of a place, and no interface has it.
    fn own_name<'a>(&self, name: Option<&'a [u8]>) -> Option<&'a [u8]>
        ensures { option_map (λ own. own.now) result ≡ own_name (descriptions_in self.now.interfaces.items) (option_map (λ text. text.now) name.entry) }
    {
        let name = name?;
        if name.is_empty() || is_like_place(name) || self.names.contains(name) {
            return None;
        }
        Some(name)
    }

    /// Takes one more interface, by its link type and what its options say.
    pub(crate) fn describe(
        &mut self,
        alloc: Global,
        link: u16,
        options: Options<'_>,
    ) -> Result<(), AllocError>
        ensures { OnOk result (section_in self.new ≡ with_interface
            (description_of link (descriptions_in self.old.interfaces.items) (found_of options.entry)) (section_in self.old)) }
    {
        let name = match self.own_name(options.name) {
            Some(name) => Some(Vec::from_slice(alloc, name)?),
            None => None,
        };
        let described = Described {
            link,
            resolution: options
                .resolution
                .map_or(Resolution::MICROSECONDS, Resolution::of_octet),
            offset: options.offset.unwrap_or(0),
            name,
        };
        push_described(alloc, &mut self.interfaces, &mut self.names, described)
    }
}
