//! The rows of messages, and what isn't in a row.
ghost use Rattle.std.specs.Prelude.{◌≡◌, IfOk, OnOk};
ghost use Rattle.capture_file.specs.Packet.{interface_of};
ghost use Rattle.datagram_source.specs.Datagram.{datagram_of, place_of};
ghost use Rattle.capture_extract.specs.Table.{TableOf, counted, index_for, key_of, met, no_table, passed, with_datagram, with_message};
ghost use Rattle.capture_extract.specs.Inner.Rows.{IsTable};

use crate::header::{Listed, Unlisted, read_listed};
use crate::interfaces::Interfaces;
use crate::row::{Row, RowKey};
use capture_file::Interface;
use datagram_source::{Datagram, Place, Stream};
use std::alloc::{AllocError, Global};
use std::collections::BTreeMap;

/// The most rows: memory is bounded so whatever comes. A network of some hundred slaves of one master has three or four for each.
/// There are no more interfaces than rows, since each has one.
pub(crate) const ROWS_MOST: usize = 1024;

/// The messages of a capture by rows. Counts stay at 2^64 - 1.
#[derive(Drop)]
pub(crate) struct Table {
    alloc: Global,
    pub(crate) interfaces: Interfaces,
    pub(crate) rows: BTreeMap<RowKey, Row>,
    /// How many messages would have made further rows.
    pub(crate) further: u64,
    /// How many datagrams have another version than 2.
    pub(crate) other_version: u64,
    /// How many datagrams end before what is read of them.
    pub(crate) too_short: u64,
}

/// What a message has in common with the others of its row.
fn key_of(interface: Option<usize>, stream: Option<Stream>, listed: &Listed) -> RowKey
    ensures { result ≡ key_of interface stream listed.now }
{
    RowKey {
        interface,
        stream,
        domain: listed.header.domain,
        source: listed.header.source,
        message: listed.message,
        requesting: listed.requesting,
    }
}

impl Table {
    /// No datagram came.
    pub(crate) fn new(alloc: Global) -> Table
        ensures { IsTable no_table result }
    {
        Table {
            alloc,
            interfaces: Interfaces::new(alloc),
            rows: BTreeMap::new(alloc),
            further: 0,
            other_version: 0,
            too_short: 0,
        }
    }

    /// Takes a datagram.
    pub(crate) fn take(&mut self, datagram: &Datagram<'_>) -> Result<(), AllocError>
        ensures { (t : TableOf) → IsTable t self.old → OnOk result (IsTable (with_datagram (datagram_of datagram.now) t) self.new) }
    {
        match read_listed(datagram) {
            Ok(listed) => return self.count(&datagram.place, &listed),
            Err(Unlisted::OtherVersion) => {
                self.other_version = self.other_version.saturating_add(1);
            }
            Err(Unlisted::TooShort) => self.too_short = self.too_short.saturating_add(1),
        }
        Ok(())
    }

    /// The index of an interface, which is added where there is room for a row of it.
    fn interface(&mut self, interface: &Interface<'_>) -> Result<Option<usize>, AllocError>
        ensures { (t : TableOf) → IsTable t self.old
            → IfOk result (λ index. (index ≡ index_for (interface_of interface.now) t) × IsTable (met (interface_of interface.now) t) self.new) }
    {
        match self.interfaces.find(interface) {
            Some(index) => Ok(Some(index)),
            None if self.rows.len() < ROWS_MOST => {
                Ok(Some(self.interfaces.add(self.alloc, interface)?))
            }
            None => Ok(None),
        }
    }

    /// Counts a message that was met at this place.
    fn count(&mut self, place: &Place<'_>, listed: &Listed) -> Result<(), AllocError>
        ensures { (t : TableOf) → IsTable t self.old → OnOk result (IsTable (with_message (place_of place.now) listed.now t) self.new) }
    {
        match place {
            Place::Interface(interface, stream) => match self.interface(interface)? {
                Some(index) => self.count_at(key_of(Some(index), Some(*stream), listed), listed),
                None => {
                    self.pass();
                    Ok(())
                }
            },
            Place::Tap(_) | Place::Line => self.count_at(key_of(None, None, listed), listed),
        }
    }

    /// Counts a message of a further row.
    fn pass(&mut self)
        ensures { (t : TableOf) → IsTable t self.old → IsTable (passed t) self.new }
    {
        self.further = self.further.saturating_add(1);
    }

    /// Counts a message in the row of a key, which is made where there is room.
    fn count_at(&mut self, key: RowKey, listed: &Listed) -> Result<(), AllocError>
        ensures { (t : TableOf) → IsTable t self.old → OnOk result (IsTable (counted key listed.now t) self.new) }
    {
        if let Some(row) = self.rows.get_mut(&key) {
            row.count(listed);
            return Ok(());
        }
        if self.rows.len() >= ROWS_MOST {
            self.pass();
            return Ok(());
        }
        self.rows.insert(key, Row::new(listed))?;
        Ok(())
    }
}
