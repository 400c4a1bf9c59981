//! A reader and a writer that fail, a reader that never ends, and one that gives little at once: for tests.
//! There is one type of each, since what reads and writes is built once for each type.
#![tactic(auto)]

use std::alloc::Global;
use std::io;
use std::io::{Error, ErrorKind, Read, Write};

/// How many lines end in these octets.
pub fn lines_in(octets: &[u8]) -> usize {
    octets.iter().filter(|octet| **octet == b'\n').count()
}

/// Gives its octets, fails once if it is to, and goes on with the rest. Counts how often it was asked.
#[derive(Drop)]
pub struct Source<'a> {
    octets: &'a [u8],
    rest: &'a [u8],
    failure: Option<ErrorKind>,
    /// The most octets that it gives at once.
    most: usize,
    asked: u64,
    /// The octet that it gives over and over, in the place of others.
    endless: Option<u8>,
    /// How often it gave that one.
    given: u64,
}

impl<'a> Source<'a> {
    /// Gives octets.
    pub fn new(octets: &'a [u8]) -> Self {
        Source::in_pieces(octets, usize::MAX)
    }

    /// Gives no more than so many of its octets at once.
    pub fn in_pieces(octets: &'a [u8], most: usize) -> Self {
        Source {
            octets,
            rest: &[],
            failure: None,
            most,
            asked: 0,
            endless: None,
            given: 0,
        }
    }

    /// Fails after so many octets.
    pub fn failing(octets: &'a [u8], given: usize, kind: ErrorKind) -> Self {
        let (octets, rest) = octets.split_at_checked(given).unwrap_or((octets, &[]));
        let mut source = Source::new(octets);
        source.rest = rest;
        source.failure = Some(kind);
        source
    }

    /// Gives one octet over and over.
    pub fn endless(octet: u8) -> Self {
        let mut source = Source::new(&[]);
        source.endless = Some(octet);
        source
    }

    /// What it has still to give before it fails.
    pub fn unread(&self) -> &'a [u8] {
        self.octets
    }

    /// How many octets it has still to give.
    pub fn left(&self) -> usize {
        self.octets.len().saturating_add(self.rest.len())
    }

    /// How often it was asked for octets.
    pub fn asked(&self) -> u64 {
        self.asked
    }

    /// How many octets it gave where it never ends.
    pub fn given(&self) -> u64 {
        self.given
    }
}

impl Read for Source<'_> {
    fn read(&mut self, buf: &mut [u8]) -> io::Result<usize> {
        self.asked = self.asked.saturating_add(1);
        if let Some(octet) = self.endless {
            buf.fill(octet);
            self.given = self.given.saturating_add(buf.len() as u64);
            return Ok(buf.len());
        }
        if self.octets.is_empty() {
            if let Some(kind) = self.failure.take() {
                return Err(Error::from(kind));
            }
            self.octets = self.rest;
            self.rest = &[];
        }
        let most = buf.len().min(self.most);
        self.octets.read(&mut buf[..most])
    }
}

/// How a write fails: by an error, or by taking nothing.
pub const WRITE_FAILURES: [Option<ErrorKind>; 3] = [
    Some(ErrorKind::BrokenPipe),
    Some(ErrorKind::Interrupted),
    None,
];

/// Takes so many writes, then fails once or takes nothing once, and goes on.
#[derive(Drop)]
pub struct Sink {
    text: Vec<u8>,
    room: usize,
    kind: Option<ErrorKind>,
}

impl Sink {
    /// Takes all writes.
    pub fn new(alloc: Global) -> Self {
        Sink::full(alloc, usize::MAX, None)
    }

    /// Takes so many writes before it fails.
    pub fn full(alloc: Global, room: usize, kind: Option<ErrorKind>) -> Self {
        Sink {
            text: Vec::new(alloc),
            room,
            kind,
        }
    }

    /// What it took.
    pub fn text(&self) -> &[u8] {
        self.text.as_slice()
    }

    /// What it took, by value.
    pub fn into_text(self) -> Vec<u8> {
        self.text
    }

    fn failure(&self) -> io::Result<()> {
        match self.kind {
            Some(kind) => Err(Error::from(kind)),
            None => Ok(()),
        }
    }
}

impl Write for Sink {
    fn write(&mut self, buf: &[u8]) -> io::Result<usize> {
        if self.room == 0 {
            self.room = usize::MAX;
            return self.failure().map(|()| 0);
        }
        self.room -= 1;
        self.text.write(buf)
    }

    fn flush(&mut self) -> io::Result<()> {
        self.failure()
    }
}
