//! A row: its fields, with tabs between them.

use percent_encoding::percent_decode;
use std::alloc::{AllocError, Global};
use std::str;

/// What is asked, of which text, and what else belongs to it.
#[derive(Drop)]
pub(crate) struct Row {
    pub(crate) asks: String,
    pub(crate) text: Vec<u8>,
    pub(crate) further: Vec<u8>,
}

impl Row {
    /// The row of a line. An empty line and a title, behind `#`, are none.
    pub(crate) fn of(alloc: Global, line: &str) -> Result<Option<Row>, AllocError> {
        if line.is_empty() || line.starts_with('#') {
            return Ok(None);
        }
        let mut fields = line.split('\t');
        Ok(Some(Row {
            asks: String::from_str(alloc, fields.next().unwrap_or(""))?,
            text: octets(alloc, fields.next().unwrap_or(""))?,
            further: octets(alloc, fields.next().unwrap_or(""))?,
        }))
    }

    /// What else belongs to it, as a number.
    pub(crate) fn number(&self) -> anyhow::Result<u64> {
        Ok(str::from_utf8(self.further.as_slice())?.parse()?)
    }
}

/// The octets that a field stands for: `%` and two hexadecimal digits are one that can't be seen.
fn octets(alloc: Global, field: &str) -> Result<Vec<u8>, AllocError> {
    let mut octets = Vec::new(alloc);
    percent_decode(field.as_bytes()).append_to(&mut octets)?;
    Ok(octets)
}
