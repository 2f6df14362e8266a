//! Bytes by their names.

use crate::Fault;
use std::alloc::{AllocError, Global};

/// Some bytes, and their name.
#[derive(Debug, Drop)]
struct Named {
    name: String,
    bytes: Vec<u8>,
}

/// Pieces of input, files, and what cases wrote, by their names.
#[derive(Debug, Drop)]
pub struct Shelf {
    entries: Vec<Named>,
}

impl Shelf {
    /// A shelf with nothing on it.
    pub fn new(alloc: Global) -> Shelf {
        Shelf {
            entries: Vec::new(alloc),
        }
    }

    /// Puts bytes on the shelf.
    pub fn keep(&mut self, name: String, bytes: Vec<u8>) -> Result<(), AllocError> {
        self.entries.push(Named { name, bytes })?;
        Ok(())
    }

    /// The bytes that were put there first under this name.
    fn get(&self, name: &str) -> Option<&[u8]> {
        for entry in &self.entries {
            if entry.name.as_str() == name {
                return Some(entry.bytes.as_slice());
            }
        }
        None
    }

    /// The same where it must be there.
    pub(crate) fn found(&self, name: &str) -> Result<&[u8], Fault> {
        self.get(name).ok_or(Fault::Line(0))
    }

    /// How many have been put there.
    pub fn count(&self) -> usize {
        self.entries.len()
    }

    /// Takes all away but the first so many.
    pub fn shorten(&mut self, count: usize) {
        self.entries.truncate(count);
    }
}
