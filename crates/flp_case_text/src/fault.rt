//! Why a block gives no cases.

use std::alloc::{AllocError, AllocFailed};

/// What is wrong with a block.
#[derive(Debug, Clone, Copy, PartialEq, Eq)]
pub enum Fault {
    /// Want of memory.
    Memory,
    /// Nothing of its kind is written so as the line of this number, the first being 0.
    Line(usize),
}

impl Fault {
    /// The same at the line of this number.
    pub(crate) fn at(self, line: usize) -> Fault {
        match self {
            Fault::Memory => Fault::Memory,
            Fault::Line(_) => Fault::Line(line),
        }
    }
}

impl From<AllocError> for Fault {
    fn from(_error: AllocError) -> Fault {
        Fault::Memory
    }
}

impl<T: Drop> From<AllocFailed<T>> for Fault {
    fn from(_error: AllocFailed<T>) -> Fault {
        Fault::Memory
    }
}
