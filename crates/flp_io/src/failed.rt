// The one error of sources and sinks.
ghost use Rattle.std.specs.Prelude.{Some, codes};

use std::{error, fmt};

/// A read or a write failed. The count of faults of the source or sink rose in that call.
#[derive(Debug, Clone, Copy, PartialEq, Eq)]
pub struct Failed;

impl fmt::Display for Failed {
    ghost output = { λ _. Some (codes "reading or writing failed") };

    fn fmt<W: fmt::Write>(&self, f: &mut fmt::Formatter<W>) -> fmt::Result {
        f.write_str("reading or writing failed")
    }
}

impl error::Error for Failed {}
