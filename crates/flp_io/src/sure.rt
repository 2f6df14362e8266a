// A source over memory that never fails.
ghost use Rattle.std.specs.Prelude.{◌≡◌, Ok, Some, length, min, IsErr};
ghost use Rattle.std.specs.Io.{ReadsAtMost};
ghost use Rattle.std.specs.Io.KnownBytes.{ReadConsumes};
ghost use Rattle.flp_io.specs.Faults.{Uses, always_ready};
ghost use Rattle.flp_io.specs.Reads.{ReadsOn};

use crate::copies::copy_front;
use crate::{Failed, Source};
use std::marker::Model;

/// Gives the bytes of a `Vec` and never fails. Contracts see the bytes that are left.
#[derive(Debug, Drop)]
pub struct SureSource {
    bytes: Vec<u8>,
    at: usize,
}

impl Model for SureSource {
    ghost use Rattle.std.specs.Prelude.{◌≤◌, ℕ, List, drop, vec_len};

    ghost Value = { List ℕ };

    ghost view = { λ s. drop s.at s.bytes.items };

    ghost invariant = { λ s. s.at ≤ vec_len s.bytes };
}

impl SureSource {
    /// A source of these bytes.
    pub fn new(bytes: Vec<u8>) -> SureSource
        ensures { result ≡ bytes.items }
    {
        SureSource { bytes, at: 0 }
    }
}

impl Source for SureSource {
    ghost left = { λ s. Some s };

    ghost faults = { λ _. 0 };

    ghost ready = { always_ready };

    fn read(&mut self, buf: &mut [u8]) -> Result<usize, Failed>
        ensures bound { ReadsAtMost result buf.new }
        ensures bytes { ReadConsumes (Some self.old) (Some self.new) result buf.new }
        ensures uses { Uses (λ _. 0) always_ready self.old self.new (IsErr result) (ReadsOn result buf.new) }

        // As many bytes as there are and the buffer holds.
        ensures count { result ≡ Ok (min (length self.old) (length buf.new)) }
    {
        let count = copy_front(&self.bytes[self.at..], buf.len(), buf);
        self.at += count;
        Ok(count)
    }
}
