// A sink that keeps nothing.
ghost use Rattle.std.specs.Prelude.{◌≡◌, None, Ok, length, IsErr, IsOk};
ghost use Rattle.std.specs.Io.{WritesAtMost};
ghost use Rattle.std.specs.Io.KnownBytes.{WriteAppends};
ghost use Rattle.flp_io.specs.Faults.{Uses, always_ready};
ghost use Rattle.flp_io.specs.Writes.{TakesSome, WriteSpares};

use crate::{Failed, Sink};

/// Takes every piece whole, never fails, and tells nothing of what it took.
#[derive(Debug, Clone, Copy, Default)]
pub struct NullSink;

impl Sink for NullSink {
    ghost taken = { λ _. None };

    ghost faults = { λ _. 0 };

    ghost spare = { λ _. None };

    ghost ready = { always_ready };

    fn write(&mut self, piece: &[u8]) -> Result<usize, Failed>
        ensures bound { WritesAtMost result piece.now }
        ensures some { TakesSome result piece.now }
        ensures bytes { WriteAppends None None result piece.now }
        ensures room { WriteSpares None None result (length piece.now) }
        ensures uses { Uses (λ _. 0) always_ready self.old self.new (IsErr result) (IsOk result) }
        ensures whole { result ≡ Ok (length piece.now) }
    {
        Ok(piece.len())
    }
}
