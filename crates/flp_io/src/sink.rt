// Where bytes go, and the loop over it.
ghost use Rattle.std.specs.Prelude.{ℕ, List, Option, length, IsErr, IsOk};
ghost use Rattle.std.specs.Io.{WritesAtMost};
ghost use Rattle.std.specs.Io.KnownBytes.{WriteAppends};
ghost use Rattle.flp_io.specs.Faults.{Uses};
ghost use Rattle.flp_io.specs.Writes.{TakesSome, WriteSpares, WritesTo};

use crate::Failed;

/// Takes bytes, one write after another.
///
/// Contracts know four things of a sink: `taken`, the bytes that it took so far, where it tells
/// them; `faults`, a count that never falls, and is taken as risen where it stands at `u64::MAX`;
/// `spare`, a number of bytes that it takes without a fault, where it tells one; and `ready`, that
/// it may be written to. A write gives that back only where it did not fail, so what writes to a
/// sink of any type never writes again after a failed write.
pub trait Sink {
    // The bytes taken so far, where they are known.
    ghost taken: { Self → Option (List ℕ) };

    // How often writing failed so far.
    ghost faults: { Self → ℕ };

    // How many bytes more are taken without a fault, where that is known.
    ghost spare: { Self → Option ℕ };

    // Whether it may be written to.
    ghost ready: { Self → Type 0 };

    /// Takes bytes from the front of `piece` and answers how many, at least 1 where there is one.
    ///
    /// At [`Failed`] no byte is taken. A piece of at most `spare` bytes does not fail.
    fn write(&mut self, piece: &[u8]) -> Result<usize, Failed>
        requires ready { ready self.old }
        ensures bound { WritesAtMost result piece.now }
        ensures some { TakesSome result piece.now }
        ensures bytes { WriteAppends (taken self.old) (taken self.new) result piece.now }
        ensures room { WriteSpares (spare self.old) (spare self.new) result (length piece.now) }
        ensures uses { Uses faults ready self.old self.new (IsErr result) (IsOk result) };
}

/// Writes the whole piece.
///
/// At [`Failed`] the sink took some prefix of the piece, and how long it is is not told.
pub fn put<K: Sink>(sink: &mut K, piece: &[u8]) -> Result<(), Failed>
    requires ready { K.ready sink.old }
    ensures sink { WritesTo K.taken K.faults K.spare K.ready sink.old sink.new piece.now result }
{
    let mut rest = piece;
    while !rest.is_empty() {
        let count = sink.write(rest)?;
        rest = &rest[count..];
    }
    Ok(())
}
