// Where bytes come from, and the loop over it.
ghost use Rattle.std.specs.Prelude.{ℕ, ◌<◌, List, Option, length, take, IfOk, IsErr, OnErr};
ghost use Rattle.std.specs.Io.{ReadsAtMost};
ghost use Rattle.std.specs.Io.KnownBytes.{Consumes, IsAtEnd, ReadConsumes};
ghost use Rattle.flp_io.specs.Faults.{Uses};
ghost use Rattle.flp_io.specs.Reads.{ConsumesLess, ConsumesPrefix, ReadsFrom, ReadsFull, ReadsOn};

use crate::Failed;

/// Gives bytes, one read after another.
///
/// Contracts know three things of a source: `left`, the bytes still to come, where it tells them;
/// `faults`, a count that never falls, and is taken as risen where it stands at `u64::MAX`; and
/// `ready`, that it may be read. A read gives that back only where it gave a byte, or had no room
/// for one. So what reads a source of any type never reads again after a failed read, behind the
/// end, or where nothing came.
pub trait Source {
    // The bytes still to come, where they are known.
    ghost left: { Self → Option (List ℕ) };

    // How often reading failed so far.
    ghost faults: { Self → ℕ };

    // Whether it may be read.
    ghost ready: { Self → Type 0 };

    /// Reads into the front of `buf` and answers how many bytes it read, at most `buf.len()`.
    ///
    /// `Ok(0)` for a buffer that is not empty is the end of the input. What the rest of the buffer
    /// holds afterwards is open. At [`Failed`] no byte is lost.
    fn read(&mut self, buf: &mut [u8]) -> Result<usize, Failed>
        requires ready { ready self.old }
        ensures bound { ReadsAtMost result buf.new }
        ensures bytes { ReadConsumes (left self.old) (left self.new) result buf.new }
        ensures uses { Uses faults ready self.old self.new (IsErr result) (ReadsOn result buf.new) };
}

/// Reads until `buf` is full or the input ends, and answers how many bytes it read.
///
/// Fewer than `buf.len()` says that the input has ended, and the source is not to be read again. At [`Failed`] the bytes that were read
/// before the fault are lost: they stand at the front of `buf`, and how many is not told, but that they
/// are fewer than `buf.len()`.
pub fn fill<S: Source>(source: &mut S, buf: &mut [u8]) -> Result<usize, Failed>
    requires ready { S.ready source.old }
    ensures bound { ReadsAtMost result buf.new }
    ensures bytes { IfOk result
        (λ n. Consumes (S.left source.old) (S.left source.new) (take n buf.new)) }
    ensures end { IfOk result (λ n. n < length buf.new → IsAtEnd (S.left source.new)) }
    ensures lost { OnErr result (ConsumesLess (length buf.new) (S.left source.old) (S.left source.new)) }
    ensures source { ReadsFrom S.left S.faults S.ready source.old source.new
        (ConsumesPrefix buf.new) (IsErr result) (ReadsFull result buf.new) }
{
    let mut filled = 0;
    while filled < buf.len() {
        let count = source.read(&mut buf[filled..])?;
        if count == 0 {
            return Ok(filled);
        }
        filled += count;
    }
    Ok(filled)
}
