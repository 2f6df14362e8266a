//! Reading whole parts of a file, into a buffer and into room that grows as bytes come, and seeing its end.
ghost use Rattle.std.specs.Prelude.{◌≡◌, ◌≢◌, ◌⊎◌, ◌+◌, ◌<◌, ◌≤◌, ◌^◌, ◌++◌, ℕ, [], List, length, vec_len, Err, IfOk, IfErr, IsOk, OnOk, OnErr, IfSome};
ghost use Rattle.std.specs.Io.KnownBytes.{Consumes, IsAtEnd};
ghost use Rattle.flp_io.specs.Reads.{ConsumesAtMost, ReadsFrom};
ghost use Rattle.flp_report.specs.Fault.{IfBatch};
ghost use Rattle.flp_report.specs.Reads.{EndedShort};

use crate::fault::{BatchFault, ReadFault};
use flp_io::{Source, fill};
use std::alloc::Global;

/// How many bytes are asked for at first where the room grows. Later on as many are asked for as came before.
const FIRST: usize = 65536;

/// Fills the buffer, whose first byte has `before` bytes of the file in front of it, out of `need`.
pub(crate) fn read_whole<S: Source>(
    source: &mut S,
    buf: &mut [u8],
    before: u64,
    need: u64,
) -> Result<(), ReadFault>
    requires ready { S.ready source.old }
    requires fits { before + length buf.old < 2 ^ 63 }
    ensures bytes { OnOk result (Consumes (S.left source.old) (S.left source.new) buf.new) }
    ensures fault { IfErr result (λ fault. IfBatch fault (λ b. EndedShort (S.left source.old) before (length buf.old) need b)) }
    ensures no_memory { result ≢ Err ReadFault.Memory }
    ensures source { ReadsFrom S.left S.faults S.ready source.old source.new
        (ConsumesAtMost (length buf.old)) (result ≡ Err ReadFault.Failed) (IsOk result) }
{
    let count = match fill(source, buf) {
        Ok(count) => count,
        Err(_) => return Err(ReadFault::Failed),
    };
    if count < buf.len() {
        let have = before + count as u64;
        return Err(ReadFault::Batch(BatchFault::Truncated(have, need)));
    }
    Ok(())
}

/// Reads the next `size` bytes to the end of `bytes`, straight into its room.
fn read_more<S: Source>(
    source: &mut S,
    bytes: &mut Vec<u8>,
    size: usize,
    before: u64,
    need: u64,
) -> Result<(), ReadFault>
    requires ready { S.ready source.old }
    requires room { vec_len bytes.old + size < 2 ^ 63 }
    requires fits { before + size < 2 ^ 63 }
    ensures bytes { OnOk result ((piece : List ℕ) × (bytes.new.items ≡ bytes.old.items ++ piece) × (length piece ≡ size)
        × Consumes (S.left source.old) (S.left source.new) piece) }
    ensures fault { IfErr result (λ fault. IfBatch fault (λ b. EndedShort (S.left source.old) before size need b)) }
    ensures source { ReadsFrom S.left S.faults S.ready source.old source.new
        (ConsumesAtMost size) (result ≡ Err ReadFault.Failed) (IsOk result) }
{
    let start = bytes.len();
    match bytes.resize(start + size, 0) {
        Ok(()) => {}
        Err(_) => return Err(ReadFault::Memory),
    }
    let room = bytes.as_mut_slice();
    read_whole(source, &mut room[start..], before, need)
}

/// Reads the next `wanted` bytes, in front of which the file has `before`, into room that grows as
/// they come: at most by as many as came, and at first by 65,536. The input must go on to the place
/// `need`.
pub(crate) fn read_growing<S: Source>(
    alloc: Global,
    source: &mut S,
    wanted: usize,
    before: u64,
    need: u64,
) -> Result<Vec<u8>, ReadFault>
    requires ready { S.ready source.old }
    requires fits { before + wanted < 2 ^ 63 }
    ensures bytes { IfOk result (λ v. Consumes (S.left source.old) (S.left source.new) v.items) }
    ensures size { IfOk result (λ v. length v.items ≡ wanted) }
    ensures fault { IfErr result (λ fault. IfBatch fault (λ b. EndedShort (S.left source.old) before wanted need b)) }
    ensures source { ReadsFrom S.left S.faults S.ready source.old source.new
        (ConsumesAtMost wanted) (result ≡ Err ReadFault.Failed) (IsOk result) }
{
    let mut bytes = Vec::new(alloc);
    let mut done = 0;
    while done < wanted {
        let size = FIRST.max(done).min(wanted - done);
        match read_more(source, &mut bytes, size, before + done as u64, need) {
            Ok(()) => {}
            Err(fault) => return Err(fault),
        }
        done += size;
    }
    Ok(bytes)
}

/// Sees that the input ends here. It takes no memory.
pub(crate) fn see_end<S: Source>(source: &mut S) -> Result<(), ReadFault>
    requires { S.ready source.old }
    ensures ended { OnOk result (IsAtEnd (S.left source.new)) }
    ensures none_read { OnOk result (Consumes (S.left source.old) (S.left source.new) []) }
    ensures fault { OnErr result ((result ≡ Err ReadFault.Failed)
        ⊎ ((result ≡ Err (ReadFault.Batch BatchFault.Trailing)) × IfSome (S.left source.old) (λ left. left ≢ []))) }
    ensures source { ReadsFrom S.left S.faults S.ready source.old source.new
        (ConsumesAtMost 1) (result ≡ Err ReadFault.Failed) ⊥ }
{
    let mut byte = [0; 1];
    match fill(source, &mut byte) {
        Ok(0) => Ok(()),
        Ok(_) => Err(ReadFault::Batch(BatchFault::Trailing)),
        Err(_) => Err(ReadFault::Failed),
    }
}
