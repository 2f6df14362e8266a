//! Reading records, whose buckets must be among those of the batch.
ghost use Rattle.std.specs.Prelude.{◌≡◌, ◌≢◌, ◌+◌, ◌*◌, ◌<◌, ◌≤◌, ◌^◌, length, take, None, Some, Err, IfErr, IfSome, IsOk, OnOk};
ghost use Rattle.std.specs.Io.KnownBytes.{Consumes};
ghost use Rattle.flp_io.specs.Reads.{ConsumesAtMost, ConsumesLess, ReadsFrom};
ghost use Rattle.flp_report.specs.Shape.{bytes_of};
ghost use Rattle.flp_report.specs.Fault.{IfBatch};
ghost use Rattle.flp_report.specs.Pieces.{pieces};
ghost use Rattle.flp_report.specs.Buckets.{bucket_fault, segment_fault, IsSegmentFault};

use crate::fault::{BatchFault, ReadFault};
use crate::record::Record;
use crate::shape::{RECORD_LIMIT, Shape};
use flp_io::{Source, fill};

/// The first of `count` records in these bytes whose bucket is not below the number of buckets, as a
/// fault. The first record of all has the number `first`.
fn bad_bucket(shape: &Shape, bytes: &[u8], count: u32, first: u32) -> Option<BatchFault>
    requires small { bytes_of shape.now ≤ RECORD_LIMIT }
    requires whole { count * bytes_of shape.now ≤ length bytes.now }
    requires numbers { first + count ≤ 2 ^ 32 }
    ensures { result ≡ bucket_fault shape.now first (pieces (bytes_of shape.now) count bytes.now) }
{
    let size = shape.bytes() as usize;
    for index in 0..count {
        let start = size * index as usize;
        let bucket = Record::new(*shape, &bytes[start..start + size]).bucket();
        if bucket >= shape.buckets {
            return Some(BatchFault::Bucket(first + index, bucket));
        }
    }
    None
}

/// Reads `count` records of this shape into the front of the room. The first of them has the number
/// `first` in its file and `before` bytes in front of it, of which the file has `need`. It takes no
/// memory.
///
/// An error is [`BatchFault::Bucket`] with the first whole record whose bucket is not below the number
/// of buckets, or else [`BatchFault::Truncated`]; or [`ReadFault::Failed`].
pub(crate) fn read_records<S: Source>(
    source: &mut S,
    room: &mut [u8],
    shape: &Shape,
    count: u32,
    first: u32,
    before: u64,
    need: u64,
) -> Result<(), ReadFault>
    requires ready { S.ready source.old }
    requires small { bytes_of shape.now ≤ RECORD_LIMIT }
    requires room { count * bytes_of shape.now ≤ length room.old }
    requires numbers { first + count ≤ 2 ^ 32 }
    requires fits { before + count * bytes_of shape.now < 2 ^ 63 }
    ensures bytes { OnOk result (Consumes (S.left source.old) (S.left source.new) (take (count * bytes_of shape.now) room.new)) }
    ensures buckets { OnOk result (bucket_fault shape.now first (pieces (bytes_of shape.now) count room.new) ≡ None) }
    ensures fault { IfErr result (λ fault. IfBatch fault (λ b. IfSome (S.left source.old)
        (λ rest. segment_fault shape.now first before count need rest ≡ Some b))) }
    ensures kind { IfErr result (λ fault. IfBatch fault (IsSegmentFault shape.now first before count need)) }
    ensures no_memory { result ≢ Err ReadFault.Memory }
    ensures lost { result ≡ Err ReadFault.Failed → ConsumesLess (count * bytes_of shape.now) (S.left source.old) (S.left source.new) }
    ensures source { ReadsFrom S.left S.faults S.ready source.old source.new
        (ConsumesAtMost (count * bytes_of shape.now)) (result ≡ Err ReadFault.Failed) (IsOk result) }
{
    let size = shape.bytes() as usize;
    let wanted = count as usize * size;
    let came = match fill(source, &mut room[..wanted]) {
        Ok(came) => came,
        Err(_) => return Err(ReadFault::Failed),
    };
    let whole = (came / size) as u32;
    match bad_bucket(shape, room, whole, first) {
        Some(fault) => return Err(ReadFault::Batch(fault)),
        None => {}
    }
    if came < wanted {
        let have = before + came as u64;
        return Err(ReadFault::Batch(BatchFault::Truncated(have, need)));
    }
    Ok(())
}
