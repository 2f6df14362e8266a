//! The words of the fault of a file.
ghost use Rattle.std.specs.Prelude.{◌≡◌, ◌+◌, ◌≤◌, ◌++◌, length};
ghost use Rattle.flp_lines.specs.Batch.{batch_text};

use crate::line::Line;
use flp_report::BatchFault;

/// Appends the words of a fault of a batch or a job file.
pub fn push_batch_fault(line: &mut Line, fault: BatchFault)
    requires { length line.old ≤ 14 }
    ensures text { line.new ≡ line.old ++ batch_text fault }
    ensures size { length line.new ≤ 80 }
{
    match fault {
        BatchFault::Magic => line.push(b"magic"),
        BatchFault::Version(version) => line.push_numbered(b"version ", u64::from(version)),
        BatchFault::Shares(shares) => line.push_numbered(b"shares ", u64::from(shares)),
        BatchFault::Proofs(proofs) => line.push_numbered(b"proofs ", u64::from(proofs)),
        BatchFault::TextLength(length) => line.push_numbered(b"text length ", u64::from(length)),
        BatchFault::ClaimsOrder(claim) => line.push_numbered(b"claims order ", u64::from(claim)),
        BatchFault::TooLarge(size) => line.push_numbered(b"too large ", size),
        BatchFault::Truncated(have, need) => line.push_paired(b"truncated ", have, need),
        BatchFault::Trailing => line.push(b"trailing"),
        BatchFault::Word(place, word) => {
            line.push_paired(b"word ", u64::from(place), u64::from(word))
        }
        BatchFault::Party(shares) => line.push_numbered(b"party ", u64::from(shares)),
        BatchFault::Buckets(buckets) => line.push_numbered(b"buckets ", u64::from(buckets)),
        BatchFault::Width(width) => line.push_numbered(b"width ", width),
        BatchFault::Bucket(place, bucket) => {
            line.push_paired(b"bucket ", u64::from(place), u64::from(bucket))
        }
    }
}
