//! How a batch begins: letters and numbers, the number of buckets in version 2, and the circuit text.
ghost use Rattle.std.specs.Prelude.{◌≡◌, ◌≢◌, ◌⊎◌, ◌-◌, ◌<◌, ◌≤◌, ℕ, List, length, Some, Err, IfOk, IfErr, IfSome, IsOk, OnErr};
ghost use Rattle.std.specs.Io.KnownBytes.{Consumes};
ghost use Rattle.flp_io.specs.Reads.{ConsumesAtMost, ReadsFrom};
ghost use Rattle.flp_report.specs.Fault.{IfBatch};
ghost use Rattle.flp_report.specs.Head.{number_at};
ghost use Rattle.flp_report.specs.Batch.{IsHead, IsInLimits, IsBucketsPart, batch_head_fault, batch_head_takes, head_size, buckets_fault, IsBucketsFault, IsBatchHeadFault};
ghost use Rattle.flp_report.specs.Reads.{ConsumesWithin};

use crate::fault::{BatchFault, ReadFault};
use crate::head::{number_at, read_start};
use crate::header::Header;
use crate::read::{read_growing, read_whole};
use flp_io::Source;
use flp_list::Bytes;
use std::alloc::Global;

/// The letters with which a batch begins.
pub(crate) const LETTERS: [u8; 8] = *b"FLPBATCH";

/// The bytes in front of the circuit text of a batch of this version.
pub(crate) fn head_size(version: u32) -> u64
    ensures size { result ≡ head_size version }
    ensures most { result ≤ 36 }
{
    if version == 2 { 36 } else { 32 }
}

/// The number of buckets in these 4 bytes, which is 1 to 256.
fn check_buckets(bytes: &[u8]) -> Result<u32, BatchFault>
    requires { 4 ≤ length bytes.now }
    ensures number { IfOk result (λ buckets. buckets ≡ number_at 0 bytes.now) }
    ensures least { IfOk result (λ buckets. 1 ≤ buckets) }
    ensures most { IfOk result (λ buckets. buckets ≤ 256) }
    ensures fault { IfErr result (λ fault. fault ≡ BatchFault.Buckets (number_at 0 bytes.now)) }
    ensures outside { OnErr result ((number_at 0 bytes.now < 1) ⊎ (256 < number_at 0 bytes.now)) }
{
    let buckets = number_at(bytes, 0);
    if buckets < 1 || 256 < buckets {
        return Err(BatchFault::Buckets(buckets));
    }
    Ok(buckets)
}

/// Reads the number of buckets, which in version 2 follows the first 32 bytes.
fn read_count<S: Source>(source: &mut S) -> Result<u32, ReadFault>
    requires { S.ready source.old }
    ensures bytes { IfOk result (λ buckets. (part : List ℕ) × IsBucketsPart 2 part buckets
        × Consumes (S.left source.old) (S.left source.new) part) }
    ensures fault { IfErr result (λ fault. IfBatch fault (λ b. IfSome (S.left source.old) (λ rest. buckets_fault 2 rest ≡ Some b))) }
    ensures kind { IfErr result (λ fault. IfBatch fault IsBucketsFault) }
    ensures no_memory { result ≢ Err ReadFault.Memory }
    ensures source { ReadsFrom S.left S.faults S.ready source.old source.new
        (ConsumesAtMost 4) (result ≡ Err ReadFault.Failed) (IsOk result) }
{
    let mut bytes = [0; 4];
    match read_whole(source, &mut bytes, 32, 36) {
        Ok(()) => {}
        Err(fault) => return Err(fault),
    }
    match check_buckets(&bytes) {
        Ok(buckets) => Ok(buckets),
        Err(fault) => Err(ReadFault::Batch(fault)),
    }
}

/// Reads the number of buckets of a batch of this version, behind the first 32 bytes. Version 1 has one,
/// and no bytes of it.
fn read_buckets<S: Source>(source: &mut S, version: u32) -> Result<u32, ReadFault>
    requires { S.ready source.old }
    ensures bytes { IfOk result (λ buckets. (part : List ℕ) × IsBucketsPart version part buckets
        × Consumes (S.left source.old) (S.left source.new) part) }
    ensures fault { IfErr result (λ fault. IfBatch fault (λ b. IfSome (S.left source.old) (λ rest. buckets_fault version rest ≡ Some b))) }
    ensures kind { IfErr result (λ fault. IfBatch fault IsBucketsFault) }
    ensures no_memory { result ≢ Err ReadFault.Memory }
    ensures source { ReadsFrom S.left S.faults S.ready source.old source.new
        (ConsumesAtMost (head_size version - 32)) (result ≡ Err ReadFault.Failed) (IsOk result) }
{
    if version == 2 {
        return read_count(source);
    }
    Ok(1)
}

/// Reads what stands in front of the old claims of a batch of a version up to the newest.
pub(crate) fn read_batch_head<S: Source>(
    alloc: Global,
    source: &mut S,
    newest: u32,
    party: Option<u32>,
) -> Result<Header, ReadFault>
    requires ready { S.ready source.old }
    requires newest { newest ≤ 2 }
    ensures bytes { IfOk result (λ header. (bytes : List ℕ) × IsHead newest party bytes header
        × Consumes (S.left source.old) (S.left source.new) bytes) }
    ensures limits { IfOk result (λ header. IsInLimits newest party header) }
    ensures fault { IfErr result (λ fault. IfBatch fault (λ b. IfSome (S.left source.old)
        (λ bytes. batch_head_fault newest party bytes ≡ Some b))) }
    ensures kind { IfErr result (λ fault. IfBatch fault (IsBatchHeadFault newest party)) }
    ensures source { ReadsFrom S.left S.faults S.ready source.old source.new
        (ConsumesWithin (batch_head_takes newest party)) (result ≡ Err ReadFault.Failed) (IsOk result) }
{
    let mut start = [0; 32];
    match read_start(source, &mut start, &LETTERS, newest, party) {
        Ok(()) => {}
        Err(fault) => return Err(fault),
    }
    let version = number_at(&start, 8);
    let shares = number_at(&start, 12);
    let proofs = number_at(&start, 16);
    let length = number_at(&start, 20);
    let claims = number_at(&start, 24);
    let reports = number_at(&start, 28);
    let buckets = match read_buckets(source, version) {
        Ok(buckets) => buckets,
        Err(fault) => return Err(fault),
    };
    let before = head_size(version);
    let end = before + u64::from(length);
    let text = match read_growing(alloc, source, length as usize, before, end) {
        Ok(text) => Bytes::from_vec(text),
        Err(fault) => return Err(fault),
    };
    Ok(Header {
        version,
        shares,
        proofs,
        text,
        claims,
        reports,
        buckets,
    })
}
