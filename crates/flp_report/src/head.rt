//! How a batch and a job file begin: letters, numbers and the circuit text.
ghost use Rattle.std.specs.Prelude.{◌≡◌, ◌+◌, ◌<◌, ◌≤◌, ◌≢◌, ◌++◌, ℕ, List, None, Some, length, Err, IfOk, IfErr, IsOk, OnOk, IfSome};
ghost use Rattle.std.specs.Io.KnownBytes.{Consumes};
ghost use Rattle.flp_io.specs.Reads.{ConsumesAtMost, ReadsFrom};
ghost use Rattle.flp_report.specs.Fault.{IfBatch, first_of};
ghost use Rattle.flp_report.specs.Head.{number_at, numbers_fault, start_fault, head_fault, head_takes, IsStart, IsNumbersFault, IsStartFault, IsHeadFault};
ghost use Rattle.flp_report.specs.Reads.{ConsumesWithin};

use crate::fault::{BatchFault, ReadFault};
use crate::read::{read_growing, read_whole};
use byteorder::{ByteOrder, LittleEndian};
use flp_io::Source;
use std::alloc::Global;

/// The number in the 4 bytes at this place.
pub(crate) fn number_at(bytes: &[u8], place: usize) -> u32
    requires { place + 4 ≤ length bytes.now }
    ensures { result ≡ number_at place bytes.now }
{
    LittleEndian::read_u32(&bytes[place..])
}

/// Whether the letters and numbers with which a file begins are those of a file of a version up to the newest.
fn check_numbers(
    head: &[u8],
    letters: &[u8],
    newest: u32,
    party: Option<u32>,
) -> Result<(), BatchFault>
    requires { 24 ≤ length head.now }
    ensures none { OnOk result (numbers_fault letters.now newest party head.now ≡ None) }
    ensures fault { IfErr result (λ fault. numbers_fault letters.now newest party head.now ≡ Some fault) }
    ensures kind { IfErr result (IsNumbersFault newest party) }
    ensures numbers { OnOk result (IsStart newest party head.now) }
{
    if !head.starts_with(letters) {
        return Err(BatchFault::Magic);
    }
    let version = number_at(head, 8);
    if version < 1 || newest < version {
        return Err(BatchFault::Version(version));
    }
    let shares = number_at(head, 12);
    if shares < 2 || 16 < shares {
        return Err(BatchFault::Shares(shares));
    }
    let proofs = number_at(head, 16);
    if proofs < 1 || 16 < proofs {
        return Err(BatchFault::Proofs(proofs));
    }
    if let Some(party) = party {
        if party >= shares {
            return Err(BatchFault::Party(shares));
        }
    }
    let length = number_at(head, 20);
    if 65536 < length {
        return Err(BatchFault::TextLength(length));
    }
    Ok(())
}

/// Reads the bytes with which a file begins into `head`, which is as long as they are.
pub(crate) fn read_start<S: Source>(
    source: &mut S,
    head: &mut [u8],
    letters: &[u8],
    newest: u32,
    party: Option<u32>,
) -> Result<(), ReadFault>
    requires ready { S.ready source.old }
    requires size { (24 ≤ length head.old) × (length head.old ≤ 32) }
    requires letters { length letters.now ≡ 8 }
    ensures bytes { OnOk result (Consumes (S.left source.old) (S.left source.new) head.new) }
    ensures none { OnOk result (numbers_fault letters.now newest party head.new ≡ None) }
    ensures numbers { OnOk result (IsStart newest party head.new) }
    ensures fault { IfErr result (λ fault. IfBatch fault (λ b. IfSome (S.left source.old)
        (λ bytes. start_fault letters.now (length head.old) newest party bytes ≡ Some b))) }
    ensures kind { IfErr result (λ fault. IfBatch fault (IsStartFault (length head.old) newest party)) }
    ensures no_memory { result ≢ Err ReadFault.Memory }
    ensures source { ReadsFrom S.left S.faults S.ready source.old source.new
        (ConsumesAtMost (length head.old)) (result ≡ Err ReadFault.Failed) (IsOk result) }
{
    let size = head.len() as u64;
    match read_whole(source, head, 0, size) {
        Ok(()) => {}
        Err(fault) => return Err(fault),
    }
    match check_numbers(head, letters, newest, party) {
        Ok(()) => Ok(()),
        Err(fault) => Err(ReadFault::Batch(fault)),
    }
}

/// Reads what stands in front of the text of a file of version 1 alone into `head`, which is as long as
/// that, and then the text.
pub(crate) fn read_head<S: Source>(
    alloc: Global,
    source: &mut S,
    head: &mut [u8],
    letters: &[u8],
    party: Option<u32>,
) -> Result<Vec<u8>, ReadFault>
    requires ready { S.ready source.old }
    requires size { (24 ≤ length head.old) × (length head.old ≤ 32) }
    requires letters { length letters.now ≡ 8 }
    ensures bytes { IfOk result (λ text. Consumes (S.left source.old) (S.left source.new) (head.new ++ text.items)) }
    ensures text { IfOk result (λ text. length text.items ≡ number_at 20 head.new) }
    ensures none { OnOk result (numbers_fault letters.now 1 party head.new ≡ None) }
    ensures numbers { OnOk result (IsStart 1 party head.new) }
    ensures fault { IfErr result (λ fault. IfBatch fault (λ b. IfSome (S.left source.old)
        (λ bytes. head_fault letters.now (length head.old) party bytes ≡ Some b))) }
    ensures kind { IfErr result (λ fault. IfBatch fault (IsHeadFault (length head.old) party)) }
    ensures source { ReadsFrom S.left S.faults S.ready source.old source.new
        (ConsumesWithin (head_takes letters.now (length head.old) party)) (result ≡ Err ReadFault.Failed) (IsOk result) }
{
    let start = head.len() as u64;
    match read_start(source, head, letters, 1, party) {
        Ok(()) => {}
        Err(fault) => return Err(fault),
    }
    let length = number_at(head, 20);
    match read_growing(
        alloc,
        source,
        length as usize,
        start,
        start + u64::from(length),
    ) {
        Ok(text) => Ok(text),
        Err(fault) => Err(fault),
    }
}
