//! Why a batch or a job file is not read to its end.
ghost use Rattle.std.specs.Prelude.{◌≡◌};
ghost use Rattle.flp_report.specs.declared.fault.ReadFault.TheVariants.{Memory as OutOfMemory};

use std::alloc::AllocError;

/// The first thing that is wrong with a file, in the one order of faults. Sizes are in bytes.
#[derive(Clone, Copy, Debug, PartialEq, Eq)]
pub enum BatchFault {
    /// The file begins with other letters.
    Magic,
    /// The version, which is outside those that are read.
    Version(u32),
    /// The number of shares, which is outside 2 to 16.
    Shares(u32),
    /// The number of proofs, which is outside 1 to 16.
    Proofs(u32),
    /// The length of the circuit text, which is above 65,536.
    TextLength(u32),
    /// The number of the first old claim that is not above the one before, where the first claim of
    /// all has the number 0.
    ClaimsOrder(u32),
    /// The size that is above its limit: of a record or a job, of the old claims, of a whole job file,
    /// or of the batch that would be written of the jobs.
    TooLarge(u64),
    /// The input ended after the first number of bytes, where the second was needed.
    Truncated(u64, u64),
    /// A byte follows the last record or job.
    Trailing,
    /// In a job file alone: the number of the job and the number of its first word that must be
    /// below the modulus and is not. Both are counted from 0, the words after the nonce.
    Word(u32, u32),
    /// Where a party is asked for alone: the number of shares, which is not above the party.
    Party(u32),
    /// In a batch of version 2 alone: the number of buckets, which is outside 1 to 256.
    Buckets(u32),
    /// The numbers that are summed, the outs of each bucket, which are above 65,536.
    Width(u64),
    /// In a batch of version 2 alone: the number of the first whole record, counted from 0, whose
    /// bucket is not below the number of buckets, and that bucket.
    Bucket(u32, u32),
}

/// Why a call of a reader gave nothing. After any of these the reader answers no further call.
#[derive(Clone, Copy, Debug, PartialEq, Eq)]
pub enum ReadFault {
    /// Want of memory.
    Memory,
    /// The source failed in this call, and its count of faults rose.
    Failed,
    /// The bytes are no file of the kind that is read.
    Batch(BatchFault),
}

impl From<AllocError> for ReadFault {
    ghost from_gives = { λ _ fault. fault ≡ OutOfMemory };

    fn from(_: AllocError) -> ReadFault {
        ReadFault::Memory
    }
}
