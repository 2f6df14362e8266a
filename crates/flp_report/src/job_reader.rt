//! The reader of a job file, which borrows its source.
ghost use Rattle.std.specs.Prelude.{◌≡◌, ◌+◌, ◌*◌, ◌<◌, ◌≤◌, ◌≢◌, ◌⊎◌, length, [], List, ℕ, None, Some, Err, IfOk, IfErr, IsOk, OnOk, OnErr, IfSome};
ghost use Rattle.std.specs.Io.KnownBytes.{Consumes, IsAtEnd};
ghost use Rattle.flp_io.specs.Reads.{ConsumesAtMost, ReadsFrom};
ghost use Rattle.flp_report.specs.Fault.{IfBatch};
ghost use Rattle.flp_report.specs.Reads.{ConsumesWithin, EndedShort};

use crate::fault::{BatchFault, ReadFault};
use crate::head::{number_at, read_head};
use crate::header::JobHeader;
use crate::job::Jobs;
use crate::job_shape::JobShape;
use crate::read::{read_growing, see_end};
use crate::reader::Reader;
use crate::shape::{FILE_LIMIT, RECORD_LIMIT};
use flp_io::Source;
use flp_list::Bytes;
use std::alloc::Global;

/// The letters with which a job file begins.
const LETTERS: [u8; 8] = *b"FLPTASKS";

/// The bytes in front of the circuit text.
const HEAD_BYTES: u64 = 28;

/// By how much the head of a batch is longer than that of a job file.
const MORE_HEAD_BYTES: u64 = 4;

/// A reader of one job file, which borrows its source.
///
/// [`head`](JobReader::head) comes first; then [`shape`](JobReader::shape), with the lengths of the
/// plan of the head's text; then [`jobs`](JobReader::jobs); then [`end`](JobReader::end). After a
/// [`ReadFault`] no further call of the reader means anything. The reader takes from its source no
/// more bytes than the head's numbers give, and one more to see the end.
pub type JobReader<'a, S> = Reader<'a, S, JobShape>;

impl<'a, S: Source> Reader<'a, S, JobShape> {
    ghost use Rattle.flp_report.specs.Job.{IsJobHead, IsJobInLimits, job_letters, job_large_fault, job_bytes_of, word_fault};
    ghost use Rattle.flp_report.specs.Head.{head_fault, head_takes, IsHeadFault};
    ghost use Rattle.flp_report.specs.JobParts.{jobs_shape, jobs_count, jobs_bytes, jobs_in};
    ghost use Rattle.flp_report.specs.Reader.{source_of, loan_of, SameLoan, place_of, shares_given, proofs_given, SameNumbers, reports_left};
    ghost use Rattle.flp_report.specs.JobReader.{job_shape_given, IsJobShaped};

    /// A reader whose file begins at the source's next byte. It reads nothing yet.
    pub fn new(source: &'a mut S) -> JobReader<'a, S>
        ensures same { loan_of result ≡ source.entry.ghost_name }
        ensures source { source_of result ≡ source.old }
        ensures place { place_of result ≡ 0 }
    {
        Reader::at_start(source, JobShape::NONE)
    }

    /// Reads what stands in front of the jobs: the head of 28 bytes and, where these have no fault,
    /// the circuit text. The text's room grows as its bytes come.
    ///
    /// An error is the first fault of the file up to the end of its text; or else
    /// [`ReadFault::Failed`] or [`ReadFault::Memory`].
    pub fn head(&mut self, alloc: Global) -> Result<JobHeader, ReadFault>
        requires place { place_of self.old ≡ 0 }
        requires ready { S.ready (source_of self.old) }
        ensures same { SameLoan self.old self.new }
        ensures bytes { IfOk result (λ header. (bytes : List ℕ) × IsJobHead bytes header
            × Consumes (S.left (source_of self.old)) (S.left (source_of self.new)) bytes) }
        ensures limits { IfOk result (λ header. IsJobInLimits header) }
        ensures place { IfOk result (λ header. place_of self.new ≡ 28 + length header.text) }
        ensures numbers { IfOk result (λ header. (shares_given self.new ≡ header.shares) × (proofs_given self.new ≡ header.proofs)) }
        ensures left { IfOk result (λ header. reports_left self.new ≡ header.jobs) }
        ensures fault { IfErr result (λ fault. IfBatch fault (λ b. IfSome (S.left (source_of self.old))
            (λ bytes. head_fault job_letters 28 None bytes ≡ Some b))) }
        ensures kind { IfErr result (λ fault. IfBatch fault (IsHeadFault 28 None)) }
        ensures source { ReadsFrom S.left S.faults S.ready (source_of self.old) (source_of self.new)
            (ConsumesWithin (head_takes job_letters 28 None)) (result ≡ Err ReadFault.Failed) (IsOk result) }
    {
        let mut head = [0; 28];
        let text = match read_head(alloc, self.source, &mut head, &LETTERS, None) {
            Ok(text) => text,
            Err(fault) => return Err(fault),
        };
        self.place = HEAD_BYTES + text.len() as u64;
        self.shares = number_at(&head, 12);
        self.proofs = number_at(&head, 16);
        self.left = number_at(&head, 24);
        Ok(JobHeader {
            shares: self.shares,
            proofs: self.proofs,
            text: Bytes::from_vec(text),
            jobs: self.left,
        })
    }

    /// Sets the lengths of the parts of a job. It reads nothing and takes no memory.
    ///
    /// The error is [`BatchFault::TooLarge`] with the first size, in bytes, that is above its limit:
    /// that of a job, of the record that is made of it, of the whole file, and, where the shape says
    /// so, of the batch that would be written.
    pub fn shape(&mut self, shape: JobShape) -> Result<(), ReadFault>
        requires shares { shape.shares ≡ shares_given self.old }
        requires proofs { shape.proofs ≡ proofs_given self.old }
        requires place { place_of self.old ≤ 65568 }
        ensures same { SameLoan self.old self.new }
        ensures source { source_of self.new ≡ source_of self.old }
        ensures none { OnOk result (job_large_fault shape (place_of self.old) (reports_left self.old) ≡ None) }
        ensures fault { OnErr result ((b : BatchFault) × (result ≡ Err (ReadFault.Batch b))
            × (job_large_fault shape (place_of self.old) (reports_left self.old) ≡ Some b)) }
        ensures shape { OnOk result (job_shape_given self.new ≡ shape) }
        ensures shaped { OnOk result (IsJobShaped self.new) }
        ensures numbers { OnOk result (SameNumbers self.old self.new) }
        ensures left { OnOk result (reports_left self.new ≡ reports_left self.old) }
        ensures place { OnOk result (place_of self.new ≡ place_of self.old) }
    {
        let job = shape.bytes();
        if RECORD_LIMIT < job {
            return Err(ReadFault::Batch(BatchFault::TooLarge(job)));
        }
        let record = shape.record().bytes();
        if RECORD_LIMIT < record {
            return Err(ReadFault::Batch(BatchFault::TooLarge(record)));
        }
        let file = self.place + u64::from(self.left) * job;
        if FILE_LIMIT < file {
            return Err(ReadFault::Batch(BatchFault::TooLarge(file)));
        }
        let batch = self.place + MORE_HEAD_BYTES + u64::from(self.left) * record;
        if shape.written && FILE_LIMIT < batch {
            return Err(ReadFault::Batch(BatchFault::TooLarge(batch)));
        }
        self.parts = shape;
        Ok(())
    }

    /// Reads all jobs. Their room grows as their bytes come.
    ///
    /// An error is [`BatchFault::Truncated`] with the bytes of the file that came and those of the
    /// whole file; or else [`ReadFault::Failed`] or [`ReadFault::Memory`].
    pub fn jobs(&mut self, alloc: Global) -> Result<Jobs, ReadFault>
        requires shaped { IsJobShaped self.old }
        requires ready { S.ready (source_of self.old) }
        ensures same { SameLoan self.old self.new }
        ensures bytes { IfOk result (λ jobs. Consumes (S.left (source_of self.old)) (S.left (source_of self.new)) (jobs_bytes jobs)) }
        ensures count { IfOk result (λ jobs. jobs_count jobs ≡ reports_left self.old) }
        ensures shape { IfOk result (λ jobs. (jobs_shape jobs ≡ job_shape_given self.old) × (job_shape_given self.new ≡ job_shape_given self.old)) }
        ensures numbers { OnOk result (SameNumbers self.old self.new) }
        ensures left { OnOk result (reports_left self.new ≡ 0) }
        ensures place { OnOk result (place_of self.new ≡ place_of self.old + reports_left self.old * job_bytes_of (job_shape_given self.old)) }
        ensures fault { IfErr result (λ fault. IfBatch fault
            (EndedShort (S.left (source_of self.old)) (place_of self.old) (reports_left self.old * job_bytes_of (job_shape_given self.old))
            (place_of self.old + reports_left self.old * job_bytes_of (job_shape_given self.old)))) }
        ensures source { ReadsFrom S.left S.faults S.ready (source_of self.old) (source_of self.new)
            (ConsumesAtMost (reports_left self.old * job_bytes_of (job_shape_given self.old))) (result ≡ Err ReadFault.Failed) (IsOk result) }
    {
        let wanted = u64::from(self.left) * self.parts.bytes();
        let end = self.place + wanted;
        let bytes = match read_growing(alloc, self.source, wanted as usize, self.place, end) {
            Ok(bytes) => bytes,
            Err(fault) => return Err(fault),
        };
        let jobs = Jobs::from_vec(self.parts, self.left, bytes);
        self.place = end;
        self.left = 0;
        Ok(jobs)
    }

    /// Sees that the input ends behind the last job, when no job is left, and that the words of these
    /// jobs are below the modulus, those of the input only where the shape has `checked`. It takes no
    /// memory.
    ///
    /// An error is [`BatchFault::Trailing`] where a byte follows, then [`BatchFault::Word`]; or else
    /// [`ReadFault::Failed`].
    pub fn end(&mut self, jobs: &Jobs) -> Result<(), ReadFault>
        requires none { reports_left self.old ≡ 0 }
        requires ready { S.ready (source_of self.old) }
        ensures same { SameLoan self.old self.new }
        ensures ended { OnOk result (IsAtEnd (S.left (source_of self.new))) }
        ensures none_read { OnOk result (Consumes (S.left (source_of self.old)) (S.left (source_of self.new)) []) }
        ensures numbers { OnOk result (SameNumbers self.old self.new) }
        ensures left { OnOk result (reports_left self.new ≡ 0) }
        ensures place { OnOk result (place_of self.new ≡ place_of self.old) }
        ensures words { OnOk result (word_fault (jobs_shape jobs.now) 0 (jobs_in jobs.now) ≡ None) }
        ensures fault { OnErr result ((result ≡ Err ReadFault.Failed)
            ⊎ ((result ≡ Err (ReadFault.Batch BatchFault.Trailing)) × IfSome (S.left (source_of self.old)) (λ left. left ≢ []))
            ⊎ ((b : BatchFault) × (result ≡ Err (ReadFault.Batch b)) × IsAtEnd (S.left (source_of self.old))
            × (word_fault (jobs_shape jobs.now) 0 (jobs_in jobs.now) ≡ Some b))) }
        ensures source { ReadsFrom S.left S.faults S.ready (source_of self.old) (source_of self.new)
            (ConsumesAtMost 1) (result ≡ Err ReadFault.Failed) ⊥ }
    {
        match see_end(self.source) {
            Ok(()) => {}
            Err(fault) => return Err(fault),
        }
        match jobs.bad_word() {
            Some((place, word)) => Err(ReadFault::Batch(BatchFault::Word(place, word))),
            None => Ok(()),
        }
    }
}
