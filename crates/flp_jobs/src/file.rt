//! Reading a job file whole.
ghost use Rattle.std.specs.Prelude.{◌≡◌, ◌≢◌, ◌+◌, ◌*◌, ◌≤◌, None, Err, length, IfOk, IfErr, IfSome, IsOk, OnOk};
ghost use Rattle.std.specs.Io.KnownBytes.{Consumes, IsAtEnd};
ghost use Rattle.flp_io.specs.Reads.{ConsumesAtMost, ReadsFrom};
ghost use Rattle.flp_report.specs.Fault.{IfBatch};
ghost use Rattle.flp_report.specs.Job.{made_header, job_large_fault, job_bytes_of, word_fault};
ghost use Rattle.flp_report.specs.JobParts.{jobs_shape, jobs_count, jobs_bytes, jobs_in};
ghost use Rattle.flp_report.specs.Reads.{ConsumesWithin};
ghost use Rattle.flp_report.specs.Reader.{source_of, SameLoan, place_of, shares_given, proofs_given, reports_left};
ghost use Rattle.flp_batch.specs.Fault.{IfFile};
ghost use Rattle.flp_batch.specs.JobSetting.{input_count, IsJobShapeBehind};
ghost use Rattle.flp_batch.specs.Format.{job_files, front_size};
ghost use Rattle.flp_batch.specs.File.{IsFault, TakesFew};
ghost use Rattle.flp_jobs.specs.Setting.{IsCircuitOf};
ghost use Rattle.flp_jobs.specs.Reading.{OpensJobs, IsAtJobs, Reads, IsWhole, IsRefusedBehind};

use crate::rules::Joints;
use flp_batch::EngineFault;
use flp_circuits::input_len;
use flp_io::Source;
use flp_load::{Loaded, load_circuit};
use flp_report::{Header, Job, JobHeader, JobReader, JobShape, Jobs, ReadFault};
use std::alloc::Global;

/// What stands in front of the jobs, with the circuit of its text and the shape that this gives to a job.
#[derive(Drop)]
pub(crate) struct JobFront {
    pub(crate) header: JobHeader,
    pub(crate) loaded: Loaded,
    pub(crate) shape: JobShape,
}

/// A job file that was read: the circuit of its text, the shape that this gives to a job, its jobs, and the head of
/// the batch that is made of it.
#[derive(Drop)]
pub struct JobFile {
    pub header: Header,
    pub loaded: Loaded,
    pub shape: JobShape,
    pub jobs: Jobs,
}

impl JobFile {
    ghost use Rattle.std.specs.Prelude.{◌≡◌, ◌<◌, ℕ, List, Some, slice_get};
    ghost use Rattle.flp_report.specs.JobParts.{jobs_in, job_of};
    ghost use Rattle.flp_jobs.specs.Place as place;
    ghost use Rattle.flp_jobs.specs.Reading.{IsWhole, IsJobOf};

    /// The job of a place, from 0. Its bytes are lent.
    pub fn job(&self, place: u32) -> Job<'_>
        requires whole { IsWhole self.now }
        requires place { place < self.now.header.reports }
        ensures numbered { slice_get (jobs_in self.now.jobs) place ≡ Some (job_of result) }
        ensures of_file { IsJobOf self.now result }
    {
        self.jobs.job_at(place)
    }

    /// The job under whose joint words the job of a place is judged.
    pub(crate) fn judged_under(&self, joints: Joints, number: u32) -> Job<'_>
        requires whole { IsWhole self.now }
        requires number { number < self.now.header.reports }
        ensures under { (job : List ℕ) → slice_get (jobs_in self.now.jobs) number ≡ Some job
            → job_of result ≡ place.judged_under joints (place.first_job (jobs_in self.now.jobs)) job }
        ensures of_file { IsJobOf self.now result }
    {
        match joints {
            Joints::Own => self.job(number),
            Joints::First => self.job(0),
        }
    }
}

/// How many numbers the input of a job has.
fn input_size(loaded: &Loaded) -> u32
    requires { IsCircuitOf loaded.now.params loaded.now.plan.circuit }
    ensures { result ≡ input_count loaded.now.params loaded.now.plan.circuit }
{
    match &loaded.params {
        Some(params) => input_len(params) as u32,
        None => loaded.plan.lengths().meas,
    }
}

/// The shape of the jobs behind this header, whose text was loaded as this circuit, and whose batch is written or not.
fn shape_of(header: &JobHeader, loaded: &Loaded, written: bool) -> JobShape
    requires shares { header.now.shares ≤ 16 }
    requires proofs { header.now.proofs ≤ 16 }
    requires params { IsCircuitOf loaded.now.params loaded.now.plan.circuit }
    ensures { IsJobShapeBehind written header.now loaded.now.params loaded.now.plan.circuit result }
{
    let lengths = loaded.plan.lengths();
    JobShape {
        shares: header.shares,
        proofs: header.proofs,
        input: input_size(loaded),
        meas: lengths.meas,
        joint: lengths.joint,
        prove: lengths.prove,
        query: lengths.query,
        proof: lengths.proof,
        checked: loaded.params.is_none(),
        written,
    }
}

/// The head of the batch that is made of a job file with this head.
fn header_made(header: JobHeader) -> Header
    ensures { result ≡ made_header header }
{
    Header {
        version: 1,
        shares: header.shares,
        proofs: header.proofs,
        text: header.text,
        claims: 0,
        reports: header.jobs,
        buckets: 1,
    }
}

/// Reads what stands in front of the jobs: the head, whose text is loaded as a circuit.
///
/// An error is the first fault of the file up to there; or else [`EngineFault::Read`] or [`EngineFault::Memory`].
fn open<S: Source>(
    alloc: Global,
    reader: &mut JobReader<'_, S>,
    written: bool,
) -> Result<JobFront, EngineFault>
    requires place { place_of reader.old ≡ 0 }
    requires readable { S.ready (source_of reader.old) }
    ensures same { SameLoan reader.old reader.new }
    ensures opens { IfOk result (OpensJobs written (S.left (source_of reader.old)) (S.left (source_of reader.new))) }
    ensures at { IfOk result (IsAtJobs reader.new) }
    ensures fault { IfErr result (λ fault. IfFile fault (λ f. IfSome (S.left (source_of reader.old)) (λ bytes. IsFault (job_files written) bytes f))) }
    ensures no_write { result ≢ Err EngineFault.Write }
    ensures source { ReadsFrom S.left S.faults S.ready (source_of reader.old) (source_of reader.new)
        (ConsumesWithin (front_size (job_files written))) (result ≡ Err EngineFault.Read) (IsOk result) }
{
    let header = match reader.head(alloc) {
        Ok(header) => header,
        Err(fault) => return Err(EngineFault::from(fault)),
    };
    let loaded = match load_circuit(alloc, header.text.as_slice()) {
        Ok(loaded) => loaded,
        Err(fault) => return Err(EngineFault::from(fault)),
    };
    let shape = shape_of(&header, &loaded, written);
    Ok(JobFront {
        header,
        loaded,
        shape,
    })
}

/// Reads the jobs behind a head and sees that the input ends behind them.
fn read_jobs<S: Source>(
    alloc: Global,
    reader: &mut JobReader<'_, S>,
    shape: JobShape,
) -> Result<Jobs, ReadFault>
    requires shares { shape.shares ≡ shares_given reader.old }
    requires proofs { shape.proofs ≡ proofs_given reader.old }
    requires place { place_of reader.old ≤ 65564 }
    requires readable { S.ready (source_of reader.old) }
    ensures same { SameLoan reader.old reader.new }
    ensures fits { OnOk result (job_large_fault shape (place_of reader.old) (reports_left reader.old) ≡ None) }
    ensures bytes { IfOk result (λ jobs. Consumes (S.left (source_of reader.old)) (S.left (source_of reader.new)) (jobs_bytes jobs)) }
    ensures ended { OnOk result (IsAtEnd (S.left (source_of reader.new))) }
    ensures shape { IfOk result (λ jobs. jobs_shape jobs ≡ shape) }
    ensures count { IfOk result (λ jobs. jobs_count jobs ≡ reports_left reader.old) }
    ensures words { IfOk result (λ jobs. word_fault shape 0 (jobs_in jobs) ≡ None) }
    ensures fault { IfErr result (λ fault. IfBatch fault (IsRefusedBehind shape (place_of reader.old) (reports_left reader.old) (S.left (source_of reader.old)))) }
    ensures source { ReadsFrom S.left S.faults S.ready (source_of reader.old) (source_of reader.new)
        (ConsumesAtMost (reports_left reader.old * job_bytes_of shape + 1)) (result ≡ Err ReadFault.Failed) ⊥ }
{
    match reader.shape(shape) {
        Ok(()) => {}
        Err(fault) => return Err(fault),
    }
    let jobs = match reader.jobs(alloc) {
        Ok(jobs) => jobs,
        Err(fault) => return Err(fault),
    };
    match reader.end(&jobs) {
        Ok(()) => Ok(jobs),
        Err(fault) => Err(fault),
    }
}

/// Reads a job file whole, whose batch is written or not, and loads its text as a circuit.
///
/// An error is the first fault of the file, where that of the circuit comes behind those of the head and in front of
/// [`flp_report::BatchFault::TooLarge`]; or else [`EngineFault::Read`] or [`EngineFault::Memory`].
pub(crate) fn read_file<S: Source>(
    alloc: Global,
    reader: &mut JobReader<'_, S>,
    written: bool,
) -> Result<JobFile, EngineFault>
    requires place { place_of reader.old ≡ 0 }
    requires readable { S.ready (source_of reader.old) }
    ensures same { SameLoan reader.old reader.new }
    ensures reads { IfOk result (Reads written (S.left (source_of reader.old)) (S.left (source_of reader.new))) }
    ensures whole { IfOk result IsWhole }
    ensures fault { IfErr result (λ fault. IfFile fault (λ f. IfSome (S.left (source_of reader.old)) (λ bytes. IsFault (job_files written) bytes f))) }
    ensures no_write { result ≢ Err EngineFault.Write }
    ensures source { ReadsFrom S.left S.faults S.ready (source_of reader.old) (source_of reader.new)
        (TakesFew (job_files written)) (result ≡ Err EngineFault.Read) ⊥ }
{
    let front = match open(alloc, reader, written) {
        Ok(front) => front,
        Err(fault) => return Err(fault),
    };
    match read_jobs(alloc, reader, front.shape) {
        Ok(jobs) => Ok(JobFile {
            header: header_made(front.header),
            loaded: front.loaded,
            shape: front.shape,
            jobs,
        }),
        Err(fault) => Err(EngineFault::from(fault)),
    }
}
