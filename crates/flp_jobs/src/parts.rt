//! What a job says, brought into the field: its encoding, and the words of each of its proofs.
ghost use Rattle.std.specs.Prelude.{◌≡◌, ◌<◌, None, length, OnOk};
ghost use Rattle.std.specs.Result.{result_err};
ghost use Rattle.flp_report.specs.JobParts.{job_of};
ghost use Rattle.flp_jobs.specs.Encoding.{job_input, job_seeds, job_joint, job_query, job_encoding};
ghost use Rattle.flp_jobs.specs.Place.{input_fault};
ghost use Rattle.flp_jobs.specs.Reading.{setting_of, IsWhole, IsJobOf};

use crate::file::JobFile;
use flp_circuits::{MeasFault, encode};
use flp_field::Fe;
use flp_report::{Job, load, load_numbers};

/// Writes the encoding of a job to `x`, which has a place for each of its words, or tells why its measurement is
/// refused.
///
/// `input` has a place for each number of the job's input.
pub(crate) fn write_encoding(
    file: &JobFile,
    job: &Job,
    input: &mut [u64],
    x: &mut [Fe],
) -> Result<(), MeasFault>
    requires whole { IsWhole file.now }
    requires job { IsJobOf file.now job.now }
    requires input { length input.old ≡ file.now.shape.input }
    requires x { length x.old ≡ file.now.shape.meas }
    ensures encoding { OnOk result (x.new ≡ job_encoding (setting_of file.now) (job_of job.now)) }
    ensures fault { result_err result ≡ input_fault file.now.loaded.params (job_input file.now.shape (job_of job.now)) }
{
    match &file.loaded.params {
        Some(params) => {
            load_numbers(job.input(), input);
            encode(params, input, x)
        }
        None => {
            load(job.input(), x);
            Ok(())
        }
    }
}

/// Writes the encoding of a job whose measurement is not refused to `x`, which has a place for each of its words.
///
/// `input` has a place for each number of the job's input.
pub fn load_encoding(file: &JobFile, job: &Job, input: &mut [u64], x: &mut [Fe])
    requires whole { IsWhole file.now }
    requires job { IsJobOf file.now job.now }
    requires taken { input_fault file.now.loaded.params (job_input file.now.shape (job_of job.now)) ≡ None }
    requires input { length input.old ≡ file.now.shape.input }
    requires x { length x.old ≡ file.now.shape.meas }
    ensures { x.new ≡ job_encoding (setting_of file.now) (job_of job.now) }
{
    match write_encoding(file, job, input, x) {
        Ok(()) => {}
        Err(_) => unreachable!(),
    }
}

/// Writes the seeds of a proof to `seeds`, which has a place for each.
pub fn load_seeds(file: &JobFile, job: &Job, proof: u32, seeds: &mut [Fe])
    requires job { IsJobOf file.now job.now }
    requires proof { proof < file.now.shape.proofs }
    requires seeds { length seeds.old ≡ file.now.shape.prove }
    ensures { seeds.new ≡ job_seeds file.now.shape (job_of job.now) proof }
{
    load(job.seeds(proof), seeds);
}

/// Writes the joint words of a proof to `joint`, which has a place for each.
pub fn load_joint(file: &JobFile, job: &Job, proof: u32, joint: &mut [Fe])
    requires job { IsJobOf file.now job.now }
    requires proof { proof < file.now.shape.proofs }
    requires joint { length joint.old ≡ file.now.shape.joint }
    ensures { joint.new ≡ job_joint file.now.shape (job_of job.now) proof }
{
    load(job.joint(proof), joint);
}

/// Writes the query words of a proof to `query`, which has a place for each.
pub fn load_query(file: &JobFile, job: &Job, proof: u32, query: &mut [Fe])
    requires job { IsJobOf file.now job.now }
    requires proof { proof < file.now.shape.proofs }
    requires query { length query.old ≡ file.now.shape.query }
    ensures { query.new ≡ job_query file.now.shape (job_of job.now) proof }
{
    load(job.query(proof), query);
}
