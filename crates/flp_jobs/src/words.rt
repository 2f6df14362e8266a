//! The words of the record of a job.
ghost use Rattle.std.specs.Prelude.{◌≡◌, ◌-◌, ◌*◌, ◌+◌, ◌<◌, ◌++◌, None, length};
ghost use Rattle.std.specs.List.{flat_map};
ghost use Rattle.flp_report.specs.Shape.{words_of};
ghost use Rattle.flp_report.specs.Job.{record_shape, job_part_of};
ghost use Rattle.flp_report.specs.JobParts.{job_of};
ghost use Rattle.flp_plan.specs.Sizes.{sizes_of};
ghost use Rattle.flp_jobs.specs.Encoding.{job_input, job_encoding, given_words, job_proofs};
ghost use Rattle.flp_jobs.specs.Place.{input_fault};
ghost use Rattle.flp_jobs.specs.Reading.{setting_of, IsWhole, IsJobOf};
ghost use Rattle.flp_jobs.specs.Record.{job_proof, unshared_words, own_words};

use crate::file::JobFile;
use crate::parts::{load_encoding, load_joint, load_seeds};
use flp_field::Fe;
use flp_prove::Prover;
use flp_report::{Job, load, load_numbers};

/// Writes the words of shares 1 and up to `given`, which has a place for each.
pub(crate) fn load_given(file: &JobFile, job: &Job, given: &mut [Fe])
    requires job { IsJobOf file.now job.now }
    requires given { length given.old ≡ (file.now.shape.shares - 1) * job_part_of file.now.shape }
    ensures { given.new ≡ given_words file.now.shape (job_of job.now) }
{
    load(job.parts(), given);
}

/// Writes the honest proofs of the encoding `x` of a job to `proofs`, one after another.
///
/// `joint` and `seeds` have a place for each joint word and each seed of a proof.
fn write_proofs(
    file: &JobFile,
    job: &Job,
    x: &[Fe],
    joint: &mut [Fe],
    seeds: &mut [Fe],
    prover: &mut Prover,
    proofs: &mut [Fe],
)
    requires whole { IsWhole file.now }
    requires job { IsJobOf file.now job.now }
    requires x { x.now ≡ job_encoding (setting_of file.now) (job_of job.now) }
    requires size { length x.now ≡ file.now.shape.meas }
    requires joint { length joint.old ≡ file.now.shape.joint }
    requires seeds { length seeds.old ≡ file.now.shape.prove }
    requires made { prover.old ≡ sizes_of file.now.loaded.plan }
    requires proofs { length proofs.old ≡ file.now.shape.proofs * file.now.shape.proof }
    ensures proofs { proofs.new ≡ flat_map (job_proof (setting_of file.now) (job_of job.now)) (job_proofs file.now.shape) }
    ensures again { prover.new ≡ prover.old }
{
    let size = file.shape.proof as usize;
    for proof in 0..file.shape.proofs {
        let start = proof as usize * size;
        load_joint(file, job, proof, joint);
        load_seeds(file, job, proof, seeds);
        prover.prove(
            &file.loaded.plan,
            x,
            joint,
            seeds,
            &mut proofs[start..start + size],
        );
    }
}

/// Writes what is shared of a job, whose measurement is not refused, to `unshared`: its encoding and then its proofs.
///
/// `input` has a place for each number of the input, `joint` and `seeds` for each joint word and each seed of a
/// proof.
pub(crate) fn write_unshared(
    file: &JobFile,
    job: &Job,
    input: &mut [u64],
    joint: &mut [Fe],
    seeds: &mut [Fe],
    prover: &mut Prover,
    unshared: &mut [Fe],
)
    requires whole { IsWhole file.now }
    requires job { IsJobOf file.now job.now }
    requires taken { input_fault file.now.loaded.params (job_input file.now.shape (job_of job.now)) ≡ None }
    requires input { length input.old ≡ file.now.shape.input }
    requires joint { length joint.old ≡ file.now.shape.joint }
    requires seeds { length seeds.old ≡ file.now.shape.prove }
    requires made { prover.old ≡ sizes_of file.now.loaded.plan }
    requires unshared { length unshared.old ≡ job_part_of file.now.shape }
    ensures words { unshared.new ≡ unshared_words (setting_of file.now) (job_of job.now) }
    ensures again { prover.new ≡ prover.old }
{
    let (x, proofs) = unshared.split_at_mut(file.shape.meas as usize);
    load_encoding(file, job, input, x);
    write_proofs(file, job, x, joint, seeds, prover, proofs);
}

/// Writes words as numbers.
pub fn write_numbers(words: &[Fe], numbers: &mut [u64])
    requires { length words.now ≡ length numbers.old }
    ensures { numbers.new ≡ words.now }
{
    for (k, number) in numbers.iter_mut().enumerate() {
        *number = words[k].value();
    }
}

/// Writes the joint words and then the query words of a proof to `own`, which has a place for each.
fn write_own(file: &JobFile, job: &Job, proof: u32, own: &mut [u64])
    requires job { IsJobOf file.now job.now }
    requires proof { proof < file.now.shape.proofs }
    requires own { length own.old ≡ file.now.shape.joint + file.now.shape.query }
    ensures { own.new ≡ own_words file.now.shape (job_of job.now) proof }
{
    let (joint, query) = own.split_at_mut(file.shape.joint as usize);
    load_numbers(job.joint(proof), joint);
    load_numbers(job.query(proof), query);
}

/// Writes the joint and query words of all proofs to `own`, one proof's after another's.
fn write_all_own(file: &JobFile, job: &Job, own: &mut [u64])
    requires job { IsJobOf file.now job.now }
    requires own { length own.old ≡ file.now.shape.proofs * (file.now.shape.joint + file.now.shape.query) }
    ensures { own.new ≡ flat_map (own_words file.now.shape (job_of job.now)) (job_proofs file.now.shape) }
{
    let size = file.shape.joint as usize + file.shape.query as usize;
    for proof in 0..file.shape.proofs {
        let start = proof as usize * size;
        write_own(file, job, proof, &mut own[start..start + size]);
    }
}

/// Writes the words of a record with these shares to `words`, which has a place for each.
pub(crate) fn write_words(file: &JobFile, job: &Job, shares: &[Fe], words: &mut [u64])
    requires job { IsJobOf file.now job.now }
    requires shares { length shares.now ≡ file.now.shape.shares * job_part_of file.now.shape }
    requires words { length words.old ≡ words_of (record_shape file.now.shape 0) }
    ensures { words.new ≡ shares.now ++ flat_map (own_words file.now.shape (job_of job.now)) (job_proofs file.now.shape) }
{
    let (shared, own) = words.split_at_mut(shares.len());
    write_numbers(shares, shared);
    write_all_own(file, job, own);
}
