//! What makes records, one after another.
ghost use Rattle.std.specs.Prelude.{◌≡◌, None, length, IfOk};
ghost use Rattle.flp_report.specs.JobParts.{job_of};
ghost use Rattle.flp_jobs.specs.Maker.{IsMadeFor};
ghost use Rattle.flp_jobs.specs.Encoding.{job_input};
ghost use Rattle.flp_jobs.specs.Place.{input_fault};
ghost use Rattle.flp_jobs.specs.Reading.{setting_of, IsWhole, IsJobOf};
ghost use Rattle.flp_jobs.specs.Record.{made_words};

use crate::Memory;
use crate::file::JobFile;
use crate::words::{load_given, write_unshared, write_words};
use flp_field::Fe;
use flp_prove::Prover;
use flp_report::Job;
use flp_share::split;
use std::alloc::Global;

/// Room for making the records of a job file, made once and used for each job.
#[derive(Drop)]
pub(crate) struct Maker {
    prover: Prover,
    /// The numbers of an input.
    input: Vec<u64>,
    /// The joint words of a proof.
    joint: Vec<Fe>,
    /// The seeds of a proof.
    seeds: Vec<Fe>,
    /// An encoding and its proofs.
    unshared: Vec<Fe>,
    /// The words of shares 1 and up.
    given: Vec<Fe>,
    /// The words of all shares.
    shares: Vec<Fe>,
    /// The words of a record.
    words: Vec<u64>,
}

impl Maker {
    /// A maker for a job file. It takes all the memory that making needs.
    pub(crate) fn new(alloc: Global, file: &JobFile) -> Result<Maker, Memory>
        ensures { IfOk result (IsMadeFor file.now) }
    {
        let shape = &file.shape;
        let part = shape.part() as usize;
        let shares = shape.shares as usize;
        Ok(Maker {
            prover: Prover::new(alloc, &file.loaded.plan)?,
            input: vec![in alloc; 0; shape.input as usize]?,
            joint: vec![in alloc; Fe::ZERO; shape.joint as usize]?,
            seeds: vec![in alloc; Fe::ZERO; shape.prove as usize]?,
            unshared: vec![in alloc; Fe::ZERO; part]?,
            given: vec![in alloc; Fe::ZERO; shares.saturating_sub(1) * part]?,
            shares: vec![in alloc; Fe::ZERO; shares * part]?,
            words: vec![in alloc; 0; shape.record().words() as usize]?,
        })
    }

    /// Makes the words of the record of a job whose measurement is not refused.
    pub(crate) fn make(&mut self, file: &JobFile, job: &Job)
        requires whole { IsWhole file.now }
        requires job { IsJobOf file.now job.now }
        requires made { IsMadeFor file.now self.old }
        requires taken { input_fault file.now.loaded.params (job_input file.now.shape (job_of job.now)) ≡ None }
        ensures words { self.new.words.items ≡ made_words (setting_of file.now) (job_of job.now) }
        ensures again { IsMadeFor file.now self.new }
    {
        write_unshared(
            file,
            job,
            &mut self.input,
            &mut self.joint,
            &mut self.seeds,
            &mut self.prover,
            &mut self.unshared,
        );
        load_given(file, job, &mut self.given);
        split(
            &self.unshared,
            &self.given,
            file.shape.shares,
            &mut self.shares,
        );
        write_words(file, job, &self.shares, &mut self.words);
    }

    /// The words of the record that was made last.
    pub(crate) fn words(&self) -> &[u64]
        ensures { result.now ≡ self.now.words.items }
    {
        &self.words
    }
}
