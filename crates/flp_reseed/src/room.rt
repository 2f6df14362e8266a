//! The room for the seeds of one proof of a place.
ghost use Rattle.std.specs.Prelude.{◌≡◌, ◌<◌, None, Some, IfOk, IfErr, OnOk};
ghost use Rattle.flp_meaning.specs.Verifier.{gadget_in_domain as domain_of};
ghost use Rattle.flp_report.specs.JobParts.{job_of};
ghost use Rattle.flp_jobs.specs.Encoding.{job_input, job_query};
ghost use Rattle.flp_jobs.specs.Place.{input_fault};
ghost use Rattle.flp_jobs.specs.Reading.{setting_of, IsWhole, IsJobOf};
ghost use Rattle.flp_reseed.specs.Room.{IsRoomOf, HasFirst, HasBoth};
ghost use Rattle.flp_reseed.specs.Text.{matched_seeds};

use crate::Memory;
use flp_field::Fe;
use flp_hide::Hider;
use flp_jobs::{JobFile, load_encoding, load_joint, load_query, load_seeds};
use flp_query::InDomain;
use flp_report::Job;
use std::alloc::Global;

/// Room for the seeds of one proof of a place, made once and used for each proof of each place.
#[derive(Drop)]
pub(crate) struct Room {
    hider: Hider,
    /// The numbers of an input.
    input: Vec<u64>,
    /// The encoding of the first place.
    from: Vec<Fe>,
    /// The encoding of another.
    to: Vec<Fe>,
    /// The joint words of a proof of the first place.
    joint: Vec<Fe>,
    /// Its query words.
    query: Vec<Fe>,
    /// Its seeds.
    seeds: Vec<Fe>,
    /// The seeds for the other encoding that match them.
    matched: Vec<Fe>,
}

impl Room {
    /// Room for a job file. It takes all the memory that is needed.
    pub(crate) fn new(alloc: Global, file: &JobFile) -> Result<Room, Memory>
        ensures { IfOk result (IsRoomOf file.now) }
    {
        let shape = &file.shape;
        Ok(Room {
            hider: Hider::new(alloc, &file.loaded.plan)?,
            input: vec![in alloc; 0; shape.input as usize]?,
            from: vec![in alloc; Fe::ZERO; shape.meas as usize]?,
            to: vec![in alloc; Fe::ZERO; shape.meas as usize]?,
            joint: vec![in alloc; Fe::ZERO; shape.joint as usize]?,
            query: vec![in alloc; Fe::ZERO; shape.query as usize]?,
            seeds: vec![in alloc; Fe::ZERO; shape.prove as usize]?,
            matched: vec![in alloc; Fe::ZERO; shape.prove as usize]?,
        })
    }

    /// Encodes the measurement of the first place, which is not refused.
    pub(crate) fn begin(&mut self, file: &JobFile, first: &Job)
        requires whole { IsWhole file.now }
        requires job { IsJobOf file.now first.now }
        requires taken { input_fault file.now.loaded.params (job_input file.now.shape (job_of first.now)) ≡ None }
        requires room { IsRoomOf file.now self.old }
        ensures { HasFirst file.now first.now self.new }
    {
        load_encoding(file, first, &mut self.input, &mut self.from);
    }

    /// Encodes the measurement of another place, which is not refused.
    pub(crate) fn turn_to(&mut self, file: &JobFile, first: &Job, job: &Job)
        requires has { HasFirst file.now first.now self.old }
        requires job { IsJobOf file.now job.now }
        requires taken { input_fault file.now.loaded.params (job_input file.now.shape (job_of job.now)) ≡ None }
        ensures { HasBoth file.now first.now job.now self.new }
    {
        load_encoding(file, job, &mut self.input, &mut self.to);
    }

    /// Finds the seeds of a proof of a place that match those of the first place, or tells the least gadget in whose domain
    /// a query point of the first place lies.
    pub(crate) fn reseed(
        &mut self,
        file: &JobFile,
        first: &Job,
        job: &Job,
        proof: u32,
    ) -> Result<(), InDomain>
        requires both { HasBoth file.now first.now job.now self.old }
        requires proof { proof < file.now.shape.proofs }
        ensures outside { OnOk result (domain_of file.now.loaded.plan.circuit (job_query file.now.shape (job_of first.now) proof) ≡ None) }
        ensures matched { OnOk result (self.new.matched.items ≡ matched_seeds (setting_of file.now) (job_of first.now) (job_of job.now) proof) }
        ensures inside { IfErr result (λ refusal. domain_of file.now.loaded.plan.circuit (job_query file.now.shape (job_of first.now) proof) ≡ Some refusal.gadget) }
        ensures again { HasBoth file.now first.now job.now self.new }
    {
        load_joint(file, first, proof, &mut self.joint);
        load_query(file, first, proof, &mut self.query);
        load_seeds(file, first, proof, &mut self.seeds);
        self.hider.reseed(
            &file.loaded.plan,
            &self.from,
            &self.to,
            &self.joint,
            &self.query,
            &self.seeds,
            &mut self.matched,
        )
    }

    /// The seeds that were found last.
    pub(crate) fn matched(&self) -> &[Fe]
        ensures { result.now ≡ self.now.matched.items }
    {
        &self.matched
    }
}
