//! Which places of a job file are bad, and why.
ghost use Rattle.std.specs.Prelude.{◌≡◌, ◌<◌, length, IfOk};
ghost use Rattle.flp_report.specs.JobParts.{jobs_in, job_of};
ghost use Rattle.flp_plan.specs.Sizes.{sizes_of};
ghost use Rattle.flp_jobs.specs.Encoding.{job_encoding, job_proofs};
ghost use Rattle.flp_jobs.specs.Judge.{IsJudgeOf};
ghost use Rattle.flp_jobs.specs.Place as place;
ghost use Rattle.flp_jobs.specs.Reading.{setting_of, IsWhole, IsJobOf};

use crate::Memory;
use crate::fault::PlaceFault;
use crate::file::JobFile;
use crate::parts::{load_joint, write_encoding};
use crate::rules::Joints;
use flp_circuits::MeasFault;
use flp_field::Fe;
use flp_prove::checks::Checker;
use flp_report::Job;
use std::alloc::Global;

/// The first check of the encoding `x` of a job that is not 0: of the least proof for which the job `under` has joint
/// words under which there is one, the least.
///
/// `joint` has a place for each joint word of a proof.
fn first_check(
    file: &JobFile,
    under: &Job,
    job: &Job,
    x: &[Fe],
    joint: &mut [Fe],
    checker: &mut Checker,
) -> Option<PlaceFault>
    requires whole { IsWhole file.now }
    requires under { IsJobOf file.now under.now }
    requires x { x.now ≡ job_encoding (setting_of file.now) (job_of job.now) }
    requires size { length x.now ≡ file.now.shape.meas }
    requires joint { length joint.old ≡ file.now.shape.joint }
    requires made { checker.old ≡ sizes_of file.now.loaded.plan }
    ensures check { result ≡ place.first_check (setting_of file.now) (job_of under.now) (job_of job.now) (job_proofs file.now.shape) }
    ensures again { checker.new ≡ checker.old }
{
    for proof in 0..file.shape.proofs {
        load_joint(file, under, proof, joint);
        match checker.failing_check(&file.loaded.plan, x, joint) {
            Some(check) => return Some(PlaceFault::Check { check, proof }),
            None => {}
        }
    }
    None
}

/// Room for judging the places of a job file, made once and used for each place.
#[derive(Drop)]
pub(crate) struct Judge {
    checker: Checker,
    /// The numbers of an input.
    input: Vec<u64>,
    /// The joint words of a proof.
    joint: Vec<Fe>,
    /// An encoding.
    x: Vec<Fe>,
}

impl Judge {
    /// A judge for a job file. It takes all the memory that judging needs.
    pub(crate) fn new(alloc: Global, file: &JobFile) -> Result<Judge, Memory>
        ensures { IfOk result (IsJudgeOf file.now) }
    {
        let shape = &file.shape;
        Ok(Judge {
            checker: Checker::new(alloc, &file.loaded.plan)?,
            input: vec![in alloc; 0; shape.input as usize]?,
            joint: vec![in alloc; Fe::ZERO; shape.joint as usize]?,
            x: vec![in alloc; Fe::ZERO; shape.meas as usize]?,
        })
    }

    /// Why the place of a job is bad under the joint words of the job `under`: its measurement is refused, or else a
    /// check is not 0, for the least proof and then the least check.
    fn place_fault(&mut self, file: &JobFile, under: &Job, job: &Job) -> Option<PlaceFault>
        requires whole { IsWhole file.now }
        requires under { IsJobOf file.now under.now }
        requires job { IsJobOf file.now job.now }
        requires made { IsJudgeOf file.now self.old }
        ensures fault { result ≡ place.place_fault (setting_of file.now) (job_of under.now) (job_of job.now) }
        ensures again { IsJudgeOf file.now self.new }
    {
        match write_encoding(file, job, &mut self.input, &mut self.x) {
            Ok(()) => first_check(
                file,
                under,
                job,
                &self.x,
                &mut self.joint,
                &mut self.checker,
            ),
            Err(MeasFault::Range(number, value)) => Some(PlaceFault::Range { number, value }),
            Err(MeasFault::Weight(ones)) => Some(PlaceFault::Weight(ones)),
            Err(MeasFault::Count(_)) => unreachable!(),
        }
    }

    /// The least bad place of a job file, and why it is bad, under these joint words.
    pub(crate) fn bad_place(&mut self, file: &JobFile, joints: Joints) -> Option<(u32, PlaceFault)>
        requires whole { IsWhole file.now }
        requires made { IsJudgeOf file.now self.old }
        ensures { result ≡ place.bad_place joints (setting_of file.now) (jobs_in file.now.jobs) }
    {
        for number in 0..file.header.reports {
            let job = file.job(number);
            let under = file.judged_under(joints, number);
            match self.place_fault(file, &under, &job) {
                Some(fault) => return Some((number, fault)),
                None => {}
            }
        }
        None
    }
}
