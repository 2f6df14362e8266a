//! The lines of `hide`, each put through a block.
ghost use Rattle.std.specs.Prelude.{◌≡◌, ◌<◌, ◌++◌, None, Some, slice_get, decimal, codes};
ghost use Rattle.flp_report.specs.JobParts.{jobs_in, job_of};
ghost use Rattle.flp_known.specs.Puts.{Puts};
ghost use Rattle.flp_jobs.specs.declared.rules.Joints.TheVariants.{First};
ghost use Rattle.flp_jobs.specs.Encoding.{job_input};
ghost use Rattle.flp_jobs.specs.Place.{input_fault, bad_place};
ghost use Rattle.flp_jobs.specs.Reading.{setting_of, IsWhole, IsJobOf};
ghost use Rattle.flp_verdict.specs.Text.{spaced};
ghost use Rattle.flp_reseed.specs.Room.{IsRoomOf, HasFirst, HasBoth};
ghost use Rattle.flp_reseed.specs.Text.{proof_told, seeds_line, place_lines, hidden_lines};

use crate::room::Room;
use flp_field::Fe;
use flp_io::{Block, Failed, Sink};
use flp_jobs::JobFile;
use flp_known::put_piece;
use flp_report::Job;
use flp_verdict::{put_nonce, put_number, put_spaced};

/// Puts seeds.
fn put_seeds<K: Sink>(block: &mut Block, sink: &mut K, seeds: &[Fe]) -> Result<(), Failed>
    requires { K.ready sink.old }
    ensures { Puts K.taken K.faults K.ready sink.old sink.new block.old block.new (codes " seeds" ++ spaced seeds.now) result }
{
    put_piece(block, sink, b" seeds")?;
    put_spaced(block, sink, seeds)
}

/// Puts the gadget in whose domain a query point lies.
fn put_domain<K: Sink>(block: &mut Block, sink: &mut K, gadget: u32) -> Result<(), Failed>
    requires { K.ready sink.old }
    ensures { Puts K.taken K.faults K.ready sink.old sink.new block.old block.new (codes " domain " ++ decimal gadget) result }
{
    put_piece(block, sink, b" domain ")?;
    put_number(block, sink, u64::from(gadget))
}

/// Puts the number of a proof of a job, and what is told of it. The room has the encodings of the first job and of this.
fn put_told<K: Sink>(
    file: &JobFile,
    first: &Job,
    job: &Job,
    proof: u32,
    room: &mut Room,
    block: &mut Block,
    sink: &mut K,
) -> Result<(), Failed>
    requires ready { K.ready sink.old }
    requires both { HasBoth file.now first.now job.now room.old }
    requires proof { proof < file.now.shape.proofs }
    ensures puts { Puts K.taken K.faults K.ready sink.old sink.new block.old block.new (proof_told (setting_of file.now) (job_of first.now) (job_of job.now) proof) result }
    ensures again { HasBoth file.now first.now job.now room.new }
{
    let found = room.reseed(file, first, job, proof);
    put_number(block, sink, u64::from(proof))?;
    match found {
        Ok(()) => put_seeds(block, sink, room.matched()),
        Err(refusal) => put_domain(block, sink, refusal.gadget),
    }
}

/// Puts the line of a proof of a job. The room has the encodings of the first job and of this.
fn put_proof<K: Sink>(
    file: &JobFile,
    first: &Job,
    job: &Job,
    proof: u32,
    room: &mut Room,
    block: &mut Block,
    sink: &mut K,
) -> Result<(), Failed>
    requires ready { K.ready sink.old }
    requires both { HasBoth file.now first.now job.now room.old }
    requires proof { proof < file.now.shape.proofs }
    ensures puts { Puts K.taken K.faults K.ready sink.old sink.new block.old block.new (seeds_line (setting_of file.now) (job_of first.now) (job_of job.now) proof) result }
    ensures again { HasBoth file.now first.now job.now room.new }
{
    put_nonce(block, sink, job.nonce())?;
    put_told(file, first, job, proof, room, block, sink)?;
    put_piece(block, sink, b"\n")
}

/// Puts the lines of a job, one for each proof. The room has the encoding of the first job.
fn put_place<K: Sink>(
    file: &JobFile,
    first: &Job,
    job: &Job,
    room: &mut Room,
    block: &mut Block,
    sink: &mut K,
) -> Result<(), Failed>
    requires ready { K.ready sink.old }
    requires has { HasFirst file.now first.now room.old }
    requires job { IsJobOf file.now job.now }
    requires taken { input_fault file.now.loaded.params (job_input file.now.shape (job_of job.now)) ≡ None }
    ensures puts { Puts K.taken K.faults K.ready sink.old sink.new block.old block.new (place_lines (setting_of file.now) (job_of first.now) (job_of job.now)) result }
    ensures again { HasFirst file.now first.now room.new }
{
    room.turn_to(file, first, job);
    for proof in 0..file.shape.proofs {
        put_proof(file, first, job, proof, room, block, sink)?;
    }
    Ok(())
}

/// Puts the lines of all jobs but the first, of which no place is bad. The room has the encoding of the first.
fn put_others<K: Sink>(
    file: &JobFile,
    first: &Job,
    room: &mut Room,
    block: &mut Block,
    sink: &mut K,
) -> Result<(), Failed>
    requires ready { K.ready sink.old }
    requires good { bad_place First (setting_of file.now) (jobs_in file.now.jobs) ≡ None }
    requires has { HasFirst file.now first.now room.old }
    requires is_first { slice_get (jobs_in file.now.jobs) 0 ≡ Some (job_of first.now) }
    ensures { Puts K.taken K.faults K.ready sink.old sink.new block.old block.new (hidden_lines (setting_of file.now) (jobs_in file.now.jobs)) result }
{
    for number in 1..file.header.reports {
        let job = file.job(number);
        put_place(file, first, &job, room, block, sink)?;
    }
    Ok(())
}

/// Puts the lines of a job file without a bad place.
pub(crate) fn put_lines<K: Sink>(
    file: &JobFile,
    room: &mut Room,
    block: &mut Block,
    sink: &mut K,
) -> Result<(), Failed>
    requires ready { K.ready sink.old }
    requires whole { IsWhole file.now }
    requires good { bad_place First (setting_of file.now) (jobs_in file.now.jobs) ≡ None }
    requires room { IsRoomOf file.now room.old }
    ensures { Puts K.taken K.faults K.ready sink.old sink.new block.old block.new (hidden_lines (setting_of file.now) (jobs_in file.now.jobs)) result }
{
    if file.header.reports == 0 {
        return Ok(());
    }
    let first = file.job(0);
    room.begin(file, &first);
    put_others(file, &first, room, block, sink)
}
