//! The command `prove`: from the bytes of a job file to those of a batch.
ghost use Rattle.std.specs.Prelude.{◌≡◌, ◌≢◌, None, Err, map, OnOk, IfErr, IsErr, IsOk};
ghost use Rattle.std.specs.List.{concat};
ghost use Rattle.std.specs.Io.KnownBytes.{Appends, Keeps};
ghost use Rattle.flp_io.specs.Faults.{Uses};
ghost use Rattle.flp_io.specs.Writes.{TakesPrefix};
ghost use Rattle.flp_report.specs.JobParts.{jobs_in};
ghost use Rattle.flp_batch.specs.declared.fault.EngineFault.TheVariants.{Write as WriteFailed};
ghost use Rattle.flp_jobs.specs.declared.rules.Joints.TheVariants.{Own};
ghost use Rattle.flp_jobs.specs.Maker.{IsMadeFor};
ghost use Rattle.flp_jobs.specs.Place as place;
ghost use Rattle.flp_jobs.specs.Reading.{setting_of, text_read, IsWhole};
ghost use Rattle.flp_jobs.specs.Record.{record_made, batch_text};
ghost use Rattle.flp_jobs.specs.Reply.{prove_rules, WritesBatch, StopsInBatch};
ghost use Rattle.flp_jobs.specs.Rules.{JobsEnd};

use crate::fault::ProveFault;
use crate::file::JobFile;
use crate::maker::Maker;
use crate::rules::{Joints, Rules};
use crate::task::{JobTask, perform};
use flp_batch::EngineFault;
use flp_io::{Failed, Sink, Source};
use flp_report::{write_head, write_record};
use std::alloc::Global;

/// Makes and writes the records of all jobs, where no place is bad.
fn write_records<K: Sink>(file: &JobFile, maker: &mut Maker, output: &mut K) -> Result<(), Failed>
    requires whole { IsWhole file.now }
    requires made { IsMadeFor file.now maker.old }
    requires good { place.bad_place Own (setting_of file.now) (jobs_in file.now.jobs) ≡ None }
    requires writable { K.ready output.old }
    ensures bytes { OnOk result (Appends (K.taken output.old) (K.taken output.new) (concat (map (record_made (setting_of file.now)) (jobs_in file.now.jobs)))) }

    // At both outcomes.
    ensures front { TakesPrefix (K.taken output.old) (K.taken output.new) (concat (map (record_made (setting_of file.now)) (jobs_in file.now.jobs))) }
    ensures uses { Uses K.faults K.ready output.old output.new (IsErr result) (IsOk result) }
{
    for number in 0..file.header.reports {
        let job = file.job(number);
        maker.make(file, &job);
        match write_record(output, job.nonce(), None, maker.words()) {
            Ok(()) => {}
            Err(fault) => return Err(fault),
        }
    }
    Ok(())
}

/// Writes the batch of a job file without a bad place.
fn write_batch<K: Sink>(file: &JobFile, maker: &mut Maker, output: &mut K) -> Result<(), Failed>
    requires whole { IsWhole file.now }
    requires made { IsMadeFor file.now maker.old }
    requires good { place.bad_place Own (setting_of file.now) (jobs_in file.now.jobs) ≡ None }
    requires writable { K.ready output.old }
    ensures bytes { OnOk result (Appends (K.taken output.old) (K.taken output.new) (text_read batch_text file.now)) }

    // At both outcomes.
    ensures front { TakesPrefix (K.taken output.old) (K.taken output.new) (text_read batch_text file.now) }
    ensures uses { Uses K.faults K.ready output.old output.new (IsErr result) (IsOk result) }
{
    match write_head(output, &file.header) {
        Ok(()) => {}
        Err(fault) => return Err(fault),
    }
    write_records(file, maker, output)
}

/// The command.
struct Proves;

impl JobTask for Proves {
    ghost use Rattle.flp_jobs.specs.Record.{batch_text};
    ghost use Rattle.flp_jobs.specs.Reply.{prove_rules};

    ghost asked = { λ _. prove_rules };

    ghost text = { λ _. batch_text };

    fn rules(&self) -> Rules {
        Rules {
            written: true,
            joints: Joints::Own,
        }
    }

    fn write<K: Sink>(
        &self,
        alloc: Global,
        file: &JobFile,
        output: &mut K,
    ) -> Result<(), EngineFault> {
        let mut maker = Maker::new(alloc, file)?;
        match write_batch(file, &mut maker, output) {
            Ok(()) => Ok(()),
            Err(_) => Err(EngineFault::Write),
        }
    }
}

/// Reads the job file that is the input, and writes to the output the batch that is made of it.
///
/// An error is the first fault of the input, or else its least bad place; or [`EngineFault::Read`],
/// [`EngineFault::Write`] or [`EngineFault::Memory`]. Nothing was written then but after [`EngineFault::Write`], which
/// leaves a prefix of the batch.
///
/// Memory is taken for the job file, its circuit and one record.
pub fn prove<S: Source, K: Sink>(
    alloc: Global,
    input: &mut S,
    output: &mut K,
) -> Result<(), ProveFault>
    requires readable { S.ready input.old }
    requires writable { K.ready output.old }
    ensures done { OnOk result (WritesBatch (S.left input.old) (S.left input.new) (K.taken output.old) (K.taken output.new)) }
    ensures kept { IfErr result (λ fault. fault ≢ ProveFault.File WriteFailed → Keeps (K.taken output.old) (K.taken output.new)) }
    ensures stopped { result ≡ Err (ProveFault.File WriteFailed) → StopsInBatch (S.left input.old) (S.left input.new) (K.taken output.old) (K.taken output.new) }
    ensures ends { JobsEnd prove_rules (S.left input.old) (S.left input.new) (S.faults input.old) (S.faults input.new) (K.faults output.old) (K.faults output.new) result }
{
    perform(alloc, &Proves, input, output)
}
