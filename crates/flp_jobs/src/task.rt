//! A command over a job file, from the bytes of the file to what is written of it.
ghost use Rattle.std.specs.Prelude.{◌≡◌, ◌≢◌, ◌≤◌, ◌⊎◌, ℕ, List, Option, None, Err, OnOk, OnErr, IfErr, IfSome};
ghost use Rattle.std.specs.Io.KnownBytes.{Appends, Keeps};
ghost use Rattle.flp_io.specs.Faults.{Rose};
ghost use Rattle.flp_io.specs.Writes.{TakesPrefix};
ghost use Rattle.flp_report.specs.JobParts.{jobs_in};
ghost use Rattle.flp_report.specs.Reader.{source_of, SameLoan, place_of};
ghost use Rattle.flp_batch.specs.declared.fault.EngineFault.TheVariants.{Memory as OutOfMemory, Read as ReadFailed, Write as WriteFailed};
ghost use Rattle.flp_jobs.specs.declared.rules.Rules.{Rules as FileRules};
ghost use Rattle.flp_jobs.specs.Fault.{IfJobs};
ghost use Rattle.flp_jobs.specs.Place as place;
ghost use Rattle.flp_jobs.specs.Reading.{setting_of, text_read, Reads, IsWhole};
ghost use Rattle.flp_jobs.specs.Rules.{JobText, MakesText, IsRefusedBy, JobsEnd};

use crate::fault::ProveFault;
use crate::file::{JobFile, read_file};
use crate::judge::Judge;
use crate::rules::Rules;
use flp_batch::EngineFault;
use flp_io::{Sink, Source};
use flp_report::JobReader;
use std::alloc::Global;

/// What a command does with a job file.
///
/// - `asked` is what it asks of the file.
/// - `text` is what it writes of a file without a bad place.
pub trait JobTask {
    ghost asked: { Self → FileRules };

    ghost text: { Self → JobText };

    /// What it asks of the file.
    fn rules(&self) -> Rules
        ensures { result ≡ asked self.now };

    /// Writes the text of a file that was read and has no bad place.
    ///
    /// The errors are [`EngineFault::Memory`], where nothing was written, and [`EngineFault::Write`], where a prefix of
    /// the text was.
    fn write<K: Sink>(
        &self,
        alloc: Global,
        file: &JobFile,
        output: &mut K,
    ) -> Result<(), EngineFault>
        requires whole { IsWhole file.now }
        requires good { place.bad_place (asked self.now).joints (setting_of file.now) (jobs_in file.now.jobs) ≡ None }
        requires writable { K.ready output.old }
        ensures done { OnOk result (Appends (K.taken output.old) (K.taken output.new) (text_read (text self.now) file.now)) }
        ensures only { OnErr result ((result ≡ Err OutOfMemory) ⊎ (result ≡ Err WriteFailed)) }
        ensures kept { result ≡ Err OutOfMemory → Keeps (K.taken output.old) (K.taken output.new) }
        ensures stopped { result ≡ Err WriteFailed → TakesPrefix (K.taken output.old) (K.taken output.new) (text_read (text self.now) file.now) }
        ensures write { result ≡ Err WriteFailed → Rose (K.faults output.old) (K.faults output.new) }
        ensures later { K.faults output.old ≤ K.faults output.new };
}

/// Writes the text of a file without a bad place, in the words of a job file.
fn write_text<T: JobTask, K: Sink>(
    alloc: Global,
    task: &T,
    file: &JobFile,
    output: &mut K,
) -> Result<(), ProveFault>
    requires whole { IsWhole file.now }
    requires good { place.bad_place (T.asked task.now).joints (setting_of file.now) (jobs_in file.now.jobs) ≡ None }
    requires writable { K.ready output.old }
    ensures done { OnOk result (Appends (K.taken output.old) (K.taken output.new) (text_read (T.text task.now) file.now)) }
    ensures only { OnErr result ((result ≡ Err (ProveFault.File OutOfMemory)) ⊎ (result ≡ Err (ProveFault.File WriteFailed))) }
    ensures kept { result ≡ Err (ProveFault.File OutOfMemory) → Keeps (K.taken output.old) (K.taken output.new) }
    ensures stopped { result ≡ Err (ProveFault.File WriteFailed) → TakesPrefix (K.taken output.old) (K.taken output.new) (text_read (T.text task.now) file.now) }
    ensures write { result ≡ Err (ProveFault.File WriteFailed) → Rose (K.faults output.old) (K.faults output.new) }
    ensures later { K.faults output.old ≤ K.faults output.new }
{
    match task.write(alloc, file, output) {
        Ok(()) => Ok(()),
        Err(fault) => Err(ProveFault::File(fault)),
    }
}

/// Judges the places of a job file that was read, and writes its text where none is bad.
fn answer<T: JobTask, K: Sink>(
    alloc: Global,
    task: &T,
    file: &JobFile,
    output: &mut K,
) -> Result<(), ProveFault>
    requires whole { IsWhole file.now }
    requires writable { K.ready output.old }
    ensures done { OnOk result ((left left' : Option (List ℕ)) → Reads (T.asked task.now).written left left' file.now
        → MakesText (T.asked task.now) (T.text task.now) (Appends (K.taken output.old) (K.taken output.new)) left left') }
    ensures kept { IfErr result (λ fault. fault ≢ ProveFault.File WriteFailed → Keeps (K.taken output.old) (K.taken output.new)) }
    ensures stopped { result ≡ Err (ProveFault.File WriteFailed) → (left left' : Option (List ℕ)) → Reads (T.asked task.now).written left left' file.now
        → MakesText (T.asked task.now) (T.text task.now) (TakesPrefix (K.taken output.old) (K.taken output.new)) left left' }
    ensures fault { IfErr result (λ fault. IfJobs fault (λ f. (left left' : Option (List ℕ)) → Reads (T.asked task.now).written left left' file.now
        → IfSome left (λ bytes. IsRefusedBy (T.asked task.now) bytes f))) }
    ensures no_read { result ≢ Err (ProveFault.File ReadFailed) }

    // At every outcome.
    ensures write { result ≡ Err (ProveFault.File WriteFailed) → Rose (K.faults output.old) (K.faults output.new) }
    ensures later { K.faults output.old ≤ K.faults output.new }
{
    let mut judge = Judge::new(alloc, file)?;
    if let Some((number, fault)) = judge.bad_place(file, task.rules().joints) {
        return Err(ProveFault::Place(number, fault));
    }
    write_text(alloc, task, file, output)
}

/// Reads a job file and answers it.
fn perform_on<T: JobTask, S: Source, K: Sink>(
    alloc: Global,
    task: &T,
    reader: &mut JobReader<'_, S>,
    output: &mut K,
) -> Result<(), ProveFault>
    requires place { place_of reader.old ≡ 0 }
    requires readable { S.ready (source_of reader.old) }
    requires writable { K.ready output.old }
    ensures same { SameLoan reader.old reader.new }
    ensures done { OnOk result (MakesText (T.asked task.now) (T.text task.now) (Appends (K.taken output.old) (K.taken output.new))
        (S.left (source_of reader.old)) (S.left (source_of reader.new))) }
    ensures kept { IfErr result (λ fault. fault ≢ ProveFault.File WriteFailed → Keeps (K.taken output.old) (K.taken output.new)) }
    ensures stopped { result ≡ Err (ProveFault.File WriteFailed) → MakesText (T.asked task.now) (T.text task.now) (TakesPrefix (K.taken output.old) (K.taken output.new))
        (S.left (source_of reader.old)) (S.left (source_of reader.new)) }
    ensures ends { JobsEnd (T.asked task.now) (S.left (source_of reader.old)) (S.left (source_of reader.new))
        (S.faults (source_of reader.old)) (S.faults (source_of reader.new)) (K.faults output.old) (K.faults output.new) result }
{
    match read_file(alloc, reader, task.rules().written) {
        Ok(file) => answer(alloc, task, &file, output),
        Err(fault) => Err(ProveFault::File(fault)),
    }
}

/// Reads the job file that is the input, judges its places, and writes to the output what the command makes of it.
///
/// An error is the first fault of the input, or else its least bad place; or [`EngineFault::Read`],
/// [`EngineFault::Write`] or [`EngineFault::Memory`]. Nothing was written then but after [`EngineFault::Write`], which
/// leaves a prefix of the text.
///
/// Memory is taken for the job file and its circuit, for judging, and for what the command keeps.
pub fn perform<T: JobTask, S: Source, K: Sink>(
    alloc: Global,
    task: &T,
    input: &mut S,
    output: &mut K,
) -> Result<(), ProveFault>
    requires readable { S.ready input.old }
    requires writable { K.ready output.old }
    ensures done { OnOk result (MakesText (T.asked task.now) (T.text task.now) (Appends (K.taken output.old) (K.taken output.new)) (S.left input.old) (S.left input.new)) }
    ensures kept { IfErr result (λ fault. fault ≢ ProveFault.File WriteFailed → Keeps (K.taken output.old) (K.taken output.new)) }
    ensures stopped { result ≡ Err (ProveFault.File WriteFailed) → MakesText (T.asked task.now) (T.text task.now) (TakesPrefix (K.taken output.old) (K.taken output.new)) (S.left input.old) (S.left input.new) }
    ensures ends { JobsEnd (T.asked task.now) (S.left input.old) (S.left input.new) (S.faults input.old) (S.faults input.new) (K.faults output.old) (K.faults output.new) result }
{
    let mut reader = JobReader::new(input);
    perform_on(alloc, task, &mut reader, output)
}
