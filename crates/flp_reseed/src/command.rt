//! The command `hide`: from the bytes of a job file to lines of seeds.
ghost use Rattle.std.specs.Prelude.{◌≡◌, ◌≢◌, [], None, Err, OnOk, IfErr, IsErr, IsOk};
ghost use Rattle.std.specs.Io.KnownBytes.{Appends, Keeps};
ghost use Rattle.flp_io.specs.Faults.{Uses};
ghost use Rattle.flp_io.specs.Writes.{TakesPrefix};
ghost use Rattle.flp_report.specs.JobParts.{jobs_in};
ghost use Rattle.flp_batch.specs.declared.fault.EngineFault.TheVariants.{Write as WriteFailed};
ghost use Rattle.flp_jobs.specs.declared.rules.Joints.TheVariants.{First};
ghost use Rattle.flp_jobs.specs.Place.{bad_place};
ghost use Rattle.flp_jobs.specs.Reading.{setting_of, IsWhole};
ghost use Rattle.flp_jobs.specs.Rules.{JobsEnd};
ghost use Rattle.flp_reseed.specs.Reply.{hide_rules, WritesSeeds, StopsInSeeds};
ghost use Rattle.flp_reseed.specs.Room.{IsRoomOf};
ghost use Rattle.flp_reseed.specs.Text.{hidden_lines};

use crate::lines::put_lines;
use crate::room::Room;
use flp_batch::EngineFault;
use flp_io::{Block, Failed, Sink, Source};
use flp_jobs::{JobFile, JobTask, Joints, ProveFault, Rules, perform};
use std::alloc::Global;

/// Writes the lines of a job file without a bad place, through a block that holds nothing.
fn write_lines<K: Sink>(
    file: &JobFile,
    room: &mut Room,
    block: &mut Block,
    output: &mut K,
) -> Result<(), Failed>
    requires whole { IsWhole file.now }
    requires good { bad_place First (setting_of file.now) (jobs_in file.now.jobs) ≡ None }
    requires room { IsRoomOf file.now room.old }
    requires empty { block.old ≡ [] }
    requires writable { K.ready output.old }
    ensures whole { OnOk result (Appends (K.taken output.old) (K.taken output.new) (hidden_lines (setting_of file.now) (jobs_in file.now.jobs))) }

    // At both outcomes.
    ensures front { TakesPrefix (K.taken output.old) (K.taken output.new) (hidden_lines (setting_of file.now) (jobs_in file.now.jobs)) }
    ensures uses { Uses K.faults K.ready output.old output.new (IsErr result) (IsOk result) }
{
    put_lines(file, room, block, output)?;
    block.flush(output)
}

/// The command.
struct Hides;

impl JobTask for Hides {
    ghost use Rattle.flp_reseed.specs.Reply.{hide_rules};
    ghost use Rattle.flp_reseed.specs.Text.{hidden_text};

    ghost asked = { λ _. hide_rules };

    ghost text = { λ _. hidden_text };

    fn rules(&self) -> Rules {
        Rules {
            written: false,
            joints: Joints::First,
        }
    }

    fn write<K: Sink>(
        &self,
        alloc: Global,
        file: &JobFile,
        output: &mut K,
    ) -> Result<(), EngineFault> {
        let mut room = Room::new(alloc, file)?;
        let mut block = Block::new(alloc)?;
        match write_lines(file, &mut room, &mut block, output) {
            Ok(()) => Ok(()),
            Err(_) => Err(EngineFault::Write),
        }
    }
}

/// Reads the job file that is the input, and writes to the output for each place but the first, and each proof, the seeds
/// for which that place's honest proof has the verifier of the first place's, or the least gadget in whose domain a query
/// point of the first place lies.
///
/// An error is the first fault of the input, or else its least bad place, where every place is judged under the joint words
/// of the first; or [`EngineFault::Read`], [`EngineFault::Write`] or [`EngineFault::Memory`]. Nothing was written then but
/// after [`EngineFault::Write`], which leaves a prefix of the lines.
///
/// Memory is taken for the job file and its circuit, for the room of one proof and a block of lines.
pub fn hide<S: Source, K: Sink>(
    alloc: Global,
    input: &mut S,
    output: &mut K,
) -> Result<(), ProveFault>
    requires readable { S.ready input.old }
    requires writable { K.ready output.old }
    ensures done { OnOk result (WritesSeeds (S.left input.old) (S.left input.new) (K.taken output.old) (K.taken output.new)) }
    ensures kept { IfErr result (λ fault. fault ≢ ProveFault.File WriteFailed → Keeps (K.taken output.old) (K.taken output.new)) }
    ensures stopped { result ≡ Err (ProveFault.File WriteFailed) → StopsInSeeds (S.left input.old) (S.left input.new) (K.taken output.old) (K.taken output.new) }
    ensures ends { JobsEnd hide_rules (S.left input.old) (S.left input.new) (S.faults input.old) (S.faults input.new) (K.faults output.old) (K.faults output.new) result }
{
    perform(alloc, &Hides, input, output)
}
