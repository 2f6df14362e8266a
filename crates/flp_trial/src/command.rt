//! The command `trial`: from a circuit text to the summary of a batch of it.
ghost use Rattle.std.specs.Prelude.{◌≡◌, ◌≤◌, None, IfErr, IfOk, OnOk};
ghost use Rattle.flp_batch.specs.Ends.{Ends};
ghost use Rattle.flp_io.specs.Reads.{ConsumesAtMost};
ghost use Rattle.flp_load.specs.Loaded.{IsLoaded};
ghost use Rattle.flp_generator.specs.Batch.{trial_batch};
ghost use Rattle.flp_trial.specs.Text.{trial_text};
ghost use Rattle.flp_trial.specs.Reply.{size_fault, FailsToTry, WritesTrial, StopsBy, IsFaultOfTrial};

use crate::lines::make_lines;
use crate::summary::summarize;
use flp_batch::EngineFault;
use flp_generator::{GeneratorFault, make_batch};
use flp_io::{Sink, Source, SureSource, put};
use flp_lengths::{CircuitText, read_circuit};
use flp_pool::Gate;
use flp_report::BatchFault;
use std::alloc::Global;
use std::thread::Threads;

/// The batch of a circuit's trial.
fn make_trial(
    alloc: Global,
    circuit: CircuitText,
    seed: u32,
    reports: u32,
) -> Result<SureSource, EngineFault>
    requires loaded { IsLoaded circuit.text circuit.loaded.params circuit.loaded.plan.circuit }
    ensures batch { IfOk result (λ batch. batch ≡ trial_batch circuit.text circuit.loaded.params circuit.loaded.plan.circuit seed reports) }
    ensures fits { OnOk result (size_fault circuit.loaded.plan.circuit circuit.text reports ≡ None) }
    ensures fault { IfErr result (FailsToTry circuit.loaded.plan.circuit circuit.text reports) }
{
    let CircuitText { text, loaded } = circuit;
    match make_batch(alloc, text, &loaded, seed, reports) {
        Ok(batch) => Ok(batch),
        Err(GeneratorFault::Memory) => Err(EngineFault::Memory),
        Err(GeneratorFault::TooLarge(bytes)) => {
            Err(EngineFault::Batch(BatchFault::TooLarge(bytes)))
        }
    }
}

/// The text of a circuit's trial: its batch is made, verified and summed up.
fn try_circuit<R: Threads + Sync, G: Gate>(
    rt: &R,
    alloc: Global,
    circuit: CircuitText,
    seed: u32,
    reports: u32,
    workers: u32,
    gate: &G,
) -> Result<Vec<u8>, EngineFault>
    requires loaded { IsLoaded circuit.text circuit.loaded.params circuit.loaded.plan.circuit }
    requires workers { (1 ≤ workers) × (workers ≤ 16) }
    ensures text { IfOk result (λ text. text.items ≡ trial_text circuit.loaded.params circuit.loaded.plan.circuit seed reports) }
    ensures fits { OnOk result (size_fault circuit.loaded.plan.circuit circuit.text reports ≡ None) }
    ensures fault { IfErr result (FailsToTry circuit.loaded.plan.circuit circuit.text reports) }
{
    flp_generator::laws::trials_are_batches();
    let batch = make_trial(alloc, circuit, seed, reports)?;
    let summary = match summarize(rt, alloc, batch, workers, gate) {
        Ok(summary) => summary,
        Err(fault) => return Err(fault),
    };
    match make_lines(alloc, &summary) {
        Ok(text) => Ok(text),
        Err(_) => Err(EngineFault::Memory),
    }
}

/// Reads the circuit text that is the input, makes a batch of so many reports of its circuit from a seed, verifies it by so
/// many workers, and writes what they found to the output.
///
/// The lines are `accepted`, `rejected`, `domain`, `malformed` and `replayed`, each with a space and the number of reports of
/// that verdict, and `aggregate` with the sums modulo p of the outs of the accepted ones, a space before each. Neither the
/// number of workers, 1 to 16, nor the gate changes them.
///
/// At most 65,537 bytes are read, and these are the text that is judged. An error is the first fault of the text; or else
/// [`TooLarge`](flp_report::BatchFault::TooLarge), with the bytes of a record or of the batch, before anything is made; or
/// [`EngineFault::Read`], [`EngineFault::Write`] or [`EngineFault::Memory`]. Nothing was written then but after
/// [`EngineFault::Write`], which leaves a prefix of the lines.
///
/// Memory is taken for the text and its circuit, the whole batch, and what `verify` takes of it.
pub fn trial<R: Threads + Sync, S: Source, K: Sink, G: Gate>(
    rt: &R,
    alloc: Global,
    input: &mut S,
    output: &mut K,
    seed: u32,
    reports: u32,
    workers: u32,
    gate: &G,
) -> Result<(), EngineFault>
    requires readable { S.ready input.old }
    requires writable { K.ready output.old }
    requires workers { (1 ≤ workers) × (workers ≤ 16) }
    ensures done { OnOk result (WritesTrial seed reports (S.left input.old) (S.left input.new) (K.taken output.old) (K.taken output.new)) }
    ensures stopped { IfErr result (λ fault. StopsBy seed reports fault (S.left input.old) (S.left input.new) (K.taken output.old) (K.taken output.new)) }
    ensures ends { Ends (IsFaultOfTrial reports) (ConsumesAtMost 65537) (S.left input.old) (S.left input.new) (S.faults input.old) (S.faults input.new) (K.faults output.old) (K.faults output.new) result }
{
    let circuit = read_circuit(alloc, input)?;
    let text = try_circuit(rt, alloc, circuit, seed, reports, workers, gate)?;
    match put(output, &text) {
        Ok(()) => Ok(()),
        Err(_) => Err(EngineFault::Write),
    }
}
