//! The command `lengths`: from a circuit text to its lengths.
ghost use Rattle.std.specs.Prelude.{IfErr, OnOk};
ghost use Rattle.flp_batch.specs.Ends.{Ends};
ghost use Rattle.flp_io.specs.Reads.{ConsumesAtMost};
ghost use Rattle.flp_lengths.specs.Reply.{WritesLengths, StopsBy, IsFaultOfText};

use crate::input::read_circuit;
use crate::lines::make_lines;
use flp_batch::EngineFault;
use flp_io::{Sink, Source, put};
use std::alloc::Global;

/// Reads the circuit text that is the input and writes the lengths of its circuit to the output.
///
/// The lines are `meas`, `joint`, `prove`, `query`, `proof`, `verifier` and `outs`, each with a space and its number. At
/// most 65,537 bytes are read, and these are the text that is judged. Nothing is written before the circuit is loaded; after
/// a failed write a prefix of the lines was taken.
#[tactic(auto, using(crate::proofs::ReadingLemmas::stops_unread, crate::proofs::ReadingLemmas::fault_told))]
pub fn lengths<S: Source, K: Sink>(
    alloc: Global,
    input: &mut S,
    output: &mut K,
) -> Result<(), EngineFault>
    requires readable { S.ready input.old }
    requires writable { K.ready output.old }
    ensures done { OnOk result (WritesLengths (S.left input.old) (S.left input.new) (K.taken output.old) (K.taken output.new)) }
    ensures stopped { IfErr result (λ fault. StopsBy fault (S.left input.old) (S.left input.new) (K.taken output.old) (K.taken output.new)) }
    ensures ends { Ends IsFaultOfText (ConsumesAtMost 65537) (S.left input.old) (S.left input.new) (S.faults input.old) (S.faults input.new) (K.faults output.old) (K.faults output.new) result }
{
    let circuit = read_circuit(alloc, input)?;
    let lines = match make_lines(alloc, &circuit.loaded.plan) {
        Ok(lines) => lines,
        Err(_) => return Err(EngineFault::Memory),
    };
    match put(output, &lines) {
        Ok(()) => Ok(()),
        Err(_) => Err(EngineFault::Write),
    }
}
