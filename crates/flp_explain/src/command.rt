//! The command `explain`: from the bytes of a batch to its lines.
ghost use Rattle.std.specs.Prelude.{None, OnOk, OnErr, IfErr};
ghost use Rattle.std.specs.Io.KnownBytes.{Keeps};
ghost use Rattle.flp_batch.specs.Ends.{Ends};
ghost use Rattle.flp_batch.specs.Fault.{IsOfFront, IsOfInput};
ghost use Rattle.flp_batch.specs.File.{IsFault, TakesFew};
ghost use Rattle.flp_batch.specs.Format.{batches};
ghost use Rattle.flp_batch.specs.Reply.{WritesText, StopsEarly, SettlesEarly};
ghost use Rattle.flp_explain.specs.Text.{explained_lines};

use crate::explaining::Explaining;
use flp_batch::{EngineFault, Opened, Task, perform, walk};
use flp_io::{Sink, Source};
use flp_report::BatchReader;
use std::alloc::Global;

/// The command, and whether what joint words tell is asked for.
#[derive(Drop)]
struct Explains {
    joint: bool,
}

impl Task for Explains {
    ghost use Rattle.std.specs.Prelude.{None};
    ghost use Rattle.flp_explain.specs.Text.{words_by};

    ghost asked = { λ _. None };

    ghost words = { λ e. words_by e.joint };

    fn party(&self) -> Option<u32> {
        None
    }

    fn answer<S: Source, K: Sink>(
        &self,
        alloc: Global,
        reader: &mut BatchReader<'_, S>,
        opened: &Opened,
        output: &mut K,
    ) -> Result<(), EngineFault> {
        let explaining = Explaining::new(alloc, self.joint, &opened.loaded, &opened.shape);
        walk(alloc, reader, opened, explaining, output)
    }
}

/// Reads the batch that is the input and writes to the output, for each proof of each record, `valid` or the query word
/// that limits the proof; and behind these, where `joint` asks for it, what joint words tell of the record's encoding: `none`
/// where it is that of a measurement, `never` where it is valid under no joint words, the joint word that catches it and for
/// how many values at most it does not, or `body` where the circuit is no standard one.
///
/// The input is read to its end. An error is the first fault of the input, or [`EngineFault::Read`],
/// [`EngineFault::Write`] or [`EngineFault::Memory`]; the output has then taken a prefix of the lines of the records
/// that were read whole, and nothing where the fault lies in front of these. Behind a fault of the input it has taken
/// exactly the lines of the segments that were read whole.
///
/// Room is taken for the text and its circuit, for the old claims, for one segment, the lines of a record and a block
/// of lines, and for what the weak word of one proof takes.
pub fn explain<S: Source, K: Sink>(
    alloc: Global,
    joint: bool,
    input: &mut S,
    output: &mut K,
) -> Result<(), EngineFault>
    requires readable { S.ready input.old }
    requires writable { K.ready output.old }
    ensures done { OnOk result (WritesText None (explained_lines joint) (S.left input.old) (S.left input.new) (K.taken output.old) (K.taken output.new)) }
    ensures stopped { OnErr result (StopsEarly None (explained_lines joint) (S.left input.old) (S.left input.new) (K.taken output.old) (K.taken output.new)) }
    ensures settled { IfErr result (λ fault. IsOfInput fault → SettlesEarly None (explained_lines joint) (S.left input.old) (S.left input.new) (K.taken output.old) (K.taken output.new)) }
    ensures kept { IfErr result (λ fault. IsOfFront fault → Keeps (K.taken output.old) (K.taken output.new)) }
    ensures ends { Ends (IsFault (batches None)) (TakesFew (batches None)) (S.left input.old) (S.left input.new) (S.faults input.old) (S.faults input.new) (K.faults output.old) (K.faults output.new) result }
{
    perform(alloc, &Explains { joint }, input, output)
}
