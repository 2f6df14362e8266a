//! The command `prep`: from the bytes of a batch to the lines of one party.
ghost use Rattle.std.specs.Prelude.{Some, OnOk, OnErr, IfErr};
ghost use Rattle.std.specs.Io.KnownBytes.{Keeps};
ghost use Rattle.flp_batch.specs.Ends.{Ends};
ghost use Rattle.flp_batch.specs.Fault.{IsOfFront, IsOfInput};
ghost use Rattle.flp_batch.specs.File.{IsFault, TakesFew};
ghost use Rattle.flp_batch.specs.Format.{batches};
ghost use Rattle.flp_batch.specs.Reply.{WritesText, StopsEarly, SettlesEarly};
ghost use Rattle.flp_prep.specs.Text.{prepared_lines};

use crate::preparing::Preparing;
use flp_batch::{EngineFault, Opened, Task, perform, walk};
use flp_io::{Sink, Source};
use flp_report::BatchReader;
use std::alloc::Global;

/// The command, for the party of this number.
#[derive(Drop)]
struct Prepares {
    party: u32,
}

impl Task for Prepares {
    ghost use Rattle.std.specs.Prelude.{Some};
    ghost use Rattle.flp_prep.specs.Text.{words_by};

    ghost asked = { λ t. Some t.party };

    ghost words = { λ t. words_by t.party };

    fn party(&self) -> Option<u32> {
        Some(self.party)
    }

    fn answer<S: Source, K: Sink>(
        &self,
        alloc: Global,
        reader: &mut BatchReader<'_, S>,
        opened: &Opened,
        output: &mut K,
    ) -> Result<(), EngineFault> {
        let preparing = Preparing::new(
            alloc,
            &opened.loaded.plan,
            &opened.shape,
            &opened.claims,
            self.party,
        );
        walk(alloc, reader, opened, preparing, output)
    }
}

/// Reads the batch that is the input and writes to the output what the party of this number tells of each record.
///
/// An error is the first fault of the input, among them [`flp_report::BatchFault::Party`] where the party has no
/// share, or [`EngineFault::Read`], [`EngineFault::Write`] or [`EngineFault::Memory`]; the output has then taken a
/// prefix of the lines of the records that were read whole, and nothing where the fault lies in front of these.
/// Behind a fault of the input it has taken exactly the lines of the segments that were read whole.
///
/// Room is taken for the text and its circuit, for the old claims, for one segment, a line and a block of lines, and
/// for the worker and the nonces.
pub fn prep<S: Source, K: Sink>(
    alloc: Global,
    party: u32,
    input: &mut S,
    output: &mut K,
) -> Result<(), EngineFault>
    requires readable { S.ready input.old }
    requires writable { K.ready output.old }
    ensures done { OnOk result (WritesText (Some party) (prepared_lines party) (S.left input.old) (S.left input.new) (K.taken output.old) (K.taken output.new)) }
    ensures stopped { OnErr result (StopsEarly (Some party) (prepared_lines party) (S.left input.old) (S.left input.new) (K.taken output.old) (K.taken output.new)) }
    ensures settled { IfErr result (λ fault. IsOfInput fault → SettlesEarly (Some party) (prepared_lines party) (S.left input.old) (S.left input.new) (K.taken output.old) (K.taken output.new)) }
    ensures kept { IfErr result (λ fault. IsOfFront fault → Keeps (K.taken output.old) (K.taken output.new)) }
    ensures ends { Ends (IsFault (batches (Some party))) (TakesFew (batches (Some party))) (S.left input.old) (S.left input.new) (S.faults input.old) (S.faults input.new) (K.faults output.old) (K.faults output.new) result }
{
    perform(alloc, &Prepares { party }, input, output)
}
