//! The command `deal`: from the bytes of a batch to the share file of one party.
ghost use Rattle.std.specs.Prelude.{◌≡◌, Some, OnOk, OnErr, IfErr};
ghost use Rattle.std.specs.Io.KnownBytes.{Keeps};
ghost use Rattle.flp_report.specs.Reader.{source_of, SameLoan, place_of};
ghost use Rattle.flp_batch.specs.Ends.{Ends};
ghost use Rattle.flp_batch.specs.Fault.{IsOfFront, IsOfInput};
ghost use Rattle.flp_batch.specs.File.{IsFault, TakesFew};
ghost use Rattle.flp_batch.specs.Format.{batches};
ghost use Rattle.flp_party.specs.Reply.{WritesShare, StopsShare, SettlesShare};

use crate::dealing::Dealing;
use crate::share_head::put_front;
use flp_batch::{EngineFault, open, walk};
use flp_io::{Sink, Source};
use flp_report::BatchReader;
use std::alloc::Global;

/// Opens a batch and writes the share file of the party.
fn deal_read<S: Source, K: Sink>(
    alloc: Global,
    party: u32,
    reader: &mut BatchReader<'_, S>,
    output: &mut K,
) -> Result<(), EngineFault>
    requires place { place_of reader.old ≡ 0 }
    requires readable { S.ready (source_of reader.old) }
    requires writable { K.ready output.old }
    ensures same { SameLoan reader.old reader.new }
    ensures done { OnOk result (WritesShare party (S.left (source_of reader.old)) (S.left (source_of reader.new)) (K.taken output.old) (K.taken output.new)) }
    ensures stopped { OnErr result (StopsShare party (S.left (source_of reader.old)) (S.left (source_of reader.new)) (K.taken output.old) (K.taken output.new)) }
    ensures settled { IfErr result (λ fault. IsOfInput fault → SettlesShare party (S.left (source_of reader.old)) (S.left (source_of reader.new)) (K.taken output.old) (K.taken output.new)) }
    ensures kept { IfErr result (λ fault. IsOfFront fault → Keeps (K.taken output.old) (K.taken output.new)) }
    ensures ends { Ends (IsFault (batches (Some party))) (TakesFew (batches (Some party))) (S.left (source_of reader.old)) (S.left (source_of reader.new))
        (S.faults (source_of reader.old)) (S.faults (source_of reader.new)) (K.faults output.old) (K.faults output.new) result }
{
    let opened = match open(alloc, reader, Some(party)) {
        Ok(opened) => opened,
        Err(fault) => return Err(fault),
    };
    match put_front(output, party, &opened.header, &opened.claims) {
        Ok(()) => {}
        Err(_) => return Err(EngineFault::Write),
    }
    let dealing = Dealing::new(opened.shape, party);
    walk(alloc, reader, &opened, Ok(dealing), output)
}

/// Reads the batch that is the input and writes to the output the share file of the party of this number: of each record
/// its share alone, and what all parties know.
///
/// An error is the first fault of the input, among them [`flp_report::BatchFault::Party`] where the party has no
/// share, or [`EngineFault::Read`], [`EngineFault::Write`] or [`EngineFault::Memory`]; the output has then taken a
/// prefix of the share file of the records that were read whole, and nothing where the fault lies in front of these.
/// Behind a fault of the input it has taken exactly that of the segments that were read whole.
///
/// Room is taken for the text and its circuit, for the old claims, for one segment and a record, and for a block of
/// what is written.
pub fn deal<S: Source, K: Sink>(
    alloc: Global,
    party: u32,
    input: &mut S,
    output: &mut K,
) -> Result<(), EngineFault>
    requires readable { S.ready input.old }
    requires writable { K.ready output.old }
    ensures done { OnOk result (WritesShare party (S.left input.old) (S.left input.new) (K.taken output.old) (K.taken output.new)) }
    ensures stopped { OnErr result (StopsShare party (S.left input.old) (S.left input.new) (K.taken output.old) (K.taken output.new)) }
    ensures settled { IfErr result (λ fault. IsOfInput fault → SettlesShare party (S.left input.old) (S.left input.new) (K.taken output.old) (K.taken output.new)) }
    ensures kept { IfErr result (λ fault. IsOfFront fault → Keeps (K.taken output.old) (K.taken output.new)) }
    ensures ends { Ends (IsFault (batches (Some party))) (TakesFew (batches (Some party))) (S.left input.old) (S.left input.new) (S.faults input.old) (S.faults input.new) (K.faults output.old) (K.faults output.new) result }
{
    let mut reader = BatchReader::new(input);
    deal_read(alloc, party, &mut reader, output)
}
