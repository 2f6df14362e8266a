//! A command over a batch, from the bytes of the file to what is written of it.
ghost use Rattle.std.specs.Prelude.{◌≡◌, ◌⊎◌, ℕ, List, Err, OnOk, OnErr, IfErr};
ghost use Rattle.std.specs.Io.KnownBytes.{Keeps};
ghost use Rattle.flp_report.specs.Reader.{source_of, SameLoan, place_of};
ghost use Rattle.flp_batch.specs.Ends.{Ends};
ghost use Rattle.flp_batch.specs.Fault.{IsOfFront, IsOfInput};
ghost use Rattle.flp_batch.specs.Format.{batches};
ghost use Rattle.flp_batch.specs.File.{IsFault, TakesFew};
ghost use Rattle.flp_batch.specs.Lines.{lines_of};
ghost use Rattle.flp_batch.specs.Reply.{WritesText, StopsEarly, StopsInText, SettlesEarly};
ghost use Rattle.flp_batch.specs.Setting.{Setting};

use crate::fault::EngineFault;
use crate::front::open;
use crate::judge::Task;
use flp_io::{Sink, Source};
use flp_report::BatchReader;
use std::alloc::Global;

/// Opens a batch and answers its records.
fn perform_on<T: Task, S: Source, K: Sink>(
    alloc: Global,
    task: &T,
    reader: &mut BatchReader<'_, S>,
    output: &mut K,
) -> Result<(), EngineFault>
    requires place { place_of reader.old ≡ 0 }
    requires readable { S.ready (source_of reader.old) }
    requires writable { K.ready output.old }
    ensures same { SameLoan reader.old reader.new }
    ensures done { OnOk result (WritesText (T.asked task.now) (λ by. (T.words task.now by).text)
        (S.left (source_of reader.old)) (S.left (source_of reader.new)) (K.taken output.old) (K.taken output.new)) }
    ensures stopped { OnErr result (StopsEarly (T.asked task.now) (λ by. lines_of (T.words task.now by).line)
        (S.left (source_of reader.old)) (S.left (source_of reader.new)) (K.taken output.old) (K.taken output.new)
        ⊎ ((result ≡ Err EngineFault.Write) × StopsInText (T.asked task.now) (λ by. (T.words task.now by).text)
        (S.left (source_of reader.old)) (S.left (source_of reader.new)) (K.taken output.old) (K.taken output.new))) }
    ensures lines { ((by : Setting) (records : List (List ℕ)) → (T.words task.now by).text records ≡ lines_of (T.words task.now by).line records)
        → OnErr result (StopsEarly (T.asked task.now) (λ by. lines_of (T.words task.now by).line)
        (S.left (source_of reader.old)) (S.left (source_of reader.new)) (K.taken output.old) (K.taken output.new)) }
    ensures settled { IfErr result (λ fault. IsOfInput fault → SettlesEarly (T.asked task.now) (λ by. lines_of (T.words task.now by).line)
        (S.left (source_of reader.old)) (S.left (source_of reader.new)) (K.taken output.old) (K.taken output.new)) }
    ensures kept { IfErr result (λ fault. IsOfFront fault → Keeps (K.taken output.old) (K.taken output.new)) }
    ensures ends { Ends (IsFault (batches (T.asked task.now))) (TakesFew (batches (T.asked task.now))) (S.left (source_of reader.old)) (S.left (source_of reader.new))
        (S.faults (source_of reader.old)) (S.faults (source_of reader.new)) (K.faults output.old) (K.faults output.new) result }
{
    match open(alloc, reader, task.party()) {
        Ok(opened) => task.answer(alloc, reader, &opened, output),
        Err(fault) => Err(fault),
    }
}

/// Reads the batch that is the input, and writes to the output what the command makes of its records.
///
/// An error is the first fault of the input, or [`EngineFault::Read`], [`EngineFault::Write`] or
/// [`EngineFault::Memory`]; the output has then taken a prefix of the lines of the records that were read
/// whole, or, where its own fault came behind these, of the text; where the text is the lines alone, always of
/// these (`lines`). Behind a fault of the input it has taken exactly the lines of the segments that were read
/// whole (`settled`), and nothing where the fault lies in front of the records (`kept`).
///
/// Room is taken for the text, the circuit, the old claims, one segment and one line, a block of lines, and for
/// what the command keeps.
pub fn perform<T: Task, S: Source, K: Sink>(
    alloc: Global,
    task: &T,
    input: &mut S,
    output: &mut K,
) -> Result<(), EngineFault>
    requires readable { S.ready input.old }
    requires writable { K.ready output.old }
    ensures done { OnOk result (WritesText (T.asked task.now) (λ by. (T.words task.now by).text) (S.left input.old) (S.left input.new) (K.taken output.old) (K.taken output.new)) }
    ensures stopped { OnErr result (StopsEarly (T.asked task.now) (λ by. lines_of (T.words task.now by).line) (S.left input.old) (S.left input.new) (K.taken output.old) (K.taken output.new)
        ⊎ ((result ≡ Err EngineFault.Write) × StopsInText (T.asked task.now) (λ by. (T.words task.now by).text) (S.left input.old) (S.left input.new) (K.taken output.old) (K.taken output.new))) }
    ensures lines { ((by : Setting) (records : List (List ℕ)) → (T.words task.now by).text records ≡ lines_of (T.words task.now by).line records)
        → OnErr result (StopsEarly (T.asked task.now) (λ by. lines_of (T.words task.now by).line) (S.left input.old) (S.left input.new) (K.taken output.old) (K.taken output.new)) }
    ensures settled { IfErr result (λ fault. IsOfInput fault → SettlesEarly (T.asked task.now) (λ by. lines_of (T.words task.now by).line) (S.left input.old) (S.left input.new) (K.taken output.old) (K.taken output.new)) }
    ensures kept { IfErr result (λ fault. IsOfFront fault → Keeps (K.taken output.old) (K.taken output.new)) }
    ensures ends { Ends (IsFault (batches (T.asked task.now))) (TakesFew (batches (T.asked task.now))) (S.left input.old) (S.left input.new) (S.faults input.old) (S.faults input.new) (K.faults output.old) (K.faults output.new) result }
{
    let mut reader = BatchReader::new(input);
    perform_on(alloc, task, &mut reader, output)
}
