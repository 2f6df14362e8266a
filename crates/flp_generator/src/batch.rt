//! The batch, made in memory.
ghost use Rattle.std.specs.Prelude.{◌≡◌, ◌≤◌, ◌*◌, length, IfOk, IfErr, OnOk};
ghost use Rattle.std.specs.List.{concat};
ghost use Rattle.std.specs.Io.KnownBytes.{Appends};
ghost use Rattle.std.specs.Result.{result_err};
ghost use Rattle.flp_io.specs.Writes.{HasRoom};
ghost use Rattle.flp_load.specs.Loaded.{IsLoaded};
ghost use Rattle.flp_report.specs.Shape.{bytes_of};
ghost use Rattle.flp_jobs.specs.Setting.{IsCircuitOf};
ghost use Rattle.flp_generator.specs.Batch.{trial_shape, trial_header, trial_records, trial_batch, trial_size, too_large, IsGeneratorFault};
ghost use Rattle.flp_generator.specs.Maker.{IsAt};

use crate::fault::GeneratorFault;
use crate::maker::Maker;
use crate::place::nonce_of;
use flp_io::{MemorySink, Sink, SureSource};
use flp_list::Bytes;
use flp_load::Loaded;
use flp_plan::{Plan, laws};
use flp_report::{FILE_LIMIT, Header, RECORD_LIMIT, Shape, write_head, write_record};
use std::alloc::Global;

/// The shape of the records.
fn shape_of(plan: &Plan) -> Shape
    ensures { bytes_of result ≡ bytes_of (trial_shape plan.now.circuit) }
{
    let lengths = plan.lengths();
    Shape {
        version: 1,
        shares: 2,
        proofs: 1,
        buckets: 1,
        meas: lengths.meas,
        joint: lengths.joint,
        query: lengths.query,
        proof: lengths.proof,
        outs: lengths.outs,
    }
}

/// What stands in front of the records.
fn header_of(text: Bytes, reports: u32) -> Header
    ensures { result ≡ trial_header text reports }
{
    Header {
        version: 1,
        shares: 2,
        proofs: 1,
        text,
        claims: 0,
        reports,
        buckets: 1,
    }
}

/// How many bytes the batch has, where its text has so many; or which size is above its limit: that of a record, or else that
/// of the batch.
fn size_of(plan: &Plan, text: usize, reports: u32) -> Result<usize, u64>
    requires { text ≤ 65536 }
    ensures size { IfOk result (λ size. size ≡ trial_size plan.now.circuit text reports) }
    ensures large { result_err result ≡ too_large plan.now.circuit text reports }
{
    let record = shape_of(plan).bytes();
    if record > RECORD_LIMIT {
        return Err(record);
    }
    let size = 32 + text as u64 + u64::from(reports) * record;
    if size > FILE_LIMIT {
        return Err(size);
    }
    Ok(size as usize)
}

/// Writes the records of all places to a sink that has room for them.
fn write_records<K: Sink>(
    loaded: &Loaded,
    maker: &mut Maker,
    seed: u32,
    reports: u32,
    output: &mut K,
)
    requires circuit { IsCircuitOf loaded.now.params loaded.now.plan.circuit }
    requires at { IsAt loaded.now seed 0 maker.old }
    requires writable { K.ready output.old }
    requires room { HasRoom (K.spare output.old) (reports * bytes_of (trial_shape loaded.now.plan.circuit)) }
    ensures { Appends (K.taken output.old) (K.taken output.new) (concat (trial_records loaded.now.params loaded.now.plan.circuit seed reports)) }
{
    laws::is_bounded(&loaded.plan);
    for place in 0..reports {
        maker.make(loaded, seed, place);
        match write_record(output, &nonce_of(seed, place), None, maker.words()) {
            Ok(()) => {}
            Err(_) => unreachable!("there is room"),
        }
    }
}

/// Writes the batch to a sink that has room for it.
fn write_batch<K: Sink>(
    text: Bytes,
    loaded: &Loaded,
    maker: &mut Maker,
    seed: u32,
    reports: u32,
    output: &mut K,
)
    requires text { length text ≤ 65536 }
    requires circuit { IsCircuitOf loaded.now.params loaded.now.plan.circuit }
    requires at { IsAt loaded.now seed 0 maker.old }
    requires writable { K.ready output.old }
    requires room { HasRoom (K.spare output.old) (trial_size loaded.now.plan.circuit (length text) reports) }
    ensures { Appends (K.taken output.old) (K.taken output.new) (trial_batch text loaded.now.params loaded.now.plan.circuit seed reports) }
{
    match write_head(output, &header_of(text, reports)) {
        Ok(()) => {}
        Err(_) => unreachable!("there is room"),
    }
    write_records(loaded, maker, seed, reports, output);
}

/// Makes the batch of trials of a circuit in memory: so many reports, whose words a seed gives.
///
/// `text` is the circuit's text, at most 65,536 bytes, which stands in the batch. Whether the batch is too large is seen
/// before anything is made: a record has at most 16,777,216 bytes, the batch at most 1,073,741,824. The room for the whole
/// batch is taken at once.
///
/// # Errors
/// The batch is too large, or there is no memory for it.
pub fn make_batch(
    alloc: Global,
    text: Bytes,
    loaded: &Loaded,
    seed: u32,
    reports: u32,
) -> Result<SureSource, GeneratorFault>
    requires { IsLoaded text loaded.now.params loaded.now.plan.circuit }
    ensures batch { IfOk result (λ batch. batch ≡ trial_batch text loaded.now.params loaded.now.plan.circuit seed reports) }
    ensures fits { OnOk result (too_large loaded.now.plan.circuit (length text) reports ≡ None) }
    ensures fault { IfErr result (IsGeneratorFault loaded.now.plan.circuit (length text) reports) }
{
    let size = match size_of(&loaded.plan, text.as_slice().len(), reports) {
        Ok(size) => size,
        Err(bytes) => return Err(GeneratorFault::TooLarge(bytes)),
    };
    let mut sink = MemorySink::new(alloc, usize::MAX, Vec::new(alloc));
    sink.reserve(size)?;
    let mut maker = Maker::new(alloc, loaded, seed)?;
    write_batch(text, loaded, &mut maker, seed, reports, &mut sink);
    Ok(SureSource::new(sink.into_bytes()))
}
