//! The command `verify`: from the bytes of a batch to its text.
ghost use Rattle.std.specs.Prelude.{◌≡◌, ◌⊎◌, ◌≤◌, ◌<◌, ◌^◌, ◌-◌, None, Err, IfOk, IfErr, OnErr, length, map};
ghost use Rattle.std.specs.Io.KnownBytes.{Keeps};
ghost use Rattle.flp_batch.specs.Ends.{Ends};
ghost use Rattle.flp_batch.specs.Fault.{IsOfFront, IsOfInput};
ghost use Rattle.flp_batch.specs.File.{IsFault, TakesFew};
ghost use Rattle.flp_batch.specs.Format.{batches};
ghost use Rattle.flp_batch.specs.Reply.{StopsEarly, StopsInText, SettlesEarly};
ghost use Rattle.flp_verify.specs.Reply.{Releases, with_end};
ghost use Rattle.flp_verify.specs.Text.{verdict_lines, released_by};

use crate::batch::verify_batch;
use crate::closing::finish;
use crate::counted::{End, Summary};
use flp_batch::EngineFault;
use flp_io::{Sink, Source};
use flp_policy::Policy;
use flp_pool::Gate;
use std::alloc::Global;
use std::thread::Threads;

/// Verifies the batch that is the input, and writes its text to the output: [`verify_batch`], and then
/// [`finish`](crate::finish).
///
/// The end of the input seen, the text ends with the number of accepted records, the aggregate or the policy that withholds
/// it, and the claims where they are asked for. An error is the first fault of the input, or [`EngineFault::Read`],
/// [`EngineFault::Write`] or [`EngineFault::Memory`]; the output has then taken a prefix of the lines of the records that
/// were read whole, or, where its own fault came behind these, of the text, and nothing where the fault lies in front of the
/// records.
pub fn verify<R: Threads + Sync, S: Source, K: Sink, G: Gate>(
    rt: &R,
    alloc: Global,
    input: &mut S,
    output: &mut K,
    workers: u32,
    least: u64,
    claims: bool,
    gate: &G,
    policies: &mut [Box<dyn Policy>],
) -> Result<End, EngineFault>
    requires readable { S.ready input.old }
    requires writable { K.ready output.old }
    requires workers { (1 ≤ workers) × (workers ≤ 16) }
    requires few { length policies.old < 2 ^ 32 - 1 }
    ensures done { IfOk result (λ end. Releases least (λ more of. map (λ p. would p more of) policies.old) claims end
        (S.left input.old) (S.left input.new) (K.taken output.old) (K.taken output.new)) }
    ensures stopped { OnErr result (StopsEarly None verdict_lines (S.left input.old) (S.left input.new) (K.taken output.old) (K.taken output.new)
        ⊎ ((result ≡ Err EngineFault.Write) × StopsInText None (released_by least (λ more of. map (λ p. would p more of) policies.old) claims) (S.left input.old) (S.left input.new) (K.taken output.old) (K.taken output.new))) }
    ensures settled { IfErr result (λ fault. IsOfInput fault → SettlesEarly None verdict_lines (S.left input.old) (S.left input.new) (K.taken output.old) (K.taken output.new)) }
    ensures kept { IfErr result (λ fault. IsOfFront fault → Keeps (K.taken output.old) (K.taken output.new)) }
    ensures ends { Ends (IsFault (batches None)) (TakesFew (batches None)) (S.left input.old) (S.left input.new) (S.faults input.old) (S.faults input.new) (K.faults output.old) (K.faults output.new) result }
{
    crate::laws::ending_is_released();
    let counted = match verify_batch(rt, alloc, input, output, workers, least, gate, policies) {
        Ok(counted) => counted,
        Err(fault) => return Err(fault),
    };
    let end = counted.end;
    let finished = finish(alloc, counted, output, claims);
    end_with(end, finished)
}

/// How a batch ended whose ending was written, or why it was not.
fn end_with(end: End, finished: Result<Summary, EngineFault>) -> Result<End, EngineFault>
    ensures { result ≡ with_end end finished }
{
    match finished {
        Ok(_) => Ok(end),
        Err(fault) => Err(fault),
    }
}
