//! The circuit text that is the input.
ghost use Rattle.std.specs.Prelude.{◌≡◌, ◌≢◌, ◌≤◌, ℕ, List, Option, Err, IfOk, IfErr, IsErr, length, take, vec_len};
ghost use Rattle.flp_io.specs.Reads.{ConsumesAtMost, ReadsFrom};
ghost use Rattle.flp_load.specs.Loaded.{IsLoaded};
ghost use Rattle.flp_lengths.specs.Reading.{ReadsText, ReadsCircuit, FailsToRead};

use flp_batch::EngineFault;
use flp_io::{Failed, Source, fill};
use flp_list::Bytes;
use flp_load::{LoadFault, Loaded, load_circuit};
use std::alloc::{AllocError, Global};

/// How many bytes are read at most: one more than the longest text has.
const MOST: usize = 65_537;

/// A circuit text and the circuit that it is loaded as.
#[derive(Drop)]
pub struct CircuitText {
    /// The bytes of the text, at most 65,536.
    pub text: Bytes,
    /// The compiled circuit, with the parameters of a standard one.
    pub loaded: Loaded,
}

/// Reads the circuit text that is the input, and loads it.
///
/// At most 65,537 bytes are read, and these are the text. After `Ok` the input was read to its end. It is not to be read again.
/// An error is the first fault of the text, or else [`EngineFault::Read`] or [`EngineFault::Memory`].
pub fn read_circuit<S: Source>(alloc: Global, input: &mut S) -> Result<CircuitText, EngineFault>
    requires ready { S.ready input.old }
    ensures circuit { IfOk result (λ circuit. ReadsCircuit (S.left input.old) (S.left input.new) circuit.text circuit.loaded.params circuit.loaded.plan.circuit) }
    ensures refused { IfErr result (λ fault. FailsToRead fault (S.left input.old) (S.left input.new)) }
    ensures source { ReadsFrom S.left S.faults S.ready input.old input.new (ConsumesAtMost 65537) (result ≡ Err EngineFault.Read) ⊥ }
{
    let room: Result<Vec<u8>, AllocError> = vec![in alloc; 0; MOST];
    match room {
        Ok(room) => read_into(alloc, input, room),
        Err(_) => Err(EngineFault::Memory),
    }
}

/// Reads the text into the room, and loads it.
#[tactic(auto, using(crate::proofs::ReadingLemmas::reads_circuit))]
fn read_into<S: Source>(
    alloc: Global,
    input: &mut S,
    mut room: Vec<u8>,
) -> Result<CircuitText, EngineFault>
    requires room { vec_len room ≡ 65537 }
    requires ready { S.ready input.old }
    ensures circuit { IfOk result (λ circuit. ReadsCircuit (S.left input.old) (S.left input.new) circuit.text circuit.loaded.params circuit.loaded.plan.circuit) }
    ensures refused { IfErr result (λ fault. FailsToRead fault (S.left input.old) (S.left input.new)) }
    ensures source { ReadsFrom S.left S.faults S.ready input.old input.new (ConsumesAtMost 65537) (result ≡ Err EngineFault.Read) ⊥ }
{
    match read_text(input, room.as_mut_slice()) {
        Ok(count) => {
            room.truncate(count);
            load_room(alloc, room)
        }
        Err(_) => Err(EngineFault::Read),
    }
}

/// Reads the text to the front of the room, and answers its length.
#[tactic(auto, using(crate::proofs::ReadingLemmas::reads_text))]
fn read_text<S: Source>(input: &mut S, room: &mut [u8]) -> Result<usize, Failed>
    requires room { length room.old ≡ 65537 }
    requires ready { S.ready input.old }
    ensures fits { IfOk result (λ count. count ≤ length room.new) }
    ensures text { IfOk result (λ count. ReadsText (S.left input.old) (S.left input.new) (take count room.new)) }
    ensures source { ReadsFrom S.left S.faults S.ready input.old input.new (ConsumesAtMost 65537) (IsErr result) ⊥ }
{
    fill(input, room)
}

/// Loads the text in the room, which is kept.
fn load_room(alloc: Global, room: Vec<u8>) -> Result<CircuitText, EngineFault>
    ensures text { IfOk result (λ circuit. circuit.text ≡ room.items) }
    ensures loaded { IfOk result (λ circuit. IsLoaded room.items circuit.loaded.params circuit.loaded.plan.circuit) }
    ensures refused { IfErr result (λ fault. (left left' : Option (List ℕ)) → ReadsText left left' room.items → FailsToRead fault left left') }
    ensures not_read { result ≢ Err EngineFault.Read }
{
    match load_text(alloc, room.as_slice()) {
        Ok(loaded) => Ok(CircuitText {
            text: Bytes::from_vec(room),
            loaded,
        }),
        Err(fault) => Err(fault),
    }
}

/// Loads the text.
fn load_text(alloc: Global, text: &[u8]) -> Result<Loaded, EngineFault>
    ensures loaded { IfOk result (λ loaded. IsLoaded text.now loaded.params loaded.plan.circuit) }
    ensures refused { IfErr result (λ fault. (left left' : Option (List ℕ)) → ReadsText left left' text.now → FailsToRead fault left left') }
    ensures not_read { result ≢ Err EngineFault.Read }
{
    match load_circuit(alloc, text) {
        Ok(loaded) => Ok(loaded),
        Err(LoadFault::Memory) => Err(EngineFault::Memory),
        Err(LoadFault::Circuit(fault)) => Err(EngineFault::Circuit(fault)),
    }
}
