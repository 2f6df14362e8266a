//! From a circuit text to its compiled circuit.
//!
//! [`load_circuit`] reads a text, takes the circuit of the parameters where the text names a standard one, checks it and
//! compiles it. It answers the plan, with the parameters of a standard circuit, or the first fault in the order of these
//! passes. `specs/Loaded.antt` says which circuit a text is loaded as, `specs/Fault.antt` which fault is its first, both as
//! relations between the bytes and the answer; the functions in [`laws`] say that no text has two
//! answers, and that a loaded circuit is within the limits of the laws on proofs.
#![tactic(auto)]

mod circuit;
mod fault;
pub mod laws;

pub use circuit::{Loaded, load_circuit};
pub use fault::{CircuitFault, LoadFault};
/// Want of memory.
pub use std::alloc::AllocError as Memory;
