//! The batch of trials of a circuit: reports that everybody can make again from a seed.
//!
//! [`make_batch`] makes in memory a batch of version 1 with two shares, one proof and no old claims. Its words are powers
//! of 7, and its measurements change from place to place. Of each eight reports the first four are honest; in the others
//! the proof, the query point or a word is changed, or the nonce is that of the first of the eight. `specs/Sequence.antt`
//! says which words a place takes, `specs/Input.antt` what it encodes, `specs/Place.antt` which record it has, and
//! `specs/Batch.antt` which batch that makes and when it is too large. The function in [`laws`] says that it is a batch.
#![tactic(auto)]

mod batch;
mod change;
mod fault;
mod input;
pub mod laws;
mod maker;
mod place;
mod sequence;

pub use batch::make_batch;
pub use change::Change;
pub use fault::GeneratorFault;
/// Want of memory.
pub use std::alloc::AllocError as Memory;
