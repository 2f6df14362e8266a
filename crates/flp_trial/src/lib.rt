//! The command `trial`: a batch that is made from a seed, verified by workers, and summed up.
//!
//! [`trial`] reads a circuit text from a source, makes a batch of so many reports from a seed, has the engine of `verify`
//! verify it, and writes to a sink how many reports have each verdict, and the aggregate. The batch lies in memory: nothing of
//! it is written. flp_generator says which batch it is, by words that any program can make again; `specs/Text.antt` says what
//! is written of it, by flp_verdict's definitions alone, so that the number of workers is not in it; and `specs/Reply.antt` what
//! a run did with its input and its output.
#![tactic(auto)]

mod command;
pub mod laws;
mod lines;
mod summary;

pub use command::trial;
pub use flp_batch::EngineFault;
/// Want of memory.
pub use std::alloc::AllocError as Memory;
