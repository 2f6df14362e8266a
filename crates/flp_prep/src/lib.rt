//! The command `prep`: what one party of a batch tells the others of each record.
//!
//! [`prep`] walks through a batch and writes for each record that was verified the verifier words of one share, and
//! for each other record the line of `verify`. Its contract says which lines it writes, as a function of the bytes
//! that it reads (`specs/Text.antt`): the words are those that flp_meaning defines for that share alone.
#![tactic(auto)]

mod command;
mod preparing;
mod text;

pub use command::prep;
pub use flp_batch::EngineFault;

/// Want of memory, as std's allocators answer it.
pub use std::alloc::AllocError as Memory;
