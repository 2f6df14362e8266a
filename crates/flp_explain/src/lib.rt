//! The command `explain`: which challenge word limits each proof of a batch.
//!
//! [`explain`] walks through a batch and writes for each proof of each record whether the unshared encoding is valid
//! under the proof's joint words, or else the query word that limits the proof, and how many of its values are
//! accepted at most. Its contract says which lines it writes, as a function of the bytes that it reads: `lines_by`
//! in `specs/Text.antt`. A record with a word that is no word of the field has a line that names the least such word;
//! records whose nonce stood in the file before are explained like any other.
//!
//! The law behind it is the contract of [`laws::false_reports`]: of a record whose encoding fails under the joint
//! words of a proof, few values of one query word, the others fixed, make it accepted.
#![tactic(auto)]

mod command;
mod explaining;
pub mod laws;
mod text;

pub use command::explain;
pub use flp_batch::EngineFault;

/// Want of memory, as std's allocators answer it.
pub use std::alloc::AllocError as Memory;
