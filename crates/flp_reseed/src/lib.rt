//! The command `hide`: seeds for which another measurement has the same verifier.
//!
//! [`hide`] reads a job file, judges all places under the joint words of the first, and prints for each later place and
//! each proof the seeds for which an honest proof of that place's encoding has the verifier that the first place's has
//! with its own seeds, or says in which gadget's domain a query point of the first place lies. What it prints is said by
//! `specs/Text.antt`, and that the printed seeds match, one by one and back again, by `specs/Laws.antt`.
//!
//! | To | Use |
//! |---|---|
//! | print the matched seeds of a job file | [`hide`] |
//! | know what they have in common with those of the first place | [`laws`] |
//!
//! Nothing is said of how seeds were chosen, and nothing where a query point lies in a domain.
//!
//! Memory is taken for the whole job file, its circuit, the room of one proof and a block of lines, before anything is
//! written.
#![tactic(auto)]

mod command;
pub mod laws;
mod lines;
mod room;

pub use command::hide;

/// Want of memory, as std's allocators answer it.
pub use std::alloc::AllocError as Memory;
