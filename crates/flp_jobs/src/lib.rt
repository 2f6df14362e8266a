//! Commands over job files, and the command `prove`: measurements become reports.
//!
//! A job file has for each report a measurement, or an encoding for a circuit of the text's own, the words of
//! shares 1 and up, the seeds of the proofs, and their joint and query words. [`prove`] reads such a file whole
//! and judges it, then judges every place, and only then writes the batch: per job the record whose shares from 1
//! on are the given words, and whose share 0 makes the sum of the shares the job's encoding with its honest proofs.
//!
//! The contract of [`prove`] says which bytes it writes, as a function of the bytes that it reads, and why it
//! refuses a file: `specs/File.antt` of flp_batch says which bytes are a job file or which is their first fault,
//! `specs/Place.antt` which place is bad, `specs/Record.antt` which record is made of a job. The functions in [`laws`]
//! say that no file has two answers, and that what is written is a batch of honest reports.
//!
//! | To | Use |
//! |---|---|
//! | make the batch of a job file | [`prove`] |
//! | say why there is none | [`ProveFault`], [`PlaceFault`] |
//! | run another command over a job file, whose places are judged first | [`perform`], with a [`JobTask`] that has [`Rules`] |
//! | bring the words of a job of a [`JobFile`] into the field | [`load_encoding`], [`load_joint`], [`load_seeds`], [`load_query`] |
//! | bring words out of the field | [`write_numbers`] |
//! | know that no file has two answers, and that a batch is read again as honest reports | [`laws`] |
//!
//! Memory is taken for the whole job file, its circuit and one record, before anything is written.
//!
//! A command over a job file reads it whole, judges every place, each under the joint words that the command's rules
//! name, and only then writes: [`prove`] is one of them.
#![tactic(auto)]

mod command;
mod fault;
mod file;
mod judge;
pub mod laws;
mod maker;
mod parts;
mod rules;
mod task;
mod words;

pub use command::prove;
pub use fault::{PlaceFault, ProveFault};
pub use file::JobFile;
pub use parts::{load_encoding, load_joint, load_query, load_seeds};
pub use rules::{Joints, Rules};
pub use task::{JobTask, perform};
pub use words::write_numbers;

/// Want of memory, as std's allocators answer it.
pub use std::alloc::AllocError as Memory;
