//! The files that `flp` reads and writes: batches of reports, and job files from which batches are
//! made. They are read piece by piece, and their bytes are lent without copying.
//!
//! A batch is a head of 32 bytes, the circuit text, old claims of 16 bytes each in rising order, and
//! the records. A job file is a head of 28 bytes, the circuit text, and the jobs. Each record and
//! each job is a nonce of 16 bytes and then words of 8 bytes. All numbers are little-endian.
//!
//! A batch of version 2 has buckets, 1 to 256 of them. Their number stands in 4 bytes in front of its
//! text, and each record has its bucket in 4 bytes behind its nonce. Version 1 has one bucket and
//! writes neither. Which versions are read, the caller says at [`BatchReader::head`].
//!
//! `specs/Batch.antt` and `specs/Job.antt` say of every list of bytes which is its first fault, or
//! that it is a batch or a job file. They know no circuit: the lengths of the parts are a [`Shape`]
//! or a [`JobShape`], which the caller makes from the plan of the head's text. A failed read is told
//! where it happens, in place of what would follow.
//!
//! | To | Use |
//! |---|---|
//! | read a batch from a [`flp_io::Source`] | [`BatchReader`]: `head`, `shape`, `claims`, then `segment` over all reports, then `end` |
//! | hold the records that were read | [`Segment`], made once for a [`Shape`] and filled again and again |
//! | look at one record | [`Record`], which `Segment::record_at` lends: its nonce, the parts of its shares, its words |
//! | bring the words of a record into the field | `Record::load`, which tells the first that is none |
//! | bring other words into the field | [`load`], where they are words |
//! | write a batch to a [`flp_io::Sink`] | [`write_head`], [`write_claims`], then [`write_record`] for each report |
//! | read a job file | [`JobReader`]: `head`, `shape`, `jobs`, `end` |
//! | look at one job | [`Job`], which [`Jobs::job_at`] lends; [`load_numbers`] for its input |
//! | know what the calls, one after the other, say of a whole file | [`laws`] |
#![tactic(auto)]

mod batch;
mod batch_head;
mod buckets;
mod fault;
mod head;
mod header;
mod job;
mod job_reader;
mod job_shape;
pub mod laws;
mod nonces;
mod read;
mod reader;
mod record;
mod segment;
mod shape;
mod write;

pub use batch::{BatchParts, BatchReader};
pub use fault::{BatchFault, ReadFault};
pub use header::{Header, JobHeader};
pub use job::{Job, Jobs};
pub use job_reader::JobReader;
pub use job_shape::JobShape;
pub use nonces::Nonces;
pub use reader::Reader;
pub use record::{Record, load, load_numbers};
pub use segment::Segment;
pub use shape::{CLAIMS_LIMIT, FILE_LIMIT, RECORD_LIMIT, Shape, WIDTH_LIMIT};
pub use write::{write_claims, write_head, write_record};

/// Want of memory, as std's allocators answer it.
pub use std::alloc::AllocError as Memory;
