//! Lines on the error output that several commands say.
//!
//! A line is made in a [`Line`] and written by one [`put`](flp_io::put), so that the lines of two processes do not
//! mix. [`put_file_fault`] writes the line of every fault that commands share: want of memory, a failed read or
//! write, a file that is refused, by its kind ([`FileKind`]), and a circuit that is refused. Nothing here takes
//! memory. `specs/Fault.antt` defines the lines, on `specs/Batch.antt`, `specs/Circuit.antt` and `specs/Pieces.antt`.
#![tactic(auto)]

mod batch;
mod circuit;
mod fault;
mod line;

pub use fault::{FileKind, put_file_fault, put_memory};
pub use line::Line;
