//! The walk through a batch, which every command makes that reads one: its head, its circuit and its old
//! claims are read, then one segment of records after the other, and of each record a line is made. The lines
//! of a segment are written before the next is read. Then the end of the input is seen, and what follows the
//! lines is written.
//!
//! `specs/File.antt` says of every list of bytes that it is a batch, and with which circuit, or which is its
//! first fault, that of the circuit in its place among those of the layout. What is written is left to a
//! command's [`Task`] and its [`Judge`]: `specs/Reply.antt` says by the bytes of the whole file what of it
//! was written, and `specs/Ends.antt` how the call ended.
//!
//! | To | Use |
//! |---|---|
//! | run a command over a batch | [`perform`], with a [`Task`] |
//! | answer the records behind what was [`Opened`] | [`walk`], with a [`Judge`] that makes a line of each |
//! | read segment by segment what is judged otherwise | [`read_segment`], and [`read_end`] behind the last |
//! | know that no file has two answers | [`laws`] |
//!
//! Memory is taken for the text and its circuit, for the old claims, for one segment and one line, for a block
//! of lines, and for what a judge keeps.
#![tactic(auto)]

mod among;
mod command;
mod fault;
mod front;
mod judge;
pub mod laws;
mod records;

pub use among::{read_end, read_segment};
pub use command::perform;
pub use fault::EngineFault;
pub use front::{Opened, open};
pub use judge::{Judge, Task};
pub use records::walk;

/// Want of memory, as std's allocators answer it.
pub use std::alloc::AllocError as Memory;
