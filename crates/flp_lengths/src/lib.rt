//! The command `lengths`: how many words each part of a report of a circuit has.
//!
//! [`lengths`] reads a circuit text from a source and writes seven lines to a sink, or answers the first fault of the text.
//! It reads at most 65,537 bytes, and these are the text that is judged. [`read_circuit`] does that alone, for each command
//! whose input is a circuit text. `specs/Reading.antt` says which bytes are the text, `specs/Text.antt` what is written, and
//! `specs/Reply.antt` what a run did with its input and its output.
#![tactic(auto)]

mod command;
mod input;
mod lines;

pub use command::lengths;
pub use flp_batch::EngineFault;
pub use input::{CircuitText, read_circuit};
pub use lines::push_number_line;
/// Want of memory.
pub use std::alloc::AllocError as Memory;
