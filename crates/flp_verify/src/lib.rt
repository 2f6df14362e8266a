//! The command `verify`: from the bytes of a batch to its verdicts and aggregate.
//!
//! [`verify`] walks through a batch, judges each record behind the old claims and the records before it, writes its
//! line, and keeps how many are accepted and the sum of their outs; the end of the input seen, it writes these. Its
//! contract says which text it writes, as a function of the bytes that it reads: `text_of` in flp_verdict's
//! `specs/Text.antt`, for any circuit, 2 to 16 shares and 1 to 16 proofs.
//!
//! [`finish`] ends a batch whose rows lie in a tally: it closes the tally and writes what follows the lines, which policies
//! may withhold, and the claims.
//!
//! What a caller needs beside it is handed on from the crates below: the loaded circuit of a text, and the [`Worker`]
//! that verifies one record.
#![tactic(auto)]

mod batch;
mod board;
mod closing;
mod command;
mod counted;
mod ending;
mod engine;
mod front;
pub mod laws;
mod lines;
mod marks;
mod numbers;
mod policies;
mod room;
mod telling;

pub use batch::verify_batch;
pub use closing::finish;
pub use command::verify;
pub use counted::{Counted, End, Summary};
pub use flp_batch::EngineFault;
pub use flp_load::{CircuitFault, LoadFault, Loaded, load_circuit};
pub use flp_worker::Worker;
pub use numbers::Numbers;

/// Want of memory, as std's allocators answer it.
pub use std::alloc::AllocError as Memory;
