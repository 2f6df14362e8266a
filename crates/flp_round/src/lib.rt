//! One segment of a batch, verified by workers over an open tally.
//!
//! A [`Round`] says what is verified: the records that a reading left in a segment, and which of them are replayed. A
//! [`Crew`] is made once for a whole batch, with a worker's room for each worker and room for the verdicts of a
//! segment. [`verify_segment`] lets the crew claim the places of a round on the tally. Each record that is not replayed
//! is verified by the worker that claimed its place, and the row of an accepted one is added under its place. After
//! that the crew lends the verdicts in the order of the file, whichever worker found them.
//!
//! What is found of a record and the row that it brings are defined in `specs/Findings.antt`, with no worker in it.
//!
//! [`Crew::new`] alone takes memory.
#![tactic(auto)]

mod crew;
mod round;
mod row;
mod verifier;

pub use crew::{Crew, verify_segment};
pub use round::Round;
/// Want of memory.
pub use std::alloc::AllocError as Memory;
