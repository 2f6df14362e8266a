//! Workers that share a range of numbers by claiming them on a tally.
//!
//! A [`Work`] says what is done for a number, in a state that one worker has for itself. [`run_range`] forks a seat of
//! the tally to as many workers as there are states. Each walks the whole range from a start of its own, does the
//! numbers that it claims and adds their rows to the tally, so that each number is done once, by whichever worker
//! comes to it first.
#![tactic(auto)]

mod gate;
pub mod laws;
mod range;
mod span;
mod walk;
mod work;

pub use gate::{Gate, NoGate};
pub use range::run_range;
pub use work::Work;
