//! Claims of reports and sums of their rows, shared by threads with no lock.
//!
//! A tally is a row of words that threads change in single atomic steps: one claim bit for each report, and for each
//! element of the output two sums, one of the low and one of the high 32-bit halves. A thread steps with a seat. The
//! weights of all seats add up to the full weight, so a seat that has it all is the only one left, and knows every
//! claim and every row that was added.
#![tactic(auto)]

pub mod laws;
mod steps;
mod tally;
mod view;

pub use std::alloc::AllocError as Memory;
pub use tally::{Claim, Seat, Tally};
pub use view::{Entry, View};
