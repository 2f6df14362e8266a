//! Which bodies of circuit text are circuits: names, sorts, linearity and counts.
//!
//! [`check`] judges a body and keeps it in [`Checked`], which exists only for bodies that pass. What it answers is one function
//! of the body, `verdict` of `specs/Verdict.antt`: the first fault in the order of its passes, or what was counted.
//! `specs/Limits.antt` has the limits of what is declared and of what must be there at the end, `specs/Flaws.antt` the faults of
//! names and sorts over the whole text as a list, of which the first is answered, `specs/Events.antt` what unrolling the loops
//! meets, in its order, and `specs/Counts.antt` what is counted of it and where it stops. [`laws`] says what is known of a body
//! that passed: it is within the limits (`specs/Within.antt`), nothing in it is out of range, and it is linear.
//!
//! No definition speaks of the program's types: they are over the plain data of `flp_syntax`. The code goes through the text
//! twice: once without unrolling, keeping the first flaw so far, and once through all turns of the loops, with counters.
#![tactic(auto)]

mod counter;
mod flaw;
mod index;
mod judge;
pub mod laws;
mod limits;
mod passed;
mod scope;
mod text;
mod text_expr;
mod text_stmt;
mod unroll;
mod unroll_stmts;

pub use judge::check;
pub use passed::Checked;
