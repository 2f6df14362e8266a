//! Loops named by their depth.
//!
//! A body is walked once for each turn of its loops, and a name may be as long as a text. [`renamed`] copies the statements
//! of a body so that each loop is named by the number of loops round it and each variable by that of its loop, in as many
//! bytes: so the bytes of a name are compared once for each place where it stands, and no longer at each turn.
//! `specs/Renamed.antt` says what the copy is, `proofs/Meaning.antt` that its indices have the same values.
#![tactic(auto)]

mod index;
mod names;
mod stmt;
mod tree;

pub use stmt::renamed;
