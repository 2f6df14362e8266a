//! The nonces that are known while a batch is verified: the old claims, and those of the records that were met.
//!
//! Old claims are looked up where they lie, by bisection, and never copied. The nonces of records stand in an ordered
//! set, whose cost no choice of nonces makes worse than that of as many others. Contracts see both as one list in
//! strictly rising order of bytes (`specs/Known.antt`).
//!
//! | To | Use |
//! |---|---|
//! | know the old claims of a batch, and then the nonces of its records | [`Known`] |
//! | know the nonces of records behind old claims that are lent | [`Met`] |
//! | ask whether a nonce is an old claim | [`is_claim`] |
//! | know which nonces are in such a list, and its order | [`laws`] |
//! | write a piece or a line through a block | [`put_piece`], [`put_line`] |
#![tactic(auto)]

mod claims;
mod known;
pub mod laws;
mod met;
mod writing;

pub use claims::is_claim;
pub use known::Known;
pub use met::Met;
pub use writing::{put_line, put_piece};

/// Want of memory, as std's allocators answer it.
pub use std::alloc::AllocError as Memory;
