//! Measurements read back from words, and what joint words tell of words that are the encoding of none.
//!
//! [`decode`] answers whether words are the encoding of a measurement that a standard circuit takes, and which.
//! [`joint_word`] answers which joint word catches them if they are not. No call takes memory.
//!
//! What an encoding is stands in `specs/Decoding.antt`, what joint words tell in `specs/Caught.antt`, and what is known of
//! both in `specs/Laws.antt`.
#![tactic(auto)]

mod bits;
mod caught;
mod decoding;
mod encoded;
mod joint;
pub mod laws;

pub use caught::Caught;
pub use decoding::decode;
pub use joint::joint_word;
