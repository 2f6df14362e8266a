//! Field64: the field of the words in which the proofs of private statistics are computed.
//!
//! A word is a number below the modulus 2^64 - 2^32 + 1, held in the type [`Fe`]. Contracts see an
//! `Fe` as that number, and a slice of them as the list of these numbers; the definitions that the
//! contracts cite are in `specs/Word.antt`.
//!
//! A sum of many products is brought below the modulus once: [`Sum`] adds them as whole numbers, and [`dot`]
//! is the inner product of two slices. What depends on a small number alone, as a root of unity, its inverse
//! and the inverse of a count, stands in tables.
//!
//! No call takes memory, and each returns for every argument that its condition allows.
//!
//! The field is that of the VDAF draft of the IETF, chapter "Finite Fields", where it is Field64.
#![tactic(auto)]

pub mod laws;
mod roots;
mod sum;
mod tables;
mod word;

pub use sum::{Sum, dot};
pub use word::{Fe, MODULUS};
