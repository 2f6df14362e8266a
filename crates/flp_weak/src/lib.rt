//! Counted soundness of fully linear proofs: of any proof for an encoding that fails its circuit, one query
//! word, the others fixed, has few accepted values.
//!
//! A [`WeakRoom`] is made once for a plan, and [`WeakRoom::weak_word`] names that word and its bound, as `weak_of` in
//! `specs/WeakWord.antt` has them. The word and the bound depend on the encoding, the joint words and the proof, and
//! on no query word. That no more values are accepted, and what follows for several proofs of one record, are the
//! contracts of the functions in [`laws`].
//!
//! The counts are those of single words: nothing is said of how the words were chosen, and no probability is.
//!
//! [`WeakRoom::new`] alone takes memory.
//!
//! This is the soundness of fully linear proofs as Boneh et al. have it, "Zero-Knowledge Proofs on Secret-Shared
//! Data via Fully Linear PCPs", CRYPTO 2019, counted word by word.
#![tactic(auto)]

pub mod laws;
mod lies;
mod word;

pub use word::{Weak, WeakRoom};
/// Want of memory.
pub use std::alloc::AllocError as Memory;
