//! Additive shares of encodings over Field64.
//!
//! An encoding of n words is split into shares of n words each, whose sum, word by word, it is. The shares
//! stand one after another in one slice, share 0 first: share 1 and the later ones are given words, and
//! share 0 is the encoding minus their sum. All shares but one say nothing of the encoding, in this sense:
//! whatever they are and whatever the encoding is, exactly one list of given words leads to them. That and
//! the other laws are the contracts of the functions in [`laws`]; the definitions that contracts cite are
//! in `specs/Shares.antt` and in flp_field's `specs/Sums.antt`.
//!
//! Where shares do not stand in one slice, their sum is made with [`clear`] and an [`add_to`] for each.
//!
//! No call takes memory: results go to the slice that the caller lends. Where the given words come from is
//! the caller's affair; for shares that hide an encoding they are to be random.
//!
//! The shares are those of Prio (Corrigan-Gibbs and Boneh, NSDI 2017) and of Prio3 in the VDAF draft of
//! the IETF.
#![tactic(auto)]

pub mod laws;
mod shares;

pub use shares::{add_to, clear, split, unshare};
