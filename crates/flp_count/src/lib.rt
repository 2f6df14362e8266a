//! Counting what passes a test, for the laws of proofs and of joint words.
//!
//! `specs/Count.antt` says what it is that at most so many things pass a test, and what a list of choices is, each with
//! a test of its own. The law of these lists is in [`laws`]. Nothing is computed here.
#![tactic(auto)]

pub mod laws;
