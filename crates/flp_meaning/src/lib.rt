//! Fully linear proofs: what a circuit means, its lengths, wires, honest proof, verifier and decision, as
//! definitions that the compiler, the prover, the query and the soundness count share.
//!
//! The definitions stand in `specs/`, over the mirror of the syntax trees in flp_syntax, and are the part
//! to read: `Meaning`, `Gadgets`, `Lengths`, `Terms`, `Wires`, `Proof`, `Verifier`. They follow the chapters
//! on FLPs and on Prio3 of the VDAF draft, and Boneh et al., "Zero-Knowledge Proofs on Secret-Shared Data via
//! Fully Linear PCPs" (CRYPTO 2019). What they obey is the contracts of the functions in [`laws`].
//!
//! No call takes memory, and none does anything: each is a law.
#![tactic(auto)]

pub mod laws;
