//! Honest proofs, by transforms.
//!
//! A [`Prover`] is made once for a plan and writes the honest proof of an encoding, as `honest_proof` in
//! flp_meaning's `specs/Proof.antt` has it: for each gadget its seeds, and the coefficients of the gadget applied
//! to its wires. The wires are interpolated and put on a larger domain by transforms, the gadget is evaluated at
//! each point there, and a transform brings its coefficients back: about P log P products for each input of a
//! gadget whose domain has P points. [`WireRoom::formula_at_wires`] does that for one gadget alone, on whatever is
//! read, and [`checks::Checker`] says which check of an encoding fails, without a proof.
//!
//! Each of the three is made once for a plan and serves every plan that asks for the same room, as `sizes_of` in
//! flp_plan's `specs/Sizes.antt` has it. Their `new` alone takes memory.
//!
//! Honest proofs are those of the chapter "Fully Linear Proofs" of the VDAF draft of the IETF, after Boneh et al.,
//! "Zero-Knowledge Proofs on Secret-Shared Data via Fully Linear PCPs", CRYPTO 2019.
#![tactic(auto)]

mod answers;
pub mod checks;
mod formula;
mod part;
mod prover;
mod sizes;
mod values;
mod wires;

pub use formula::WireRoom;
pub use prover::Prover;
/// Want of memory.
pub use std::alloc::AllocError as Memory;
