//! Seeds that hide an encoding: the honest proof of one valid encoding and that of another have the same verifier
//! for seeds that match one by one, wherever no query point lies in the domain of its gadget.
//!
//! The values of an honest proof's wires at the query points are `all_wires_at` in `specs/Wires.antt`, and the seeds
//! that give them to another encoding `reseeded`. A [`Hider`] is made once for a plan and writes both:
//! [`Hider::wires`] and [`Hider::reseed`]. That outside the domains each list of as many words is the values for one
//! list of seeds, that reseeding there and back gives the seeds from which it began, and that the two verifiers are
//! equal are the contracts of the functions in [`laws`].
//!
//! Nothing is said of how the seeds were chosen, and no probability is.
//!
//! [`Hider::new`] alone takes memory.
//!
//! This is what makes the proofs of Boneh et al., "Zero-Knowledge Proofs on Secret-Shared Data via Fully Linear PCPs"
//! (CRYPTO 2019), zero knowledge, counted seed by seed.
#![tactic(auto)]

mod hider;
pub mod laws;
mod reader;
mod seeds;

pub use hider::Hider;
/// Want of memory.
pub use std::alloc::AllocError as Memory;
