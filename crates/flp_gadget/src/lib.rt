//! Gadgets: the places at which a circuit multiplies.
//!
//! A gadget is a polynomial of one or more inputs. It is applied to words, and, as the same formula, to
//! polynomials: the honest proof holds the gadget applied to its wires. What makes a fully linear proof
//! work is one law, which each type of [`Gadget`] proves: the gadget applied to polynomials and then
//! evaluated at a point is the gadget of their values there.
//!
//! A circuit declares its gadgets by a text of steps, from which [`kind_of`] makes a [`Kind`]. Contracts
//! see a kind as a tree, `KindTree` in `specs/KindTree.antt`, and that file has the tree's arity, degree,
//! value and formula. The formulas are in `specs/Formulas.antt`, and the laws of a gadget in
//! `specs/GadgetLaws.antt`.
//!
//! [`kind_of`] alone takes memory.
//!
//! Gadgets are those of the VDAF draft of the IETF, chapter "Fully Linear Proofs", after Boneh et al.,
//! "Zero-Knowledge Proofs on Secret-Shared Data via Fully Linear PCPs", CRYPTO 2019.
#![tactic(auto)]

mod gadget;
mod kind;
mod kind_step;
pub mod laws;
mod leaf;
mod mul;
mod parallel_sum;
mod poly_eval;

pub use gadget::Gadget;
pub use kind::{Kind, kind_of};
pub use kind_step::KindStep;
pub use mul::Mul;
pub use parallel_sum::ParallelSum;
pub use poly_eval::PolyEval;
/// Want of memory.
pub use std::alloc::AllocError as Memory;
