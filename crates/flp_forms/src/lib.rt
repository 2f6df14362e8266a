//! What a compiled circuit is made of: public values in a straight line, and linear forms over them.
//!
//! A public value is a constant, a joint word, or the sum or product of earlier public values: [`Steps`] holds
//! these steps, and [`Steps::run`] computes all values in one pass. A linear form is a list of terms, each a
//! public value or 1 or -1 times a word of an encoding, an answer of a gadget, or the unit: [`Forms`] holds
//! forms one after another, [`form_at`] is the value of one, and [`Forms::values`] those of several.
//!
//! Contracts see values as whole numbers that are not reduced: a sum is +, a product is *, and -1 is p - 1
//! (`specs/PublicValues.antt`, `specs/LinearForms.antt`). So each value is that of the circuit's text by the
//! laws of whole numbers alone, and the calls that compute it answer it modulo p.
//!
//! Only `Steps::new` and the calls that append take memory: `constant`, `sum`, `product`, `power` and
//! `scale_product` of [`Steps`], `push` and `append` of [`Forms`].
//!
//! Such forms are the affine gates of the circuits in the chapter "Fully Linear Proofs" of the VDAF draft of the
//! IETF, after Boneh et al., "Zero-Knowledge Proofs on Secret-Shared Data via Fully Linear PCPs", CRYPTO 2019.
#![tactic(auto)]

mod form;
mod forms;
mod step;
mod steps;
mod term;

pub use form::form_at;
pub use forms::Forms;
pub use step::Step;
pub use steps::Steps;
/// Want of memory.
pub use std::alloc::AllocError as Memory;
pub use term::{Scale, Source, Term};
