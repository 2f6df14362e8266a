//! Polynomials over Field64, as slices of their coefficients, lowest first.
//!
//! A coefficient past the end is 0, so that slices of different lengths can be the same polynomial.
//! The definitions that the contracts cite are in `specs/Polynomial.antt`, and the laws that they obey
//! are the contracts of the functions in [`laws`]: among them that a polynomial of degree at most d with
//! some coefficient but 0 has d different roots at most, on which the soundness of a proof rests, and that
//! values on a domain are those of one polynomial (`specs/Interpolation.antt`), whose transforms flp_ntt has.
//!
//! [`eval`] is Horner's rule; where many values are wanted at one point, [`write_powers`] and [`eval_by`] share the
//! powers of the point.
//!
//! No call takes memory: results go to the slice that the caller lends.
#![tactic(auto)]

mod arithmetic;
mod division;
mod evaluation;
pub mod laws;
mod powers;

pub use arithmetic::{add, mul};
pub use division::divide_root;
pub use evaluation::eval;
pub use powers::{eval_by, write_powers};
