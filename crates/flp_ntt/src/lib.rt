//! Transforms over the roots of unity of Field64: the values of a polynomial on a domain, and back.
//!
//! The domain of size P, a power of two, is the list of the powers of the root of unity of that size,
//! from the power 0 on. [`forward`] turns P coefficients, lowest first, into the values at these
//! points, in their order, and [`inverse`] undoes it; both work in place and take about P log P
//! products. [`values_of`] takes a polynomial with any number of coefficients to the values on a domain.
//! [`interpolate`] finds the polynomial through given values, and [`at_point`] its value at a point outside
//! the domain. That value is the inner product of the values with weights, which depend on the point alone:
//! [`weights`] writes them, for use with many lists of values.
//!
//! The definitions that the contracts cite are in `specs/TransformSize.antt`, in flp_field (`domain`)
//! and, since layers that make no transform cite them too, in flp_poly: `value_at`, `values_on`,
//! `Interpolates`, `interpolated` and `weights`. That each list of P words is the values of one list of P
//! coefficients is a law of flp_poly; those of values at a point are in [`laws`].
//!
//! A transform takes a slice whose length is a power of two up to 1,048,576. No call takes memory.
//!
//! The fast transform is that of Gentleman and Sande (1966): a level halves the polynomials, and the
//! values come out in an order that one pass of exchanges puts right.
#![tactic(auto)]

mod folding;
mod interpolation;
pub mod laws;
mod levels;
mod mirror;
mod point_weights;
mod transform;

pub use folding::values_of;
pub use interpolation::{at_point, interpolate};
pub use point_weights::weights;
pub use transform::{forward, inverse};
