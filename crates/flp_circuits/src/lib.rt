//! The five standard circuits and their encoders: counts, sums, vectors of sums, histograms and bounded multi-hot vectors.
//!
//! A measurement is a list of numbers. Its encoding is a list of words of which each check of the circuit is 0, under all
//! joint words, and whose outs are the measurement's vector. [`body_of`] gives the circuit of parameters as a syntax tree,
//! [`encode`] the encoding of a measurement; [`fits`], [`input_len`] and [`meas_len`] say which parameters serve, and how many
//! numbers and words there are. [`laws`] has what is known of them: the checks as plain sums, that encodings are valid, and
//! that the circuits pass `check`. [`body_of`] alone takes memory.
//!
//! The parameters' limits and lengths are in `specs/Sizes.antt`, the encodings in `specs/Encoding.antt`, the circuits in
//! `specs/Standard.antt`, their checks in `specs/Formulas.antt`.
//!
//! The circuits are those of Prio3 (the VDAF draft of the IETF), over Field64 in a profile of its own.
#![tactic(auto)]

mod bits;
mod body;
mod encoding;
mod fault;
pub mod laws;
mod params;
mod tree;

pub use body::body_of;
pub use encoding::encode;
pub use fault::{MeasFault, Param, ParamFault};
pub use params::{fits, input_len, meas_len};
