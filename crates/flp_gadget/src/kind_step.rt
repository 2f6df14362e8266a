//! The steps by which a circuit declares a gadget.
use crate::poly_eval::PolyEval;

/// A step of the text from which `kind_of` makes a kind.
#[derive(PartialEq, Eq, Debug, Drop)]
pub enum KindStep {
    /// The product of two inputs.
    Mul,
    /// The value of this polynomial.
    Poly(PolyEval),
    /// The sum of what comes next over so many groups of inputs.
    Psum(u32),
}
