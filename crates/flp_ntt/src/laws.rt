//! The laws of values at a point, each the contract of a function that does nothing. A caller's proof takes
//! the law from here; the definitions are in `specs/PointFormula.antt`, and in flp_poly those of the
//! interpolated polynomial, of its weights and of their law, and that there is one such polynomial only.
ghost use Rattle.flp_poly.specs.Weights.{WeightsGiveValue};
ghost use Rattle.flp_ntt.specs.PointFormula.{InverseIsInverse, AtPointFormula};

/// The value at a point of the polynomial through values on a domain is their inner product with the weights
/// that [`weights`](crate::weights) writes.
pub fn weights()
    ensures { WeightsGiveValue }
{}

/// At a point t outside the domain of P points this value is (t^P - 1) / P times the sum of y_i * a^i / (t - a^i),
/// where y_i are the values and a is the root of unity.
pub fn at_point_formula()
    ensures inverses { InverseIsInverse }
    ensures value { AtPointFormula }
{}
