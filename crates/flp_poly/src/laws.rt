//! The laws of polynomials, each the contract of a function that does nothing. A caller's proof takes
//! the law from here; the definitions are in `specs/PolynomialLaws.antt`, `specs/Interpolation.antt` and
//! `specs/Weights.antt`.
ghost use Rattle.flp_poly.specs.PolynomialLaws.{SumHasValue, ProductHasValue, SumHasDegree, ProductHasDegree};
ghost use Rattle.flp_poly.specs.PolynomialLaws.{RemainderIsValue, QuotientExists, QuotientIsUnique};
ghost use Rattle.flp_poly.specs.PolynomialLaws.{RootCount, AgreementIsEquality, ValuesDetermine};
ghost use Rattle.flp_poly.specs.Interpolation.{InterpolationExists, InterpolationIsUnique, DomainHasInverses};
ghost use Rattle.flp_poly.specs.Weights.{WeightsGiveValue};

/// The value of a sum is the sum of the values, and its degree is at most that of both.
pub fn sums()
    ensures value { SumHasValue }
    ensures degree { SumHasDegree }
{}

/// The value of a product is the product of the values, and its degree at most the sum of the degrees.
pub fn products()
    ensures value { ProductHasValue }
    ensures degree { ProductHasDegree }
{}

/// A polynomial can be divided by x - root, in one way, and the remainder is its value at the root.
pub fn divisions()
    ensures value { RemainderIsValue }
    ensures exists { QuotientExists }
    ensures unique { QuotientIsUnique }
{}

/// Different roots of a polynomial that has some coefficient but 0 and degree at most d are at most d.
pub fn root_count()
    ensures { RootCount }
{}

/// Two polynomials of degree at most d that agree on more than d different points have the same
/// coefficients, and so the same value everywhere.
pub fn agreement()
    ensures { AgreementIsEquality }
{}

/// A polynomial with as many coefficients as a domain has points is determined by its values there.
pub fn determined_by_values()
    ensures { ValuesDetermine }
{}

/// Each list of words whose number is a power of two up to 2^32 is the values, on the domain of that
/// size, of one polynomial of as many coefficients. The coefficients are a transform of the values: that
/// over the inverse of the root of unity, times the inverse of the size.
pub fn interpolation()
    ensures exists { InterpolationExists }
    ensures unique { InterpolationIsUnique }
    ensures inverses { DomainHasInverses }
{}

/// The value at a point of the polynomial through values on a domain is their inner product with the weights
/// of the domain's points at that point.
pub fn weights()
    ensures { WeightsGiveValue }
{}
