//! The values on a domain of a polynomial with any number of coefficients.
ghost use Rattle.std.specs.Prelude.{◌≡◌, ℕ, ◌+◌, ◌<◌, length};
ghost use Rattle.flp_field.specs.Word.{word_power};
ghost use Rattle.flp_poly.specs.Polynomial.{value_at, values_on};
ghost use Rattle.flp_ntt.specs.TransformSize.{IsTransformSize};

use crate::transform::forward;
use flp_field::Fe;

/// Writes the values of a polynomial on the domain of the number of places. It can have more coefficients than
/// there are places, or fewer.
///
/// The number of places is a power of two up to 1,048,576.
pub fn values_of(poly: &[Fe], out: &mut [Fe])
    requires { IsTransformSize (length out.old) }
    ensures { out.new ≡ values_on (length out.old) poly.now }
{
    fold(poly, out);
    forward(out);
}

/// Writes the remainder of a polynomial by x^P - 1, where P is the number of places: it has the same value where
/// the power with the exponent P is 1.
fn fold(poly: &[Fe], out: &mut [Fe])
    requires { 0 < length out.old }
    ensures { (t : ℕ) → word_power t (length out.old) ≡ 1 → value_at out.new t ≡ value_at poly.now t }
{
    out.fill(Fe::ZERO);
    let mut place = 0;
    for k in 0..poly.len() {
        let coefficient = poly[k];
        out[place] = out[place].add(coefficient);
        place = next(place, out.len());
    }
}

/// The place after this one, or the first one after the last.
fn next(place: usize, size: usize) -> usize
    requires { place < size }
    ensures below { result < size }
    ensures turn { (t : ℕ) → word_power t size ≡ 1 → word_power t result ≡ word_power t (place + 1) }
{
    if place + 1 == size { 0 } else { place + 1 }
}
