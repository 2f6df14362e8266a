//! The polynomial through given values on a domain, and its value at another point.
ghost use Rattle.std.specs.Prelude.{◌≡◌, ℕ, ◌↔◌, List, length, Contains, IsNone, IfSome};
ghost use Rattle.flp_field.specs.Domain.{domain};
ghost use Rattle.flp_poly.specs.Polynomial.{value_at};
ghost use Rattle.flp_poly.specs.Interpolation.{Interpolates, interpolated};
ghost use Rattle.flp_ntt.specs.TransformSize.{IsTransformSize};

use crate::point_weights::weights;
use crate::transform::inverse;
use flp_field::{Fe, dot, laws};

/// Writes to `out` the coefficients, lowest first, of the one polynomial with as many coefficients as
/// there are values that has these values on the domain of their number.
///
/// Both lengths are one power of two up to 1,048,576.
pub fn interpolate(values: &[Fe], out: &mut [Fe])
    requires size { IsTransformSize (length values.now) }
    requires room { length out.old ≡ length values.now }
    ensures coefficients { out.new ≡ interpolated values.now }
    ensures interpolates { Interpolates out.new values.now }
    ensures only { (coefficients : List ℕ) → Interpolates coefficients values.now → out.new ≡ coefficients }
{
    out.copy_from_slice(values);
    inverse(out);
}

/// The value at this point of the polynomial that [`interpolate`] finds, or None exactly where the
/// point is in the domain of that size.
///
/// Both lengths are one power of two up to 1,048,576. `room` is working room, and holds anything
/// afterwards. The value is an inner product of the values and of weights, for which no inverse is taken.
pub fn at_point(values: &[Fe], point: Fe, room: &mut [Fe]) -> Option<Fe>
    requires size { IsTransformSize (length values.now) }
    requires room { length room.old ≡ length values.now }
    ensures inside { IsNone result ↔ Contains (domain (length values.now)) point }
    ensures value { IfSome result (λ value. value ≡ value_at (interpolated values.now) point) }
    ensures through { (coefficients : List ℕ) → Interpolates coefficients values.now → IfSome result (λ value. value ≡ value_at coefficients point) }
{
    // The proof reads from here that the point and the values are words.
    let _word = point.value();
    laws::words(values);
    if weights(point, room) == Fe::ONE {
        return None;
    }
    Some(dot(room, values))
}
