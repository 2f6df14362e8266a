//! The value of a polynomial at a point.
ghost use Rattle.std.specs.Prelude.{◌≡◌};
ghost use Rattle.flp_poly.specs.Polynomial.{value_at};

use flp_field::Fe;

/// The value of the polynomial at this point, by Horner's rule: a product and a sum a coefficient.
pub fn eval(poly: &[Fe], at: Fe) -> Fe
    ensures { result ≡ value_at poly.now at }
{
    let mut value = Fe::ZERO;
    let mut left = poly.len();
    while left > 0 {
        left -= 1;
        value = value.mul(at).add(poly[left]);
    }
    value
}
