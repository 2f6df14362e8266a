//! The first powers of a word, and values of polynomials by them.
ghost use Rattle.std.specs.Prelude.{◌≡◌, ℕ, ◌≤◌, length};
ghost use Rattle.flp_field.specs.Domain.{powers_of};
ghost use Rattle.flp_poly.specs.Polynomial.{value_at};

use flp_field::{Fe, dot};

/// Writes the first powers of a word, from the power 0 on.
pub fn write_powers(at: Fe, out: &mut [Fe])
    ensures { out.new ≡ powers_of at (length out.old) }
{
    let mut power = Fe::ONE;
    for k in 0..out.len() {
        out[k] = power;
        power = power.mul(at);
    }
}

/// The value of the polynomial at the point of which these are the first powers: 2 to 65,536 of them.
///
/// It is Horner's rule by blocks, each an inner product with the powers, so that many values at one point
/// share them, and a coefficient waits for no other's product.
pub fn eval_by(poly: &[Fe], powers: &[Fe]) -> Fe
    requires some { 2 ≤ length powers.now }
    requires few { length powers.now ≤ 65536 }
    ensures { (at : ℕ) → powers.now ≡ powers_of at (length powers.now) → result ≡ value_at poly.now at }
{
    let mut value = Fe::ZERO;
    let mut left = poly.len();
    while left > 0 {
        let size = left.min(powers.len() - 1);
        let part = dot(&poly[left - size..left], &powers[..size]);
        value = value.mul(powers[size]).add(part);
        left -= size;
    }
    value
}
