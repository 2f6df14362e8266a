//! Sums and products of polynomials.
ghost use Rattle.std.specs.Prelude.{◌≡◌, ◌+◌, ◌<◌, max, length, slice_index};
ghost use Rattle.flp_field.specs.Word.{word_sum};
ghost use Rattle.flp_poly.specs.Polynomial.{poly_sum, poly_product, product_coefficient};

use flp_field::Fe;

/// Writes the sum of two polynomials to `out`, which is as long as the longer one.
pub fn add(a: &[Fe], b: &[Fe], out: &mut [Fe])
    requires { length out.old ≡ max (length a.now) (length b.now) }
    ensures { out.new ≡ poly_sum a.now b.now }
{
    for k in 0..out.len() {
        out[k] = coefficient(a, k).add(coefficient(b, k));
    }
}

/// Writes the product of two polynomials to `out`, which has a place less than both have together.
///
/// Neither is empty. Each coefficient of `a` is multiplied once with each of `b`.
pub fn mul(a: &[Fe], b: &[Fe], out: &mut [Fe])
    requires left { 0 < length a.now }
    requires right { 0 < length b.now }
    requires size { length out.old + 1 ≡ length a.now + length b.now }
    ensures { out.new ≡ poly_product a.now b.now }
{
    for k in 0..out.len() {
        out[k] = coefficient_of_product(a, b, k);
    }
}

/// The coefficient with this index, which is 0 past the end.
fn coefficient(poly: &[Fe], k: usize) -> Fe
    ensures { result ≡ slice_index poly.now k }
{
    poly.get(k).copied().unwrap_or(Fe::ZERO)
}

/// The coefficient with this index of the product: the sum of the products of two coefficients whose
/// indexes add up to it.
fn coefficient_of_product(a: &[Fe], b: &[Fe], k: usize) -> Fe
    requires { k + 1 < length a.now + length b.now }
    ensures { result ≡ product_coefficient a.now b.now k }
{
    let first = (k + 1).saturating_sub(b.len());
    let end = a.len().min(k + 1);
    let mut sum = Fe::ZERO;
    for i in first..end {
        sum = sum.add(a[i].mul(b[k - i]));
    }
    sum
}
