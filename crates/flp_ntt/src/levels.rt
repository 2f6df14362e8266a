//! The levels of a transform: each halves the polynomials, and doubles their number.
ghost use Rattle.std.specs.Prelude.{◌≡◌, ℕ, ◌+◌, ◌*◌, ◌%◌, ◌^◌, ◌<◌, length, slice_index};
ghost use Rattle.flp_field.specs.Word.{modulus, word_sum};
ghost use Rattle.flp_poly.specs.Polynomial.{value_at};
ghost use Rattle.flp_ntt.specs.Levels.{HasHalfTurn, reversed};

use flp_field::{Fe, laws};

/// Turns 2^log coefficients into the values at the first powers of `root`, whose power with half the
/// length as exponent is -1. The value at the power with exponent k goes to the place whose binary
/// digits are those of k in reverse.
///
/// The values at even powers are those of the polynomial of sums, the values at odd powers those of
/// the polynomial of turned differences, both with half the coefficients, at powers of the square.
pub fn scatter(values: &mut [Fe], root: Fe, log: u32)
    requires size { length values.old ≡ 2 ^ log }
    requires turn { HasHalfTurn root log }
    ensures { (k : ℕ) → k < 2 ^ log → slice_index values.new k ≡ value_at values.old (root ^ reversed log k) }
{
    if log == 0 {
        // A single coefficient is the value. The proof reads from here that it is a word.
        laws::words(values);
        return;
    }
    let half = values.len() / 2;
    let (low, high) = values.split_at_mut(half);
    butterflies(low, high, root);
    let square = root.mul(root);
    scatter(low, square, log - 1);
    scatter(high, square, log - 1);
}

/// Replaces the two halves of a polynomial's coefficients by their sums and by their differences, each
/// times the power of `root` with its index.
fn butterflies(low: &mut [Fe], high: &mut [Fe], root: Fe)
    requires { length low.old ≡ length high.old }
    ensures sums { (k : ℕ) → k < length low.old → slice_index low.new k ≡ word_sum (slice_index low.old k) (slice_index high.old k) }
    ensures turned { (k : ℕ) → k < length low.old → (slice_index high.new k + root ^ k * slice_index high.old k) % modulus ≡ (root ^ k * slice_index low.old k) % modulus }
{
    let mut twiddle = Fe::ONE;
    for k in 0..low.len() {
        let difference = low[k].sub(high[k]);
        low[k] = low[k].add(high[k]);
        high[k] = difference.mul(twiddle);
        twiddle = twiddle.mul(root);
    }
}
