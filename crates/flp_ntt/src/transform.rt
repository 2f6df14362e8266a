//! The transforms: coefficients to values on a domain, and back.
ghost use Rattle.std.specs.Prelude.{◌≡◌, ℕ, ◌^◌, ◌<◌, ◌≤◌, List, length, map, slice_index};
ghost use Rattle.flp_field.specs.Word.{word_product};
ghost use Rattle.flp_poly.specs.Polynomial.{value_at, values_on};
ghost use Rattle.flp_poly.specs.Interpolation.{Interpolates, interpolated, inverse_size};
ghost use Rattle.flp_poly.specs.Interpolation as of_domain;
ghost use Rattle.flp_ntt.specs.TransformSize.{IsTransformSize};
ghost use Rattle.flp_ntt.specs.Levels.{HasHalfTurn};

use crate::levels::scatter;
use crate::mirror::reorder;
use flp_field::{Fe, MODULUS, laws};

/// Turns coefficients, lowest first, into the values on the domain of their number, in place.
///
/// The length is a power of two up to 1,048,576. The value at the power k of the root of unity of that
/// size goes to place k.
pub fn forward(values: &mut [Fe])
    requires { IsTransformSize (length values.old) }
    ensures { values.new ≡ values_on (length values.old) values.old }
{
    let log = log_of(values.len());
    transform(values, Fe::root(log), log);
}

/// Turns the values on the domain of their number into the coefficients of the one polynomial, of as
/// many coefficients, that has them: undoes [`forward`], in place.
///
/// The length is a power of two up to 1,048,576. This is the transform with the inverse of the root,
/// divided by the length.
pub fn inverse(values: &mut [Fe])
    requires { IsTransformSize (length values.old) }
    ensures coefficients { values.new ≡ interpolated values.old }
    ensures interpolates { Interpolates values.new values.old }
    ensures undoes { (coefficients : List ℕ) → Interpolates coefficients values.old → values.new ≡ coefficients }
{
    // The proof reads from here that the values are words.
    laws::words(values);
    let log = log_of(values.len());
    transform(values, inverse_root(log), log);
    scale(values, inverse_of_size(values.len()));
}

/// The inverse of the root of unity of size 2^log.
pub(crate) fn inverse_root(log: u32) -> Fe
    requires { log ≤ 32 }
    ensures { result ≡ of_domain.inverse_root (2 ^ log) }
{
    let root = Fe::inverse_root(log);
    // The proof reads from here that it is a word: there is one inverse.
    let _word = root.value();
    root
}

/// The logarithm of a size: the size is the power of two with this exponent.
pub(crate) fn log_of(size: usize) -> u32
    requires { IsTransformSize size }
    ensures limit { result ≤ 20 }
    ensures power { size ≡ 2 ^ result }
{
    size.ilog2()
}

/// Turns 2^log coefficients into the values at the first powers of `root`, in their order. The power
/// of the root with half the length as exponent is -1.
fn transform(values: &mut [Fe], root: Fe, log: u32)
    requires size { length values.old ≡ 2 ^ log }
    requires limit { log < 64 }
    requires turn { HasHalfTurn root log }
    ensures { (k : ℕ) → k < 2 ^ log → slice_index values.new k ≡ value_at values.old (root ^ k) }
{
    scatter(values, root, log);
    reorder(values, log);
}

/// Multiplies each element by this word.
fn scale(values: &mut [Fe], by: Fe)
    ensures { values.new ≡ map (λ x. word_product by x) values.old }
{
    for x in values.iter_mut() {
        *x = by.mul(*x);
    }
}

/// The inverse of this size as a word: as the size divides p - 1, it is p - (p - 1) / size.
pub(crate) fn inverse_of_size(size: usize) -> Fe
    requires { IsTransformSize size }
    ensures { result ≡ inverse_size size }
{
    Fe::new(MODULUS - (MODULUS - 1) / size as u64).unwrap()
}
