//! The weights of a domain's points at another point.
ghost use Rattle.std.specs.Prelude.{◌≡◌, ℕ, ◌*◌, ◌^◌, ◌<◌, length, slice_index};
ghost use Rattle.flp_field.specs.Word.{word_sum, word_difference, word_product, word_power};
ghost use Rattle.flp_poly.specs.Weights as domain;
ghost use Rattle.flp_poly.specs.Weights.{ones_along};
ghost use Rattle.flp_ntt.specs.TransformSize.{IsTransformSize};
ghost use Rattle.flp_ntt.specs.Levels.{HasHalfTurn};

use crate::transform::{inverse_of_size, inverse_root, log_of};
use flp_field::Fe;

/// Writes the weights at this point of the points of a domain: with them the value there of the polynomial
/// through values on the domain is an inner product. Answers the power of the point with the number of
/// places as its exponent, which is 1 exactly where the point lies in the domain.
///
/// The number of places is a power of two up to 1,048,576. This takes two products a place and no inverse.
pub fn weights(point: Fe, out: &mut [Fe]) -> Fe
    requires { IsTransformSize (length out.old) }
    ensures weights { out.new ≡ domain.weights (length out.old) point }
    ensures power { result ≡ word_power point (length out.old) }
{
    let log = log_of(out.len());
    let root = inverse_root(log);
    spread(point, root, inverse_of_size(out.len()), log, out)
}

/// Writes to place k `scale` times the sum of the first 2^log powers of `point` times the power k of `root`,
/// whose power with half the length as exponent is -1. Answers the power of `point` with the exponent 2^log.
///
/// The sums at a point and at its negation are that of half as many powers of the square, and this times the
/// point, added or taken off.
fn spread(point: Fe, root: Fe, scale: Fe, log: u32, out: &mut [Fe]) -> Fe
    requires size { length out.old ≡ 2 ^ log }
    requires turn { HasHalfTurn root log }
    ensures sums { (k : ℕ) → k < 2 ^ log → slice_index out.new k ≡ ones_along (2 ^ log) scale root point k }
    ensures power { result ≡ word_power point (2 ^ log) }
{
    if log == 0 {
        // The proof reads from here that both are words.
        let _scale = scale.value();
        let _point = point.value();
        out[0] = scale;
        return point;
    }
    let half = out.len() / 2;
    let (low, high) = out.split_at_mut(half);
    let power = spread(point.mul(point), root.mul(root), scale, log - 1, low);
    turn(low, high, point, root);
    power
}

/// Adds to each element its product with `point` and the power of `root` with its index, and writes to `high`
/// the element less this product.
fn turn(low: &mut [Fe], high: &mut [Fe], point: Fe, root: Fe)
    requires { length low.old ≡ length high.old }
    ensures sums { (k : ℕ) → k < length low.old → slice_index low.new k ≡ word_sum (slice_index low.old k) (word_product (slice_index low.old k) (point * root ^ k)) }
    ensures differences { (k : ℕ) → k < length low.old → slice_index high.new k ≡ word_difference (slice_index low.old k) (word_product (slice_index low.old k) (point * root ^ k)) }
{
    let mut twist = point;
    for k in 0..low.len() {
        let part = low[k];
        let turned = part.mul(twist);
        low[k] = part.add(turned);
        high[k] = part.sub(turned);
        twist = twist.mul(root);
    }
}
