//! The seeds between the values of wires.
//!
//! A wire's value at its gadget's point is its seed, times the weight there of the first point of the domain, and a
//! rest that the seed does not enter. That weight is not 0 outside the domain, so a seed is a quotient.
ghost use Rattle.std.specs.Prelude.{◌≡◌, ◌<◌, ℕ, length, map, slice_index, None};
ghost use Rattle.std.specs.List.{range_with_len};
ghost use Rattle.flp_field.specs.Word.{word_difference, word_product};
ghost use Rattle.flp_poly.specs.Weights.{weight};
ghost use Rattle.flp_ntt.specs.PointFormula.{word_inverse};
ghost use Rattle.flp_meaning.specs.Gadgets.{size_of};
ghost use Rattle.flp_meaning.specs.Verifier as verifier;
ghost use Rattle.flp_plan.specs.Counted.{counted_lengths};
ghost use Rattle.flp_hide.specs.Wires.{all_seeds_between};

use flp_field::Fe;
use flp_ntt::weights;
use flp_plan::{Plan, laws};

/// Writes for each wire the seed that raises its value from the one in `low` to the one in `high`.
///
/// `weights` has room for the weights of any domain.
pub(crate) fn write_seeds(
    plan: &Plan,
    words: &[Fe],
    low: &[Fe],
    high: &[Fe],
    weights: &mut [Fe],
    out: &mut [Fe],
)
    requires words { length words.now ≡ (counted_lengths plan.now.circuit).query }
    requires outside { verifier.gadget_in_domain plan.now.circuit words.now ≡ None }
    requires low { length low.now ≡ (counted_lengths plan.now.circuit).prove }
    requires high { length high.now ≡ (counted_lengths plan.now.circuit).prove }
    requires weights { length weights.old ≡ 4096 }
    requires out { length out.old ≡ (counted_lengths plan.now.circuit).prove }
    ensures { out.new ≡ all_seeds_between plan.now.circuit words.now low.now high.now }
{
    let mut start = 0;
    for gadget in 0..plan.gadgets() {
        let end = start + plan.arity(gadget);
        let inverse = inverse_weight(plan, words, gadget, weights);
        write_quotients(
            inverse,
            &low[start..end],
            &high[start..end],
            &mut out[start..end],
        );
        start = end;
    }
}

/// Writes the difference of each two words, times the inverse of a weight.
fn write_quotients(inverse: Fe, low: &[Fe], high: &[Fe], out: &mut [Fe])
    requires low { length low.now ≡ length out.old }
    requires high { length high.now ≡ length out.old }
    ensures { out.new ≡ map (λ k. word_product (word_difference (slice_index high.now k) (slice_index low.now k)) inverse) (range_with_len 0 (length out.old)) }
{
    for (k, seed) in out.iter_mut().enumerate() {
        *seed = high[k].sub(low[k]).mul(inverse);
    }
}

/// The inverse of the weight at a gadget's point of the first point of its domain.
fn inverse_weight(plan: &Plan, words: &[Fe], gadget: u32, room: &mut [Fe]) -> Fe
    requires gadget { gadget < length plan.now.circuit.gadgets }
    requires words { length words.now ≡ (counted_lengths plan.now.circuit).query }
    requires outside { verifier.gadget_in_domain plan.now.circuit words.now ≡ None }
    requires room { length room.old ≡ 4096 }
    ensures { result ≡ word_inverse (weight (size_of plan.now.circuit gadget) (verifier.point_of plan.now.circuit words.now gadget) 0) }
{
    laws::is_bounded(plan);
    let all = &mut room[..plan.domain_size(gadget)];
    weights(point(plan, words, gadget), all);
    let inverse = all[0].inv();
    // The proof reads from here that it is a word.
    let _word = inverse.value();
    inverse
}

/// The point of a gadget among the query words.
fn point(plan: &Plan, words: &[Fe], gadget: u32) -> Fe
    requires gadget { gadget < length plan.now.circuit.gadgets }
    requires words { length words.now ≡ (counted_lengths plan.now.circuit).query }
    ensures { result ≡ verifier.point_of plan.now.circuit words.now gadget }
{
    let points = plan.gadgets() as usize;
    let combining = words.len() - points;
    words[combining + gadget as usize]
}
