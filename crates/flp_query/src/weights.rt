//! The weights of the points of each gadget's domain at its query point.
ghost use Rattle.std.specs.Prelude.{◌≡◌, ◌+◌, ◌<◌, ◌≤◌, ℕ, List, length, IsNone};
ghost use Rattle.flp_meaning.specs.Gadgets.{size_of};
ghost use Rattle.flp_meaning.specs.Lengths.{start_of};
ghost use Rattle.flp_meaning.specs.Verifier as verifier;
ghost use Rattle.flp_plan.specs.Counted.{counted_lengths};
ghost use Rattle.flp_query.specs.Challenge.{weights_of, all_weights};

use crate::parts::point;
use flp_field::Fe;
use flp_ntt::weights;
use flp_plan::{Plan, laws};

/// The refusal of a query: the point of this gadget lies in its domain, where a wire has the value of a seed or
/// of an input. It is the least such gadget.
#[derive(Debug, Clone, Copy, PartialEq, Eq)]
pub struct InDomain {
    pub gadget: u32,
}

/// Writes the weights of all gadgets, one gadget after another, up to the least whose point lies in its domain,
/// which is answered. The power that says so is a by-product of the weights.
pub(crate) fn write_weights(plan: &Plan, words: &[Fe], out: &mut [Fe]) -> Option<u32>
    requires words { length words.now ≡ (counted_lengths plan.now.circuit).query }
    requires room { length out.old ≡ start_of (size_of plan.now.circuit) (length plan.now.circuit.gadgets) }
    ensures found { result ≡ verifier.gadget_in_domain plan.now.circuit words.now }
    ensures weights { IsNone result → out.new ≡ all_weights plan.now.circuit words.now }
{
    let mut start = 0;
    for gadget in 0..plan.gadgets() {
        let end = start + plan.domain_size(gadget);
        let at = point(plan, words, gadget);
        let power = weights(at, &mut out[start..end]);
        if power == Fe::ONE {
            return Some(gadget);
        }
        start = end;
    }
    None
}

/// The weights of a gadget among those of all gadgets.
pub(crate) fn weights_for<'a>(plan: &Plan, all: &'a [Fe], gadget: u32) -> &'a [Fe]
    requires gadget { gadget < length plan.now.circuit.gadgets }
    requires all { length all.now ≡ start_of (size_of plan.now.circuit) (length plan.now.circuit.gadgets) }
    ensures count { length result.now ≡ size_of plan.now.circuit gadget }
    ensures weights { (query : List ℕ) → all.now ≡ all_weights plan.now.circuit query → result.now ≡ weights_of plan.now.circuit query gadget }
{
    let start = weights_start(plan, gadget);
    &all[start..start + plan.domain_size(gadget)]
}

/// Where the weights of a gadget begin.
fn weights_start(plan: &Plan, gadget: u32) -> usize
    requires { gadget < length plan.now.circuit.gadgets }
    ensures start { result ≡ start_of (size_of plan.now.circuit) gadget }
    ensures inside { result + size_of plan.now.circuit gadget ≤ start_of (size_of plan.now.circuit) (length plan.now.circuit.gadgets) }
{
    laws::is_within_limits(plan);
    let mut start = 0;
    for earlier in 0..gadget {
        start += plan.domain_size(earlier);
    }
    start
}

/// The points of all domains.
pub(crate) fn all_points(plan: &Plan) -> usize
    ensures points { result ≡ start_of (size_of plan.now.circuit) (length plan.now.circuit.gadgets) }
    ensures few { result ≤ 32768 }
{
    laws::is_within_limits(plan);
    let mut points = 0;
    for gadget in 0..plan.gadgets() {
        points += plan.domain_size(gadget);
    }
    points
}
