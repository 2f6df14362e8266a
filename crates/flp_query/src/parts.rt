//! The parts of a gadget: what a proof has for it, and its point.
ghost use Rattle.std.specs.Prelude.{◌≡◌, ◌+◌, ◌<◌, ◌≤◌, length};
ghost use Rattle.flp_meaning.specs.Gadgets.{arity_of};
ghost use Rattle.flp_meaning.specs.Lengths.{proof_part, verifier_part, start_of, check_words};
ghost use Rattle.flp_meaning.specs.Proof.{seeds_in, polynomial_in};
ghost use Rattle.flp_meaning.specs.Verifier.{point_of};
ghost use Rattle.flp_plan.specs.Counted.{counted_lengths};

use flp_field::Fe;
use flp_plan::{Plan, laws};

/// Where the part of a gadget begins in a proof.
fn proof_start(plan: &Plan, gadget: u32) -> usize
    requires { gadget < length plan.now.circuit.gadgets }
    ensures start { result ≡ start_of (proof_part plan.now.circuit) gadget }
    ensures inside { result + proof_part plan.now.circuit gadget ≤ (counted_lengths plan.now.circuit).proof }
{
    laws::is_within_limits(plan);
    let mut start = 0;
    for earlier in 0..gadget {
        start += plan.arity(earlier) + plan.coefficients(earlier);
    }
    start
}

/// The seeds that a proof, of as many words as the plan's length `proof`, has for a gadget, lowest input first.
pub fn seeds<'a>(plan: &Plan, proof: &'a [Fe], gadget: u32) -> &'a [Fe]
    requires gadget { gadget < length plan.now.circuit.gadgets }
    requires proof { length proof.now ≡ (counted_lengths plan.now.circuit).proof }
    ensures seeds { result.now ≡ seeds_in plan.now.circuit proof.now gadget }
    ensures count { length result.now ≡ arity_of plan.now.circuit gadget }
{
    let start = proof_start(plan, gadget);
    &proof[start..start + plan.arity(gadget)]
}

/// The coefficients that a proof, of as many words as the plan's length `proof`, has for a gadget's polynomial,
/// lowest first.
pub fn polynomial<'a>(plan: &Plan, proof: &'a [Fe], gadget: u32) -> &'a [Fe]
    requires gadget { gadget < length plan.now.circuit.gadgets }
    requires proof { length proof.now ≡ (counted_lengths plan.now.circuit).proof }
    ensures { result.now ≡ polynomial_in plan.now.circuit proof.now gadget }
{
    let start = proof_start(plan, gadget) + plan.arity(gadget);
    &proof[start..start + plan.coefficients(gadget)]
}

/// The number of query words that combine the checks.
fn combining(plan: &Plan) -> usize
    ensures { result ≡ check_words plan.now.circuit }
{
    let checks = plan.checks();
    if checks > 1 { checks as usize } else { 0 }
}

/// The point of a gadget among the query words.
pub(crate) fn point(plan: &Plan, words: &[Fe], gadget: u32) -> Fe
    requires gadget { gadget < length plan.now.circuit.gadgets }
    requires words { length words.now ≡ (counted_lengths plan.now.circuit).query }
    ensures { result ≡ point_of plan.now.circuit words.now gadget }
{
    words[combining(plan) + gadget as usize]
}
