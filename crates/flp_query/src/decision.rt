//! The decision on a verifier.
ghost use Rattle.std.specs.Prelude.{◌≡◌, length};
ghost use Rattle.flp_meaning.specs.Verifier.{decides};
ghost use Rattle.flp_plan.specs.Counted.{counted_lengths};

use flp_field::Fe;
use flp_gadget::Gadget;
use flp_plan::Plan;

/// Whether a verifier, the sum of those of the shares, is taken: its check is 0, and for each gadget the gadget
/// of the values of its wires is the word that follows them.
///
/// It has as many words as the plan's length `verifier`.
pub fn decide(plan: &Plan, verifier: &[Fe]) -> bool
    requires { length verifier.now ≡ (counted_lengths plan.now.circuit).verifier }
    ensures { result ≡ decides plan.now.circuit verifier.now }
{
    if verifier[0] != Fe::ZERO {
        return false;
    }
    let mut start = 1;
    for gadget in 0..plan.gadgets() {
        let end = start + plan.arity(gadget);
        if plan.kind(gadget).eval(&verifier[start..end]) != verifier[end] {
            return false;
        }
        start = end + 1;
    }
    true
}
