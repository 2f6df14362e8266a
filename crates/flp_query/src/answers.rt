//! What a proof answers.
ghost use Rattle.std.specs.Prelude.{◌≡◌, ◌≢◌, ◌<◌, ℕ, length, slice_index};
ghost use Rattle.flp_meaning.specs.Gadgets.{size_of, call_count, call_gadget, call_number};
ghost use Rattle.flp_meaning.specs.Proof.{answers_in};
ghost use Rattle.flp_plan.specs.Counted.{counted_lengths};

use crate::parts::polynomial;
use flp_field::Fe;
use flp_ntt::values_of;
use flp_plan::{Plan, laws};

/// The points that a domain has at most.
pub const MOST_POINTS: usize = 4096;

/// Writes the answers of a proof to the calls, one after another.
///
/// `proof` has as many words as the plan's length `proof`, and `answers` a place for each call. `points` has
/// [`MOST_POINTS`] places for the values of a gadget's polynomial on its domain: one transform answers all calls of
/// a gadget.
pub fn write_answers(plan: &Plan, proof: &[Fe], points: &mut [Fe], answers: &mut [Fe])
    requires proof { length proof.now ≡ (counted_lengths plan.now.circuit).proof }
    requires points { length points.old ≡ 4096 }
    requires answers { length answers.old ≡ call_count plan.now.circuit }
    ensures { answers.new ≡ answers_in plan.now.circuit proof.now }
{
    laws::is_within_limits(plan);
    for gadget in 0..plan.gadgets() {
        let values = &mut points[..plan.domain_size(gadget)];
        values_of(polynomial(plan, proof, gadget), values);
        write_answers_of(plan, gadget, values, answers);
    }
}

/// Writes the answers to the calls of a gadget, from the values of its polynomial, and leaves all others.
fn write_answers_of(plan: &Plan, gadget: u32, values: &[Fe], answers: &mut [Fe])
    requires gadget { gadget < length plan.now.circuit.gadgets }
    requires values { length values.now ≡ size_of plan.now.circuit gadget }
    requires answers { length answers.old ≡ call_count plan.now.circuit }
    ensures own { (call : ℕ) → call < length answers.new → call_gadget plan.now.circuit call ≡ gadget → slice_index answers.new call ≡ slice_index values.now (call_number plan.now.circuit call) }
    ensures others { (call : ℕ) → call < length answers.new → call_gadget plan.now.circuit call ≢ gadget → slice_index answers.new call ≡ slice_index answers.old call }
{
    laws::is_within_limits(plan);
    for call in 0..plan.call_count() {
        if plan.call_gadget(call) == gadget {
            let number = plan.call_number(call) as usize;
            answers[call as usize] = values[number];
        }
    }
}
