//! The checks of a share, combined.
ghost use Rattle.std.specs.Prelude.{◌≡◌, ℕ, List, length};
ghost use Rattle.flp_meaning.specs.Circuit.{checks_of, with_answers};
ghost use Rattle.flp_meaning.specs.Gadgets.{call_count};
ghost use Rattle.flp_meaning.specs.Verifier.{check_of};
ghost use Rattle.flp_plan.specs.Counted.{counted_lengths};
ghost use Rattle.flp_plan.specs.View.{publics_of};

use flp_field::Fe;
use flp_plan::{Plan, Reading, laws};

/// The one check, or the sum of several, each times its query word.
pub(crate) fn combined_check(plan: &Plan, reading: &Reading, words: &[Fe]) -> Fe
    requires words { length words.now ≡ (counted_lengths plan.now.circuit).query }
    requires publics { length reading.now.publics.now ≡ length plan.now.steps }
    requires x { length reading.now.x.now ≡ plan.now.circuit.meas }
    requires answers { length reading.now.answers.now ≡ call_count plan.now.circuit }
    ensures { (joint : List ℕ) → reading.now.publics.now ≡ publics_of plan.now joint → result ≡ check_of plan.now.circuit (checks_of plan.now.circuit (with_answers reading.now.x.now joint reading.now.unit reading.now.answers.now)) words.now }
{
    laws::is_within_limits(plan);
    if plan.checks() == 1 {
        return plan.check(0, reading.publics, reading.x, reading.answers, reading.unit);
    }
    let mut sum = Fe::ZERO;
    for index in 0..plan.checks() {
        let value = plan.check(
            index,
            reading.publics,
            reading.x,
            reading.answers,
            reading.unit,
        );
        sum = sum.add(words[index as usize].mul(value));
    }
    sum
}
