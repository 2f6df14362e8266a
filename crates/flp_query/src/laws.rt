//! The laws of queries, each the contract of a function that does nothing. A caller's proof takes the law from
//! here; the statements are in `specs/Unit.antt` and `specs/Laws.antt`.
ghost use Rattle.flp_query.specs.Unit.{UnitIsInverse};
ghost use Rattle.flp_query.specs.Laws.{VerifiersSumUp, RefusalsAreAlike, HonestIsTaken, SharedHonestIsTaken};

use flp_plan::{Plan, laws as plans};

/// What 1 counts as on one of some shares is the inverse of their number.
pub fn units()
    ensures { UnitIsInverse }
{}

/// The verifiers of shares, on each of which 1 counts as the inverse of their number, sum up word by word to the
/// verifier of the summed report. A query is refused on every share for the same gadget, or on none.
pub fn shares(plan: &Plan)
    ensures sums { VerifiersSumUp plan.now.circuit }
    ensures refusals { RefusalsAreAlike plan.now.circuit }
{
    plans::is_linear(plan);
}

/// A valid encoding with its honest proof is taken where no query point lies in a domain; in shares too, by the
/// sum of their verifiers.
pub fn honest(plan: &Plan)
    ensures taken { HonestIsTaken plan.now.circuit }
    ensures shared { SharedHonestIsTaken plan.now.circuit }
{
    plans::is_bounded(plan);
    plans::is_linear(plan);
}
