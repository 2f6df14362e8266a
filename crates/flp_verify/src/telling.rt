//! The verdicts on a segment, counted and told to those who may hold the aggregate back.
ghost use Rattle.std.specs.Prelude.{◌≡◌, ◌+◌, ◌^◌, ◌<◌, List, ◌++◌, length, map};
ghost use Rattle.flp_policy.specs.Counts.{counts_of};
ghost use Rattle.flp_policy.specs.declared.verdict.Verdict.{Verdict as Found};
ghost use Rattle.flp_round.specs.Crew.{verdicts_of};
ghost use Rattle.flp_verify.specs.Numbers.{counts_in, places_in};
ghost use Rattle.flp_verify.specs.Told.{AreTold};

use crate::numbers::Numbers;
use crate::policies::tell_all;
use flp_policy::{Floor, Policy};
use flp_round::Crew;

/// Counts the verdicts that a crew has, and tells them to the floor and to the policies, in their order. All reports are
/// of bucket 0.
pub(crate) fn tell_segment(
    crew: &Crew,
    count: u32,
    numbers: &mut Numbers,
    floor: &mut Floor,
    policies: &mut [Box<dyn Policy>],
)
    requires count { count ≡ length (verdicts_of crew.now) }
    requires few { places_in numbers.old + count < 2 ^ 32 }
    ensures counted { (seen : List Found) → counts_in numbers.old ≡ counts_of seen → counts_in numbers.new ≡ counts_of (seen ++ verdicts_of crew.now) }
    ensures places { places_in numbers.new ≡ places_in numbers.old + count }
    ensures floor { AreTold 0 (verdicts_of crew.now) (⟦<Floor as Policy>⟧.would floor.old) (⟦<Floor as Policy>⟧.would floor.new) }
    ensures policies { AreTold 0 (verdicts_of crew.now) (λ more of. map (λ p. would p more of) policies.old) (λ more of. map (λ p. would p more of) policies.new) }
{
    for index in 0..count {
        let verdict = crew.verdict(index);
        numbers.count(verdict);
        floor.tell(0, verdict);
        tell_all(policies, 0, verdict);
    }
}
