//! The laws of seeds, each the contract of a function that does nothing. A caller's proof takes the law from here;
//! the definitions are in `specs/Laws.antt`.
ghost use Rattle.flp_hide.specs.Laws.{SeedsExist, SeedsAreUnique, ReseededHasSameWires, ReseedingGoesBack};
ghost use Rattle.flp_hide.specs.Laws.{VerifiersAreSame, ReseededMatch};
ghost use Rattle.flp_hide.specs.Examples.{CountExample};

use flp_plan::{Plan, laws as plans};

/// Where no query point lies in the domain of its gadget, every list of as many words is the values of the wires for
/// exactly one list of seeds.
pub fn seeds(plan: &Plan)
    ensures exist { SeedsExist plan.now.circuit }
    ensures unique { SeedsAreUnique plan.now.circuit }
{
    plans::is_bounded(plan);
}

/// There the wires of the one encoding with the given seeds and those of the other with the reseeded ones have the
/// same values, and reseeding back gives the given seeds.
pub fn reseeding(plan: &Plan)
    ensures wires { ReseededHasSameWires plan.now.circuit }
    ensures back { ReseedingGoesBack plan.now.circuit }
{
    plans::is_bounded(plan);
}

/// And where both encodings are valid, the verifiers of their honest proofs are equal, word by word. So the seeds
/// match.
pub fn verifiers(plan: &Plan)
    ensures same { VerifiersAreSame plan.now.circuit }
    ensures matching { ReseededMatch plan.now.circuit }
{
    plans::is_bounded(plan);
}

/// What the definitions give for Count at the point 0: the wires of 1 with the seeds 3 and 5 and those of 0 with the
/// seeds 4 and 6 have the values 2 and 3.
pub fn example()
    ensures { CountExample }
{}
