//! The laws of weak words, each the contract of a function that does nothing. A caller's proof takes the law
//! from here; the definitions are in `specs/Laws.antt`.
ghost use Rattle.flp_weak.specs.Laws.{ValidHasNone, WeakIsBounded, BoundIsLow, FewChoices};

use flp_plan::{Plan, laws as plans};

/// A valid encoding has no weak word, whatever its proof, and each other encoding has one.
pub fn valid_has_none(plan: &Plan)
    ensures { ValidHasNone plan.now.circuit }
{}

/// Of the weak word of a proof at most as many values as its bound are accepted, whatever the other query words
/// are. The word is one of the query; the bound is 1 for a word that combines checks, and for the point of a
/// gadget at most the gadget's degree times the points of its domain less one.
pub fn counted_soundness(plan: &Plan)
    ensures bounded { WeakIsBounded plan.now.circuit }
    ensures low { BoundIsLow plan.now.circuit }
{
    plans::is_bounded(plan);
}

/// Of several proofs of one record, each under joint words under which the encoding fails, at most the product
/// of the bounds of different choices are accepted: a choice is one value for the weak word of each proof, and
/// all other words are fixed.
pub fn few_choices(plan: &Plan)
    ensures { FewChoices plan.now.circuit }
{
    plans::is_bounded(plan);
}
