//! The laws of plans, each the contract of a function that does nothing. The definitions are in
//! `specs/Limits.antt` and `specs/Sizes.antt`.
ghost use Rattle.flp_syntax.specs.Linear.{IsLinear};
ghost use Rattle.flp_meaning.specs.ProofLaws.{IsBounded};
ghost use Rattle.flp_plan.specs.Limits.{CircuitIsWithin};
ghost use Rattle.flp_plan.specs.Sizes.{AskAlike};

use crate::plan::Plan;

/// The circuit of a plan is within the limits.
pub fn is_within_limits(plan: &Plan)
    ensures { CircuitIsWithin plan.now.circuit }
{
    let _code = &plan.code;
}

/// So it is one of which the laws of proofs speak.
pub fn is_bounded(plan: &Plan)
    ensures { IsBounded plan.now.circuit }
{
    let _code = &plan.code;
}

/// The circuit of a plan is linear: no two shared values are multiplied but in a gadget.
pub fn is_linear(plan: &Plan)
    ensures { IsLinear plan.now.circuit }
{
    let _code = &plan.code;
}

/// Plans that answer the same to `lengths`, `gadgets`, `checks`, `publics_len` and, for each gadget, `kind` and
/// `calls` ask the same of working room. So room that was made for one of them serves the other.
pub fn ask_alike()
    ensures { AskAlike }
{}
