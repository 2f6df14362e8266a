//! A checked circuit is made a plan.
ghost use Rattle.std.specs.Prelude.{◌≡◌, ◌≤◌, ◌<◌, IfOk, IfErr, None};
ghost use Rattle.flp_syntax.specs.View.{program_of};
ghost use Rattle.flp_plan.specs.Counted.{limit_fault, IsFaultOf, IsSmallCircuit};
ghost use Rattle.flp_plan.specs.Uses.{AreUsesOf};
ghost use Rattle.flp_plan.specs.Sums.{AreSumsOf};

use crate::Memory;
use crate::fault::{PlanCounted, PlanFault};
use crate::gadgets::{GadgetUse, Sums, gadget_uses, sums_of, wire_points};
use crate::lengths::lengths_for;
use crate::numbers::call_numbers;
use crate::plan::Plan;
use flp_check::Checked;
use flp_emit::{emit, term_count};
use std::alloc::Global;

/// The most points of wires, and the most terms.
const MOST: u64 = 1_048_576;

/// Makes a plan of a checked circuit, which it keeps.
///
/// It refuses a circuit exactly where the points of its wires, or else its terms, are more than 1,048,576, with
/// the whole count, and counts them before it makes code. The wires are counted with no memory, and the terms with that
/// of the marks of the text and the loops round a place. After a refusal the circuit is dropped.
pub fn compile(alloc: Global, checked: Checked) -> Result<Plan, PlanFault>
    ensures circuit { IfOk result (λ plan. plan.circuit ≡ program_of checked.body) }
    ensures within { IfOk result (λ _. limit_fault (program_of checked.body) ≡ None) }
    ensures fault { IfErr result (λ fault. IsFaultOf (program_of checked.body) fault) }
{
    if let Err(fault) = refuse_large(alloc, &checked) {
        return Err(fault);
    }
    let gadgets = gadget_uses(alloc, &checked)?;
    let sums = sums_of(&gadgets);
    let plan = planned(alloc, checked, gadgets, sums)?;
    Ok(plan)
}

/// Refuses a circuit with too many points of wires or too many terms.
fn refuse_large(alloc: Global, checked: &Checked) -> Result<(), PlanFault>
    ensures within { IfOk result (λ _. IsSmallCircuit (program_of checked.now.body)) }
    ensures fault { IfErr result (λ fault. IsFaultOf (program_of checked.now.body) fault) }
{
    let wires = u64::from(wire_points(checked));
    if wires > MOST {
        return Err(PlanFault::Limit(PlanCounted::Wires, wires));
    }
    let terms = term_count(alloc, &checked.body)?;
    if terms > MOST {
        return Err(PlanFault::Limit(PlanCounted::Terms, terms));
    }
    Ok(())
}

/// The plan of a circuit that is not too large.
fn planned(
    alloc: Global,
    checked: Checked,
    gadgets: Vec<GadgetUse>,
    sums: Sums,
) -> Result<Plan, Memory>
    requires uses { AreUsesOf (program_of checked.body) gadgets.items }
    requires sums { AreSumsOf gadgets.items sums }
    requires small { IsSmallCircuit (program_of checked.body) }
    ensures { IfOk result (λ plan. plan.circuit ≡ program_of checked.body) }
{
    let lengths = lengths_for(&checked, &gadgets, sums);
    let code = emit(alloc, &checked.body)?;
    let numbers = call_numbers(alloc, code.calls.as_slice(), gadgets.len())?;
    Ok(Plan {
        checked,
        gadgets,
        numbers,
        lengths,
        code,
    })
}
