//! The larger domains on which gadgets are evaluated, and what serves every gadget.
ghost use Rattle.std.specs.Prelude.{◌≡◌, ℕ, ◌*◌, ◌<◌, ◌≤◌, length};
ghost use Rattle.flp_ntt.specs.TransformSize.{IsTransformSize};
ghost use Rattle.flp_meaning.specs.Gadgets.{arity_of, size_of};
ghost use Rattle.flp_meaning.specs.Lengths.{coefficient_count};
ghost use Rattle.flp_prove.specs.Room.{points_of};

use flp_meaning::laws::least_numbers;
use flp_plan::Plan;

/// The inputs that a gadget has at most.
pub(crate) const MOST_INPUTS: usize = 1024;

/// The points of a larger domain at most.
pub(crate) const MOST_POINTS: usize = 32768;

/// The number of points on which a gadget is evaluated: the least power of two with a point for each
/// coefficient.
pub(crate) fn points(plan: &Plan, gadget: u32) -> usize
    requires { gadget < length plan.now.circuit.gadgets }
    ensures points { result ≡ points_of plan.now.circuit gadget }
    ensures few { result ≤ 32768 }
    ensures transforms { IsTransformSize result }
    ensures coefficients { coefficient_count plan.now.circuit gadget ≤ result }
    ensures domain { size_of plan.now.circuit gadget ≤ result }
{
    least_numbers();
    plan.coefficients(gadget).next_power_of_two()
}

/// The words of the wires of any gadget at most, each by its values on the larger domain.
pub(crate) fn most_wire_words(plan: &Plan) -> usize
    ensures { (gadget : ℕ) → gadget < length plan.now.circuit.gadgets → arity_of plan.now.circuit gadget * points_of plan.now.circuit gadget ≤ result }
{
    let mut most = 0;
    for gadget in 0..plan.gadgets() {
        most = most.max(plan.arity(gadget) * points(plan, gadget));
    }
    most
}
