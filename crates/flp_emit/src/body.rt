//! From a circuit to its code.
ghost use Rattle.std.specs.Prelude.{IfOk};
ghost use Rattle.flp_syntax.specs.View.{program_of};
ghost use Rattle.flp_emit.specs.Fitting.{ProgramFits};
ghost use Rattle.flp_emit.specs.Code.{Tied};

use crate::Memory;
use crate::code::Code;
use crate::made::{Done, Made};
use crate::marks::marks_of_statements;
use crate::scope::Place;
use crate::stmt::perform;
use flp_forms::{Forms, Steps};
use flp_list::List;
use flp_rename::renamed;
use flp_syntax::Body;
use std::alloc::Global;

/// The code of a circuit whose names are bound, whose indices are in range, whose calls have as many arguments as their
/// gadgets have inputs, and whose forms are linear.
///
/// Loops are unrolled: it takes time and memory by the nodes that are met, and stack by the depth of the text. A public
/// expression makes at most one step for each node that is met in it, one more for a sign and one for -1. The one error
/// is want of memory, and a list of 2^32 public values, calls or inputs counts as that.
pub fn emit(alloc: Global, body: &Body) -> Result<Code, Memory>
    requires { ProgramFits (program_of body.now) }
    ensures { IfOk result (λ code. Tied (program_of body.now) code) }
{
    let copy = renamed(alloc, body.stmts.as_slice())?;
    let stmts = copy.as_slice();
    let marks = marks_of_statements(alloc, stmts)?;
    let mut made = Made {
        steps: Steps::new(alloc, body.joint as u32)?,
        calls: Vec::new(alloc),
        inputs: Forms::new(alloc),
    };
    let mut done = Done {
        checks: Forms::new(alloc),
        outs: Forms::new(alloc),
    };
    let place = Place {
        alloc,
        body,
        scope: &[],
        marks: &marks,
    };
    perform(place, &mut made, &mut done, stmts)?;
    let Made {
        steps,
        calls,
        inputs,
    } = made;
    let Done { checks, outs } = done;
    Ok(Code {
        steps: steps.finish(alloc),
        calls: List::from_vec(calls),
        inputs,
        checks,
        outs,
    })
}
