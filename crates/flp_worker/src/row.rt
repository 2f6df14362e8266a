//! The outs of the unshared encoding.
ghost use Rattle.std.specs.Prelude.{◌≡◌, ℕ, List, length};
ghost use Rattle.flp_meaning.specs.Circuit.{outs_of};
ghost use Rattle.flp_plan.specs.Counted.{counted_lengths};
ghost use Rattle.flp_plan.specs.View.{publics_of};
ghost use Rattle.flp_worker.specs.Parts.{unshared_encoding};
ghost use Rattle.flp_worker.specs.Worker.{IsShapeOf};

use crate::words::Words;
use flp_field::Fe;
use flp_plan::{Plan, laws};

/// Writes the outs of the unshared encoding to `row`. `publics` are the plan's public values under some joint words,
/// none of which enters the outs, and `encoding` has room for an encoding.
pub(crate) fn write_row(
    plan: &Plan,
    words: &Words,
    publics: &[Fe],
    encoding: &mut [Fe],
    row: &mut [Fe],
)
    requires fits { IsShapeOf plan.now.circuit words.now.shape }
    requires publics { (joint : List ℕ) × (publics.now ≡ publics_of plan.now joint) }
    requires encoding { length encoding.old ≡ words.now.shape.meas }
    requires row { length row.old ≡ (counted_lengths plan.now.circuit).outs }
    ensures { row.new ≡ outs_of plan.now.circuit (unshared_encoding words.now.shape words.now.all.now) }
{
    words.write_encoding(encoding);
    write_outs(plan, publics, encoding, row);
}

/// Writes the outs of an encoding, under some public values of the plan.
fn write_outs(plan: &Plan, publics: &[Fe], x: &[Fe], row: &mut [Fe])
    requires x { length x.now ≡ plan.now.circuit.meas }
    requires publics { length publics.now ≡ length plan.now.steps }
    requires row { length row.old ≡ (counted_lengths plan.now.circuit).outs }
    ensures { (joint : List ℕ) → publics.now ≡ publics_of plan.now joint → row.new ≡ outs_of plan.now.circuit x.now }
{
    laws::is_within_limits(plan);
    for (index, out) in row.iter_mut().enumerate() {
        *out = plan.out(index as u32, publics, x);
    }
}
