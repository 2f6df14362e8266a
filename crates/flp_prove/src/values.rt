//! The values of a gadget at those of its wires.
ghost use Rattle.std.specs.Prelude.{◌≡◌, ◌*◌, ◌<◌, length, map};
ghost use Rattle.std.specs.List.{range_with_len};
ghost use Rattle.flp_gadget.specs.KindTree.{kind_arity, value_of};
ghost use Rattle.flp_prove.specs.Rows.{across};

use flp_field::Fe;
use flp_gadget::{Gadget, Kind};

/// Writes the value of the gadget at each point, where `wires` has the values of one wire after another.
///
/// `inputs` has a place for each input, and holds anything afterwards.
pub(crate) fn write_values(kind: &Kind, wires: &[Fe], inputs: &mut [Fe], values: &mut [Fe])
    requires inputs { length inputs.old ≡ kind_arity kind.now }
    requires wires { length wires.now ≡ kind_arity kind.now * length values.old }
    ensures { values.new ≡ map (λ point. value_of kind.now (across (kind_arity kind.now) (length values.old) wires.now point)) (range_with_len 0 (length values.old)) }
{
    let points = values.len();
    for (point, value) in values.iter_mut().enumerate() {
        *value = value_at_point(kind, wires, points, point, inputs);
    }
}

/// The value of the gadget at one point.
fn value_at_point(kind: &Kind, wires: &[Fe], points: usize, point: usize, inputs: &mut [Fe]) -> Fe
    requires inputs { length inputs.old ≡ kind_arity kind.now }
    requires wires { length wires.now ≡ kind_arity kind.now * points }
    requires point { point < points }
    ensures { result ≡ value_of kind.now (across (kind_arity kind.now) points wires.now point) }
{
    for (input, value) in inputs.iter_mut().enumerate() {
        *value = wires[input * points + point];
    }
    kind.eval(inputs)
}
