//! The wires of a gadget, by their values on a larger domain.
ghost use Rattle.std.specs.Prelude.{◌≡◌, ◌*◌, ◌<◌, ◌≤◌, length, map};
ghost use Rattle.std.specs.List.{range_with_len};
ghost use Rattle.flp_poly.specs.Polynomial.{values_on};
ghost use Rattle.flp_poly.specs.Interpolation.{interpolated};
ghost use Rattle.flp_ntt.specs.TransformSize.{IsTransformSize};
ghost use Rattle.flp_meaning.specs.Wires.{with_zeros};
ghost use Rattle.flp_plan.specs.Rows.{column};
ghost use Rattle.flp_prove.specs.Rows.{joined};

use flp_field::Fe;
use flp_ntt::{forward, inverse};

/// Writes for each column the values on a domain of `points` points of the polynomial that runs through the
/// words of the column on a domain of `size` points.
///
/// There are `size` rows of `arity` words each.
pub(crate) fn write_wires(rows: &[Fe], arity: usize, size: usize, points: usize, wires: &mut [Fe])
    requires rows { length rows.now ≡ size * arity }
    requires size { size ≤ points }
    requires transforms { IsTransformSize size }
    requires larger { IsTransformSize points }
    requires room { length wires.old ≡ arity * points }
    ensures { wires.new ≡ joined (map (λ input. values_on points (interpolated (column size arity rows.now input))) (range_with_len 0 arity)) }
{
    for input in 0..arity {
        let start = input * points;
        write_wire(rows, arity, input, size, &mut wires[start..start + points]);
    }
}

/// Writes the values of the wire of one column.
fn write_wire(rows: &[Fe], arity: usize, input: usize, size: usize, wire: &mut [Fe])
    requires rows { length rows.now ≡ size * arity }
    requires input { input < arity }
    requires size { size ≤ length wire.old }
    requires transforms { IsTransformSize size }
    requires larger { IsTransformSize (length wire.old) }
    ensures { wire.new ≡ values_on (length wire.old) (interpolated (column size arity rows.now input)) }
{
    write_column(rows, arity, input, size, wire);
    inverse(&mut wire[..size]);
    forward(wire);
}

/// Writes the words of a column, and then zeros.
fn write_column(rows: &[Fe], arity: usize, input: usize, size: usize, out: &mut [Fe])
    requires rows { length rows.now ≡ size * arity }
    requires input { input < arity }
    ensures { out.new ≡ with_zeros (length out.old) (column size arity rows.now input) }
{
    for (place, value) in out.iter_mut().enumerate() {
        *value = if place < size {
            rows[place * arity + input]
        } else {
            Fe::ZERO
        };
    }
}
