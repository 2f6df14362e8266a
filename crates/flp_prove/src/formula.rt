//! The formula of a gadget at its wires, by transforms.
ghost use Rattle.std.specs.Prelude.{◌≡◌, ℕ, ◌*◌, ◌<◌, ◌≤◌, List, length, IfOk};
ghost use Rattle.flp_gadget.specs.KindTree.{formula_of};
ghost use Rattle.flp_meaning.specs.Circuit.{calls_of, with_answers, kind_of};
ghost use Rattle.flp_meaning.specs.Gadgets.{arity_of, size_of, call_count};
ghost use Rattle.flp_meaning.specs.Lengths.{coefficient_count};
ghost use Rattle.flp_meaning.specs.Wires.{wires_of};
ghost use Rattle.flp_plan.specs.Sizes.{sizes_of};
ghost use Rattle.flp_plan.specs.View.{publics_of};
ghost use Rattle.flp_prove.specs.Room.{points_of};

use crate::Memory;
use crate::sizes::{MOST_INPUTS, MOST_POINTS, most_wire_words, points};
use crate::values::write_values;
use crate::wires::write_wires;
use flp_field::Fe;
use flp_ntt::inverse;
use flp_plan::{Plan, Reading, Sizes, laws};
use std::alloc::Global;
use std::marker::Model;

/// Working room for the formulas of gadgets at their wires, made once for a plan and used again for each gadget.
///
/// Contracts see the sizes that it was made for. It serves each plan that asks for the same.
#[derive(Drop)]
pub struct WireRoom {
    sizes: Sizes,
    /// What the wires of a gadget run through, row by row.
    rows: Vec<Fe>,
    /// The values of the wires on the larger domain, wire after wire.
    wires: Vec<Fe>,
    /// Those of all wires at one point.
    inputs: Vec<Fe>,
    /// The values of the gadget, and then its coefficients.
    values: Vec<Fe>,
}

impl Model for WireRoom {
    ghost use Rattle.std.specs.Prelude.{vec_len};
    ghost use Rattle.flp_plan.specs.declared.sizes.Sizes.{Sizes};
    ghost use Rattle.flp_prove.specs.Room.{HoldsWires};

    ghost Value = { Sizes };

    ghost view = { λ room. room.sizes };

    ghost invariant = { λ room. HoldsWires room.sizes (vec_len room.rows) (vec_len room.wires) (vec_len room.inputs) (vec_len room.values) };
}

impl WireRoom {
    /// Room for the gadgets of a plan.
    pub fn new(alloc: Global, plan: &Plan) -> Result<WireRoom, Memory>
        ensures { IfOk result (λ room. room ≡ sizes_of plan.now) }
    {
        let sizes = plan.sizes(alloc)?;
        let rows = vec![in alloc; Fe::ZERO; plan.row_words()]?;
        let wires = vec![in alloc; Fe::ZERO; most_wire_words(plan)]?;
        let inputs = vec![in alloc; Fe::ZERO; MOST_INPUTS]?;
        let values = vec![in alloc; Fe::ZERO; MOST_POINTS]?;
        Ok(WireRoom {
            sizes,
            rows,
            wires,
            inputs,
            values,
        })
    }

    /// Writes the coefficients of a gadget at its wires, lowest first, to `coefficients`, which has a place for each.
    ///
    /// The wires run through the seeds and then through the inputs of the gadget's calls on what is read. It takes
    /// no memory.
    pub fn formula_at_wires(
        &mut self,
        plan: &Plan,
        gadget: u32,
        reading: &Reading,
        seeds: &[Fe],
        coefficients: &mut [Fe],
    )
        requires made { self.old ≡ sizes_of plan.now }
        requires gadget { gadget < length plan.now.circuit.gadgets }
        requires publics { length reading.now.publics.now ≡ length plan.now.steps }
        requires x { length reading.now.x.now ≡ plan.now.circuit.meas }
        requires answers { length reading.now.answers.now ≡ call_count plan.now.circuit }
        requires seeds { length seeds.now ≡ arity_of plan.now.circuit gadget }
        requires coefficients { length coefficients.old ≡ coefficient_count plan.now.circuit gadget }
        ensures formula { (joint : List ℕ) → reading.now.publics.now ≡ publics_of plan.now joint → coefficients.new ≡ formula_of (kind_of plan.now.circuit gadget) (wires_of plan.now.circuit (calls_of plan.now.circuit (with_answers reading.now.x.now joint reading.now.unit reading.now.answers.now)) seeds.now gadget) }
        ensures again { self.new ≡ self.old }
    {
        write_formula(
            plan,
            gadget,
            reading,
            seeds,
            &mut self.rows,
            &mut self.wires,
            &mut self.inputs,
            &mut self.values,
            coefficients,
        );
    }
}

/// Writes the coefficients of a gadget at its wires. The room holds anything afterwards.
fn write_formula(
    plan: &Plan,
    gadget: u32,
    reading: &Reading,
    seeds: &[Fe],
    rows: &mut [Fe],
    wires: &mut [Fe],
    inputs: &mut [Fe],
    values: &mut [Fe],
    coefficients: &mut [Fe],
)
    requires gadget { gadget < length plan.now.circuit.gadgets }
    requires publics { length reading.now.publics.now ≡ length plan.now.steps }
    requires x { length reading.now.x.now ≡ plan.now.circuit.meas }
    requires answers { length reading.now.answers.now ≡ call_count plan.now.circuit }
    requires seeds { length seeds.now ≡ arity_of plan.now.circuit gadget }
    requires rows { size_of plan.now.circuit gadget * arity_of plan.now.circuit gadget ≤ length rows.old }
    requires wires { arity_of plan.now.circuit gadget * points_of plan.now.circuit gadget ≤ length wires.old }
    requires inputs { length inputs.old ≡ 1024 }
    requires values { length values.old ≡ 32768 }
    requires coefficients { length coefficients.old ≡ coefficient_count plan.now.circuit gadget }
    ensures { (joint : List ℕ) → reading.now.publics.now ≡ publics_of plan.now joint → coefficients.new ≡ formula_of (kind_of plan.now.circuit gadget) (wires_of plan.now.circuit (calls_of plan.now.circuit (with_answers reading.now.x.now joint reading.now.unit reading.now.answers.now)) seeds.now gadget) }
{
    laws::is_within_limits(plan);
    let arity = plan.arity(gadget);
    let size = plan.domain_size(gadget);
    let points = points(plan, gadget);
    let rows = &mut rows[..size * arity];
    plan.rows(gadget, reading, seeds, rows);
    let wires = &mut wires[..arity * points];
    write_wires(rows, arity, size, points, wires);
    let values = &mut values[..points];
    write_values(plan.kind(gadget), wires, &mut inputs[..arity], values);
    inverse(values);
    coefficients.copy_from_slice(&values[..coefficients.len()]);
}
