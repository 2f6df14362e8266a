//! The parts of an honest proof, one for each gadget.
ghost use Rattle.std.specs.Prelude.{◌≡◌, ℕ, ◌<◌, List, length};
ghost use Rattle.flp_meaning.specs.Gadgets.{arity_of, call_count};
ghost use Rattle.flp_meaning.specs.Lengths.{proof_part};
ghost use Rattle.flp_meaning.specs.MeaningLaws.{call_values};
ghost use Rattle.flp_meaning.specs.Proof.{seeds_for, honest_part, honest_proof};
ghost use Rattle.flp_plan.specs.Counted.{counted_lengths};
ghost use Rattle.flp_plan.specs.Sizes.{sizes_of};
ghost use Rattle.flp_plan.specs.View.{publics_of};

use crate::formula::WireRoom;
use flp_field::Fe;
use flp_meaning::laws as meaning;
use flp_plan::{Plan, Reading};

/// Writes the parts of all gadgets, one after another, of an unshared encoding and the values of its calls.
pub(crate) fn write_parts(
    plan: &Plan,
    reading: &Reading,
    seeds: &[Fe],
    room: &mut WireRoom,
    proof: &mut [Fe],
)
    requires publics { length reading.now.publics.now ≡ length plan.now.steps }
    requires x { length reading.now.x.now ≡ plan.now.circuit.meas }
    requires answers { length reading.now.answers.now ≡ call_count plan.now.circuit }
    requires unit { reading.now.unit ≡ 1 }
    requires seeds { length seeds.now ≡ (counted_lengths plan.now.circuit).prove }
    requires made { room.old ≡ sizes_of plan.now }
    requires proof { length proof.old ≡ (counted_lengths plan.now.circuit).proof }
    ensures proof { (joint : List ℕ) → reading.now.publics.now ≡ publics_of plan.now joint → reading.now.answers.now ≡ call_values plan.now.circuit reading.now.x.now joint → proof.new ≡ honest_proof plan.now.circuit reading.now.x.now joint seeds.now }
    ensures again { room.new ≡ room.old }
{
    let mut first = 0;
    let mut start = 0;
    for gadget in 0..plan.gadgets() {
        let last = first + plan.arity(gadget);
        let end = start + plan.arity(gadget) + plan.coefficients(gadget);
        write_part(
            plan,
            gadget,
            reading,
            &seeds[first..last],
            room,
            &mut proof[start..end],
        );
        first = last;
        start = end;
    }
}

/// Writes the part of a gadget: its seeds, and the coefficients of the gadget at its wires.
fn write_part(
    plan: &Plan,
    gadget: u32,
    reading: &Reading,
    seeds: &[Fe],
    room: &mut WireRoom,
    part: &mut [Fe],
)
    requires gadget { gadget < length plan.now.circuit.gadgets }
    requires publics { length reading.now.publics.now ≡ length plan.now.steps }
    requires x { length reading.now.x.now ≡ plan.now.circuit.meas }
    requires answers { length reading.now.answers.now ≡ call_count plan.now.circuit }
    requires unit { reading.now.unit ≡ 1 }
    requires seeds { length seeds.now ≡ arity_of plan.now.circuit gadget }
    requires made { room.old ≡ sizes_of plan.now }
    requires part { length part.old ≡ proof_part plan.now.circuit gadget }
    ensures part { (joint all : List ℕ) → reading.now.publics.now ≡ publics_of plan.now joint → reading.now.answers.now ≡ call_values plan.now.circuit reading.now.x.now joint → seeds.now ≡ seeds_for plan.now.circuit all gadget → part.new ≡ honest_part plan.now.circuit reading.now.x.now joint all gadget }
    ensures again { room.new ≡ room.old }
{
    meaning::answered_is_direct();
    let (front, coefficients) = part.split_at_mut(seeds.len());
    front.copy_from_slice(seeds);
    room.formula_at_wires(plan, gadget, reading, seeds, coefficients);
}
