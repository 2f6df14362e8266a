//! Gadgets that lie: a proof has another polynomial for them than their formula at the wires.
ghost use Rattle.std.specs.Prelude.{◌≡◌, ℕ, ◌<◌, List, length, IfOk};
ghost use Rattle.flp_plan.specs.Counted.{counted_lengths};
ghost use Rattle.flp_plan.specs.Sizes.{sizes_of};
ghost use Rattle.flp_plan.specs.View.{publics_of};
ghost use Rattle.flp_weak.specs.Reading.{IsReadByProof};
ghost use Rattle.flp_weak.specs.WeakWord as weak;

use crate::Memory;
use flp_field::Fe;
use flp_plan::{Plan, Reading, laws};
use flp_prove::WireRoom;
use flp_query::answers::{MOST_POINTS, write_answers};
use flp_query::parts::{polynomial, seeds};
use std::alloc::Global;
use std::marker::Model;

/// The coefficients that a gadget has at most.
const MOST_COEFFICIENTS: usize = 32761;

/// Room for what a proof answers and for the formulas of gadgets, made once for a plan and used again for each proof.
///
/// Contracts see the sizes that it was made for.
#[derive(Drop)]
pub(crate) struct LieFinder {
    wires: WireRoom,
    /// The public values under the joint words of a proof.
    publics: Vec<Fe>,
    /// What it answers to each call.
    answers: Vec<Fe>,
    /// The values of a gadget's polynomial on its domain.
    points: Vec<Fe>,
    /// The coefficients of a gadget at its wires.
    formula: Vec<Fe>,
}

impl Model for LieFinder {
    ghost use Rattle.std.specs.Prelude.{vec_len};
    ghost use Rattle.flp_plan.specs.declared.sizes.Sizes.{Sizes};
    ghost use Rattle.flp_weak.specs.Room.{HoldsLies};

    ghost Value = { Sizes };

    ghost view = { λ finder. finder.wires };

    ghost invariant = { λ finder. HoldsLies finder.wires (vec_len finder.publics) (vec_len finder.answers) (vec_len finder.points) (vec_len finder.formula) };
}

impl LieFinder {
    /// Room for the proofs of a plan.
    pub(crate) fn new(alloc: Global, plan: &Plan) -> Result<LieFinder, Memory>
        ensures { IfOk result (λ finder. finder ≡ sizes_of plan.now) }
    {
        laws::is_within_limits(plan);
        let wires = WireRoom::new(alloc, plan)?;
        let publics = vec![in alloc; Fe::ZERO; plan.publics_len() as usize]?;
        let answers = vec![in alloc; Fe::ZERO; plan.call_count() as usize]?;
        let points = vec![in alloc; Fe::ZERO; MOST_POINTS]?;
        let formula = vec![in alloc; Fe::ZERO; MOST_COEFFICIENTS]?;
        Ok(LieFinder {
            wires,
            publics,
            answers,
            points,
            formula,
        })
    }

    /// The least gadget that lies, where the proof answers the calls.
    pub(crate) fn lying_gadget(
        &mut self,
        plan: &Plan,
        x: &[Fe],
        joint: &[Fe],
        proof: &[Fe],
    ) -> Option<u32>
        requires made { self.old ≡ sizes_of plan.now }
        requires x { length x.now ≡ (counted_lengths plan.now.circuit).meas }
        requires joint { length joint.now ≡ (counted_lengths plan.now.circuit).joint }
        requires proof { length proof.now ≡ (counted_lengths plan.now.circuit).proof }
        ensures gadget { result ≡ weak.lying_gadget plan.now.circuit x.now joint.now proof.now }
        ensures again { self.new ≡ self.old }
    {
        laws::is_within_limits(plan);
        let publics: &mut [Fe] = &mut self.publics;
        let answers: &mut [Fe] = &mut self.answers;
        plan.publics(joint, publics);
        write_answers(plan, proof, &mut self.points, answers);
        let reading = Reading {
            publics,
            x,
            answers,
            unit: Fe::ONE,
        };
        first_lying(plan, &reading, proof, &mut self.wires, &mut self.formula)
    }
}

/// The least gadget that lies, by what the proof answers. `formula` has room for the coefficients of any gadget.
fn first_lying(
    plan: &Plan,
    reading: &Reading,
    proof: &[Fe],
    room: &mut WireRoom,
    formula: &mut [Fe],
) -> Option<u32>
    requires reading { IsReadByProof plan.now proof.now reading.now.publics.now reading.now.x.now reading.now.answers.now reading.now.unit }
    requires proof { length proof.now ≡ (counted_lengths plan.now.circuit).proof }
    requires made { room.old ≡ sizes_of plan.now }
    requires formula { length formula.old ≡ 32761 }
    ensures gadget { (joint : List ℕ) → reading.now.publics.now ≡ publics_of plan.now joint → result ≡ weak.lying_gadget plan.now.circuit reading.now.x.now joint proof.now }
    ensures again { room.new ≡ room.old }
{
    for gadget in 0..plan.gadgets() {
        if gadget_lies(plan, gadget, reading, proof, room, formula) {
            return Some(gadget);
        }
    }
    None
}

/// Whether this gadget lies: the proof's polynomial for it is not its formula at the wires.
fn gadget_lies(
    plan: &Plan,
    gadget: u32,
    reading: &Reading,
    proof: &[Fe],
    room: &mut WireRoom,
    formula: &mut [Fe],
) -> bool
    requires gadget { gadget < length plan.now.circuit.gadgets }
    requires reading { IsReadByProof plan.now proof.now reading.now.publics.now reading.now.x.now reading.now.answers.now reading.now.unit }
    requires proof { length proof.now ≡ (counted_lengths plan.now.circuit).proof }
    requires made { room.old ≡ sizes_of plan.now }
    requires formula { length formula.old ≡ 32761 }
    ensures lies { (joint : List ℕ) → reading.now.publics.now ≡ publics_of plan.now joint → result ≡ weak.gadget_lies plan.now.circuit reading.now.x.now joint proof.now gadget }
    ensures again { room.new ≡ room.old }
{
    let formula = &mut formula[..plan.coefficients(gadget)];
    let seeds = seeds(plan, proof, gadget);
    room.formula_at_wires(plan, gadget, reading, seeds, formula);
    *polynomial(plan, proof, gadget) != *formula
}
