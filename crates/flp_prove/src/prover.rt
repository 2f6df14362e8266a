//! The prover.
ghost use Rattle.std.specs.Prelude.{◌≡◌, length, IfOk};
ghost use Rattle.flp_meaning.specs.Proof.{honest_proof};
ghost use Rattle.flp_plan.specs.Counted.{counted_lengths};
ghost use Rattle.flp_plan.specs.Sizes.{sizes_of};

use crate::Memory;
use crate::answers::Calls;
use crate::formula::WireRoom;
use crate::part::write_parts;
use flp_field::Fe;
use flp_plan::{Plan, Reading, laws};
use std::alloc::Global;
use std::marker::Model;

/// Working room for honest proofs, made once for a plan and used again for each proof.
///
/// Contracts see the sizes that it was made for. It serves each plan that asks for the same, and holds nothing of
/// an earlier proof that a later one reads.
#[derive(Drop)]
pub struct Prover {
    calls: Calls,
    room: WireRoom,
}

impl Model for Prover {
    ghost use Rattle.std.specs.Prelude.{vec_len};
    ghost use Rattle.flp_plan.specs.declared.sizes.Sizes.{Sizes};
    ghost use Rattle.flp_prove.specs.Room.{HoldsCalls};

    ghost Value = { Sizes };

    ghost view = { λ prover. prover.room };

    ghost invariant = { λ prover. HoldsCalls prover.room (vec_len prover.calls.publics) (vec_len prover.calls.inputs) (vec_len prover.calls.values) };
}

impl Prover {
    /// A prover for a plan. It takes all the memory that a proof needs.
    pub fn new(alloc: Global, plan: &Plan) -> Result<Prover, Memory>
        ensures { IfOk result (λ prover. prover ≡ sizes_of plan.now) }
    {
        Ok(Prover {
            calls: Calls::new(alloc, plan)?,
            room: WireRoom::new(alloc, plan)?,
        })
    }

    /// Writes to `proof` the honest proof of the encoding `x` under these joint words, with these seeds.
    ///
    /// The prover serves the plan, as one does that was made for it or, by [`flp_plan::laws::ask_alike`], for a
    /// plan that answers the same. The slices have as many words as the plan's lengths `meas`, `joint`, `prove`
    /// and `proof`. It takes no memory, and the prover can be used again.
    pub fn prove(&mut self, plan: &Plan, x: &[Fe], joint: &[Fe], seeds: &[Fe], proof: &mut [Fe])
        requires made { self.old ≡ sizes_of plan.now }
        requires x { length x.now ≡ (counted_lengths plan.now.circuit).meas }
        requires joint { length joint.now ≡ (counted_lengths plan.now.circuit).joint }
        requires seeds { length seeds.now ≡ (counted_lengths plan.now.circuit).prove }
        requires proof { length proof.old ≡ (counted_lengths plan.now.circuit).proof }
        ensures proof { proof.new ≡ honest_proof plan.now.circuit x.now joint.now seeds.now }
        ensures again { self.new ≡ self.old }
    {
        laws::is_within_limits(plan);
        self.calls.write(plan, x, joint);
        let reading = Reading {
            publics: &self.calls.publics,
            x,
            answers: &self.calls.values,
            unit: Fe::ONE,
        };
        write_parts(plan, &reading, seeds, &mut self.room, proof);
    }
}
