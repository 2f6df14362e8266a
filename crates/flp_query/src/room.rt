//! The room in which the words of a verifier are worked out.
ghost use Rattle.std.specs.Prelude.{◌≡◌, ℕ, List, length, vec_len, IfOk};
ghost use Rattle.flp_meaning.specs.Gadgets.{size_of};
ghost use Rattle.flp_meaning.specs.Lengths.{start_of};
ghost use Rattle.flp_meaning.specs.Verifier.{verifier_words};
ghost use Rattle.flp_plan.specs.Counted.{counted_lengths};
ghost use Rattle.flp_plan.specs.Sizes.{sizes_of};
ghost use Rattle.flp_plan.specs.View.{publics_of};
ghost use Rattle.flp_query.specs.Challenge.{all_weights};
ghost use Rattle.flp_query.specs.Room.{HoldsShare};

use crate::Memory;
use crate::answers::{MOST_POINTS, write_answers};
use crate::checks::combined_check;
use crate::verifier::{Question, write_parts};
use flp_field::{Fe, Sum};
use flp_plan::{Plan, Reading, laws};
use std::alloc::Global;

/// The wires that a gadget has at most.
const MOST_WIRES: usize = 1024;

/// Room for what stands between a share and its verifier.
#[derive(Drop)]
pub(crate) struct ShareRoom {
    /// The answer to each call.
    pub(crate) answers: Vec<Fe>,
    /// The values of a gadget's polynomial on its domain.
    pub(crate) points: Vec<Fe>,
    /// The inputs of one call.
    pub(crate) row: Vec<Fe>,
    /// For each wire of a gadget the sum that becomes its value.
    pub(crate) sums: Vec<Sum>,
}

impl ShareRoom {
    /// Room for the shares of a plan's queries.
    pub(crate) fn new(alloc: Global, plan: &Plan) -> Result<ShareRoom, Memory>
        ensures { IfOk result (λ room. HoldsShare (sizes_of plan.now) (vec_len room.answers) (vec_len room.points) (vec_len room.row) (vec_len room.sums)) }
    {
        laws::is_within_limits(plan);
        let answers = vec![in alloc; Fe::ZERO; plan.call_count() as usize]?;
        let points = vec![in alloc; Fe::ZERO; MOST_POINTS]?;
        let row = vec![in alloc; Fe::ZERO; MOST_WIRES]?;
        let sums = vec![in alloc; Sum::new(); MOST_WIRES]?;
        Ok(ShareRoom {
            answers,
            points,
            row,
            sums,
        })
    }

    /// Writes the verifier words of a share, with the public values under its joint words and with what is asked.
    pub(crate) fn write_words(
        &mut self,
        plan: &Plan,
        publics: &[Fe],
        question: &Question,
        unit: Fe,
        x: &[Fe],
        proof: &[Fe],
        verifier: &mut [Fe],
    )
        requires room { HoldsShare (sizes_of plan.now) (vec_len self.old.answers) (vec_len self.old.points) (vec_len self.old.row) (vec_len self.old.sums) }
        requires publics { length publics.now ≡ length plan.now.steps }
        requires words { length question.now.words.now ≡ (counted_lengths plan.now.circuit).query }
        requires weights { length question.now.weights.now ≡ start_of (size_of plan.now.circuit) (length plan.now.circuit.gadgets) }
        requires x { length x.now ≡ (counted_lengths plan.now.circuit).meas }
        requires proof { length proof.now ≡ (counted_lengths plan.now.circuit).proof }
        requires verifier { length verifier.old ≡ (counted_lengths plan.now.circuit).verifier }
        ensures words { (joint : List ℕ) → publics.now ≡ publics_of plan.now joint → question.now.weights.now ≡ all_weights plan.now.circuit question.now.words.now → verifier.new ≡ verifier_words plan.now.circuit x.now joint proof.now question.now.words.now unit }
        ensures again { HoldsShare (sizes_of plan.now) (vec_len self.new.answers) (vec_len self.new.points) (vec_len self.new.row) (vec_len self.new.sums) }
    {
        laws::is_within_limits(plan);
        let answers: &mut [Fe] = &mut self.answers;
        write_answers(plan, proof, &mut self.points, answers);
        let reading = Reading {
            publics,
            x,
            answers,
            unit,
        };
        verifier[0] = combined_check(plan, &reading, question.words);
        write_parts(
            plan,
            &reading,
            question,
            proof,
            &mut self.row,
            &mut self.sums,
            &mut verifier[1..],
        );
    }
}
