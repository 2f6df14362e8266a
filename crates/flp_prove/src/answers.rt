//! The values of the calls, which are the answers of an honest proof.
ghost use Rattle.std.specs.Prelude.{◌≡◌, ℕ, ◌<◌, List, length, slice_index, vec_len, IfOk};
ghost use Rattle.flp_meaning.specs.Gadgets.{call_count};
ghost use Rattle.flp_meaning.specs.MeaningLaws.{call_values};
ghost use Rattle.flp_plan.specs.Counted.{counted_lengths};
ghost use Rattle.flp_plan.specs.Sizes.{sizes_of};
ghost use Rattle.flp_plan.specs.View.{publics_of};
ghost use Rattle.flp_prove.specs.Room.{HoldsCalls};

use crate::Memory;
use crate::sizes::MOST_INPUTS;
use flp_field::Fe;
use flp_gadget::Gadget;
use flp_meaning::laws as meaning;
use flp_plan::{Plan, laws};
use std::alloc::Global;

/// Room for the values of the calls of an encoding.
#[derive(Drop)]
pub(crate) struct Calls {
    /// The public values under its joint words.
    pub(crate) publics: Vec<Fe>,
    /// The inputs of one call.
    pub(crate) inputs: Vec<Fe>,
    /// The value of each call.
    pub(crate) values: Vec<Fe>,
}

impl Calls {
    /// Room for the calls of a plan.
    pub(crate) fn new(alloc: Global, plan: &Plan) -> Result<Calls, Memory>
        ensures { IfOk result (λ calls. HoldsCalls (sizes_of plan.now) (vec_len calls.publics) (vec_len calls.inputs) (vec_len calls.values)) }
    {
        laws::is_within_limits(plan);
        let publics = vec![in alloc; Fe::ZERO; plan.publics_len() as usize]?;
        let inputs = vec![in alloc; Fe::ZERO; MOST_INPUTS]?;
        let values = vec![in alloc; Fe::ZERO; plan.call_count() as usize]?;
        Ok(Calls {
            publics,
            inputs,
            values,
        })
    }

    /// Writes the public values under these joint words, and the values of the calls of the encoding `x`.
    pub(crate) fn write(&mut self, plan: &Plan, x: &[Fe], joint: &[Fe])
        requires made { HoldsCalls (sizes_of plan.now) (vec_len self.old.publics) (vec_len self.old.inputs) (vec_len self.old.values) }
        requires x { length x.now ≡ (counted_lengths plan.now.circuit).meas }
        requires joint { length joint.now ≡ (counted_lengths plan.now.circuit).joint }
        ensures publics { self.new.publics.items ≡ publics_of plan.now joint.now }
        ensures values { self.new.values.items ≡ call_values plan.now.circuit x.now joint.now }
        ensures kept { HoldsCalls (sizes_of plan.now) (vec_len self.new.publics) (vec_len self.new.inputs) (vec_len self.new.values) }
    {
        laws::is_within_limits(plan);
        plan.publics(joint, &mut self.publics);
        write_answers(plan, &self.publics, x, &mut self.inputs, &mut self.values);
    }
}

/// Writes the values of the calls to `answers`, which has a place for each.
///
/// `inputs` has room for the inputs of any gadget.
fn write_answers(plan: &Plan, publics: &[Fe], x: &[Fe], inputs: &mut [Fe], answers: &mut [Fe])
    requires publics { length publics.now ≡ length plan.now.steps }
    requires x { length x.now ≡ plan.now.circuit.meas }
    requires inputs { length inputs.old ≡ 1024 }
    requires answers { length answers.old ≡ call_count plan.now.circuit }
    ensures { (joint : List ℕ) → publics.now ≡ publics_of plan.now joint → answers.new ≡ call_values plan.now.circuit x.now joint }
{
    meaning::counts_are_fixed();
    for call in 0..plan.call_count() {
        let answer = answer_to(plan, call, publics, x, answers, inputs);
        answers[call as usize] = answer;
    }
}

/// The value of a call, where `answers` has the values of the calls before it.
fn answer_to(
    plan: &Plan,
    call: u32,
    publics: &[Fe],
    x: &[Fe],
    answers: &[Fe],
    inputs: &mut [Fe],
) -> Fe
    requires call { call < call_count plan.now.circuit }
    requires publics { length publics.now ≡ length plan.now.steps }
    requires x { length x.now ≡ plan.now.circuit.meas }
    requires answers { length answers.now ≡ call_count plan.now.circuit }
    requires inputs { length inputs.old ≡ 1024 }
    ensures { (joint : List ℕ) → publics.now ≡ publics_of plan.now joint → ((number : ℕ) → number < call → slice_index answers.now number ≡ slice_index (call_values plan.now.circuit x.now joint) number) → result ≡ slice_index (call_values plan.now.circuit x.now joint) call }
{
    laws::is_within_limits(plan);
    meaning::answered_is_direct();
    let kind = plan.kind(plan.call_gadget(call));
    let inputs = &mut inputs[..kind.arity()];
    plan.inputs(call, publics, x, answers, Fe::ONE, inputs);
    kind.eval(inputs)
}
