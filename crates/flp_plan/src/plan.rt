//! A compiled circuit, and what its calls answer.
ghost use Rattle.std.specs.Prelude.{◌≡◌, ◌<◌, ℕ, List, [], Some, length, take, slice_get};
ghost use Rattle.flp_meaning.specs.Circuit.{kind_of, checks_of, outs_of, with_answers};
ghost use Rattle.flp_meaning.specs.Gadgets.{arity_of, calls_made, log_of, call_count, call_gadget, call_number, check_count, out_count};
ghost use Rattle.flp_plan.specs.Counted.{counted_lengths};
ghost use Rattle.flp_plan.specs.View.{publics_of, HasInputs};

use crate::gadgets::GadgetUse;
use crate::lengths::Lengths;
use flp_check::Checked;
use flp_emit::Code;
use flp_field::Fe;
use flp_forms::form_at;
use flp_gadget::Kind;
use std::marker::Model;

/// A compiled circuit: public values in a straight line, and linear forms for the inputs of calls, the checks
/// and the outs. It keeps the checked circuit from which it came.
///
/// Contracts see that circuit, and the steps of the public values.
#[derive(Drop)]
pub struct Plan {
    pub(crate) checked: Checked,
    pub(crate) gadgets: Vec<GadgetUse>,
    /// The number of each call among those of its gadget, from 1.
    pub(crate) numbers: Vec<u32>,
    pub(crate) lengths: Lengths,
    pub(crate) code: Code,
}

impl Model for Plan {
    ghost use Rattle.std.specs.Prelude.{◌≡◌};
    ghost use Rattle.std.specs.Coded.{codes};
    ghost use Rattle.flp_syntax.specs.Codes.{coded_circuit};
    ghost use Rattle.flp_syntax.specs.View.{program_of};
    ghost use Rattle.flp_plan.specs.View.{Compiled};
    ghost use Rattle.flp_plan.specs.Plan.{IsPlanOf};

    ghost Value = { Compiled };

    ghost coded = { Prim.hlevel (codes, coded_circuit) };

    ghost view = { λ plan. record { circuit = program_of plan.checked.body; steps = plan.code.steps.steps } };

    ghost invariant = { λ plan. IsPlanOf (program_of plan.checked.body) plan.code plan.gadgets.items plan.numbers.items plan.lengths };
}

impl Plan {
    /// How many words each part of a report has.
    pub fn lengths(&self) -> Lengths
        ensures { result ≡ counted_lengths self.now.circuit }
    {
        self.lengths
    }

    /// The number of gadgets.
    pub fn gadgets(&self) -> u32
        ensures { result ≡ length self.now.circuit.gadgets }
    {
        self.gadgets.len() as u32
    }

    /// The number of checks.
    pub fn checks(&self) -> u32
        ensures { result ≡ check_count self.now.circuit }
    {
        self.code.checks.len() as u32
    }

    /// The number of calls, of all gadgets together.
    pub fn call_count(&self) -> u32
        ensures { result ≡ call_count self.now.circuit }
    {
        self.numbers.len() as u32
    }

    /// The number of public values.
    pub fn publics_len(&self) -> u32
        ensures { result ≡ length self.now.steps }
    {
        self.code.steps.len()
    }

    /// What this gadget computes, which is lent.
    pub fn kind(&self, gadget: u32) -> &Kind
        requires { gadget < length self.now.circuit.gadgets }
        ensures { result.now ≡ kind_of self.now.circuit gadget }
    {
        &self.gadgets[gadget as usize].kind
    }

    /// How often this gadget is called.
    pub fn calls(&self, gadget: u32) -> u32
        requires { gadget < length self.now.circuit.gadgets }
        ensures { result ≡ calls_made self.now.circuit gadget }
    {
        self.gadgets[gadget as usize].calls
    }

    /// The exponent of the size of this gadget's domain: the least power of two that has a point for each call
    /// and one more.
    pub fn log(&self, gadget: u32) -> u32
        requires { gadget < length self.now.circuit.gadgets }
        ensures { result ≡ log_of self.now.circuit gadget }
    {
        self.gadgets[gadget as usize].log
    }

    /// The gadget of this call. Calls are numbered from 0, in the order in which the circuit makes them.
    pub fn call_gadget(&self, call: u32) -> u32
        requires { call < call_count self.now.circuit }
        ensures { result ≡ call_gadget self.now.circuit call }
    {
        self.code.calls.as_slice()[call as usize].gadget
    }

    /// The number of this call among the calls of its gadget, from 1.
    pub fn call_number(&self, call: u32) -> u32
        requires { call < call_count self.now.circuit }
        ensures { result ≡ call_number self.now.circuit call }
    {
        self.numbers[call as usize]
    }

    /// Writes the public values under these joint words to `out`, which has a place for each of them.
    pub fn publics(&self, joint: &[Fe], out: &mut [Fe])
        requires words { length joint.now ≡ self.now.circuit.joint }
        requires room { length out.old ≡ length self.now.steps }
        ensures { out.new ≡ publics_of self.now joint.now }
    {
        self.code.steps.run(joint, out);
    }

    /// Writes the inputs of a call to `out`, which has a place for each input of its gadget.
    ///
    /// `publics` is what [`Plan::publics`] wrote, `x` an encoding or a share of one, `answers` has a word for
    /// each call, and `unit` is what the constant 1 counts as: 1 on an unshared encoding, 1/shares on a share.
    pub fn inputs(
        &self,
        call: u32,
        publics: &[Fe],
        x: &[Fe],
        answers: &[Fe],
        unit: Fe,
        out: &mut [Fe],
    )
        requires call { call < call_count self.now.circuit }
        requires publics { length publics.now ≡ length self.now.steps }
        requires words { length x.now ≡ self.now.circuit.meas }
        requires answers { length answers.now ≡ call_count self.now.circuit }
        requires room { length out.old ≡ arity_of self.now.circuit (call_gadget self.now.circuit call) }
        ensures inputs { (joint : List ℕ) → publics.now ≡ publics_of self.now joint → HasInputs self.now.circuit (with_answers x.now joint unit answers.now) call out.new }

        // They are the inputs also where the answers of this call and of later ones are others.
        ensures earlier { (joint others : List ℕ) → publics.now ≡ publics_of self.now joint → take call others ≡ take call answers.now → HasInputs self.now.circuit (with_answers x.now joint unit others) call out.new }
    {
        let call = self.code.calls.as_slice()[call as usize];
        let inputs = &self.code.inputs;
        inputs.values(call.first as usize, publics, x, answers, unit, out);
    }

    /// The value of a check, with the slices and the unit as for [`Plan::inputs`].
    pub fn check(&self, index: u32, publics: &[Fe], x: &[Fe], answers: &[Fe], unit: Fe) -> Fe
        requires index { index < check_count self.now.circuit }
        requires publics { length publics.now ≡ length self.now.steps }
        requires words { length x.now ≡ self.now.circuit.meas }
        requires answers { length answers.now ≡ call_count self.now.circuit }
        ensures { (joint : List ℕ) → publics.now ≡ publics_of self.now joint → slice_get (checks_of self.now.circuit (with_answers x.now joint unit answers.now)) index ≡ Some result }
    {
        form_at(
            self.code.checks.at(index as usize),
            publics,
            x,
            answers,
            unit,
        )
    }

    /// The value of an out, with the slices as for [`Plan::inputs`]. No answer and no unit enters it.
    pub fn out(&self, index: u32, publics: &[Fe], x: &[Fe]) -> Fe
        requires index { index < out_count self.now.circuit }
        requires publics { length publics.now ≡ length self.now.steps }
        requires words { length x.now ≡ self.now.circuit.meas }
        ensures { (joint : List ℕ) → publics.now ≡ publics_of self.now joint → slice_get (outs_of self.now.circuit x.now) index ≡ Some result }
    {
        form_at(self.code.outs.at(index as usize), publics, x, &[], Fe::ONE)
    }
}
