//! The checks of an encoding.
ghost use Rattle.std.specs.Prelude.{◌≡◌, ℕ, List, length, IfOk};
ghost use Rattle.flp_meaning.specs.Circuit as circuit;
ghost use Rattle.flp_meaning.specs.Gadgets.{call_count};
ghost use Rattle.flp_meaning.specs.MeaningLaws.{call_values};
ghost use Rattle.flp_plan.specs.Counted.{counted_lengths};
ghost use Rattle.flp_plan.specs.Sizes.{sizes_of};
ghost use Rattle.flp_plan.specs.View.{publics_of};

use crate::Memory;
use crate::answers::Calls;
use flp_field::Fe;
use flp_meaning::laws as meaning;
use flp_plan::{Plan, Sizes};
use std::alloc::Global;
use std::marker::Model;

/// Working room for the checks of encodings, made once for a plan and used again for each encoding.
///
/// Contracts see the sizes that it was made for. It serves each plan that asks for the same.
#[derive(Drop)]
pub struct Checker {
    sizes: Sizes,
    calls: Calls,
}

impl Model for Checker {
    ghost use Rattle.std.specs.Prelude.{vec_len};
    ghost use Rattle.flp_plan.specs.declared.sizes.Sizes.{Sizes};
    ghost use Rattle.flp_prove.specs.Room.{HoldsCalls};

    ghost Value = { Sizes };

    ghost view = { λ checker. checker.sizes };

    ghost invariant = { λ checker. HoldsCalls checker.sizes (vec_len checker.calls.publics) (vec_len checker.calls.inputs) (vec_len checker.calls.values) };
}

impl Checker {
    /// A checker for a plan. It takes all the memory that a check needs.
    pub fn new(alloc: Global, plan: &Plan) -> Result<Checker, Memory>
        ensures { IfOk result (λ checker. checker ≡ sizes_of plan.now) }
    {
        Ok(Checker {
            sizes: plan.sizes(alloc)?,
            calls: Calls::new(alloc, plan)?,
        })
    }

    /// The least check of the encoding `x` that is not 0 under these joint words, or None where the encoding is
    /// valid under them.
    ///
    /// The slices have as many words as the plan's lengths `meas` and `joint`. It takes no memory.
    pub fn failing_check(&mut self, plan: &Plan, x: &[Fe], joint: &[Fe]) -> Option<u32>
        requires made { self.old ≡ sizes_of plan.now }
        requires x { length x.now ≡ (counted_lengths plan.now.circuit).meas }
        requires joint { length joint.now ≡ (counted_lengths plan.now.circuit).joint }
        ensures check { result ≡ circuit.failing_check plan.now.circuit x.now joint.now }
        ensures again { self.new ≡ self.old }
    {
        self.calls.write(plan, x, joint);
        first_failing(plan, &self.calls.publics, x, &self.calls.values)
    }
}

/// The least check that is not 0, where `publics` are the public values under some joint words, and `answers` the
/// values of the calls.
fn first_failing(plan: &Plan, publics: &[Fe], x: &[Fe], answers: &[Fe]) -> Option<u32>
    requires publics { length publics.now ≡ length plan.now.steps }
    requires x { length x.now ≡ (counted_lengths plan.now.circuit).meas }
    requires answers { length answers.now ≡ call_count plan.now.circuit }
    ensures { (joint : List ℕ) → publics.now ≡ publics_of plan.now joint → answers.now ≡ call_values plan.now.circuit x.now joint → result ≡ circuit.failing_check plan.now.circuit x.now joint }
{
    meaning::answered_is_direct();
    meaning::counts_are_fixed();
    for index in 0..plan.checks() {
        if plan.check(index, publics, x, answers, Fe::ONE) != Fe::ZERO {
            return Some(index);
        }
    }
    None
}
