//! The query of a share.
ghost use Rattle.std.specs.Prelude.{◌≡◌, ◌≤◌, length, IfOk, OnOk, IfErr, OnErr, None, Some};
ghost use Rattle.flp_meaning.specs.Verifier.{gadget_in_domain as domain_of, verifier_words};
ghost use Rattle.flp_plan.specs.Counted.{counted_lengths};
ghost use Rattle.flp_plan.specs.Sizes.{sizes_of};
ghost use Rattle.flp_query.specs.Unit.{share_unit};

use crate::Memory;
use crate::challenge::Challenge;
use crate::weights::InDomain;
use flp_field::Fe;
use flp_plan::Plan;
use std::alloc::Global;
use std::marker::Model;

/// Room for a query, made once for a plan and used again for each share.
///
/// Contracts see what it was made for. It serves each plan that asks for the same, and holds nothing of an earlier
/// query that a later one reads. Who queries several shares of a proof poses a [`Challenge`] once for all of them.
#[derive(Drop)]
pub struct Scratch {
    challenge: Challenge,
}

impl Model for Scratch {
    ghost use Rattle.std.specs.Prelude.{◌≡◌};
    ghost use Rattle.flp_plan.specs.declared.sizes.Sizes.{Sizes};

    ghost Value = { Sizes };

    ghost view = { λ scratch. scratch.challenge.sizes };
}

impl Scratch {
    /// A scratch for the queries of a plan.
    pub fn new(alloc: Global, plan: &Plan) -> Result<Scratch, Memory>
        ensures { IfOk result (λ scratch. scratch ≡ sizes_of plan.now) }
    {
        let challenge = Challenge::new(alloc, plan)?;
        Ok(Scratch { challenge })
    }

    /// Writes to `verifier` the verifier words of one of so many shares, each with its share of an encoding in
    /// `x` and of a proof in `proof`, under these joint words and query words.
    ///
    /// The slices have as many words as the plan's lengths `meas`, `proof`, `joint`, `query` and `verifier`, and
    /// there are 1 to 16 shares. Where a query point lies in the domain of its gadget, the least such gadget is
    /// answered and `verifier` stays as it was. It takes no memory.
    pub fn query(
        &mut self,
        plan: &Plan,
        x: &[Fe],
        proof: &[Fe],
        joint: &[Fe],
        words: &[Fe],
        shares: u32,
        verifier: &mut [Fe],
    ) -> Result<(), InDomain>
        requires made { self.old ≡ sizes_of plan.now }
        requires x { length x.now ≡ (counted_lengths plan.now.circuit).meas }
        requires proof { length proof.now ≡ (counted_lengths plan.now.circuit).proof }
        requires joint { length joint.now ≡ (counted_lengths plan.now.circuit).joint }
        requires words { length words.now ≡ (counted_lengths plan.now.circuit).query }
        requires some { 1 ≤ shares }
        requires few { shares ≤ 16 }
        requires verifier { length verifier.old ≡ (counted_lengths plan.now.circuit).verifier }
        ensures outside { OnOk result (domain_of plan.now.circuit words.now ≡ None) }
        ensures verifier { OnOk result (verifier.new ≡ verifier_words plan.now.circuit x.now joint.now proof.now words.now (share_unit shares)) }
        ensures inside { IfErr result (λ refusal. domain_of plan.now.circuit words.now ≡ Some refusal.gadget) }
        ensures unchanged { OnErr result (verifier.new ≡ verifier.old) }
        ensures again { self.new ≡ self.old }
    {
        self.challenge.pose(plan, joint, words, shares)?;
        self.challenge.answer(plan, x, proof, verifier);
        Ok(())
    }
}
