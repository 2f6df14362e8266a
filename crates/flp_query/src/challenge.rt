//! What the shares of a proof have in common.
ghost use Rattle.std.specs.Prelude.{◌≡◌, ◌≤◌, ℕ, List, length, IfOk, OnOk, IfErr, None, Some};
ghost use Rattle.flp_meaning.specs.Verifier.{gadget_in_domain as domain_of, verifier_words};
ghost use Rattle.flp_plan.specs.Counted.{counted_lengths};
ghost use Rattle.flp_plan.specs.Sizes.{sizes_of};
ghost use Rattle.flp_query.specs.Challenge.{IsPosed};
ghost use Rattle.flp_query.specs.Unit.{share_unit};

use crate::Memory;
use crate::room::ShareRoom;
use crate::unit::unit_of;
use crate::verifier::Question;
use crate::weights::{InDomain, all_points, write_weights};
use flp_field::Fe;
use flp_plan::{Plan, Sizes, laws};
use std::alloc::Global;
use std::marker::Model;

/// What the shares of a proof have in common: the public values under its joint words, its query words, the weights
/// of each gadget's domain at its point, and what 1 counts as on a share; with room for the query of a share.
///
/// It is made once for a plan, posed once for each proof, which tests the points, and answered once for each share.
/// It serves each plan that asks for the same. Nothing of an earlier proof or share is read by a later one.
#[derive(Drop)]
pub struct Challenge {
    sizes: Sizes,
    publics: Vec<Fe>,
    words: Vec<Fe>,
    weights: Vec<Fe>,
    unit: Fe,
    room: ShareRoom,
}

impl Model for Challenge {
    ghost use Rattle.std.specs.Prelude.{vec_len};
    ghost use Rattle.flp_query.specs.Challenge.{Posed};
    ghost use Rattle.flp_query.specs.Room.{HoldsCommon, HoldsShare};

    ghost Value = { Posed };

    ghost view = { λ challenge. record { sizes = challenge.sizes; publics = challenge.publics.items; words = challenge.words.items; weights = challenge.weights.items; unit = challenge.unit } };

    ghost invariant = { λ challenge. HoldsCommon challenge.sizes (vec_len challenge.publics) (vec_len challenge.words) (vec_len challenge.weights) × HoldsShare challenge.sizes (vec_len challenge.room.answers) (vec_len challenge.room.points) (vec_len challenge.room.row) (vec_len challenge.room.sums) };
}

impl Challenge {
    /// A challenge for the queries of a plan, of which none is posed yet.
    pub fn new(alloc: Global, plan: &Plan) -> Result<Challenge, Memory>
        ensures { IfOk result (λ challenge. challenge.sizes ≡ sizes_of plan.now) }
    {
        laws::is_within_limits(plan);
        let sizes = plan.sizes(alloc)?;
        let publics = vec![in alloc; Fe::ZERO; plan.publics_len() as usize]?;
        let words = vec![in alloc; Fe::ZERO; plan.lengths().query as usize]?;
        let weights = vec![in alloc; Fe::ZERO; all_points(plan)]?;
        let room = ShareRoom::new(alloc, plan)?;
        Ok(Challenge {
            sizes,
            publics,
            words,
            weights,
            unit: Fe::ONE,
            room,
        })
    }

    /// Poses a proof's query to its shares: makes what they have in common, under these joint words and query words,
    /// for 1 to 16 shares.
    ///
    /// The slices have as many words as the plan's lengths `joint` and `query`. Where a query point lies in the
    /// domain of its gadget, the least such gadget is answered, and no share is to be queried. It takes no memory.
    pub fn pose(
        &mut self,
        plan: &Plan,
        joint: &[Fe],
        words: &[Fe],
        shares: u32,
    ) -> Result<(), InDomain>
        requires made { self.old.sizes ≡ sizes_of plan.now }
        requires joint { length joint.now ≡ (counted_lengths plan.now.circuit).joint }
        requires words { length words.now ≡ (counted_lengths plan.now.circuit).query }
        requires some { 1 ≤ shares }
        requires few { shares ≤ 16 }
        ensures outside { OnOk result (domain_of plan.now.circuit words.now ≡ None) }
        ensures posed { OnOk result (IsPosed plan.now joint.now words.now shares self.new) }
        ensures inside { IfErr result (λ refusal. domain_of plan.now.circuit words.now ≡ Some refusal.gadget) }
        ensures again { self.new.sizes ≡ self.old.sizes }
    {
        laws::is_within_limits(plan);
        if let Some(gadget) = write_weights(plan, words, &mut self.weights) {
            return Err(InDomain { gadget });
        }
        plan.publics(joint, &mut self.publics);
        self.words.copy_from_slice(words);
        self.unit = unit_of(shares);
        Ok(())
    }

    /// Writes to `verifier` the verifier words of one of the shares, with its share of an encoding in `x` and of a
    /// proof in `proof`, as the challenge was posed last.
    ///
    /// The slices have as many words as the plan's lengths `meas`, `proof` and `verifier`. It takes no memory.
    pub fn answer(&mut self, plan: &Plan, x: &[Fe], proof: &[Fe], verifier: &mut [Fe])
        requires made { self.old.sizes ≡ sizes_of plan.now }
        requires x { length x.now ≡ (counted_lengths plan.now.circuit).meas }
        requires proof { length proof.now ≡ (counted_lengths plan.now.circuit).proof }
        requires verifier { length verifier.old ≡ (counted_lengths plan.now.circuit).verifier }
        ensures verifier { (joint query : List ℕ) (shares : ℕ) → IsPosed plan.now joint query shares self.old → verifier.new ≡ verifier_words plan.now.circuit x.now joint proof.now query (share_unit shares) }
        ensures again { self.new ≡ self.old }
    {
        let question = Question {
            words: &self.words,
            weights: &self.weights,
        };
        self.room.write_words(
            plan,
            &self.publics,
            &question,
            self.unit,
            x,
            proof,
            verifier,
        );
    }

    /// The public values under the joint words that were posed last, which are lent.
    pub fn publics(&self) -> &[Fe]
        ensures { result.now ≡ self.now.publics }
    {
        &self.publics
    }
}
