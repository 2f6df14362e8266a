//! The hider.
ghost use Rattle.std.specs.Prelude.{◌≡◌, length, IfOk, OnOk, IfErr, OnErr, None, Some};
ghost use Rattle.flp_meaning.specs.Verifier.{gadget_in_domain as domain_of};
ghost use Rattle.flp_plan.specs.Counted.{counted_lengths};
ghost use Rattle.flp_plan.specs.Sizes.{sizes_of};
ghost use Rattle.flp_hide.specs.Wires.{all_wires_at, reseeded};
ghost use Rattle.flp_hide.specs.Laws.{Match};

use crate::Memory;
use crate::laws::verifiers;
use crate::reader::WireReader;
use crate::seeds::write_seeds;
use flp_field::{Fe, laws as words_of};
use flp_plan::{Plan, laws};
use flp_query::InDomain;
use flp_query::answers::MOST_POINTS;
use std::alloc::Global;
use std::marker::Model;

/// Working room for the wires of honest proofs and for their seeds, made once for a plan and used again.
///
/// Contracts see the sizes that it was made for. It serves each plan that asks for the same, and holds nothing of an
/// earlier call that a later one reads.
#[derive(Drop)]
pub struct Hider {
    reader: WireReader,
    /// The values of the wires for seeds that are 0.
    low: Vec<Fe>,
    /// Those that the wires are to have.
    high: Vec<Fe>,
    /// The weights of a domain.
    weights: Vec<Fe>,
}

impl Model for Hider {
    ghost use Rattle.std.specs.Prelude.{vec_len};
    ghost use Rattle.flp_plan.specs.declared.sizes.Sizes.{Sizes};
    ghost use Rattle.flp_hide.specs.Room.{HoldsWires};

    ghost Value = { Sizes };

    ghost view = { λ hider. hider.reader.sizes };

    ghost invariant = { λ hider. HoldsWires hider.reader.sizes (vec_len hider.low) (vec_len hider.high) (vec_len hider.weights) };
}

impl Hider {
    /// A hider for a plan. It takes all the memory that is needed.
    pub fn new(alloc: Global, plan: &Plan) -> Result<Hider, Memory>
        ensures { IfOk result (λ hider. hider ≡ sizes_of plan.now) }
    {
        let reader = WireReader::new(alloc, plan)?;
        let wires = plan.lengths().prove as usize;
        let low = vec![in alloc; Fe::ZERO; wires]?;
        let high = vec![in alloc; Fe::ZERO; wires]?;
        let weights = vec![in alloc; Fe::ZERO; MOST_POINTS]?;
        Ok(Hider {
            reader,
            low,
            high,
            weights,
        })
    }

    /// Writes to `out` the values at the query points of the wires of the encoding `x` under these joint words, with
    /// these seeds, gadget by gadget.
    ///
    /// The hider serves the plan, as one does that was made for it or, by [`flp_plan::laws::ask_alike`], for a plan
    /// that answers the same. The slices have as many words as the plan's lengths `meas`, `joint`, `prove`, `query`
    /// and `prove`. Where a query point lies in the domain of its gadget, the least such gadget is answered and `out`
    /// stays as it was. It takes no memory.
    pub fn wires(
        &mut self,
        plan: &Plan,
        x: &[Fe],
        joint: &[Fe],
        seeds: &[Fe],
        words: &[Fe],
        out: &mut [Fe],
    ) -> Result<(), InDomain>
        requires made { self.old ≡ sizes_of plan.now }
        requires x { length x.now ≡ (counted_lengths plan.now.circuit).meas }
        requires joint { length joint.now ≡ (counted_lengths plan.now.circuit).joint }
        requires seeds { length seeds.now ≡ (counted_lengths plan.now.circuit).prove }
        requires words { length words.now ≡ (counted_lengths plan.now.circuit).query }
        requires out { length out.old ≡ (counted_lengths plan.now.circuit).prove }
        ensures outside { OnOk result (domain_of plan.now.circuit words.now ≡ None) }
        ensures wires { OnOk result (out.new ≡ all_wires_at plan.now.circuit x.now joint.now seeds.now words.now) }
        ensures inside { IfErr result (λ refusal. domain_of plan.now.circuit words.now ≡ Some refusal.gadget) }
        ensures unchanged { OnErr result (out.new ≡ out.old) }
        ensures again { self.new ≡ self.old }
    {
        words_of::words(seeds);
        laws::is_bounded(plan);
        self.reader.make(plan, x, joint, seeds, words)?;
        self.reader.write_wires(plan, out);
        Ok(())
    }

    /// Writes to `out` the seeds for which the wires of the encoding `to` have the values at the query points that
    /// those of the encoding `from` have with the given seeds, both under these joint words. So where both are valid,
    /// the verifiers of their honest proofs are equal.
    ///
    /// The hider serves the plan, and the slices have as many words as its lengths, as for [`Hider::wires`]; `from`
    /// and `to` have `meas` words, and `out` has `prove`. Where a query point lies in the domain of its gadget, the
    /// least such gadget is answered and `out` stays as it was. It takes no memory.
    pub fn reseed(
        &mut self,
        plan: &Plan,
        from: &[Fe],
        to: &[Fe],
        joint: &[Fe],
        words: &[Fe],
        seeds: &[Fe],
        out: &mut [Fe],
    ) -> Result<(), InDomain>
        requires made { self.old ≡ sizes_of plan.now }
        requires from { length from.now ≡ (counted_lengths plan.now.circuit).meas }
        requires to { length to.now ≡ (counted_lengths plan.now.circuit).meas }
        requires joint { length joint.now ≡ (counted_lengths plan.now.circuit).joint }
        requires words { length words.now ≡ (counted_lengths plan.now.circuit).query }
        requires seeds { length seeds.now ≡ (counted_lengths plan.now.circuit).prove }
        requires out { length out.old ≡ (counted_lengths plan.now.circuit).prove }
        ensures outside { OnOk result (domain_of plan.now.circuit words.now ≡ None) }
        ensures seeds { OnOk result (out.new ≡ reseeded plan.now.circuit from.now to.now joint.now words.now seeds.now) }
        ensures matching { OnOk result (Match plan.now.circuit from.now to.now joint.now words.now seeds.now out.new) }
        ensures inside { IfErr result (λ refusal. domain_of plan.now.circuit words.now ≡ Some refusal.gadget) }
        ensures unchanged { OnErr result (out.new ≡ out.old) }
        ensures again { self.new ≡ self.old }
    {
        words_of::words(seeds);
        laws::is_bounded(plan);
        verifiers(plan);
        let low: &mut [Fe] = &mut self.low;
        let high: &mut [Fe] = &mut self.high;
        self.reader.make(plan, from, joint, seeds, words)?;
        self.reader.write_wires(plan, high);
        out.fill(Fe::ZERO);
        words_of::words(out);
        self.reader.make(plan, to, joint, out, words)?;
        self.reader.write_wires(plan, low);
        write_seeds(plan, words, low, high, &mut self.weights, out);
        Ok(())
    }
}
