//! The verifiers of honest proofs, and the wires at the query points that are read from them.
ghost use Rattle.std.specs.Prelude.{◌≡◌, length, IfOk, OnOk, IfErr, OnErr, None, Some};
ghost use Rattle.std.specs.List.{flat_map};
ghost use Rattle.flp_meaning.specs.Gadgets.{gadgets_of};
ghost use Rattle.flp_meaning.specs.Verifier.{gadget_in_domain as domain_of};
ghost use Rattle.flp_plan.specs.Counted.{counted_lengths};
ghost use Rattle.flp_plan.specs.Sizes.{sizes_of};
ghost use Rattle.flp_hide.specs.Laws.{honest_verifier};
ghost use Rattle.flp_hide.specs.Wires.{wires_of_verifier};

use crate::Memory;
use flp_field::{Fe, laws as words_of};
use flp_plan::Plan;
use flp_prove::Prover;
use flp_query::{InDomain, Scratch, laws as queries};
use std::alloc::Global;
use std::marker::Model;

/// Room for the verifier of an honest proof.
///
/// Contracts see the sizes that it was made for, and the verifier that was made last.
#[derive(Drop)]
pub(crate) struct WireReader {
    prover: Prover,
    scratch: Scratch,
    proof: Vec<Fe>,
    verifier: Vec<Fe>,
}

impl Model for WireReader {
    ghost use Rattle.std.specs.Prelude.{vec_len};
    ghost use Rattle.flp_hide.specs.Room.{Reading, HoldsVerifier};

    ghost Value = { Reading };

    ghost view = { λ reader. record { sizes = reader.prover; verifier = reader.verifier.items } };

    ghost invariant = { λ reader. HoldsVerifier reader.prover reader.scratch (vec_len reader.proof) (vec_len reader.verifier) };
}

impl WireReader {
    /// Room for the proofs of a plan.
    pub(crate) fn new(alloc: Global, plan: &Plan) -> Result<WireReader, Memory>
        ensures { IfOk result (λ reader. reader.sizes ≡ sizes_of plan.now) }
    {
        let prover = Prover::new(alloc, plan)?;
        let scratch = Scratch::new(alloc, plan)?;
        let proof = vec![in alloc; Fe::ZERO; plan.lengths().proof as usize]?;
        let verifier = vec![in alloc; Fe::ZERO; plan.lengths().verifier as usize]?;
        Ok(WireReader {
            prover,
            scratch,
            proof,
            verifier,
        })
    }

    /// Makes the verifier, on one share, of the honest proof of the encoding `x` with these seeds.
    pub(crate) fn make(
        &mut self,
        plan: &Plan,
        x: &[Fe],
        joint: &[Fe],
        seeds: &[Fe],
        words: &[Fe],
    ) -> Result<(), InDomain>
        requires made { self.old.sizes ≡ sizes_of plan.now }
        requires x { length x.now ≡ (counted_lengths plan.now.circuit).meas }
        requires joint { length joint.now ≡ (counted_lengths plan.now.circuit).joint }
        requires seeds { length seeds.now ≡ (counted_lengths plan.now.circuit).prove }
        requires words { length words.now ≡ (counted_lengths plan.now.circuit).query }
        ensures outside { OnOk result (domain_of plan.now.circuit words.now ≡ None) }
        ensures honest { OnOk result (self.new.verifier ≡ honest_verifier plan.now.circuit x.now joint.now seeds.now words.now) }
        ensures inside { IfErr result (λ refusal. domain_of plan.now.circuit words.now ≡ Some refusal.gadget) }
        ensures again { self.new.sizes ≡ self.old.sizes }
    {
        words_of::words(seeds);
        queries::units();
        let proof: &mut [Fe] = &mut self.proof;
        let verifier: &mut [Fe] = &mut self.verifier;
        self.prover.prove(plan, x, joint, seeds, proof);
        self.scratch
            .query(plan, x, proof, joint, words, 1, verifier)?;
        Ok(())
    }

    /// Writes what the verifier has of the wires of all gadgets, one gadget after another.
    pub(crate) fn write_wires(&self, plan: &Plan, out: &mut [Fe])
        requires made { self.now.sizes ≡ sizes_of plan.now }
        requires out { length out.old ≡ (counted_lengths plan.now.circuit).prove }
        ensures { out.new ≡ flat_map (wires_of_verifier plan.now.circuit self.now.verifier) (gadgets_of plan.now.circuit) }
    {
        copy_wires(plan, &self.verifier, out);
    }
}

/// Copies what a verifier has of the wires of all gadgets, one gadget after another.
fn copy_wires(plan: &Plan, verifier: &[Fe], out: &mut [Fe])
    requires verifier { length verifier.now ≡ (counted_lengths plan.now.circuit).verifier }
    requires out { length out.old ≡ (counted_lengths plan.now.circuit).prove }
    ensures { out.new ≡ flat_map (wires_of_verifier plan.now.circuit verifier.now) (gadgets_of plan.now.circuit) }
{
    let mut first = 0;
    let mut start = 1;
    for gadget in 0..plan.gadgets() {
        let arity = plan.arity(gadget);
        let last = first + arity;
        let end = start + arity;
        out[first..last].copy_from_slice(&verifier[start..end]);
        first = last;
        start = end + 1;
    }
}
