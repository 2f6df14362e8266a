//! The proofs of a record, each queried on every share.
ghost use Rattle.std.specs.Prelude.{◌≡◌, ◌*◌, ◌<◌, None, Some, List, ℕ, length, IfOk, OnOk, IfErr};
ghost use Rattle.flp_plan.specs.Counted.{counted_lengths};
ghost use Rattle.flp_plan.specs.View.{publics_of};
ghost use Rattle.flp_plan.specs.Sizes.{sizes_of};
ghost use Rattle.flp_query.specs.Challenge.{IsPosed};
ghost use Rattle.flp_worker.specs.Parts.{joint_words, query_words};
ghost use Rattle.flp_worker.specs.Verdict.{proof_holds, all_hold, gadget_inside, first_inside, verifiers_for, verifiers_of};
ghost use Rattle.flp_worker.specs.Worker.{IsShapeOf};

use crate::words::Words;
use flp_field::Fe;
use flp_plan::Plan;
use flp_query::{Challenge, InDomain, decide, laws};
use flp_share::unshare;

/// A query point of this proof lies in the domain of this gadget.
pub(crate) struct Inside {
    pub(crate) proof: u32,
    pub(crate) gadget: u32,
}

/// Whether all proofs hold, or else the least proof with a query point in a domain.
///
/// `verifiers` has room for a verifier for each proof and share, proof by proof, and `sum` for one. Where no query point
/// lies in a domain, the challenge is that of the last proof.
pub(crate) fn verify_proofs(
    plan: &Plan,
    words: &Words,
    challenge: &mut Challenge,
    verifiers: &mut [Fe],
    sum: &mut [Fe],
) -> Result<bool, Inside>
    requires fits { IsShapeOf plan.now.circuit words.now.shape }
    requires made { challenge.old.sizes ≡ sizes_of plan.now }
    requires room { length verifiers.old ≡ words.now.shape.proofs * words.now.shape.shares * (counted_lengths plan.now.circuit).verifier }
    requires sum { length sum.old ≡ (counted_lengths plan.now.circuit).verifier }
    ensures holds { IfOk result (λ hold. hold ≡ all_hold plan.now.circuit words.now.shape words.now.all.now) }
    ensures outside { OnOk result (first_inside plan.now.circuit words.now.shape words.now.all.now ≡ None) }
    ensures publics { OnOk result ((joint : List ℕ) × (challenge.new.publics ≡ publics_of plan.now joint)) }
    ensures verifiers { OnOk result (verifiers.new ≡ verifiers_of plan.now.circuit words.now.shape words.now.all.now) }
    ensures inside { IfErr result (λ inside. first_inside plan.now.circuit words.now.shape words.now.all.now ≡ Some (inside.proof, inside.gadget)) }
    ensures again { challenge.new.sizes ≡ challenge.old.sizes }
{
    let size = words.shape.shares as usize * sum.len();
    let mut hold = true;
    for proof in 0..words.shape.proofs {
        let start = proof as usize * size;
        let of_shares = &mut verifiers[start..start + size];
        match verify_proof(plan, words, proof, challenge, of_shares, sum) {
            Ok(holds) => hold = hold && holds,
            Err(InDomain { gadget }) => return Err(Inside { proof, gadget }),
        }
    }
    Ok(hold)
}

/// Whether a proof holds: whether the sum of the shares' verifiers is taken.
///
/// A query point in a domain ends the proof when it is posed, before any share is looked at.
fn verify_proof(
    plan: &Plan,
    words: &Words,
    proof: u32,
    challenge: &mut Challenge,
    verifiers: &mut [Fe],
    sum: &mut [Fe],
) -> Result<bool, InDomain>
    requires fits { IsShapeOf plan.now.circuit words.now.shape }
    requires proof { proof < words.now.shape.proofs }
    requires made { challenge.old.sizes ≡ sizes_of plan.now }
    requires room { length verifiers.old ≡ words.now.shape.shares * (counted_lengths plan.now.circuit).verifier }
    requires sum { length sum.old ≡ (counted_lengths plan.now.circuit).verifier }
    ensures holds { IfOk result (λ holds. holds ≡ proof_holds plan.now.circuit words.now.shape words.now.all.now proof) }
    ensures outside { OnOk result (gadget_inside plan.now.circuit words.now.shape words.now.all.now proof ≡ None) }
    ensures verifiers { OnOk result (verifiers.new ≡ verifiers_for plan.now.circuit words.now.shape words.now.all.now proof) }
    ensures publics { OnOk result (challenge.new.publics ≡ publics_of plan.now (joint_words words.now.shape words.now.all.now proof)) }
    ensures inside { IfErr result (λ refusal. gadget_inside plan.now.circuit words.now.shape words.now.all.now proof ≡ Some refusal.gadget) }
    ensures again { challenge.new.sizes ≡ challenge.old.sizes }
{
    let shares = words.shape.shares;
    challenge.pose(plan, words.joint(proof), words.query(proof), shares)?;
    query_shares(plan, words, proof, challenge, verifiers);
    laws::shares(plan);
    unshare(verifiers, shares, sum);
    Ok(decide(plan, sum))
}

/// Writes the verifier that each share has for a proof, one share after another. The proof's query is posed.
fn query_shares(
    plan: &Plan,
    words: &Words,
    proof: u32,
    challenge: &mut Challenge,
    verifiers: &mut [Fe],
)
    requires fits { IsShapeOf plan.now.circuit words.now.shape }
    requires proof { proof < words.now.shape.proofs }
    requires made { challenge.old.sizes ≡ sizes_of plan.now }
    requires posed { IsPosed plan.now (joint_words words.now.shape words.now.all.now proof) (query_words words.now.shape words.now.all.now proof) words.now.shape.shares challenge.old }
    requires room { length verifiers.old ≡ words.now.shape.shares * (counted_lengths plan.now.circuit).verifier }
    ensures verifiers { verifiers.new ≡ verifiers_for plan.now.circuit words.now.shape words.now.all.now proof }
    ensures again { challenge.new ≡ challenge.old }
{
    let size = plan.lengths().verifier as usize;
    for share in 0..words.shape.shares {
        let start = share as usize * size;
        challenge.answer(
            plan,
            words.encoding(share),
            words.proof(proof, share),
            &mut verifiers[start..start + size],
        );
    }
}
