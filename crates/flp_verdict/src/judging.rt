//! What decides the verdict on each record of a batch in turn.
ghost use Rattle.std.specs.Prelude.{◌≡◌, ◌++◌, ◌<◌, ◌⊎◌, [], ◌∷◌, Ok, List, ℕ, IfOk, OnOk};
ghost use Rattle.flp_report.specs.Record.{record_of, shape_of};
ghost use Rattle.flp_report.specs.Nonces.{nonces_in};
ghost use Rattle.flp_policy.specs.declared.verdict.Verdict.TheVariants.{Accepted as AcceptedVerdict, Rejected as RejectedVerdict};
ghost use Rattle.flp_worker.specs.Verdict.{outs_in, share_verifier};
ghost use Rattle.flp_worker.specs.Worker.{IsShapeOf, IsMadeFor};
ghost use Rattle.flp_verdict.specs.Verdicts.{verdict_after};

use crate::Memory;
use flp_field::Fe;
use flp_known::Met;
use flp_plan::Plan;
use flp_policy::Verdict;
use flp_report::{Nonces, Record, Shape};
use flp_worker::Worker;
use std::alloc::Global;

/// The nonces that are known, and a worker for the records whose nonce is new.
///
/// It lends the plan and the old claims, and keeps of the record that was judged last what its worker keeps.
#[derive(Drop)]
pub struct Judging<'a> {
    plan: &'a Plan,
    claims: &'a Nonces,
    shape: Shape,
    worker: Worker,
    met: Met,
    ghost fits: { IsShapeOf plan.now.circuit shape },
    ghost made: { IsMadeFor plan.now shape worker },
}

impl<'a> Judging<'a> {
    ghost use Rattle.flp_verdict.specs.Judging.{program_of, record_shape_of, old_claims_of, row_of, verifier_of, JudgesAlike, Follows};

    /// Before the first record: the old claims alone are known.
    ///
    /// The shape is that of the records of this plan's circuit.
    pub fn new(
        alloc: Global,
        plan: &'a Plan,
        shape: &Shape,
        claims: &'a Nonces,
    ) -> Result<Judging<'a>, Memory>
        requires { IsShapeOf plan.now.circuit shape.now }
        ensures program { IfOk result (λ j. program_of j ≡ plan.now.circuit) }
        ensures shape { IfOk result (λ j. record_shape_of j ≡ shape.now) }
        ensures claims { IfOk result (λ j. old_claims_of j ≡ nonces_in claims.now) }
        ensures fresh { IfOk result (λ j. Follows j []) }
    {
        let worker = Worker::new(alloc, plan, shape)?;
        let met = Met::new(alloc);
        Ok(Judging {
            plan,
            claims,
            shape: *shape,
            worker,
            met,
        })
    }

    /// The verdict on the next record, which has the shape that this was made for: Replayed where its nonce is an old
    /// claim or that of an earlier record, and else the worker's.
    ///
    /// From then on its nonce is known, whatever the verdict. Memory is taken for the nonce alone.
    pub fn judge(&mut self, given: &Record) -> Result<Verdict, Memory>
        requires { shape_of given.now ≡ record_shape_of self.old }
        ensures alike { JudgesAlike self.old self.new }
        ensures verdict { IfOk result (λ verdict. (earlier : List (List ℕ)) → Follows self.old earlier
            → verdict ≡ verdict_after (program_of self.old) (record_shape_of self.old) (old_claims_of self.old) earlier (record_of given.now)) }
        ensures follows { OnOk result ((earlier : List (List ℕ)) → Follows self.old earlier
            → Follows self.new (earlier ++ record_of given.now ∷ [])) }
        ensures row { result ≡ Ok AcceptedVerdict
            → row_of self.new ≡ outs_in (program_of self.old) (record_shape_of self.old) (record_of given.now) }
        ensures verifiers { (result ≡ Ok AcceptedVerdict) ⊎ (result ≡ Ok RejectedVerdict)
            → (share proof : ℕ) → share < (record_shape_of self.old).shares → proof < (record_shape_of self.old).proofs
            → verifier_of self.new share proof ≡ share_verifier (program_of self.old) (record_shape_of self.old) (record_of given.now) share proof }
    {
        flp_known::laws::added();
        if self.met.add(self.claims, given.nonce())? {
            Ok(self.worker.verify_record(self.plan, &self.shape, given))
        } else {
            Ok(Verdict::Replayed)
        }
    }

    /// The outs of the unshared encoding of the record that was judged last, after it was accepted.
    pub fn row(&self) -> &[Fe]
        ensures { result.now ≡ row_of self.now }
    {
        self.worker.row()
    }

    /// The verifier words of this share of the record that was judged last, alone, for this proof, after the record
    /// was accepted or rejected. Shares and proofs are numbered from 0.
    pub fn verifier(&self, share: u32, proof: u32) -> &[Fe]
        requires share { share < (record_shape_of self.now).shares }
        requires proof { proof < (record_shape_of self.now).proofs }
        ensures { result.now ≡ verifier_of self.now share proof }
    {
        self.worker.verifier(share, proof)
    }
}
