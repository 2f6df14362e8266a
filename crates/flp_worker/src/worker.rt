//! What verifies one record after another.
ghost use Rattle.std.specs.Prelude.{◌≡◌, ◌≢◌, ◌⊎◌, ℕ, ◌<◌, IfOk};
ghost use Rattle.flp_report.specs.Record.{record_of, shape_of};
ghost use Rattle.flp_policy.specs.declared.verdict.Verdict.TheVariants.{Accepted as AcceptedVerdict, Rejected as RejectedVerdict, Replayed as ReplayedVerdict};
ghost use Rattle.flp_worker.specs.Verdict.{verdict_of, outs_in, share_verifier};
ghost use Rattle.flp_worker.specs.Worker.{IsShapeOf, IsMadeFor, verifier_kept};

use crate::Memory;
use crate::row::write_row;
use crate::verify::{Inside, verify_proofs};
use crate::words::Words;
use flp_field::Fe;
use flp_plan::{Plan, laws};
use flp_policy::Verdict;
use flp_query::Challenge;
use flp_report::{Record, Shape};
use std::alloc::Global;
use std::marker::Model;

/// What verifies records of one shape, one after another, and lends what it made of the last one.
///
/// Contracts see what it was made for, and the row and the verifiers that it keeps. It serves each plan that asks
/// for the same.
#[derive(Drop)]
pub struct Worker {
    shape: Shape,
    /// What the shares of the proof that was looked at last have in common.
    challenge: Challenge,
    /// The words of a record.
    words: Vec<Fe>,
    /// For each proof, the verifier of each share.
    verifiers: Vec<Fe>,
    /// The sum of the verifiers of the shares for one proof.
    sum: Vec<Fe>,
    /// The unshared encoding.
    encoding: Vec<Fe>,
    row: Vec<Fe>,
}

impl Model for Worker {
    ghost use Rattle.std.specs.Prelude.{vec_len};
    ghost use Rattle.flp_worker.specs.Worker.{Working};
    ghost use Rattle.flp_worker.specs.Room.{HasRoom};

    ghost Value = { Working };

    ghost view = { λ worker. record { shape = worker.shape; sizes = worker.challenge.sizes; row = worker.row.items; verifiers = worker.verifiers.items } };

    ghost invariant = { λ worker. HasRoom worker.shape worker.challenge.sizes (vec_len worker.words) (vec_len worker.verifiers) (vec_len worker.sum) (vec_len worker.encoding) (vec_len worker.row) };
}

impl Worker {
    /// A worker for records of this shape, whose circuit has this plan.
    pub fn new(alloc: Global, plan: &Plan, shape: &Shape) -> Result<Worker, Memory>
        ensures { IfOk result (λ worker. IsMadeFor plan.now shape.now worker) }
    {
        laws::is_within_limits(plan);
        let lengths = plan.lengths();
        let pairs = shape.proofs as usize * shape.shares as usize;
        let verifier = lengths.verifier as usize;
        Ok(Worker {
            shape: *shape,
            challenge: Challenge::new(alloc, plan)?,
            words: vec![in alloc; Fe::ZERO; shape.words() as usize]?,
            verifiers: vec![in alloc; Fe::ZERO; pairs * verifier]?,
            sum: vec![in alloc; Fe::ZERO; verifier]?,
            encoding: vec![in alloc; Fe::ZERO; lengths.meas as usize]?,
            row: vec![in alloc; Fe::ZERO; lengths.outs as usize]?,
        })
    }

    /// The verdict on a record whose nonce is new.
    ///
    /// The least word that is no word of the field makes it malformed. Else the least proof with a query point that
    /// lies in the domain of a gadget is named with the least such gadget. Else it is accepted where each proof
    /// holds, and rejected where one does not. It takes no memory.
    pub fn verify_record(&mut self, plan: &Plan, shape: &Shape, given: &Record) -> Verdict
        requires fits { IsShapeOf plan.now.circuit shape.now }
        requires record_shape { shape_of given.now ≡ shape.now }
        requires made { IsMadeFor plan.now shape.now self.old }
        ensures verdict { result ≡ verdict_of plan.now.circuit shape.now (record_of given.now) }
        ensures no_replay { result ≢ ReplayedVerdict }
        ensures row { result ≡ AcceptedVerdict → self.new.row ≡ outs_in plan.now.circuit shape.now (record_of given.now) }
        ensures verifiers { (result ≡ AcceptedVerdict) ⊎ (result ≡ RejectedVerdict) → (share proof : ℕ) → share < shape.now.shares → proof < shape.now.proofs → verifier_kept self.new share proof ≡ share_verifier plan.now.circuit shape.now (record_of given.now) share proof }
        ensures again { IsMadeFor plan.now shape.now self.new }
    {
        if let Err(word) = given.load(&mut self.words) {
            return Verdict::Malformed { word };
        }
        let words = Words {
            shape: *shape,
            all: &self.words,
        };
        match verify_proofs(
            plan,
            &words,
            &mut self.challenge,
            &mut self.verifiers,
            &mut self.sum,
        ) {
            Err(Inside { proof, gadget }) => Verdict::InDomain { proof, gadget },
            Ok(false) => Verdict::Rejected,
            Ok(true) => {
                write_row(
                    plan,
                    &words,
                    self.challenge.publics(),
                    &mut self.encoding,
                    &mut self.row,
                );
                Verdict::Accepted
            }
        }
    }

    /// The outs of the unshared encoding, after a record was accepted.
    pub fn row(&self) -> &[Fe]
        ensures { result.now ≡ self.now.row }
    {
        &self.row
    }

    /// The verifier words that the last record's share has alone for this proof, after the record was accepted or
    /// rejected. Shares and proofs are numbered from 0.
    pub fn verifier(&self, share: u32, proof: u32) -> &[Fe]
        requires share { share < self.now.shape.shares }
        requires proof { proof < self.now.shape.proofs }
        ensures { result.now ≡ verifier_kept self.now share proof }
    {
        let verifiers: &[Fe] = &self.verifiers;
        let size = self.sum.len();
        let start = (proof as usize * self.shape.shares as usize + share as usize) * size;
        &verifiers[start..start + size]
    }
}
