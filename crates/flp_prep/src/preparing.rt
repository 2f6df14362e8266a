//! What `prep` makes of each record of a batch.
ghost use Rattle.std.specs.Prelude.{◌≡◌, ◌++◌, ◌<◌, [], None, length, IfOk, OnOk};
ghost use Rattle.flp_report.specs.Nonces.{nonces_in};
ghost use Rattle.flp_worker.specs.Worker.{IsShapeOf};
ghost use Rattle.flp_verdict.specs.Judging.{record_shape_of};

use crate::Memory;
use crate::text::push_words;
use flp_batch::Judge;
use flp_plan::Plan;
use flp_policy::Verdict;
use flp_report::{Nonces, Record, Shape};
use flp_verdict::{Judging, push_line, push_nonce};
use std::alloc::{AllocError, Global};

/// Judges records in their order, and tells of each the verifier words of one party's share.
#[derive(Drop)]
pub(crate) struct Preparing<'a> {
    judging: Judging<'a>,
    proofs: u32,
    party: u32,
    ghost all_proofs: { proofs ≡ (record_shape_of judging).proofs },
    ghost own_share: { party < (record_shape_of judging).shares },
}

impl<'a> Preparing<'a> {
    ghost use Rattle.flp_prep.specs.Text.{prep_line, line_for};
    ghost use Rattle.flp_prep.specs.Preparing.{setting_of, party_of, digits_kept, HasPrepared};

    /// Before the first record of a batch with this circuit, shape and old claims.
    pub(crate) fn new(
        alloc: Global,
        plan: &'a Plan,
        shape: &Shape,
        claims: &'a Nonces,
        party: u32,
    ) -> Result<Preparing<'a>, Memory>
        requires fits { IsShapeOf plan.now.circuit shape.now }
        requires own_share { party < shape.now.shares }
        ensures setting { IfOk result (λ p. setting_of p ≡ record { params = None; circuit = plan.now.circuit; shape = shape.now; claims = nonces_in claims.now }) }
        ensures party { IfOk result (λ p. party_of p ≡ party) }
        ensures fresh { IfOk result (λ p. HasPrepared p []) }
    {
        let judging = Judging::new(alloc, plan, shape, claims)?;
        Ok(Preparing {
            judging,
            proofs: shape.proofs,
            party,
        })
    }

    /// Appends the digits of the verifier words of the party's share of the record that was judged last.
    fn push_verifiers(&self, line: &mut Vec<u8>) -> Result<(), Memory>
        ensures { OnOk result (line.new.items ≡ line.old.items ++ digits_kept self.now) }
    {
        for proof in 0..self.proofs {
            push_words(line, self.judging.verifier(self.party, proof))?;
        }
        Ok(())
    }

    /// Appends the line of the record that was judged last, after it was accepted or rejected.
    fn push_prep(&self, line: &mut Vec<u8>, nonce: &[u8]) -> Result<(), Memory>
        requires { length nonce.now ≡ 16 }
        ensures { OnOk result (line.new.items ≡ line.old.items ++ prep_line nonce.now (digits_kept self.now)) }
    {
        push_nonce(line, nonce)?;
        line.extend_from_slice(b"prep ")?;
        self.push_verifiers(line)?;
        line.extend_from_slice(b"\n")?;
        Ok(())
    }

    /// Appends the line of the record that was judged last, whose verdict is this.
    fn push_line_for(
        &self,
        line: &mut Vec<u8>,
        nonce: &[u8],
        verdict: Verdict,
    ) -> Result<(), Memory>
        requires { length nonce.now ≡ 16 }
        ensures { OnOk result (line.new.items ≡ line.old.items ++ line_for nonce.now (digits_kept self.now) verdict) }
    {
        match verdict {
            Verdict::Accepted | Verdict::Rejected => self.push_prep(line, nonce),
            Verdict::InDomain { .. } | Verdict::Malformed { .. } | Verdict::Replayed => {
                push_line(line, nonce, verdict)
            }
        }
    }
}

impl<'a> Judge for Preparing<'a> {
    ghost use Rattle.flp_prep.specs.Text.{words_by};
    ghost use Rattle.flp_prep.specs.Preparing.{setting_of, party_of, HasPrepared};

    ghost record_shape = { λ p. (setting_of p).shape };

    ghost wording = { λ p. words_by (party_of p) (setting_of p) };

    ghost follows = { HasPrepared };

    ghost count = { λ _. 0 };

    fn judge(&mut self, given: &Record, line: &mut Vec<u8>) -> Result<(), AllocError> {
        let verdict = self.judging.judge(given)?;
        line.clear();
        self.push_line_for(line, given.nonce(), verdict)
    }

    fn end(&self, ending: &mut Vec<u8>) -> Result<(), AllocError> {
        ending.clear();
        Ok(())
    }
}
