//! The numbers that fix where each part of a job stands.
ghost use Rattle.std.specs.Prelude.{◌≡◌, ◌-◌, ◌≤◌, ◌<◌, ◌^◌};

use crate::shape::Shape;

/// How many shares and proofs a report of a job has, at most 16 each, and how many words each part
/// of a job has, whatever the circuit.
///
/// `input` counts the numbers of the input, `meas` the words of one share of the encoding, `proof`
/// those of one share of one proof, `prove` the seeds, `joint` and `query` the challenge words of
/// one proof. With `checked` the input must be words below the modulus. With `written` the batch
/// that is made of the jobs must be within the limits too.
#[derive(Clone, Copy, Debug, PartialEq, Eq)]
pub struct JobShape {
    pub shares: u32,
    pub proofs: u32,
    pub input: u32,
    pub meas: u32,
    pub joint: u32,
    pub prove: u32,
    pub query: u32,
    pub proof: u32,
    pub checked: bool,
    pub written: bool,
    ghost few_shares: { shares ≤ 16 },
    ghost few_proofs: { proofs ≤ 16 },
}

impl JobShape {
    ghost use Rattle.flp_report.specs.Job.{record_shape, job_part_of, job_words_of, job_bytes_of, free_words};
    ghost use Rattle.flp_report.specs.Shape.{bytes_of};

    /// The shape with nothing but a nonce, which a reader has before it is given one.
    pub(crate) const NONE: JobShape = JobShape {
        shares: 0,
        proofs: 0,
        input: 0,
        meas: 0,
        joint: 0,
        prove: 0,
        query: 0,
        proof: 0,
        checked: false,
        written: false,
    };

    /// The shape of the record of version 1 that is made of a job, without the outs of the circuit.
    pub fn record(&self) -> Shape
        ensures { result ≡ record_shape self.now 0 }
    {
        Shape {
            version: 1,
            shares: self.shares,
            proofs: self.proofs,
            buckets: 1,
            meas: self.meas,
            joint: self.joint,
            query: self.query,
            proof: self.proof,
            outs: 0,
        }
    }

    /// The words of one share's part of a report.
    pub fn part(&self) -> u64
        ensures words { result ≡ job_part_of self.now }
        ensures short { result < 2 ^ 37 }
    {
        self.record().part()
    }

    /// The shares whose words a job gives: all but the first.
    pub(crate) fn given(&self) -> u64
        ensures count { result ≡ self.now.shares - 1 }
        ensures few { result ≤ 16 }
    {
        u64::from(self.shares.saturating_sub(1))
    }

    /// The words of a job, which follow its nonce.
    pub fn words(&self) -> u64
        ensures words { result ≡ job_words_of self.now }
        ensures short { result < 2 ^ 43 }
    {
        let own = u64::from(self.joint) + u64::from(self.query);
        let seeds = u64::from(self.proofs) * u64::from(self.prove);
        u64::from(self.input) + self.given() * self.part() + seeds + u64::from(self.proofs) * own
    }

    /// The bytes of a job.
    pub fn bytes(&self) -> u64
        ensures bytes { result ≡ job_bytes_of self.now }
        ensures short { result < 2 ^ 47 }
    {
        16 + 8 * self.words()
    }

    /// How many words of a job, its first ones, may have any value.
    pub(crate) fn free(&self) -> u32
        ensures { result ≡ free_words self.now }
    {
        if self.checked { 0 } else { self.input }
    }
}
