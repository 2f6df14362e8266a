//! The jobs of a job file, whose bytes are lent.
ghost use Rattle.std.specs.Prelude.{◌≡◌, ◌+◌, ◌*◌, ◌<◌, ◌≤◌, length, take, slice_get, Some};
ghost use Rattle.flp_report.specs.Job.{job_bytes_of};
ghost use Rattle.flp_report.specs.declared.shape.TheConstants.{RECORD_LIMIT};

use crate::job_shape::JobShape;
use crate::record::number_at;
use crate::shape::RECORD_LIMIT;
use flp_field::MODULUS;

/// A job: a nonce of 16 bytes, and then its words in 8 bytes each, the lowest byte first.
///
/// The words are the input; for each share but the first, those of its part of the report; for each
/// proof its seeds; and then, for each proof, its joint words and its query words. Every part is
/// lent without copying.
#[derive(Clone, Copy, Debug)]
pub struct Job<'a> {
    shape: JobShape,
    bytes: &'a [u8],
    ghost whole: { length bytes.now ≡ job_bytes_of shape },
    ghost short: { job_bytes_of shape ≤ RECORD_LIMIT },
}

impl<'a> Job<'a> {
    ghost use Rattle.flp_report.specs.Job.{job_bad_word};
    ghost use Rattle.flp_report.specs.JobParts.{job_of, job_shape_of, input_in, parts_in, seeds_start, seeds_in_job, job_own_start, job_joint_in, job_query_in};

    /// The 16 bytes that tell the report from others.
    pub fn nonce(&self) -> &'a [u8]
        ensures { result.now ≡ take 16 (job_of self.now) }
    {
        &self.bytes[..16]
    }

    /// The bytes of the input's numbers.
    pub fn input(&self) -> &'a [u8]
        ensures { result.now ≡ input_in (job_shape_of self.now) (job_of self.now) }
    {
        &self.bytes[16..16 + 8 * self.shape.input as usize]
    }

    /// The bytes of the words of shares 1 and up, one share after the other.
    pub fn parts(&self) -> &'a [u8]
        ensures { result.now ≡ parts_in (job_shape_of self.now) (job_of self.now) }
    {
        let start = 16 + 8 * self.shape.input as usize;
        let size = 8 * (self.shape.given() * self.shape.part()) as usize;
        &self.bytes[start..start + size]
    }

    /// Where the seeds of one proof begin.
    fn seeds_place(&self, proof: u32) -> usize
        requires { proof < (job_shape_of self.now).proofs }
        ensures start { result ≡ seeds_start (job_shape_of self.now) proof }
        ensures room { result + 8 * (job_shape_of self.now).prove ≤ length (job_of self.now) }
    {
        let parts = self.shape.given() * self.shape.part();
        let before = u64::from(proof) * u64::from(self.shape.prove);
        (16 + 8 * (u64::from(self.shape.input) + parts + before)) as usize
    }

    /// The bytes of one proof's seeds. Proofs are numbered from 0.
    pub fn seeds(&self, proof: u32) -> &'a [u8]
        requires { proof < (job_shape_of self.now).proofs }
        ensures { result.now ≡ seeds_in_job (job_shape_of self.now) (job_of self.now) proof }
    {
        let start = self.seeds_place(proof);
        &self.bytes[start..start + 8 * self.shape.prove as usize]
    }

    /// Where the joint and query words of one proof begin.
    fn own_place(&self, proof: u32) -> usize
        requires { proof < (job_shape_of self.now).proofs }
        ensures start { result ≡ job_own_start (job_shape_of self.now) proof }
        ensures room { result + 8 * ((job_shape_of self.now).joint + (job_shape_of self.now).query) ≤ length (job_of self.now) }
    {
        let parts = self.shape.given() * self.shape.part();
        let seeds = u64::from(self.shape.proofs) * u64::from(self.shape.prove);
        let own = u64::from(self.shape.joint) + u64::from(self.shape.query);
        let before = u64::from(self.shape.input) + parts + seeds;
        (16 + 8 * (before + u64::from(proof) * own)) as usize
    }

    /// The bytes of one proof's joint words. Proofs are numbered from 0.
    pub fn joint(&self, proof: u32) -> &'a [u8]
        requires { proof < (job_shape_of self.now).proofs }
        ensures { result.now ≡ job_joint_in (job_shape_of self.now) (job_of self.now) proof }
    {
        let start = self.own_place(proof);
        &self.bytes[start..start + 8 * self.shape.joint as usize]
    }

    /// The bytes of one proof's query words. Proofs are numbered from 0.
    pub fn query(&self, proof: u32) -> &'a [u8]
        requires { proof < (job_shape_of self.now).proofs }
        ensures { result.now ≡ job_query_in (job_shape_of self.now) (job_of self.now) proof }
    {
        let start = self.own_place(proof) + 8 * self.shape.joint as usize;
        &self.bytes[start..start + 8 * self.shape.query as usize]
    }

    /// The number of the first word, from 0 after the nonce, that must be below the modulus and is
    /// not.
    pub(crate) fn bad_word(&self) -> Option<u32>
        ensures { result ≡ job_bad_word (job_shape_of self.now) (job_of self.now) }
    {
        let words = &self.bytes[16..];
        let count = self.shape.words() as u32;
        for word in self.shape.free()..count {
            if number_at(words, word as usize) >= MODULUS {
                return Some(word);
            }
        }
        None
    }
}

/// All jobs of a job file.
#[derive(Drop)]
pub struct Jobs {
    shape: JobShape,
    count: u32,
    bytes: Vec<u8>,
    ghost short: { job_bytes_of shape ≤ RECORD_LIMIT },
    ghost whole: { length bytes.items ≡ count * job_bytes_of shape },
}

impl Jobs {
    ghost use Rattle.flp_report.specs.Job.{word_fault};
    ghost use Rattle.flp_report.specs.JobParts.{job_of, job_shape_of, jobs_shape, jobs_count, jobs_bytes, job_in, jobs_in};
    ghost use Rattle.flp_report.specs.Job.{first_word};

    /// The jobs of this shape in these bytes.
    pub(crate) fn from_vec(shape: JobShape, count: u32, bytes: Vec<u8>) -> Jobs
        requires short { job_bytes_of shape ≤ RECORD_LIMIT }
        requires whole { length bytes.items ≡ count * job_bytes_of shape }
        ensures shape { jobs_shape result ≡ shape }
        ensures count { jobs_count result ≡ count }
        ensures bytes { jobs_bytes result ≡ bytes.items }
    {
        Jobs {
            shape,
            count,
            bytes,
        }
    }

    /// The job of this number, from 0. Its bytes are lent.
    pub fn job_at(&self, index: u32) -> Job<'_>
        requires { index < jobs_count self.now }
        ensures bytes { job_of result ≡ job_in self.now index }
        ensures numbered { slice_get (jobs_in self.now) index ≡ Some (job_of result) }
        ensures shape { job_shape_of result ≡ jobs_shape self.now }
    {
        let size = self.shape.bytes() as usize;
        let start = size * index as usize;
        Job {
            shape: self.shape,
            bytes: &self.bytes[start..start + size],
        }
    }

    /// The first job with a word that must be below the modulus and is not, and its first such word.
    pub(crate) fn bad_word(&self) -> Option<(u32, u32)>
        ensures { first_word result ≡ word_fault (jobs_shape self.now) 0 (jobs_in self.now) }
    {
        for place in 0..self.count {
            match self.job_at(place).bad_word() {
                Some(word) => return Some((place, word)),
                None => {}
            }
        }
        None
    }
}
