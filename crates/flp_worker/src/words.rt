//! The words of a record, in the field.
ghost use Rattle.std.specs.Prelude.{◌≡◌, ◌+◌, ◌*◌, ◌<◌, ◌≤◌, length};
ghost use Rattle.flp_report.specs.Shape.{part_words, words_of};
ghost use Rattle.flp_report.specs.Record.{own_word};

use flp_field::Fe;
use flp_report::Shape;
use flp_share::{add_to, clear};

/// The words of a record behind its nonce, and the shape that says where each part stands. Shares and proofs are
/// numbered from 0.
#[derive(Clone, Copy)]
pub struct Words<'a> {
    pub(crate) shape: Shape,
    pub(crate) all: &'a [Fe],
    ghost whole: { length all.now ≡ words_of shape },
}

impl<'a> Words<'a> {
    ghost use Rattle.flp_worker.specs.Words.{shape_held, words_held};
    ghost use Rattle.flp_worker.specs.Parts.{share_encoding, share_proof, joint_words, query_words, unshared_encoding, unshared_proof};

    /// All words of a record of this shape.
    pub fn new(shape: &Shape, all: &'a [Fe]) -> Words<'a>
        requires { length all.now ≡ words_of shape.now }
        ensures shape { shape_held result ≡ shape.now }
        ensures words { words_held result ≡ all.now }
    {
        Words { shape: *shape, all }
    }

    /// How many proofs there are.
    pub fn proofs(&self) -> u32
        ensures { result ≡ (shape_held self.now).proofs }
    {
        self.shape.proofs
    }

    /// Where the part of a share begins.
    fn part_start(&self, share: u32) -> usize
        requires { share < self.now.shape.shares }
        ensures start { result ≡ share * part_words self.now.shape }
        ensures room { result + part_words self.now.shape ≤ length self.now.all.now }
    {
        share as usize * self.shape.part() as usize
    }

    /// What a share has of the encoding.
    pub(crate) fn encoding(&self, share: u32) -> &'a [Fe]
        requires { share < self.now.shape.shares }
        ensures words { result.now ≡ share_encoding self.now.shape self.now.all.now share }
        ensures count { length result.now ≡ self.now.shape.meas }
    {
        let start = self.part_start(share);
        &self.all[start..start + self.shape.meas as usize]
    }

    /// What a share has of a proof.
    pub(crate) fn proof(&self, proof: u32, share: u32) -> &'a [Fe]
        requires proof { proof < self.now.shape.proofs }
        requires share { share < self.now.shape.shares }
        ensures words { result.now ≡ share_proof self.now.shape self.now.all.now proof share }
        ensures count { length result.now ≡ self.now.shape.proof }
    {
        let size = self.shape.proof as usize;
        let before = self.shape.meas as usize + proof as usize * size;
        let start = self.part_start(share) + before;
        &self.all[start..start + size]
    }

    /// Writes the unshared encoding to `out`: the sum of what the shares have of it.
    pub fn write_encoding(&self, out: &mut [Fe])
        requires { length out.old ≡ (shape_held self.now).meas }
        ensures { out.new ≡ unshared_encoding (shape_held self.now) (words_held self.now) }
    {
        clear(out);
        for share in 0..self.shape.shares {
            add_to(self.encoding(share), out);
        }
    }

    /// Writes an unshared proof to `out`: the sum of what the shares have of it.
    pub fn write_proof(&self, proof: u32, out: &mut [Fe])
        requires proof { proof < (shape_held self.now).proofs }
        requires room { length out.old ≡ (shape_held self.now).proof }
        ensures { out.new ≡ unshared_proof (shape_held self.now) (words_held self.now) proof }
    {
        clear(out);
        for share in 0..self.shape.shares {
            add_to(self.proof(proof, share), out);
        }
    }

    /// Where the joint words and query words of a proof begin.
    fn own_start(&self, proof: u32) -> usize
        requires { proof < self.now.shape.proofs }
        ensures start { result ≡ own_word self.now.shape proof }
        ensures room { result + (self.now.shape.joint + self.now.shape.query) ≤ length self.now.all.now }
    {
        let shares = u64::from(self.shape.shares) * self.shape.part();
        let own = u64::from(self.shape.joint) + u64::from(self.shape.query);
        (shares + u64::from(proof) * own) as usize
    }

    /// The joint words of a proof.
    pub fn joint(&self, proof: u32) -> &'a [Fe]
        requires { proof < (shape_held self.now).proofs }
        ensures words { result.now ≡ joint_words (shape_held self.now) (words_held self.now) proof }
        ensures count { length result.now ≡ (shape_held self.now).joint }
    {
        let start = self.own_start(proof);
        &self.all[start..start + self.shape.joint as usize]
    }

    /// The query words of a proof.
    pub(crate) fn query(&self, proof: u32) -> &'a [Fe]
        requires { proof < self.now.shape.proofs }
        ensures words { result.now ≡ query_words self.now.shape self.now.all.now proof }
        ensures count { length result.now ≡ self.now.shape.query }
    {
        let start = self.own_start(proof) + self.shape.joint as usize;
        &self.all[start..start + self.shape.query as usize]
    }
}
