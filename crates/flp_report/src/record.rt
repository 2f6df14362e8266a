//! One record of a batch, whose bytes are lent.
ghost use Rattle.std.specs.Prelude.{◌≡◌, ◌+◌, ◌*◌, ◌<◌, ◌≤◌, length, drop, All, OnOk};
ghost use Rattle.std.specs.Result.{result_err};
ghost use Rattle.byteorder.specs.Endian.{little_number};
ghost use Rattle.flp_field.specs.Word.{IsWord};
ghost use Rattle.flp_report.specs.Shape.{words_of, words_start, bytes_of};
ghost use Rattle.flp_report.specs.Words.{words, bad_word_in};
ghost use Rattle.flp_report.specs.declared.shape.TheConstants.{RECORD_LIMIT};

use crate::head;
use crate::shape::{RECORD_LIMIT, Shape};
use byteorder::{ByteOrder, LittleEndian};
use flp_field::{Fe, MODULUS};

/// A record: a nonce of 16 bytes, in version 2 its bucket in 4 bytes, and then its words in 8 bytes
/// each, the lowest byte first.
///
/// The words are, for each share, those of its share of the encoding and of each proof; and then,
/// for each proof, its joint words and its query words. Every part is lent without copying.
/// [`load`](Record::load) brings all words into the field.
#[derive(Clone, Copy, Debug)]
pub struct Record<'a> {
    shape: Shape,
    bytes: &'a [u8],
    ghost whole: { length bytes.now ≡ bytes_of shape },
    ghost short: { bytes_of shape ≤ RECORD_LIMIT },
}

impl<'a> Record<'a> {
    ghost use Rattle.flp_report.specs.Record.{record_of, shape_of, nonce_in, bucket_in, words_in, share_in, own_start, joint_in, query_in};

    /// The record of these bytes, as many as the shape says.
    pub(crate) fn new(shape: Shape, bytes: &'a [u8]) -> Record<'a>
        requires whole { length bytes.now ≡ bytes_of shape }
        requires short { bytes_of shape ≤ RECORD_LIMIT }
        ensures bytes { record_of result ≡ bytes.now }
        ensures shape { shape_of result ≡ shape }
    {
        Record { shape, bytes }
    }

    /// The 16 bytes that tell this report from others.
    pub fn nonce(&self) -> &'a [u8]
        ensures { result.now ≡ nonce_in (record_of self.now) }
    {
        &self.bytes[..16]
    }

    /// Its bucket, which is 0 in version 1. In a record that a reader gave it is below the shape's
    /// number of buckets.
    pub fn bucket(&self) -> u32
        ensures { result ≡ bucket_in (shape_of self.now) (record_of self.now) }
    {
        if self.shape.version == 2 {
            head::number_at(self.bytes, 16)
        } else {
            0
        }
    }

    /// The bytes of one share's part, [`Shape::part`] words: the encoding's words, and then the words
    /// of each proof. Shares are numbered from 0.
    pub fn share(&self, share: u32) -> &'a [u8]
        requires { share < (shape_of self.now).shares }
        ensures { result.now ≡ share_in (shape_of self.now) (record_of self.now) share }
    {
        let size = self.shape.part() as usize * 8;
        let start = self.shape.start() as usize + share as usize * size;
        &self.bytes[start..start + size]
    }

    /// Where the joint and query words of one proof begin.
    fn own_words(&self, proof: u32) -> usize
        requires { proof < (shape_of self.now).proofs }
        ensures start { result ≡ own_start (shape_of self.now) proof }
        ensures room { result + 8 * ((shape_of self.now).joint + (shape_of self.now).query) ≤ length (record_of self.now) }
    {
        let shares = u64::from(self.shape.shares) * self.shape.part();
        let own = u64::from(self.shape.joint) + u64::from(self.shape.query);
        (self.shape.start() + 8 * (shares + u64::from(proof) * own)) as usize
    }

    /// The bytes of one proof's joint words. Proofs are numbered from 0.
    pub fn joint(&self, proof: u32) -> &'a [u8]
        requires { proof < (shape_of self.now).proofs }
        ensures { result.now ≡ joint_in (shape_of self.now) (record_of self.now) proof }
    {
        let start = self.own_words(proof);
        &self.bytes[start..start + 8 * self.shape.joint as usize]
    }

    /// The bytes of one proof's query words. Proofs are numbered from 0.
    pub fn query(&self, proof: u32) -> &'a [u8]
        requires { proof < (shape_of self.now).proofs }
        ensures { result.now ≡ query_in (shape_of self.now) (record_of self.now) proof }
    {
        let start = self.own_words(proof) + 8 * self.shape.joint as usize;
        &self.bytes[start..start + 8 * self.shape.query as usize]
    }

    /// Brings all words into the field, in their order. `out` has a place for each.
    ///
    /// An error is the number of the first word, from 0, that is not below the modulus.
    pub fn load(&self, out: &mut [Fe]) -> Result<(), u32>
        requires { length out.old ≡ words_of (shape_of self.now) }
        ensures words { OnOk result (out.new ≡ words_in (shape_of self.now) (record_of self.now)) }
        ensures bad { result_err result ≡ bad_word_in (words_in (shape_of self.now) (record_of self.now)) }
    {
        let words = &self.bytes[self.shape.start() as usize..];
        for (word, place) in out.iter_mut().enumerate() {
            match Fe::new(number_at(words, word)) {
                Some(value) => *place = value,
                None => return Err(word as u32),
            }
        }
        Ok(())
    }

    /// The number of the first word, from 0, that is not below the modulus; `None`
    /// where all words are words of the field.
    pub fn bad_word(&self) -> Option<u32>
        ensures { result ≡ bad_word_in (words_in (shape_of self.now) (record_of self.now)) }
    {
        let words = &self.bytes[self.shape.start() as usize..];
        let count = self.shape.words() as u32;
        for word in 0..count {
            if number_at(words, word as usize) >= MODULUS {
                return Some(word);
            }
        }
        None
    }
}

/// The number in the 8 bytes of this place.
pub(crate) fn number_at(bytes: &[u8], index: usize) -> u64
    requires { 8 * index + 8 ≤ length bytes.now }
    ensures { result ≡ little_number 8 (drop (8 * index) bytes.now) }
{
    LittleEndian::read_u64(&bytes[8 * index..])
}

/// Brings the words in `bytes`, 8 bytes each, into the field, in their order. There are as many as
/// `out` has places, and each is below the modulus.
pub fn load(bytes: &[u8], out: &mut [Fe])
    requires size { length bytes.now ≡ 8 * length out.old }
    requires below { All IsWord (words (length out.old) bytes.now) }
    ensures { out.new ≡ words (length out.old) bytes.now }
{
    for (index, word) in out.iter_mut().enumerate() {
        *word = Fe::new(number_at(bytes, index)).unwrap();
    }
}

/// Brings the numbers in `bytes`, 8 bytes each and of any value, into `out`, in their order. There
/// are as many as `out` has places.
pub fn load_numbers(bytes: &[u8], out: &mut [u64])
    requires { length bytes.now ≡ 8 * length out.old }
    ensures { out.new ≡ words (length out.old) bytes.now }
{
    for (index, number) in out.iter_mut().enumerate() {
        *number = number_at(bytes, index);
    }
}
