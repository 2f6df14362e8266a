//! Writing a batch: its head, its old claims and its records.
ghost use Rattle.std.specs.Prelude.{◌≡◌, ◌≤◌, ◌==◌, ◌++◌, length, if◌then◌else◌};
ghost use Rattle.std.specs.List.{flat_map};
ghost use Rattle.byteorder.specs.Endian.{little_bytes};
ghost use Rattle.flp_io.specs.Writes.{WritesTo};
ghost use Rattle.flp_report.specs.Batch.{batch_letters};
ghost use Rattle.flp_report.specs.Layout.{head_numbers, head_bytes, word_bytes, bucket_bytes, record_bytes};
ghost use Rattle.flp_report.specs.Nonces.{nonce_bytes};

use crate::batch_head::LETTERS;
use crate::header::Header;
use crate::nonces::Nonces;
use byteorder::{ByteOrder, LittleEndian};
use flp_io::{Failed, Sink, put};

/// How many words are written at once.
const BLOCK: usize = 512;

/// The most numbers that stand in front of a circuit text.
const HEAD_NUMBERS: usize = 7;

/// Writes at most [`HEAD_NUMBERS`] numbers, 4 bytes each.
fn put_numbers<K: Sink>(sink: &mut K, numbers: &[u32]) -> Result<(), Failed>
    requires ready { K.ready sink.old }
    requires few { length numbers.now ≤ HEAD_NUMBERS }
    ensures { WritesTo K.taken K.faults K.spare K.ready sink.old sink.new (flat_map (little_bytes 4) numbers.now) result }
{
    let mut bytes = [0; 4 * HEAD_NUMBERS];
    let size = 4 * numbers.len();
    LittleEndian::write_u32_into(numbers, &mut bytes[..size]);
    put(sink, &bytes[..size])
}

/// Writes a piece, and then at most [`HEAD_NUMBERS`] numbers, 4 bytes each.
fn put_both<K: Sink>(sink: &mut K, first: &[u8], numbers: &[u32]) -> Result<(), Failed>
    requires ready { K.ready sink.old }
    requires few { length numbers.now ≤ HEAD_NUMBERS }
    ensures { WritesTo K.taken K.faults K.spare K.ready sink.old sink.new (first.now ++ flat_map (little_bytes 4) numbers.now) result }
{
    match put(sink, first) {
        Ok(()) => {}
        Err(fault) => return Err(fault),
    }
    put_numbers(sink, numbers)
}

/// How many numbers stand in front of the circuit text of a batch of this version.
fn head_count(version: u32) -> usize
    ensures count { result ≡ (if version == 2 then 7 else 6) }
    ensures most { result ≤ HEAD_NUMBERS }
{
    if version == 2 { 7 } else { 6 }
}

/// Writes what stands in front of a batch's circuit text.
fn put_start<K: Sink>(sink: &mut K, header: &Header) -> Result<(), Failed>
    requires ready { K.ready sink.old }
    requires text { length header.now.text ≤ 65536 }
    ensures { WritesTo K.taken K.faults K.spare K.ready sink.old sink.new
        (batch_letters ++ flat_map (little_bytes 4) (head_numbers header.now)) result }
{
    let text = header.text.as_slice();
    let numbers = [
        header.version,
        header.shares,
        header.proofs,
        text.len() as u32,
        header.claims,
        header.reports,
        header.buckets,
    ];
    let count = head_count(header.version);
    put_both(sink, &LETTERS, &numbers[..count])
}

/// Writes the head of a batch, of version 1 or 2 as the header says, and its circuit text, of at most
/// 65,536 bytes.
///
/// After [`Failed`] the sink took some prefix of these bytes.
pub fn write_head<K: Sink>(sink: &mut K, header: &Header) -> Result<(), Failed>
    requires ready { K.ready sink.old }
    requires text { length header.now.text ≤ 65536 }
    ensures { WritesTo K.taken K.faults K.spare K.ready sink.old sink.new (head_bytes header.now) result }
{
    match put_start(sink, header) {
        Ok(()) => {}
        Err(fault) => return Err(fault),
    }
    put(sink, header.text.as_slice())
}

/// Writes old claims, 16 bytes each.
///
/// After [`Failed`] the sink took some prefix of these bytes.
pub fn write_claims<K: Sink>(sink: &mut K, claims: &Nonces) -> Result<(), Failed>
    requires { K.ready sink.old }
    ensures { WritesTo K.taken K.faults K.spare K.ready sink.old sink.new (nonce_bytes claims.now) result }
{
    put(sink, claims.as_bytes())
}

/// Writes at most [`BLOCK`] words, 8 bytes each.
fn put_block<K: Sink>(sink: &mut K, words: &[u64]) -> Result<(), Failed>
    requires ready { K.ready sink.old }
    requires few { length words.now ≤ BLOCK }
    ensures { WritesTo K.taken K.faults K.spare K.ready sink.old sink.new (word_bytes words.now) result }
{
    let mut bytes = [0; 8 * BLOCK];
    let size = 8 * words.len();
    LittleEndian::write_u64_into(words, &mut bytes[..size]);
    put(sink, &bytes[..size])
}

/// Writes words, 8 bytes each.
fn put_words<K: Sink>(sink: &mut K, words: &[u64]) -> Result<(), Failed>
    requires { K.ready sink.old }
    ensures { WritesTo K.taken K.faults K.spare K.ready sink.old sink.new (word_bytes words.now) result }
{
    let mut rest = words;
    while !rest.is_empty() {
        let count = BLOCK.min(rest.len());
        match put_block(sink, &rest[..count]) {
            Ok(()) => {}
            Err(fault) => return Err(fault),
        }
        rest = &rest[count..];
    }
    Ok(())
}

/// Writes the bucket of a record, where it has one.
fn put_bucket<K: Sink>(sink: &mut K, bucket: Option<u32>) -> Result<(), Failed>
    requires { K.ready sink.old }
    ensures { WritesTo K.taken K.faults K.spare K.ready sink.old sink.new (bucket_bytes bucket) result }
{
    match bucket {
        Some(bucket) => put_numbers(sink, &[bucket]),
        None => Ok(()),
    }
}

/// Writes what follows the nonce of a record.
fn put_behind<K: Sink>(sink: &mut K, bucket: Option<u32>, words: &[u64]) -> Result<(), Failed>
    requires { K.ready sink.old }
    ensures { WritesTo K.taken K.faults K.spare K.ready sink.old sink.new (bucket_bytes bucket ++ word_bytes words.now) result }
{
    match put_bucket(sink, bucket) {
        Ok(()) => {}
        Err(fault) => return Err(fault),
    }
    put_words(sink, words)
}

/// Writes a record: a nonce of 16 bytes, in version 2 its bucket in 4 bytes, and words of any value, 8
/// bytes each.
///
/// After [`Failed`] the sink took some prefix of these bytes.
pub fn write_record<K: Sink>(
    sink: &mut K,
    nonce: &[u8],
    bucket: Option<u32>,
    words: &[u64],
) -> Result<(), Failed>
    requires ready { K.ready sink.old }
    requires nonce { length nonce.now ≡ 16 }
    ensures { WritesTo K.taken K.faults K.spare K.ready sink.old sink.new (record_bytes nonce.now bucket words.now) result }
{
    match put(sink, nonce) {
        Ok(()) => {}
        Err(fault) => return Err(fault),
    }
    put_behind(sink, bucket, words)
}
