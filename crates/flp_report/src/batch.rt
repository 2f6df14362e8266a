//! The reader of a batch, which borrows its source.
ghost use Rattle.std.specs.Prelude.{◌≡◌, ◌+◌, ◌*◌, ◌<◌, ◌≤◌, ◌≢◌, ◌⊎◌, length, [], List, ℕ, None, Some, Err, IfOk, IfErr, IsOk, OnOk, OnErr, IfSome, All};
ghost use Rattle.std.specs.Io.KnownBytes.{Consumes, IsAtEnd};
ghost use Rattle.flp_io.specs.Reads.{ConsumesAtMost, ConsumesLess, ReadsFrom};
ghost use Rattle.flp_report.specs.Fault.{IfBatch};
ghost use Rattle.flp_report.specs.Reads.{ConsumesWithin};

use crate::batch_head::{head_size, read_batch_head};
use crate::buckets::read_records;
use crate::fault::{BatchFault, ReadFault};
use crate::header::Header;
use crate::nonces::Nonces;
use crate::read::{read_growing, see_end};
use crate::reader::Reader;
use crate::segment::Segment;
use crate::shape::{CLAIMS_LIMIT, RECORD_LIMIT, Shape, WIDTH_LIMIT};
use flp_io::Source;
use std::alloc::Global;

/// A reader of one batch, which borrows its source.
///
/// [`head`](BatchReader::head) comes first; then [`shape`](BatchReader::shape), with the lengths of
/// the plan of the head's text; then [`claims`](BatchReader::claims); then
/// [`segment`](BatchReader::segment) until no report is left; then [`end`](BatchReader::end). After
/// a [`ReadFault`] no further call of the reader means anything. The reader takes from its source
/// no more bytes than the head's numbers give, and one more to see the end.
///
/// However the reports are cut into segments, the records, the faults and the places that they name
/// are the same.
pub type BatchReader<'a, S> = Reader<'a, S, BatchParts>;

/// What a reader of a batch keeps besides: the version, the buckets and the reports that the head gave,
/// how many old claims are left, and the lengths of the parts of a record.
#[derive(Drop)]
pub struct BatchParts {
    pub(crate) version: u32,
    pub(crate) buckets: u32,
    pub(crate) reports: u32,
    pub(crate) claims: u32,
    pub(crate) shape: Shape,
}

impl BatchParts {
    /// What a reader keeps that has not read its head.
    const NONE: BatchParts = BatchParts {
        version: 1,
        buckets: 1,
        reports: 0,
        claims: 0,
        shape: Shape::NONE,
    };
}

impl<'a, S: Source> Reader<'a, S, BatchParts> {
    ghost use Rattle.flp_report.specs.Shape.{bytes_of};
    ghost use Rattle.flp_report.specs.Batch.{IsHead, IsInLimits, head_size, batch_head_fault, batch_head_takes, large_fault, claims_fault, IsClaimsFault, IsBatchHeadFault};
    ghost use Rattle.flp_report.specs.Buckets.{HasBucket, segment_fault, IsSegmentFault};
    ghost use Rattle.flp_report.specs.Pieces.{fall_in};
    ghost use Rattle.flp_report.specs.Nonces.{nonce_bytes, nonce_count, nonces_in};
    ghost use Rattle.flp_report.specs.Segment.{shape_in, room_of, used_in, held_in, records_in};
    ghost use Rattle.flp_report.specs.Reader.{source_of, loan_of, SameLoan, place_of, shares_given, proofs_given, version_given, buckets_given, reports_given, SameNumbers, SameParts, claims_left, reports_left, reports_read, shape_given, size_of_file, IsShaped};

    /// A reader whose batch begins at the source's next byte. It reads nothing yet.
    pub fn new(source: &'a mut S) -> BatchReader<'a, S>
        ensures same { loan_of result ≡ source.entry.ghost_name }
        ensures source { source_of result ≡ source.old }
        ensures place { place_of result ≡ 0 }
    {
        Reader::at_start(source, BatchParts::NONE)
    }

    /// Reads what stands in front of the old claims, of a batch whose version is at most `newest`: the
    /// head of 32 bytes, in version 2 the number of buckets, and, where these have no fault, the circuit
    /// text. The text's room grows as its bytes come.
    ///
    /// An error is the first fault of the file up to the end of its text; or else
    /// [`ReadFault::Failed`] or [`ReadFault::Memory`]. Where a party is given, more shares than its
    /// number are needed, and [`BatchFault::Party`] has its place among the faults.
    pub fn head(
        &mut self,
        alloc: Global,
        newest: u32,
        party: Option<u32>,
    ) -> Result<Header, ReadFault>
        requires place { place_of self.old ≡ 0 }
        requires newest { newest ≤ 2 }
        requires ready { S.ready (source_of self.old) }
        ensures same { SameLoan self.old self.new }
        ensures bytes { IfOk result (λ header. (bytes : List ℕ) × IsHead newest party bytes header
            × Consumes (S.left (source_of self.old)) (S.left (source_of self.new)) bytes) }
        ensures limits { IfOk result (λ header. IsInLimits newest party header) }
        ensures place { IfOk result (λ header. place_of self.new ≡ head_size header.version + length header.text) }
        ensures numbers { IfOk result (λ header. (shares_given self.new ≡ header.shares) × (proofs_given self.new ≡ header.proofs)
            × (version_given self.new ≡ header.version) × (buckets_given self.new ≡ header.buckets)) }
        ensures left { IfOk result (λ header. (claims_left self.new ≡ header.claims) × (reports_left self.new ≡ header.reports)
            × (reports_given self.new ≡ header.reports)) }
        ensures fault { IfErr result (λ fault. IfBatch fault (λ b. IfSome (S.left (source_of self.old))
            (λ bytes. batch_head_fault newest party bytes ≡ Some b))) }
        ensures kind { IfErr result (λ fault. IfBatch fault (IsBatchHeadFault newest party)) }
        ensures source { ReadsFrom S.left S.faults S.ready (source_of self.old) (source_of self.new)
            (ConsumesWithin (batch_head_takes newest party)) (result ≡ Err ReadFault.Failed) (IsOk result) }
    {
        let header = match read_batch_head(alloc, self.source, newest, party) {
            Ok(header) => header,
            Err(fault) => return Err(fault),
        };
        self.place = head_size(header.version) + header.text.as_slice().len() as u64;
        self.shares = header.shares;
        self.proofs = header.proofs;
        self.left = header.reports;
        self.parts.version = header.version;
        self.parts.buckets = header.buckets;
        self.parts.reports = header.reports;
        self.parts.claims = header.claims;
        Ok(header)
    }

    /// Sets the lengths of the parts of a record. It reads nothing and takes no memory.
    ///
    /// The error is [`BatchFault::TooLarge`] with the first size, in bytes, that is above its limit,
    /// that of a record or of all old claims; or else [`BatchFault::Width`] with the outs of all buckets.
    pub fn shape(&mut self, shape: Shape) -> Result<(), ReadFault>
        requires shares { shape.shares ≡ shares_given self.old }
        requires proofs { shape.proofs ≡ proofs_given self.old }
        requires version { shape.version ≡ version_given self.old }
        requires buckets { shape.buckets ≡ buckets_given self.old }
        requires place { place_of self.old ≤ 65572 }
        ensures same { SameLoan self.old self.new }
        ensures source { source_of self.new ≡ source_of self.old }
        ensures none { OnOk result (large_fault shape (claims_left self.old) ≡ None) }
        ensures fault { OnErr result ((b : BatchFault) × (result ≡ Err (ReadFault.Batch b))
            × (large_fault shape (claims_left self.old) ≡ Some b)) }
        ensures shape { OnOk result (shape_given self.new ≡ shape) }
        ensures shaped { OnOk result (IsShaped self.new) }
        ensures numbers { OnOk result (SameNumbers self.old self.new) }
        ensures kept { OnOk result (SameParts self.old self.new) }
        ensures left { OnOk result ((claims_left self.new ≡ claims_left self.old) × (reports_left self.new ≡ reports_left self.old)) }
        ensures place { OnOk result (place_of self.new ≡ place_of self.old) }
    {
        let record = shape.bytes();
        if RECORD_LIMIT < record {
            return Err(ReadFault::Batch(BatchFault::TooLarge(record)));
        }
        let claims = 16 * u64::from(self.parts.claims);
        if CLAIMS_LIMIT < claims {
            return Err(ReadFault::Batch(BatchFault::TooLarge(claims)));
        }
        let width = shape.width();
        if WIDTH_LIMIT < width {
            return Err(ReadFault::Batch(BatchFault::Width(width)));
        }
        let _left = self.left;
        self.parts.shape = shape;
        Ok(())
    }

    /// Reads the old claims. Their room grows as their bytes come.
    ///
    /// An error is the first fault of the file among its old claims: [`BatchFault::Truncated`] with
    /// the bytes of the file that came and those up to the last claim, or
    /// [`BatchFault::ClaimsOrder`]; or else [`ReadFault::Failed`] or [`ReadFault::Memory`].
    pub fn claims(&mut self, alloc: Global) -> Result<Nonces, ReadFault>
        requires shaped { IsShaped self.old }
        requires ready { S.ready (source_of self.old) }
        ensures same { SameLoan self.old self.new }
        ensures bytes { IfOk result (λ claims. Consumes (S.left (source_of self.old)) (S.left (source_of self.new)) (nonce_bytes claims)) }
        ensures count { IfOk result (λ claims. nonce_count claims ≡ claims_left self.old) }
        ensures rising { IfOk result (λ claims. fall_in (nonces_in claims) ≡ None) }
        ensures fault { IfErr result (λ fault. IfBatch fault (λ b. IfSome (S.left (source_of self.old))
            (λ rest. claims_fault (place_of self.old) (claims_left self.old) rest ≡ Some b))) }
        ensures kind { IfErr result (λ fault. IfBatch fault (IsClaimsFault (place_of self.old) (claims_left self.old))) }
        ensures shaped { OnOk result (IsShaped self.new) }
        ensures numbers { OnOk result (SameNumbers self.old self.new) }
        ensures kept { OnOk result (SameParts self.old self.new) }
        ensures shape { OnOk result (shape_given self.new ≡ shape_given self.old) }
        ensures size { OnOk result (size_of_file self.new ≡ size_of_file self.old) }
        ensures left { OnOk result ((claims_left self.new ≡ 0) × (reports_left self.new ≡ reports_left self.old)) }
        ensures place { OnOk result (place_of self.new ≡ place_of self.old + 16 * claims_left self.old) }
        ensures source { ReadsFrom S.left S.faults S.ready (source_of self.old) (source_of self.new)
            (ConsumesAtMost (16 * claims_left self.old)) (result ≡ Err ReadFault.Failed) (IsOk result) }
    {
        let wanted = 16 * self.parts.claims as usize;
        let end = self.place + wanted as u64;
        let bytes = match read_growing(alloc, self.source, wanted, self.place, end) {
            Ok(bytes) => bytes,
            Err(fault) => return Err(fault),
        };
        let claims = match Nonces::from_vec(self.parts.claims, bytes) {
            Ok(claims) => claims,
            Err(number) => return Err(ReadFault::Batch(BatchFault::ClaimsOrder(number))),
        };
        self.place = end;
        self.parts.claims = 0;
        Ok(claims)
    }

    /// Reads the next `count` records into the room: at most the reports that are left, and at most
    /// what the room holds, which was made for this reader's shape, or one of as many bytes. It takes
    /// no memory.
    ///
    /// An error is [`BatchFault::Bucket`] with the first of these records that came whole and whose
    /// bucket is not below the number of buckets; or else [`BatchFault::Truncated`] with the bytes of
    /// the file that came and those of the whole file; or [`ReadFault::Failed`]. The room then holds no
    /// record.
    pub fn segment(&mut self, count: u32, room: &mut Segment) -> Result<(), ReadFault>
        requires shaped { IsShaped self.old }
        requires claims { claims_left self.old ≡ 0 }
        requires left { count ≤ reports_left self.old }
        requires shape { bytes_of (shape_in room.old) ≡ bytes_of (shape_given self.old) }
        requires room { count ≤ room_of room.old }
        requires ready { S.ready (source_of self.old) }
        ensures same { SameLoan self.old self.new }
        ensures records { OnOk result (Consumes (S.left (source_of self.old)) (S.left (source_of self.new)) (held_in room.new)) }
        ensures used { OnOk result (used_in room.new ≡ count) }
        ensures buckets { OnOk result (All (HasBucket (shape_given self.old)) (records_in room.new)) }
        ensures room { (shape_in room.new ≡ shape_in room.old) × (room_of room.new ≡ room_of room.old) }
        ensures fault { IfErr result (λ fault. IfBatch fault (λ b. IfSome (S.left (source_of self.old))
            (λ rest. segment_fault (shape_given self.old) (reports_read self.old) (place_of self.old) count (size_of_file self.old) rest ≡ Some b))) }
        ensures kind { IfErr result (λ fault. IfBatch fault
            (IsSegmentFault (shape_given self.old) (reports_read self.old) (place_of self.old) count (size_of_file self.old))) }
        ensures no_memory { result ≢ Err ReadFault.Memory }
        ensures lost { result ≡ Err ReadFault.Failed
            → ConsumesLess (count * bytes_of (shape_given self.old)) (S.left (source_of self.old)) (S.left (source_of self.new)) }
        ensures none_held { OnErr result (used_in room.new ≡ 0) }
        ensures shaped { OnOk result (IsShaped self.new) }
        ensures numbers { OnOk result (SameNumbers self.old self.new) }
        ensures kept { OnOk result (SameParts self.old self.new) }
        ensures shape { OnOk result (shape_given self.new ≡ shape_given self.old) }
        ensures size { OnOk result (size_of_file self.new ≡ size_of_file self.old) }
        ensures left { OnOk result ((claims_left self.new ≡ 0) × (reports_left self.new + count ≡ reports_left self.old)) }
        ensures place { OnOk result (place_of self.new ≡ place_of self.old + count * bytes_of (shape_given self.old)) }
        ensures source { ReadsFrom S.left S.faults S.ready (source_of self.old) (source_of self.new)
            (ConsumesAtMost (count * bytes_of (shape_given self.old))) (result ≡ Err ReadFault.Failed) (IsOk result) }
    {
        room.used = 0;
        let shape = self.parts.shape;
        let record = shape.bytes();
        let first = self.parts.reports.saturating_sub(self.left);
        let whole = self.place + u64::from(self.left) * record;
        match read_records(
            self.source,
            room.bytes.as_mut_slice(),
            &shape,
            count,
            first,
            self.place,
            whole,
        ) {
            Ok(()) => {}
            Err(fault) => return Err(fault),
        }
        room.used = count;
        self.place += u64::from(count) * record;
        self.left -= count;
        Ok(())
    }

    /// Sees that the input ends behind the last record, when no report is left. It takes no memory.
    ///
    /// An error is [`BatchFault::Trailing`] where a byte follows, or [`ReadFault::Failed`].
    pub fn end(&mut self) -> Result<(), ReadFault>
        requires none { (claims_left self.old ≡ 0) × (reports_left self.old ≡ 0) }
        requires ready { S.ready (source_of self.old) }
        ensures same { SameLoan self.old self.new }
        ensures ended { OnOk result (IsAtEnd (S.left (source_of self.new))) }
        ensures none_read { OnOk result (Consumes (S.left (source_of self.old)) (S.left (source_of self.new)) []) }
        ensures numbers { OnOk result (SameNumbers self.old self.new) }
        ensures left { OnOk result ((claims_left self.new ≡ 0) × (reports_left self.new ≡ 0)) }
        ensures place { OnOk result (place_of self.new ≡ place_of self.old) }
        ensures fault { OnErr result ((result ≡ Err ReadFault.Failed)
            ⊎ ((result ≡ Err (ReadFault.Batch BatchFault.Trailing)) × IfSome (S.left (source_of self.old)) (λ left. left ≢ []))) }
        ensures source { ReadsFrom S.left S.faults S.ready (source_of self.old) (source_of self.new)
            (ConsumesAtMost 1) (result ≡ Err ReadFault.Failed) ⊥ }
    {
        see_end(self.source)
    }
}
