//! What the answers of a reader's calls, one after the other, say of a whole file.
ghost use Rattle.std.specs.Prelude.{◌≡◌, ◌+◌, ◌-◌, ◌*◌, ◌≤◌, ◌<◌, ◌++◌, ℕ, List, Option, Some, None, map, length, take, drop};
ghost use Rattle.std.specs.List.{All, concat};
ghost use Rattle.flp_report.specs.declared.fault.BatchFault.{BatchFault};
ghost use Rattle.flp_report.specs.declared.fault.BatchFault.TheVariants.{Trailing};
ghost use Rattle.flp_report.specs.declared.header.Header.{Header};
ghost use Rattle.flp_report.specs.declared.shape.Shape.{Shape};
ghost use Rattle.flp_report.specs.declared.header.JobHeader.{JobHeader};
ghost use Rattle.flp_report.specs.declared.job_shape.JobShape.{JobShape};
ghost use Rattle.flp_report.specs.Shape.{part_words, bytes_of};
ghost use Rattle.flp_report.specs.Job.{job_letters, job_part_of, job_bytes_of, job_large_fault, jobs_fault, word_fault, job_fault_of, job_header_of, jobs_of, IsJobHead};
ghost use Rattle.flp_report.specs.Head.{head_fault, number_at};
ghost use Rattle.flp_report.specs.Reads.{EndedShort};
ghost use Rattle.flp_report.specs.declared.segment.Segment.{Segment};
ghost use Rattle.flp_report.specs.declared.job.Jobs.{Jobs};
ghost use Rattle.flp_report.specs.declared.nonces.Nonces.{Nonces};
ghost use Rattle.flp_report.specs.Segment.{shape_in, used_in, held_in, records_in};
ghost use Rattle.flp_report.specs.JobParts.{jobs_shape, jobs_count, jobs_bytes, jobs_in, job_words_in, input_in, parts_in, seeds_word, seeds_in_job, job_own_word, job_joint_in, job_query_in};
ghost use Rattle.flp_report.specs.Record.{words_in, share_in, own_word, joint_in, query_in};
ghost use Rattle.flp_report.specs.Words.{words};
ghost use Rattle.flp_report.specs.Nonces.{nonce_count, nonce_bytes, nonces_in};
ghost use Rattle.flp_report.specs.Pieces.{pieces, fall_in, IsCut};
ghost use Rattle.flp_report.specs.Buckets.{HasBucket, placed, segment_fault};
ghost use Rattle.flp_report.specs.Batch.{head_size, batch_head_fault, large_fault, claims_fault, whole_of, records_fault, fault_of, header_of, claims_of, whole_records, IsHead, IsFront};
ghost use Rattle.flp_report.specs.Layout.{head_bytes, IsWritable};
ghost use Rattle.flp_report.specs.Report.{WrittenReport, IsReport, record_written, ReadsAs};

/// The first fault of a file is what the first call that has one answers: `head`, `shape`,
/// `claims`, and then `segment` or `end`; and a file is a batch where none has one.
pub fn first_faults()
    ensures head { (newest : ℕ) (party : Option ℕ) (shape : Shape) (bytes : List ℕ) (b : BatchFault)
        → batch_head_fault newest party bytes ≡ Some b → fault_of newest party shape bytes ≡ Some b }
    ensures shape { (newest : ℕ) (party : Option ℕ) (shape : Shape) (front rest : List ℕ) (header : Header) (b : BatchFault)
        → IsHead newest party front header → large_fault shape header.claims ≡ Some b
        → fault_of newest party shape (front ++ rest) ≡ Some b }
    ensures claims { (newest : ℕ) (party : Option ℕ) (shape : Shape) (front rest : List ℕ) (header : Header) (b : BatchFault)
        → IsHead newest party front header → large_fault shape header.claims ≡ None
        → claims_fault (length front) header.claims rest ≡ Some b
        → fault_of newest party shape (front ++ rest) ≡ Some b }
    ensures records { (newest : ℕ) (party : Option ℕ) (shape : Shape) (front rest : List ℕ) (header : Header)
        → IsFront newest party shape front header
        → fault_of newest party shape (front ++ rest) ≡ records_fault shape (length front) header.reports rest }
{}

/// The first fault of the records, from those that were read, whose buckets are all among the shape's,
/// and what the next call of `segment`, or `end`, found to be left. So it is the same however the
/// records are cut into segments.
pub fn record_faults()
    ensures segment { (shape : Shape) (before reports count : ℕ) (records : List (List ℕ)) (left : List ℕ) (b : BatchFault)
        → All (λ r. length r ≡ bytes_of shape) records → All (HasBucket shape) records → length records + count ≤ reports
        → segment_fault shape (length records) (before + length (concat records)) count (before + reports * bytes_of shape) left ≡ Some b
        → records_fault shape before reports (concat records ++ left) ≡ Some b }
    ensures trailing { (shape : Shape) (before reports : ℕ) (records : List (List ℕ)) (left : List ℕ)
        → All (λ r. length r ≡ bytes_of shape) records → All (HasBucket shape) records → length records ≡ reports
        → 0 < length left → records_fault shape before reports (concat records ++ left) ≡ Some Trailing }
    ensures none { (shape : Shape) (before reports : ℕ) (records : List (List ℕ))
        → All (λ r. length r ≡ bytes_of shape) records → All (HasBucket shape) records → length records ≡ reports
        → records_fault shape before reports (concat records) ≡ None }
{}

/// What `head` and `claims` gave is what the whole file says: its header and its old claims. With
/// what `shape` answered they are all that stands in front of the records.
pub fn read_front()
    ensures size { (newest : ℕ) (party : Option ℕ) (front : List ℕ) (header : Header)
        → IsHead newest party front header → length front ≡ head_size header.version + length header.text }
    ensures header { (newest : ℕ) (party : Option ℕ) (front rest : List ℕ) (header : Header)
        → IsHead newest party front header → header_of (front ++ rest) ≡ header }
    ensures whole { (newest : ℕ) (party : Option ℕ) (shape : Shape) (front claims : List ℕ) (header : Header)
        → IsHead newest party front header → large_fault shape header.claims ≡ None
        → length claims ≡ 16 * header.claims → fall_in (pieces 16 header.claims claims) ≡ None
        → IsFront newest party shape (front ++ claims) header }
    ensures claims { (newest : ℕ) (party : Option ℕ) (front claims rest : List ℕ) (header : Header)
        → IsHead newest party front header → length claims ≡ 16 * header.claims
        → claims_of (front ++ (claims ++ rest)) ≡ pieces 16 header.claims claims }
{}

/// The records that were read, whose buckets are all among the shape's, stand first among the whole
/// records of a file. They are all of them where as many were read as the head gives, and where fewer
/// bytes are left than a record has.
pub fn read_records()
    ensures first { (newest : ℕ) (party : Option ℕ) (shape : Shape) (front rest : List ℕ) (header : Header) (records : List (List ℕ))
        → IsFront newest party shape front header → All (λ r. length r ≡ bytes_of shape) records → All (HasBucket shape) records
        → length records ≤ header.reports
        → whole_records newest party shape (front ++ (concat records ++ rest))
        ≡ records ++ placed shape (whole_of shape (header.reports - length records) rest) }
    ensures all { (newest : ℕ) (party : Option ℕ) (shape : Shape) (front rest : List ℕ) (header : Header) (records : List (List ℕ))
        → IsFront newest party shape front header → All (λ r. length r ≡ bytes_of shape) records → All (HasBucket shape) records
        → length records ≡ header.reports
        → whole_records newest party shape (front ++ (concat records ++ rest)) ≡ records }
    ensures short { (newest : ℕ) (party : Option ℕ) (shape : Shape) (front rest : List ℕ) (header : Header) (records : List (List ℕ))
        → IsFront newest party shape front header → All (λ r. length r ≡ bytes_of shape) records → All (HasBucket shape) records
        → length records ≤ header.reports → length rest < bytes_of shape
        → whole_records newest party shape (front ++ (concat records ++ rest)) ≡ records }
{}

/// What a segment, jobs and nonces hold is cut into records, jobs and nonces without a gap, and each nonce is above the
/// one before.
pub fn held_parts()
    ensures records { (s : Segment) → IsCut (bytes_of (shape_in s)) (used_in s) (held_in s) (records_in s) }
    ensures jobs { (j : Jobs) → IsCut (job_bytes_of (jobs_shape j)) (jobs_count j) (jobs_bytes j) (jobs_in j) }
    ensures nonces { (n : Nonces) → IsCut 16 (nonce_count n) (nonce_bytes n) (nonces_in n) }
    ensures rising { (n : Nonces) → fall_in (nonces_in n) ≡ None }
{}

/// The words of each part of a record are the record's words at the part's place.
pub fn record_parts()
    ensures share { (s : Shape) (bytes : List ℕ) (share : ℕ) → share < s.shares
        → words (part_words s) (share_in s bytes share) ≡ take (part_words s) (drop (share * part_words s) (words_in s bytes)) }
    ensures joint { (s : Shape) (bytes : List ℕ) (proof : ℕ) → proof < s.proofs
        → words s.joint (joint_in s bytes proof) ≡ take s.joint (drop (own_word s proof) (words_in s bytes)) }
    ensures query { (s : Shape) (bytes : List ℕ) (proof : ℕ) → proof < s.proofs
        → words s.query (query_in s bytes proof) ≡ take s.query (drop (own_word s proof + s.joint) (words_in s bytes)) }
{}

/// A batch that is written within the limits is read again as the same batch: without a fault, with
/// its header, its old claims, and the nonce, the bucket and the words of each report.
pub fn reads_back()
    ensures { (newest : ℕ) (party : Option ℕ) (shape : Shape) (header : Header) (claims : List ℕ) (reports : List WrittenReport)
        → IsWritable newest party header → shape.buckets ≡ header.buckets → large_fault shape header.claims ≡ None
        → length claims ≡ 16 * header.claims → fall_in (pieces 16 header.claims claims) ≡ None
        → All (IsReport shape) reports → length reports ≡ header.reports
        → let bytes = (head_bytes header ++ claims) ++ concat (map record_written reports) in
        ReadsAs newest party shape bytes header (pieces 16 header.claims claims) reports }
{}

/// The first fault of a job file is what the first call that has one answers: `head`, `shape`, and
/// then `jobs` or `end`; and a file is a job file where none has one.
pub fn first_job_faults()
    ensures head { (s : JobShape) (bytes : List ℕ) (b : BatchFault)
        → head_fault job_letters 28 None bytes ≡ Some b → job_fault_of s bytes ≡ Some b }
    ensures shape { (s : JobShape) (front rest : List ℕ) (header : JobHeader) (b : BatchFault)
        → IsJobHead front header → job_large_fault s (length front) header.jobs ≡ Some b → job_fault_of s (front ++ rest) ≡ Some b }
    ensures jobs { (s : JobShape) (front rest : List ℕ) (header : JobHeader)
        → IsJobHead front header → job_large_fault s (length front) header.jobs ≡ None
        → job_fault_of s (front ++ rest) ≡ jobs_fault s (length front) header.jobs rest }
{}

/// The first fault of the jobs, from what `jobs` or `end` found.
pub fn job_faults()
    ensures short { (s : JobShape) (before jobs : ℕ) (rest : List ℕ) (b : BatchFault)
        → EndedShort (Some rest) before (jobs * job_bytes_of s) (before + jobs * job_bytes_of s) b → jobs_fault s before jobs rest ≡ Some b }
    ensures trailing { (s : JobShape) (before jobs : ℕ) (rest : List ℕ)
        → jobs * job_bytes_of s < length rest → jobs_fault s before jobs rest ≡ Some Trailing }
    ensures words { (s : JobShape) (before jobs : ℕ) (rest : List ℕ)
        → length rest ≡ jobs * job_bytes_of s → jobs_fault s before jobs rest ≡ word_fault s 0 (pieces (job_bytes_of s) jobs rest) }
{}

/// What `head` and `jobs` gave is what the whole file says: its header and its jobs.
pub fn read_jobs()
    ensures size { (front : List ℕ) (header : JobHeader)
        → IsJobHead front header → length front ≡ 28 + length header.text }
    ensures header { (front rest : List ℕ) (header : JobHeader)
        → IsJobHead front header → job_header_of (front ++ rest) ≡ header }
    ensures jobs { (s : JobShape) (front jobs rest : List ℕ) (header : JobHeader)
        → IsJobHead front header → length jobs ≡ header.jobs * job_bytes_of s
        → jobs_of s (front ++ (jobs ++ rest)) ≡ pieces (job_bytes_of s) header.jobs jobs }
{}

/// The words of each part of a job are the job's words at the part's place.
pub fn job_parts()
    ensures input { (s : JobShape) (bytes : List ℕ)
        → words s.input (input_in s bytes) ≡ take s.input (job_words_in s bytes) }
    ensures parts { (s : JobShape) (bytes : List ℕ)
        → words ((s.shares - 1) * job_part_of s) (parts_in s bytes) ≡ take ((s.shares - 1) * job_part_of s) (drop s.input (job_words_in s bytes)) }
    ensures seeds { (s : JobShape) (bytes : List ℕ) (proof : ℕ) → proof < s.proofs
        → words s.prove (seeds_in_job s bytes proof) ≡ take s.prove (drop (seeds_word s proof) (job_words_in s bytes)) }
    ensures joint { (s : JobShape) (bytes : List ℕ) (proof : ℕ) → proof < s.proofs
        → words s.joint (job_joint_in s bytes proof) ≡ take s.joint (drop (job_own_word s proof) (job_words_in s bytes)) }
    ensures query { (s : JobShape) (bytes : List ℕ) (proof : ℕ) → proof < s.proofs
        → words s.query (job_query_in s bytes proof) ≡ take s.query (drop (job_own_word s proof + s.joint) (job_words_in s bytes)) }
{}

/// The head of a batch without a fault has 2 to 16 shares and 1 to 16 proofs.
pub fn in_limits()
    ensures { (newest : ℕ) (party : Option ℕ) (bytes : List ℕ) → batch_head_fault newest party bytes ≡ None
        → (2 ≤ number_at 12 bytes) × (number_at 12 bytes ≤ 16) × (1 ≤ number_at 16 bytes) × (number_at 16 bytes ≤ 16) }
{}
