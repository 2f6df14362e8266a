//! The numbers that fix where each part of a record stands.
ghost use Rattle.std.specs.Prelude.{◌≡◌, ◌^◌, ◌<◌, ◌≤◌};

/// The most bytes of one record.
pub const RECORD_LIMIT: u64 = 16777216;

/// The most bytes of all old claims of a batch.
pub const CLAIMS_LIMIT: u64 = 268435456;

/// The most bytes of a whole job file, and of the batch that is made of one.
pub const FILE_LIMIT: u64 = 1073741824;

/// The most numbers that are summed: the outs of each bucket.
pub const WIDTH_LIMIT: u64 = 65536;

/// The most records of a segment, and the bytes that they may have where they are more than one.
const SEGMENT_RECORDS: u64 = 1024;

const SEGMENT_BYTES: u64 = 67108864;

/// What fixes where the parts of a record stand: the version of its batch, how many shares and proofs
/// it has, at most 16 each, and how many words each part has, whatever the circuit. And what bounds
/// its bucket and the sums: how many buckets the batch has, and how many outs its circuit.
///
/// `meas` counts the words of one share of the encoding, `proof` those of one share of one proof,
/// `joint` and `query` the challenge words of one proof.
#[derive(Clone, Copy, Debug, PartialEq, Eq)]
pub struct Shape {
    pub version: u32,
    pub shares: u32,
    pub proofs: u32,
    pub buckets: u32,
    pub meas: u32,
    pub joint: u32,
    pub query: u32,
    pub proof: u32,
    pub outs: u32,
    ghost few_shares: { shares ≤ 16 },
    ghost few_proofs: { proofs ≤ 16 },
}

impl Shape {
    ghost use Rattle.flp_report.specs.Shape.{part_words, words_of, words_start, bytes_of, width_of, segment_of};

    /// The shape with nothing but a nonce, which a reader has before it is given one.
    pub(crate) const NONE: Shape = Shape {
        version: 1,
        shares: 0,
        proofs: 0,
        buckets: 1,
        meas: 0,
        joint: 0,
        query: 0,
        proof: 0,
        outs: 0,
    };

    /// The words of one share's part of a record.
    pub fn part(&self) -> u64
        ensures words { result ≡ part_words self.now }
        ensures short { result < 2 ^ 37 }
    {
        u64::from(self.meas) + u64::from(self.proofs) * u64::from(self.proof)
    }

    /// The words of a record, which follow its nonce and its bucket.
    pub fn words(&self) -> u64
        ensures words { result ≡ words_of self.now }
        ensures short { result < 2 ^ 42 }
    {
        let own = u64::from(self.joint) + u64::from(self.query);
        u64::from(self.shares) * self.part() + u64::from(self.proofs) * own
    }

    /// Where the words of a record begin: behind its nonce of 16 bytes, and in version 2 behind its
    /// bucket of 4 bytes too.
    pub(crate) fn start(&self) -> u64
        ensures start { result ≡ words_start self.now }
        ensures least { 16 ≤ result }
        ensures most { result ≤ 20 }
    {
        if self.version == 2 { 20 } else { 16 }
    }

    /// The bytes of a record.
    pub fn bytes(&self) -> u64
        ensures { result ≡ bytes_of self.now }
    {
        self.start() + 8 * self.words()
    }

    /// How many numbers are summed: the outs of each bucket.
    pub fn width(&self) -> u64
        ensures { result ≡ width_of self.now }
    {
        u64::from(self.buckets) * u64::from(self.outs)
    }

    /// How many records are read at once: as many as have at most 67,108,864 bytes together, at least
    /// 1 and at most 1,024.
    pub fn segment(&self) -> u32
        ensures { result ≡ segment_of self.now }
    {
        let fitting = SEGMENT_BYTES / self.bytes();
        SEGMENT_RECORDS.min(fitting.max(1)) as u32
    }
}
