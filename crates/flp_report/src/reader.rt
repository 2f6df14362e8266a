//! What the readers of both kinds of files keep.
ghost use Rattle.std.specs.Prelude.{◌≡◌};

/// A reader of one file, which borrows its source.
///
/// It keeps how many bytes of the file it has read, the numbers of shares and proofs that the head gave, and how many
/// reports are left, or jobs, of each of which one report is made. The last field is what a kind of file has besides.
#[derive(Drop)]
pub struct Reader<'a, S, P> {
    pub(crate) source: &'a mut S,
    pub(crate) place: u64,
    pub(crate) shares: u32,
    pub(crate) proofs: u32,
    pub(crate) left: u32,
    pub(crate) parts: P,
}

impl<'a, S, P> Reader<'a, S, P> {
    ghost use Rattle.flp_report.specs.Reader.{source_of, loan_of, place_of};

    /// A reader whose file begins at the source's next byte.
    pub(crate) fn at_start(source: &'a mut S, parts: P) -> Reader<'a, S, P>
        ensures same { loan_of result ≡ source.entry.ghost_name }
        ensures source { source_of result ≡ source.old }
        ensures place { place_of result ≡ 0 }
    {
        Reader {
            source,
            place: 0,
            shares: 0,
            proofs: 0,
            left: 0,
            parts,
        }
    }
}
