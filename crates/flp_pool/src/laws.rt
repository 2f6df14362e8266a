//! Laws for whoever runs several ranges and closes the tally. Each function's contract is the law; none does anything
//! when it runs.
ghost use Rattle.flp_pool.specs.Laws.{AgreeingRuns, EmptyRuns, JoinedRuns, RangesFollow, SumsOfRange, RowSums};

/// What a work took is what any work takes that brings the same rows on the range.
pub fn rows_agree()
    ensures { AgreeingRuns }
{}

/// An empty range is taken by doing nothing.
pub fn nothing_is_taken()
    ensures { EmptyRuns }
{}

/// What two works took of neighbouring ranges is what one work takes of both, where it brings the same rows as they do.
pub fn runs_join()
    ensures { JoinedRuns }
{}

/// Numbers that are one range's, and then numbers that are the next range's, are those of both ranges.
pub fn ranges_follow()
    ensures { RangesFollow }
{}

/// Whatever is summed over the numbers of a run is its sum over the range.
pub fn run_sums()
    ensures { SumsOfRange }
{}

/// The rows of a run sum up to the rows of the range.
pub fn row_sums()
    ensures { RowSums }
{}
