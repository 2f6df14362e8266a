//! Those who may hold an aggregate back.
ghost use Rattle.std.specs.Prelude.{◌≡◌, ◌<◌, ℕ, Bool};
ghost use Rattle.flp_policy.specs.Counts.{VerdictCounts, one_more_in, no_more};

use crate::Verdict;

/// A rule on whether the aggregate of a bucket may be released.
///
/// It is told the verdict on each report, with the report's bucket, in the order of the file.
/// Contracts know of a policy whether it would allow the release of a bucket if it were told so many
/// further verdicts of each kind there. Neither call takes memory.
pub trait Policy: Drop {
    ghost would: { Self → VerdictCounts → ℕ → Bool };

    /// Tells the next verdict, on a report of this bucket.
    fn tell(&mut self, bucket: u32, verdict: Verdict)
        requires { bucket < 256 }
        ensures counted { (more : VerdictCounts) (of : ℕ) → would self.new more of ≡ would self.old (one_more_in bucket verdict of more) of };

    /// Whether the aggregate of this bucket may be released after the verdicts told so far.
    fn release(&self, bucket: u32) -> bool
        requires { bucket < 256 }
        ensures { result ≡ would self.now no_more bucket };
}
