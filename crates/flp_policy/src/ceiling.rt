//! A greatest number of rejected reports.
ghost use Rattle.std.specs.Prelude.{◌≡◌, ◌<◌, ℕ, nat_le};
ghost use Rattle.flp_policy.specs.Counts.{VerdictCounts};

use crate::{Policy, Verdict};

/// Allows the release of a bucket with at most so many rejected reports.
///
/// Reports that are malformed, replayed or met in a domain are not among the rejected ones.
#[derive(Drop)]
pub struct CeilingRejected {
    // how many more each bucket may have; none once there were too many
    left: [Option<u64>; 256],
}

impl CeilingRejected {
    /// A policy that allows the buckets with `most` rejected reports or fewer.
    pub fn new(most: u64) -> Self
        ensures { (more : VerdictCounts) (of : ℕ) → of < 256 → ⟦<CeilingRejected as Policy>⟧.would result more of ≡ nat_le more.rejected most }
    {
        Self {
            left: [Some(most); 256],
        }
    }
}

impl Policy for CeilingRejected {
    ghost use Rattle.std.specs.Prelude.{Option, None, Some, get_or};
    ghost use Rattle.flp_policy.specs.Rooms.{leaves};

    ghost would = { λ policy more of. leaves (get_or policy.left of None) more.rejected };

    fn tell(&mut self, bucket: u32, verdict: Verdict) {
        if matches!(verdict, Verdict::Rejected) {
            let at = bucket as usize;
            self.left[at] = self.left[at].and_then(|left| left.checked_sub(1));
        }
    }

    fn release(&self, bucket: u32) -> bool {
        self.left[bucket as usize].is_some()
    }
}
