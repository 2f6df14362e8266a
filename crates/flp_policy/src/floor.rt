//! A least number of accepted reports.
ghost use Rattle.std.specs.Prelude.{◌≡◌, ◌<◌, ℕ, nat_le, get_or};
ghost use Rattle.flp_policy.specs.Counts.{VerdictCounts};

use crate::{Policy, Verdict};

/// Allows the release of a bucket with at least so many accepted reports.
#[derive(Drop)]
pub struct Floor {
    // how many more each bucket needs
    needed: [u64; 256],
}

impl Floor {
    /// A policy that wants `least` accepted reports in each bucket that it allows.
    pub fn new(least: u64) -> Self
        ensures { (more : VerdictCounts) (of : ℕ) → of < 256 → ⟦<Floor as Policy>⟧.would result more of ≡ nat_le least more.accepted }
    {
        Self {
            needed: [least; 256],
        }
    }
}

impl Policy for Floor {
    ghost use Rattle.std.specs.Prelude.{nat_le, get_or};

    ghost would = { λ policy more of. nat_le (get_or policy.needed of 0) more.accepted };

    fn tell(&mut self, bucket: u32, verdict: Verdict) {
        if verdict.is_accepted() {
            let at = bucket as usize;
            self.needed[at] = self.needed[at].saturating_sub(1);
        }
    }

    fn release(&self, bucket: u32) -> bool {
        self.needed[bucket as usize] == 0
    }
}
