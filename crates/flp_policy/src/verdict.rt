//! The verdict on a report.
ghost use Rattle.std.specs.Prelude.{◌≡◌};
ghost use Rattle.flp_policy.specs.Verdicts.{is_accepted};

/// What is said of one report.
#[derive(Clone, Copy, Debug, PartialEq, Eq)]
pub enum Verdict {
    /// Each proof holds; the report counts.
    Accepted,
    /// Some proof does not hold.
    Rejected,
    /// The query word of this proof lies in the domain of this gadget, where it would show an input.
    InDomain { proof: u32, gadget: u32 },
    /// This word of the record is no word of the field.
    Malformed { word: u32 },
    /// An old claim, or an earlier report, has the same nonce.
    Replayed,
}

impl Verdict {
    /// Whether the report counts.
    pub fn is_accepted(self) -> bool
        ensures { result ≡ is_accepted self }
    {
        matches!(self, Verdict::Accepted)
    }
}
