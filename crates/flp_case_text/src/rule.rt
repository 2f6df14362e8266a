//! Policies that are handed in.

use crate::Fault;
use crate::bytes::parts;
use crate::numbers::number;

/// When a policy that a case hands in allows the release.
#[derive(Debug, Clone, Copy, PartialEq, Eq)]
pub enum Rule {
    /// Where so many reports or more are accepted.
    Floor(u64),
    /// Where so many reports or fewer are rejected.
    Ceiling(u64),
    /// Never.
    Never,
}

impl Rule {
    /// `floor N`, `ceiling N` or `never`.
    pub(crate) fn read(text: &str) -> Result<Rule, Fault> {
        match parts(text) {
            ("floor", least) => Ok(Rule::Floor(number(least)?)),
            ("ceiling", most) => Ok(Rule::Ceiling(number(most)?)),
            ("never", "") => Ok(Rule::Never),
            _ => Err(Fault::Line(0)),
        }
    }
}
