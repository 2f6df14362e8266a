//! How many words each part of a report has.
ghost use Rattle.std.specs.Prelude.{◌≡◌, ◌≤◌, nat_lt, if◌then◌else◌};
ghost use Rattle.flp_syntax.specs.View.{program_of};
ghost use Rattle.flp_plan.specs.Counted.{counted_lengths};
ghost use Rattle.flp_plan.specs.Uses.{AreUsesOf};
ghost use Rattle.flp_plan.specs.Sums.{AreSumsOf};

use crate::gadgets::{GadgetUse, Sums};
use flp_check::Checked;

/// How many words each part of a report has, for one share and one proof.
#[derive(Debug, Clone, Copy, PartialEq, Eq)]
pub struct Lengths {
    /// Words of an encoding.
    pub meas: u32,
    /// Joint words of a proof.
    pub joint: u32,
    /// Seeds of a proof, which its prover chooses.
    pub prove: u32,
    /// Query words of a proof: one for each check where there are several, and one for each gadget.
    pub query: u32,
    /// Words of a proof: the seeds of each gadget and the coefficients of its polynomial.
    pub proof: u32,
    /// Words of a verifier.
    pub verifier: u32,
    /// Words that are aggregated.
    pub outs: u32,
}

/// The lengths of a checked circuit with these gadgets, which take so much together.
pub(crate) fn lengths_for(checked: &Checked, uses: &[GadgetUse], sums: Sums) -> Lengths
    requires uses { AreUsesOf (program_of checked.now.body) uses.now }
    requires sums { AreSumsOf uses.now sums }
    ensures { result ≡ counted_lengths (program_of checked.now.body) }
{
    let gadgets = uses.len() as u32;
    Lengths {
        meas: checked.body.meas as u32,
        joint: checked.body.joint as u32,
        prove: sums.prove,
        query: gadgets + check_words(checked.checks),
        proof: sums.proof,
        verifier: 1 + sums.verifier,
        outs: checked.outs,
    }
}

/// The words that combine so many checks: none where there is but one.
fn check_words(checks: u32) -> u32
    ensures { result ≡ (if nat_lt 1 checks then checks else 0) }
{
    if checks > 1 { checks } else { 0 }
}
