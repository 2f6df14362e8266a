//! Which bodies pass, and what was counted of them.
ghost use Rattle.std.specs.Prelude.{◌≡◌, ◌≤◌, Ok, length};
ghost use Rattle.flp_syntax.specs.View.{program_of};
ghost use Rattle.flp_check.specs.Verdict.{verdict};

use flp_list::List;
use flp_syntax::Body;

/// A body that passed `check`, with the calls of each gadget, the checks and the outputs, loops unrolled.
#[derive(Debug, Drop)]
pub struct Checked {
    pub body: Body,
    pub calls: List<u32>,
    pub checks: u32,
    pub outs: u32,
    pub ghost some_gadget: { 1 ≤ length body.gadgets },
    pub ghost passed: { verdict (program_of body) ≡ Ok (record { calls = calls; checks = checks; outs = outs }) },
}
