//! What is counted while unrolling, up to its limits.
ghost use Rattle.std.specs.Prelude.{◌∷◌, []};
ghost use Rattle.flp_check.specs.Events.{visit, gadget_call, a_check, an_out};
ghost use Rattle.flp_check.specs.Counts.{Walks};
ghost use Rattle.flp_check.specs.Held.{counts_of};

use flp_syntax::{Counted, LangFault};

/// The most nodes that are met.
pub const MAX_VISITS: u32 = 4_194_304;
/// The most calls of a gadget.
pub const MAX_CALLS: u32 = 4_095;
/// The most checks, and the most outputs.
pub const MAX_LINES: u32 = 65_536;

/// The nodes that were met, the calls of each gadget, the checks and the outputs.
#[derive(Drop)]
pub struct Counter {
    pub visits: u32,
    pub calls: Vec<u32>,
    pub checks: u32,
    pub outs: u32,
}

impl Counter {
    /// A node is met.
    pub fn visit(&mut self) -> Result<(), LangFault>
        ensures { Walks (counts_of self.old) (visit ∷ []) result (counts_of self.new) }
    {
        if self.visits >= MAX_VISITS {
            return Err(LangFault::Limit(Counted::Visits, 4_194_305));
        }
        self.visits += 1;
        Ok(())
    }

    /// A check is met.
    pub fn check(&mut self) -> Result<(), LangFault>
        ensures { Walks (counts_of self.old) (a_check ∷ []) result (counts_of self.new) }
    {
        if self.checks >= MAX_LINES {
            return Err(LangFault::Limit(Counted::Checks, 65_537));
        }
        self.checks += 1;
        Ok(())
    }

    /// An output is met.
    pub fn output(&mut self) -> Result<(), LangFault>
        ensures { Walks (counts_of self.old) (an_out ∷ []) result (counts_of self.new) }
    {
        if self.outs >= MAX_LINES {
            return Err(LangFault::Limit(Counted::Outs, 65_537));
        }
        self.outs += 1;
        Ok(())
    }

    /// A gadget is called.
    pub fn call(&mut self, gadget: usize) -> Result<(), LangFault>
        ensures { Walks (counts_of self.old) (gadget_call gadget ∷ []) result (counts_of self.new) }
    {
        if gadget >= self.calls.len() {
            return Ok(());
        }
        let calls = self.calls[gadget];
        if calls >= MAX_CALLS {
            return Err(LangFault::Limit(Counted::Calls, 4_096));
        }
        self.calls[gadget] = calls + 1;
        Ok(())
    }
}
