//! All passes, one after the other.
ghost use Rattle.std.specs.Prelude.{◌≡◌, ◌≢◌, ◌<◌, ◌^◌, [], map, Ok, Err, IfOk, IfErr, MatchResult};
ghost use Rattle.flp_syntax.specs.View.{program_of, statement_of};
ghost use Rattle.flp_syntax.specs.Tree.{statements};
ghost use Rattle.flp_syntax.specs.WellFormed.{ProgramIsWell};
ghost use Rattle.flp_syntax.specs.declared.fault.LangFault.TheVariants.{Memory};
ghost use Rattle.flp_check.specs.Events.{body_events, stmts_events};
ghost use Rattle.flp_check.specs.Counts.{Reaches, Stops};
ghost use Rattle.flp_check.specs.Held.{counts_of};
ghost use Rattle.flp_check.specs.Verdict.{verdict, flaw_fault, no_counts};

use crate::counter::Counter;
use crate::flaw::{Flaw, Rule};
use crate::limits::{closing_limits, declared_limits};
use crate::passed::Checked;
use crate::text::first_flaw;
use crate::unroll::Unroller;
use flp_list::List;
use flp_rename::renamed;
use flp_syntax::{Body, LangFault, Stmt};
use std::alloc::Global;

/// A flaw as a fault.
fn fault_of(flaw: Flaw) -> LangFault
    requires { flaw.at < 2 ^ 32 }
    ensures { result ≡ flaw_fault flaw }
{
    let at = flaw.at as u32;
    match flaw.rule {
        Rule::Name => LangFault::Name(at),
        Rule::Twice => LangFault::Twice(at),
        Rule::NotLinear => LangFault::NotLinear(at),
    }
}

/// What statements meet, loops unrolled.
fn walked(alloc: Global, body: &Body, stmts: &[Stmt]) -> Result<Counter, LangFault>
    ensures { MatchResult result (λ counter. Reaches (no_counts (program_of body.now)) (stmts_events (program_of body.now) [] (statements (map statement_of stmts.now))) (counts_of counter)) (λ fault. Stops (no_counts (program_of body.now)) (stmts_events (program_of body.now) [] (statements (map statement_of stmts.now))) fault) }
{
    let mut counter = Counter {
        visits: 0,
        calls: vec![in alloc; 0; body.gadgets.as_slice().len()]?,
        checks: 0,
        outs: 0,
    };
    let unroller = Unroller { alloc, body };
    unroller.stmts(&[], stmts, &mut counter)?;
    Ok(counter)
}

/// What a body meets, loops unrolled: that of a copy in which each loop is named by its depth.
fn unrolled(alloc: Global, body: &Body) -> Result<Counter, LangFault>
    ensures { MatchResult result (λ counter. Reaches (no_counts (program_of body.now)) (body_events (program_of body.now)) (counts_of counter)) (λ fault. Stops (no_counts (program_of body.now)) (body_events (program_of body.now)) fault) }
{
    let copy = renamed(alloc, body.stmts.as_slice())?;
    walked(alloc, body, copy.as_slice())
}

/// Judges a body: its calls, checks and outputs, or its first fault.
///
/// The faults in their order: the limits of what is declared (`Limit` of `Meas`, `Joint`, `Gadgets`, `Arity`, `Degree`);
/// over the whole text, the one at the least token of `Name`, `Twice` and `NotLinear`; unrolling the loops, the first that
/// is met of `Limit(Visits, 4194305)`, `Index`, `Arity`, `Limit(Calls, 4096)`, `Limit(Checks, 65537)` and
/// `Limit(Outs, 65537)`; at the end `Uncalled`, `Limit(Checks, 0)` and `Limit(Outs, 0)`. At most 4,194,304 nodes are met,
/// whatever the bounds of the loops, and the stack is as deep as the text. `Memory` may come at any time.
pub fn check(alloc: Global, body: Body) -> Result<Checked, LangFault>
    requires { ProgramIsWell (program_of body) }
    ensures kept { IfOk result (λ checked. checked.body ≡ body) }
    ensures passed { IfOk result (λ checked. verdict (program_of body) ≡ Ok (record { calls = checked.calls; checks = checked.checks; outs = checked.outs })) }
    ensures refused { IfErr result (λ fault. fault ≢ Memory → verdict (program_of body) ≡ Err fault) }
{
    declared_limits(&body)?;
    let flaw = first_flaw(alloc, &body)?;
    if let Some(flaw) = flaw {
        return Err(fault_of(flaw));
    }
    let counter = unrolled(alloc, &body)?;
    let Counter {
        calls,
        checks,
        outs,
        ..
    } = counter;
    closing_limits(&calls, checks, outs)?;
    Ok(Checked {
        body,
        calls: List::from_vec(calls),
        checks,
        outs,
    })
}
