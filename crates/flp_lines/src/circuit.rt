//! The words of a refused circuit.
ghost use Rattle.std.specs.Prelude.{◌≡◌, ◌+◌, ◌≤◌, ◌++◌, length};
ghost use Rattle.flp_lines.specs.Circuit.{counted_name, param_name, planned_name, lang_text, param_text, plan_text, circuit_text};

use crate::line::Line;
use flp_circuits::{Param, ParamFault};
use flp_load::CircuitFault;
use flp_plan::{PlanCounted, PlanFault};
use flp_syntax::{Counted, LangFault};

/// The name of what a limit of a text counts.
fn counted_name(which: Counted) -> &'static [u8]
    ensures name { result.now ≡ counted_name which }
    ensures size { length result.now ≤ 7 }
{
    match which {
        Counted::Meas => b"meas",
        Counted::Joint => b"joint",
        Counted::Gadgets => b"gadgets",
        Counted::Arity => b"arity",
        Counted::Degree => b"degree",
        Counted::Visits => b"visits",
        Counted::Calls => b"calls",
        Counted::Checks => b"checks",
        Counted::Outs => b"outs",
    }
}

/// The name of a parameter, or of a number that parameters give.
fn param_name(which: Param) -> &'static [u8]
    ensures name { result.now ≡ param_name which }
    ensures size { length result.now ≤ 7 }
{
    match which {
        Param::Max => b"max",
        Param::Length => b"length",
        Param::Bits => b"bits",
        Param::Chunk => b"chunk",
        Param::Weight => b"weight",
        Param::Meas => b"meas",
        Param::Calls => b"calls",
    }
}

/// The name of what a limit of a plan counts.
fn planned_name(which: PlanCounted) -> &'static [u8]
    ensures name { result.now ≡ planned_name which }
    ensures size { length result.now ≤ 7 }
{
    match which {
        PlanCounted::Wires => b"wires",
        PlanCounted::Terms => b"terms",
    }
}

/// Appends the words of a fault of the text.
fn push_lang_fault(line: &mut Line, fault: LangFault)
    requires { length line.old ≤ 14 }
    ensures text { line.new ≡ line.old ++ lang_text fault }
    ensures size { length line.new ≤ 80 }
{
    match fault {
        LangFault::Memory => line.push(b"memory"),
        LangFault::TextLength(length) => line.push_numbered(b"text length ", length),
        LangFault::Lex(at) => line.push_numbered(b"lex ", u64::from(at)),
        LangFault::Syntax(token) => line.push_numbered(b"syntax ", u64::from(token)),
        LangFault::Name(token) => line.push_numbered(b"name ", u64::from(token)),
        LangFault::Twice(token) => line.push_numbered(b"twice ", u64::from(token)),
        LangFault::NotLinear(token) => line.push_numbered(b"not linear ", u64::from(token)),
        LangFault::Index(token) => line.push_numbered(b"index ", u64::from(token)),
        LangFault::Arity(token) => line.push_numbered(b"arity ", u64::from(token)),
        LangFault::Uncalled(gadget) => line.push_numbered(b"uncalled ", u64::from(gadget)),
        LangFault::Limit(which, count) => line.push_named(b"limit ", counted_name(which), count),
        LangFault::Depth(token) => line.push_numbered(b"depth ", u64::from(token)),
    }
}

/// Appends the words of refused parameters.
fn push_param_fault(line: &mut Line, fault: ParamFault)
    requires { length line.old ≤ 14 }
    ensures text { line.new ≡ line.old ++ param_text fault }
    ensures size { length line.new ≤ 80 }
{
    match fault {
        ParamFault::Memory => line.push(b"memory"),
        ParamFault::Zero(which) => {
            line.push(b"zero ");
            line.push(param_name(which));
        }
        ParamFault::TooLarge(which, value) => {
            line.push_named(b"too large ", param_name(which), value)
        }
    }
}

/// Appends the words of a plan that would be too large.
fn push_plan_fault(line: &mut Line, fault: PlanFault)
    requires { length line.old ≤ 14 }
    ensures text { line.new ≡ line.old ++ plan_text fault }
    ensures size { length line.new ≤ 80 }
{
    match fault {
        PlanFault::Memory => line.push(b"memory"),
        PlanFault::Limit(which, count) => line.push_named(b"limit ", planned_name(which), count),
    }
}

/// Appends the words of a circuit's fault.
pub fn push_circuit_fault(line: &mut Line, fault: CircuitFault)
    requires { length line.old ≤ 14 }
    ensures text { line.new ≡ line.old ++ circuit_text fault }
    ensures size { length line.new ≤ 80 }
{
    match fault {
        CircuitFault::Lang(fault) => push_lang_fault(line, fault),
        CircuitFault::Param(fault) => push_param_fault(line, fault),
        CircuitFault::Plan(fault) => push_plan_fault(line, fault),
    }
}
