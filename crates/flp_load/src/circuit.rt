//! The passes over a circuit text, one after the other.
ghost use Rattle.std.specs.Prelude.{◌≡◌, ◌≢◌, ◌⊎◌, ℕ, List, Option, None, Some, IfOk, IfErr};
ghost use Rattle.flp_syntax.specs.declared.syntax.Params.{Params};
ghost use Rattle.flp_syntax.specs.declared.fault.LangFault.TheVariants.{Memory};
ghost use Rattle.flp_syntax.specs.Tree.{Program, standard, program};
ghost use Rattle.flp_syntax.specs.View.{program_of};
ghost use Rattle.flp_syntax.specs.WellFormed.{ProgramIsWell};
ghost use Rattle.flp_lang.specs.Parsed.{IsParsed, IsParseFault};
ghost use Rattle.flp_circuits.specs.Sizes.{IsParamFault};
ghost use Rattle.flp_plan.specs.Counted.{limit_fault, IsFaultOf};
ghost use Rattle.flp_load.specs.Loaded.{IsRead, IsChecked, IsLoaded};
ghost use Rattle.flp_load.specs.Fault.{IsCheckFault, IsLoadFault};

use crate::fault::{CircuitFault, LoadFault};
use flp_check::check;
use flp_circuits::{ParamFault, body_of};
use flp_lang::parse;
use flp_plan::{Plan, PlanFault, compile};
use flp_syntax::{Body, Circuit, LangFault, Params};
use std::alloc::Global;

/// The compiled circuit of a text.
#[derive(Drop)]
pub struct Loaded {
    /// The parameters, where the text names a standard circuit.
    pub params: Option<Params>,
    /// The plan of the circuit.
    pub plan: Plan,
}

/// Loads the circuit of a text.
///
/// The text is parsed; where it names a standard circuit, that of its parameters is taken; the circuit is checked and
/// compiled. The first fault in this order is answered. `Memory` may come at any time.
pub fn load_circuit(alloc: Global, text: &[u8]) -> Result<Loaded, LoadFault>
    ensures loaded { IfOk result (λ loaded. IsLoaded text.now loaded.params loaded.plan.circuit) }
    ensures fault { IfErr result (IsLoadFault text.now) }
{
    let circuit = match parse(alloc, text) {
        Ok(circuit) => circuit,
        Err(fault) => return Err(from_lang(fault)),
    };
    match circuit {
        Circuit::Standard(params) => load_standard(alloc, params),
        Circuit::Body(body) => load_body(alloc, body),
    }
}

/// Loads a standard circuit.
fn load_standard(alloc: Global, params: Params) -> Result<Loaded, LoadFault>
    ensures loaded { (text : List ℕ) → IsParsed text (standard params) → IfOk result (λ loaded. IsLoaded text loaded.params loaded.plan.circuit) }
    ensures fault { (text : List ℕ) → IsParsed text (standard params) → IfErr result (IsLoadFault text) }
{
    let body = match body_of(alloc, &params) {
        Ok(body) => body,
        Err(fault) => return Err(from_param(fault, &params)),
    };
    match planned(alloc, body) {
        Ok(plan) => Ok(Loaded {
            params: Some(params),
            plan,
        }),
        Err(fault) => Err(fault),
    }
}

/// Loads a circuit of the text's own.
fn load_body(alloc: Global, body: Body) -> Result<Loaded, LoadFault>
    requires { ProgramIsWell (program_of body) }
    ensures loaded { (text : List ℕ) → IsParsed text (program (program_of body)) → IfOk result (λ loaded. IsLoaded text loaded.params loaded.plan.circuit) }
    ensures fault { (text : List ℕ) → IsParsed text (program (program_of body)) → IfErr result (IsLoadFault text) }
{
    match planned(alloc, body) {
        Ok(plan) => Ok(Loaded { params: None, plan }),
        Err(fault) => Err(fault),
    }
}

/// Checks and compiles a circuit.
fn planned(alloc: Global, body: Body) -> Result<Plan, LoadFault>
    requires { ProgramIsWell (program_of body) }
    ensures circuit { IfOk result (λ plan. plan.circuit ≡ program_of body) }
    ensures passed { IfOk result (λ plan. IsChecked plan.circuit × (limit_fault plan.circuit ≡ None)) }
    ensures fault { (text : List ℕ) (params : Option Params) → IsRead text params (program_of body) → IfErr result (IsLoadFault text) }
{
    let checked = match check(alloc, body) {
        Ok(checked) => checked,
        Err(fault) => return Err(from_lang(fault)),
    };
    match compile(alloc, checked) {
        Ok(plan) => Ok(plan),
        Err(fault) => Err(from_plan(fault)),
    }
}

/// A fault of the text or of its body.
fn from_lang(fault: LangFault) -> LoadFault
    ensures { (text : List ℕ) → (fault ≢ Memory → IsParseFault text fault ⊎ IsCheckFault text fault) → IsLoadFault text result }
{
    match fault {
        LangFault::Memory => LoadFault::Memory,
        fault => LoadFault::Circuit(CircuitFault::Lang(fault)),
    }
}

/// A fault of parameters.
#[tactic(auto, using(crate::proofs::FaultLemmas::refusal_is))]
fn from_param(fault: ParamFault, params: &Params) -> LoadFault
    requires { IsParamFault params.now fault }
    ensures { (text : List ℕ) → IsParsed text (standard params.now) → IsLoadFault text result }
{
    let _params = *params;
    match fault {
        ParamFault::Memory => LoadFault::Memory,
        fault => LoadFault::Circuit(CircuitFault::Param(fault)),
    }
}

/// A fault of compiling.
#[tactic(auto, using(crate::proofs::FaultLemmas::limit_is))]
fn from_plan(fault: PlanFault) -> LoadFault
    ensures { (text : List ℕ) (params : Option Params) (circuit : Program) → IsRead text params circuit → IsChecked circuit → IsFaultOf circuit fault → IsLoadFault text result }
{
    match fault {
        PlanFault::Memory => LoadFault::Memory,
        fault => LoadFault::Circuit(CircuitFault::Plan(fault)),
    }
}
