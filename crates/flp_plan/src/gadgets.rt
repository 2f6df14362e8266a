//! The gadgets of a circuit as a plan holds them, and how many words they take.
ghost use Rattle.std.specs.Prelude.{◌≡◌, ◌<◌, ◌≤◌, ◌^◌, ◌*◌, ◌+◌, ◌-◌, ℕ, IfOk, All, length, map, sum_by};
ghost use Rattle.flp_gadget.specs.KindTree.{IsKind, kind_arity, kind_degree};
ghost use Rattle.flp_syntax.specs.View.{program_of};
ghost use Rattle.flp_meaning.specs.Gadgets.{ceil_log, log_of};
ghost use Rattle.flp_meaning.specs.Terms.{wire_count};
ghost use Rattle.flp_plan.specs.Uses.{AreUsesOf, UseIsSmall, proof_words_in, verifier_words_in};
ghost use Rattle.flp_plan.specs.Sums.{ArePartsSmall, AreSumsOf};

use crate::kinds::{declared_inputs, declared_kind};
use flp_check::Checked;
use flp_gadget::{Gadget, Kind, Memory};
use std::alloc::Global;

/// A gadget as a plan holds it.
#[derive(Drop)]
pub(crate) struct GadgetUse {
    pub(crate) kind: Kind,
    pub(crate) calls: u32,
    /// The exponent of the size of its domain, a power of two.
    pub(crate) log: u32,
}

/// How many words all gadgets together take.
#[derive(Clone, Copy)]
pub(crate) struct Sums {
    /// Inputs.
    pub(crate) prove: u32,
    /// Words of a proof.
    pub(crate) proof: u32,
    /// Words of a verifier.
    pub(crate) verifier: u32,
}

/// The points of all wires of a checked circuit. It takes no memory.
pub(crate) fn wire_points(checked: &Checked) -> u32
    ensures { result ≡ wire_count (program_of checked.now.body) }
{
    let gadgets = checked.body.gadgets.as_slice();
    let mut points = 0;
    for (gadget, decl) in gadgets.iter().enumerate() {
        let inputs = declared_inputs(&decl.kind);
        let log = domain_log(checked, gadget);
        let size = domain_size(log);
        points += inputs * size;
    }
    points
}

/// The gadgets of a checked circuit.
pub(crate) fn gadget_uses(alloc: Global, checked: &Checked) -> Result<Vec<GadgetUse>, Memory>
    ensures { IfOk result (λ uses. AreUsesOf (program_of checked.now.body) uses.items) }
{
    let gadgets = checked.body.gadgets.as_slice();
    let counts = checked.calls.as_slice();
    let mut uses = Vec::with_capacity(alloc, gadgets.len())?;
    for (gadget, decl) in gadgets.iter().enumerate() {
        let kind = declared_kind(alloc, &decl.kind)?;
        let calls = counts[gadget];
        let log = domain_log(checked, gadget);
        uses.push(GadgetUse { kind, calls, log })?;
    }
    Ok(uses)
}

/// The exponent of the size of a gadget's domain.
fn domain_log(checked: &Checked, gadget: usize) -> u32
    requires { gadget < length (program_of checked.now.body).gadgets }
    ensures log { result ≡ log_of (program_of checked.now.body) gadget }
    ensures few { result ≤ 12 }
{
    let counts = checked.calls.as_slice();
    let calls = counts[gadget];
    log_at_least(calls + 1)
}

/// The exponent of the least power of two that is at least this number.
fn log_at_least(count: u32) -> u32
    requires { count ≤ 4096 }
    ensures { result ≡ ceil_log count }
{
    let mut size = 1;
    for log in 0..12 {
        if count <= size {
            return log;
        }
        size *= 2;
    }
    12
}

/// What the gadgets take together.
pub(crate) fn sums_of(uses: &[GadgetUse]) -> Sums
    requires few { length uses.now ≤ 8 }
    requires small { All UseIsSmall uses.now }
    ensures { AreSumsOf uses.now result }
{
    let mut sums = Sums {
        prove: 0,
        proof: 0,
        verifier: 0,
    };
    for held in uses {
        let parts = parts_of(held);
        sums.prove += parts.prove;
        sums.proof += parts.proof;
        sums.verifier += parts.verifier;
    }
    sums
}

/// What one gadget takes.
fn parts_of(held: &GadgetUse) -> Sums
    requires { UseIsSmall held.now }
    ensures prove { result.prove ≡ kind_arity held.now.kind }
    ensures proof { result.proof ≡ proof_words_in held.now }
    ensures verifier { result.verifier ≡ verifier_words_in held.now }
    ensures small { ArePartsSmall result }
{
    let arity = held.kind.arity() as u32;
    let degree = held.kind.degree() as u32;
    let size = domain_size(held.log);
    Sums {
        prove: arity,
        proof: arity + degree * (size - 1) + 1,
        verifier: arity + 1,
    }
}

/// The size of the domain with this exponent.
fn domain_size(log: u32) -> u32
    requires { log ≤ 12 }
    ensures size { result ≡ 2 ^ log }
    ensures small { result ≤ 4096 }
{
    1 << log
}
