//! The limits on what a body declares, and on what must be there at the end of its unrolling.
ghost use Rattle.std.specs.Prelude.{◌≡◌, ◌<◌, ◌^◌, [], ◌∷◌, None, Some, length, map, MatchResult};
ghost use Rattle.flp_syntax.specs.Scope.{declared_arity, declared_degree};
ghost use Rattle.flp_syntax.specs.View.{kind_of, declaration_of, program_of};
ghost use Rattle.flp_check.specs.Limits.{first, outside, named_count, gadget_faults, declared_faults, closing_faults, uncalled_faults};

use flp_list::List;
use flp_syntax::{Body, Counted, Decl, KindText, LangFault};

/// The most words of an encoding, joint words, checks and outputs.
const MAX_WORDS: u64 = 65_536;
/// The most gadgets.
const MAX_GADGETS: u64 = 8;
/// The most inputs of a gadget.
const MAX_ARITY: u64 = 1_024;
/// The highest degree of a gadget.
const MAX_DEGREE: u64 = 8;

/// How many inputs a gadget has; 2^64 - 1 where there are more.
#[tactic(auto, using(flp_syntax::specs::View::view_equations))]
pub fn arity(kind: &KindText) -> u64
    ensures { result ≡ named_count (declared_arity (kind_of kind.now)) }
{
    match kind {
        KindText::Mul => 2,
        KindText::Poly(_) => 1,
        KindText::Psum(count, inner) => count.saturating_mul(arity(inner)),
    }
}

/// The degree of a gadget; a polynomial's is the number of its coefficients less one.
#[tactic(auto, using(flp_syntax::specs::View::view_equations))]
fn degree(kind: &KindText) -> u64
    ensures { result ≡ named_count (declared_degree (kind_of kind.now)) }
{
    match kind {
        KindText::Mul => 2,
        KindText::Poly(coefs) => (coefs.as_slice().len() as u64).saturating_sub(1),
        KindText::Psum(_, inner) => degree(inner),
    }
}

/// Refuses a count outside its limits.
fn limit(which: Counted, low: u64, high: u64, count: u64) -> Result<(), LangFault>
    ensures { MatchResult result (λ _. outside which low high count ≡ []) (λ fault. outside which low high count ≡ fault ∷ []) }
{
    if count < low || count > high {
        return Err(LangFault::Limit(which, count));
    }
    Ok(())
}

/// Refuses a gadget whose arity or degree is outside its limits.
fn gadget_limits(decl: &Decl) -> Result<(), LangFault>
    ensures { MatchResult result (λ _. first (gadget_faults (declaration_of decl.now)) ≡ None) (λ fault. first (gadget_faults (declaration_of decl.now)) ≡ Some fault) }
{
    limit(Counted::Arity, 1, MAX_ARITY, arity(&decl.kind))?;
    limit(Counted::Degree, 1, MAX_DEGREE, degree(&decl.kind))?;
    Ok(())
}

/// Refuses a body whose declarations are outside their limits, by the first of them.
pub fn declared_limits(body: &Body) -> Result<(), LangFault>
    ensures { MatchResult result (λ _. first (declared_faults (program_of body.now)) ≡ None) (λ fault. first (declared_faults (program_of body.now)) ≡ Some fault) }
{
    limit(Counted::Meas, 1, MAX_WORDS, body.meas)?;
    limit(Counted::Joint, 0, MAX_WORDS, body.joint)?;
    let gadgets = body.gadgets.as_slice();
    limit(Counted::Gadgets, 0, MAX_GADGETS, gadgets.len() as u64)?;
    for decl in gadgets {
        gadget_limits(decl)?;
    }
    Ok(())
}

/// Refuses counts in which something is missing: a call of each gadget, a check, an output.
pub fn closing_limits(calls: &[u32], checks: u32, outs: u32) -> Result<(), LangFault>
    requires { length calls.now < 2 ^ 32 }
    ensures { MatchResult result (λ _. first (closing_faults calls.now checks outs) ≡ None) (λ fault. first (closing_faults calls.now checks outs) ≡ Some fault) }
{
    all_called(calls)?;
    limit(Counted::Checks, 1, MAX_WORDS, u64::from(checks))?;
    limit(Counted::Outs, 1, MAX_WORDS, u64::from(outs))?;
    Ok(())
}

/// Refuses calls of gadgets where one is not called, by the first of them.
fn all_called(calls: &[u32]) -> Result<(), LangFault>
    requires { length calls.now < 2 ^ 32 }
    ensures { MatchResult result (λ _. uncalled_faults 0 calls.now ≡ []) (λ fault. first (uncalled_faults 0 calls.now) ≡ Some fault) }
{
    for (gadget, calls) in calls.iter().enumerate() {
        if *calls == 0 {
            return Err(LangFault::Uncalled(gadget as u32));
        }
    }
    Ok(())
}
