//! The kinds of the declared gadgets.
ghost use Rattle.std.specs.Prelude.{◌≡◌, ◌++◌, List, Some, OnOk, IfOk};
ghost use Rattle.flp_gadget.specs.KindTree.{IsKind, kind_arity};
ghost use Rattle.flp_gadget.specs.KindText.{tree_of};
ghost use Rattle.flp_gadget.specs.declared.kind_step.KindStep as step;
ghost use Rattle.flp_syntax.specs.View as view;
ghost use Rattle.flp_meaning.specs.Circuit.{coefficient, kind_tree};
ghost use Rattle.flp_plan.specs.Kinds.{coefficients, StepsFollow};

use flp_field::Fe;
use flp_gadget::{Kind, KindStep, Memory, PolyEval, kind_of};
use flp_list::List;
use flp_syntax::{Coef, KindText};
use std::alloc::Global;

/// The kind of a declared gadget.
pub(crate) fn declared_kind(alloc: Global, text: &KindText) -> Result<Kind, Memory>
    requires { IsKind (kind_tree (view.kind_of text.now)) }
    ensures { IfOk result (λ kind. kind ≡ kind_tree (view.kind_of text.now)) }
{
    let mut steps = Vec::new(alloc);
    add_steps(alloc, &mut steps, text)?;
    let kind = kind_of(alloc, &steps)?;
    Ok(kind)
}

/// How many inputs a declared gadget has.
#[tactic(auto, using(flp_syntax::specs::View::view_equations))]
pub(crate) fn declared_inputs(text: &KindText) -> u32
    requires { IsKind (kind_tree (view.kind_of text.now)) }
    ensures { result ≡ kind_arity (kind_tree (view.kind_of text.now)) }
{
    match text {
        KindText::Mul => 2,
        KindText::Poly(_) => 1,
        KindText::Psum(count, inner) => {
            let each = declared_inputs(inner);
            *count as u32 * each
        }
    }
}

/// Adds the steps of a declared gadget, the outermost first.
#[tactic(auto, using(flp_syntax::specs::View::view_equations))]
fn add_steps(alloc: Global, steps: &mut Vec<KindStep>, text: &KindText) -> Result<(), Memory>
    requires { IsKind (kind_tree (view.kind_of text.now)) }
    ensures { OnOk result (StepsFollow steps.old.items steps.new.items (kind_tree (view.kind_of text.now))) }
{
    match text {
        KindText::Mul => steps.push(KindStep::Mul)?,
        KindText::Poly(coefs) => {
            let coeffs = words_of(alloc, coefs.as_slice())?;
            steps.push(KindStep::Poly(PolyEval { coeffs }))?;
        }
        KindText::Psum(count, inner) => {
            steps.push(KindStep::Psum(*count as u32))?;
            add_steps(alloc, steps, inner)?;
        }
    }
    Ok(())
}

/// The coefficients of a polynomial as words.
fn words_of(alloc: Global, coefs: &[Coef]) -> Result<List<Fe>, Memory>
    ensures { IfOk result (λ words. words ≡ coefficients coefs.now) }
{
    let mut words = Vec::with_capacity(alloc, coefs.len())?;
    for coef in coefs {
        words.push(word_of(*coef))?;
    }
    Ok(List::from_vec(words))
}

/// A coefficient as a word.
fn word_of(coef: Coef) -> Fe
    ensures { result ≡ coefficient coef }
{
    if coef.minus {
        coef.size.neg()
    } else {
        coef.size
    }
}
