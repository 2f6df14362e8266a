//! Public expressions: each becomes a step.
ghost use Rattle.std.specs.Prelude.{◌≡◌, ◌≤◌, ◌<◌, ℕ, false, map, length, IfOk};
ghost use Rattle.flp_syntax.specs.Tree.{items, trees};
ghost use Rattle.flp_syntax.specs.Sorts.{is_shared, has_shared_item, has_shared};
ghost use Rattle.flp_syntax.specs.Scope.{inside, turns};
ghost use Rattle.flp_syntax.specs.View.{tree_of, item_of, program_of};
ghost use Rattle.flp_meaning.specs.Meaning.{meaning, items_of, factors_of, total, product};
ghost use Rattle.flp_syntax.specs.Fits.{TreeFits, ItemsFit, FactorsFit};
ghost use Rattle.flp_syntax.specs.View.{scope_of};
ghost use Rattle.flp_forms.specs.LinearForms.{ScaleFits};
ghost use Rattle.flp_emit.specs.Emitting.{public_part, public_parts, ScalesRun};
ghost use Rattle.flp_emit.specs.Marks.{BeginWith, factor_marks, marks_of};
ghost use Rattle.flp_emit.specs.Standing.{Makes};

use crate::Memory;
use crate::index::{index_value, turns_of};
use crate::marks::{behind_first, first_is_shared};
use crate::scope::{Place, Turns, enter};
use crate::value::{added, constant, multiplied, number, raised, scaled, settled, with_sign};
use flp_field::Fe;
use flp_forms::{Scale, Steps};
use flp_syntax::{Expr, Item, bound_value};

/// A step of the value of a public expression.
#[cycle(public)]
#[tactic(auto, using(flp_syntax::specs::View::view_equations))]
pub(crate) fn public_step<'a>(
    place: Place<'a, '_>,
    steps: &mut Steps,
    expr: &'a Expr,
) -> Result<u32, Memory>
    requires joint { steps.old.joint ≡ place.body.now.joint }
    requires public { is_shared (tree_of expr.now) ≡ false }
    requires fits { TreeFits (program_of place.body.now) (scope_of place.scope.now) (tree_of expr.now) }
    ensures { IfOk result (λ step. Makes steps.old steps.new step (λ reading. meaning (program_of place.entry.body.now).gadgets reading (scope_of place.entry.scope.now) (tree_of expr.now))) }
{
    match expr {
        Expr::Number { value, .. } => constant(steps, *value),
        Expr::Var { name, .. } => number(steps, bound_value(place.scope, name.as_slice())),
        Expr::Joint { index, .. } => {
            let word = index_value(place.scope, index);
            Ok(steps.joint(word))
        }
        Expr::Sum {
            name,
            from,
            to,
            inner,
            ..
        } => public_turns(place, steps, turns_of(place.scope, name, from, to), inner),
        Expr::Add { items, .. } => public_sum(place, steps, items.as_slice()),
        Expr::Mul { factors, .. } => public_product(place, steps, factors.as_slice()),
        Expr::Pow { base, exponent, .. } => {
            let exponent = index_value(place.scope, exponent);
            let base = public_step(place, steps, base)?;
            let power = raised(steps, base, exponent)?;
            Ok(power)
        }
        Expr::Meas { .. } | Expr::MeasOrZero { .. } | Expr::Call { .. } => unreachable!(),
    }
}

/// A step of the sum over the turns of a loop.
#[cycle(public)]
fn public_turns<'a>(
    place: Place<'a, '_>,
    steps: &mut Steps,
    over: Turns<'a>,
    inner: &'a Expr,
) -> Result<u32, Memory>
    requires joint { steps.old.joint ≡ place.body.now.joint }
    requires public { is_shared (tree_of inner.now) ≡ false }
    requires fits { (turn : ℕ) → over.from ≤ turn → turn < over.to → TreeFits (program_of place.body.now) (inside (scope_of place.scope.now) over.name.now turn) (tree_of inner.now) }
    ensures { IfOk result (λ step. Makes steps.old steps.new step (λ reading. total (map (λ turn. meaning (program_of place.entry.body.now).gadgets reading (inside (scope_of place.entry.scope.now) over.entry.name.now turn) (tree_of inner.now)) (turns over.entry.from over.entry.to)))) }
{
    let mut sum = None;
    let mut room = Vec::new(place.alloc);
    for turn in over.from..over.to {
        enter(&mut room, place.scope, over.name, turn)?;
        let step = public_step(
            Place {
                scope: &room,
                ..place
            },
            steps,
            inner,
        )?;
        sum = Some(added(steps, sum, step)?);
    }
    let all = settled(steps, sum, Fe::ZERO)?;
    Ok(all)
}

/// A step of the sum of public items.
#[cycle(public)]
fn public_sum<'a>(place: Place<'a, '_>, steps: &mut Steps, list: &'a [Item]) -> Result<u32, Memory>
    requires joint { steps.old.joint ≡ place.body.now.joint }
    requires public { has_shared_item (items (map item_of list.now)) ≡ false }
    requires fits { ItemsFit (program_of place.body.now) (scope_of place.scope.now) (items (map item_of list.now)) }
    ensures { IfOk result (λ step. Makes steps.old steps.new step (λ reading. total (items_of (program_of place.entry.body.now).gadgets reading (scope_of place.entry.scope.now) false (items (map item_of list.entry.now))))) }
{
    let mut sum = None;
    for item in list {
        let value = public_step(place, steps, &item.expr)?;
        let step = with_sign(steps, item.minus, value)?;
        sum = Some(added(steps, sum, step)?);
    }
    let all = settled(steps, sum, Fe::ZERO)?;
    Ok(all)
}

/// A step of the product of public factors.
#[cycle(public)]
fn public_product<'a>(
    place: Place<'a, '_>,
    steps: &mut Steps,
    factors: &'a [Expr],
) -> Result<u32, Memory>
    requires joint { steps.old.joint ≡ place.body.now.joint }
    requires public { has_shared (trees (map tree_of factors.now)) ≡ false }
    requires fits { FactorsFit (program_of place.body.now) (scope_of place.scope.now) (trees (map tree_of factors.now)) }
    ensures { IfOk result (λ step. Makes steps.old steps.new step (λ reading. product (factors_of (program_of place.entry.body.now).gadgets reading (scope_of place.entry.scope.now) (trees (map tree_of factors.entry.now))))) }
{
    let mut product = None;
    for factor in factors {
        let step = public_step(place, steps, factor)?;
        product = Some(multiplied(steps, product, step)?);
    }
    let all = settled(steps, product, Fe::ONE)?;
    Ok(all)
}

/// The coefficient times the public factors of a product.
pub(crate) fn public_scale<'a>(
    place: Place<'a, '_>,
    steps: &mut Steps,
    scale: Scale,
    factors: &'a [Expr],
) -> Result<Scale, Memory>
    requires joint { steps.old.joint ≡ place.body.now.joint }
    requires fits { FactorsFit (program_of place.body.now) (scope_of place.scope.now) (trees (map tree_of factors.now)) }
    requires scale { ScaleFits (length steps.old.steps) scale }
    requires marks { BeginWith place.marks.now (factor_marks (trees (map tree_of factors.now))) }
    ensures { IfOk result (λ after. ScalesRun steps.old steps.new scale after (λ reading. product (public_parts (program_of place.entry.body.now).gadgets reading (scope_of place.entry.scope.now) (trees (map tree_of factors.entry.now))))) }
{
    let mut marks = place.marks;
    let mut all = scale;
    for factor in factors {
        all = public_factor(Place { marks, ..place }, steps, all, factor)?;
        marks = behind_first(marks);
    }
    Ok(all)
}

/// The coefficient times a factor, if that is public.
fn public_factor<'a>(
    place: Place<'a, '_>,
    steps: &mut Steps,
    scale: Scale,
    factor: &'a Expr,
) -> Result<Scale, Memory>
    requires joint { steps.old.joint ≡ place.body.now.joint }
    requires fits { TreeFits (program_of place.body.now) (scope_of place.scope.now) (tree_of factor.now) }
    requires scale { ScaleFits (length steps.old.steps) scale }
    requires marks { BeginWith place.marks.now (marks_of (tree_of factor.now)) }
    ensures { IfOk result (λ after. ScalesRun steps.old steps.new scale after (λ reading. public_part (program_of place.entry.body.now).gadgets reading (scope_of place.entry.scope.now) (tree_of factor.now))) }
{
    if first_is_shared(place.marks) {
        Ok(scale)
    } else {
        let step = public_step(place, steps, factor)?;
        let after = scaled(steps, scale, step)?;
        Ok(after)
    }
}
