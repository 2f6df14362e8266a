//! Steps of values that are made of the values of others.
ghost use Rattle.std.specs.Prelude.{◌≡◌, ◌+◌, ◌-◌, ◌*◌, ◌^◌, ◌<◌, length, slice_index, IfOk, IfSome};
ghost use Rattle.flp_field.specs.Word.{modulus};
ghost use Rattle.flp_meaning.specs.Meaning.{value_with_sign};
ghost use Rattle.flp_forms.specs.LinearForms.{ScaleFits};
ghost use Rattle.flp_emit.specs.Emitting.{sign_factor, Scales};
ghost use Rattle.flp_emit.specs.Standing.{so_far, MakesValue};

use crate::Memory;
use flp_field::Fe;
use flp_forms::{Scale, Steps};

/// A step of a number of 32 bits.
pub(crate) fn number(steps: &mut Steps, value: u32) -> Result<u32, Memory>
    ensures { IfOk result (λ step. MakesValue steps.old steps.new step (λ _. value)) }
{
    match Fe::new(u64::from(value)) {
        Some(word) => constant(steps, word),
        None => unreachable!(),
    }
}

/// A step of a word.
pub(crate) fn constant(steps: &mut Steps, word: Fe) -> Result<u32, Memory>
    ensures { IfOk result (λ step. MakesValue steps.old steps.new step (λ _. word)) }
{
    let step = steps.constant(word)?;
    Ok(step)
}

/// A step of the sum so far and one more item.
pub(crate) fn added(steps: &mut Steps, sum: Option<u32>, item: u32) -> Result<u32, Memory>
    requires sum { IfSome sum (λ step. step < length steps.old.steps) }
    requires item { item < length steps.old.steps }
    ensures { IfOk result (λ step. MakesValue steps.old steps.new step (λ values. so_far 0 sum values + slice_index values item)) }
{
    match sum {
        None => Ok(item),
        Some(sum) => {
            let step = steps.sum(sum, item)?;
            Ok(step)
        }
    }
}

/// A step of the product so far and one more factor.
pub(crate) fn multiplied(
    steps: &mut Steps,
    product: Option<u32>,
    factor: u32,
) -> Result<u32, Memory>
    requires product { IfSome product (λ step. step < length steps.old.steps) }
    requires factor { factor < length steps.old.steps }
    ensures { IfOk result (λ step. MakesValue steps.old steps.new step (λ values. so_far 1 product values * slice_index values factor)) }
{
    match product {
        None => Ok(factor),
        Some(product) => {
            let step = steps.product(product, factor)?;
            Ok(step)
        }
    }
}

/// A step of the parts so far; of a word where there are none.
pub(crate) fn settled(steps: &mut Steps, part: Option<u32>, none: Fe) -> Result<u32, Memory>
    requires { IfSome part (λ step. step < length steps.old.steps) }
    ensures { IfOk result (λ step. MakesValue steps.old steps.new step (λ values. so_far none part values)) }
{
    match part {
        None => constant(steps, none),
        Some(step) => Ok(step),
    }
}

/// A step of a power.
pub(crate) fn raised(steps: &mut Steps, base: u32, exponent: u32) -> Result<u32, Memory>
    requires { base < length steps.old.steps }
    ensures { IfOk result (λ step. MakesValue steps.old steps.new step (λ values. slice_index values base ^ exponent)) }
{
    let step = steps.power(base, exponent)?;
    Ok(step)
}

/// A step of an item of a sum with its sign.
pub(crate) fn with_sign(steps: &mut Steps, minus: bool, item: u32) -> Result<u32, Memory>
    requires { item < length steps.old.steps }
    ensures { IfOk result (λ step. MakesValue steps.old steps.new step (λ values. value_with_sign minus (slice_index values item))) }
{
    if minus {
        let minus_one = minus_one(steps)?;
        let step = steps.product(minus_one, item)?;
        Ok(step)
    } else {
        Ok(item)
    }
}

/// A step of -1.
pub(crate) fn minus_one(steps: &mut Steps) -> Result<u32, Memory>
    ensures { IfOk result (λ step. MakesValue steps.old steps.new step (λ _. modulus - 1)) }
{
    let step = constant(steps, Fe::ONE.neg())?;
    Ok(step)
}

/// A coefficient times the value of a step.
pub(crate) fn scaled(steps: &mut Steps, scale: Scale, step: u32) -> Result<Scale, Memory>
    requires scale { ScaleFits (length steps.old.steps) scale }
    requires step { step < length steps.old.steps }
    ensures { IfOk result (λ after. Scales steps.old steps.new scale after (λ values. slice_index values step)) }
{
    let factor = steps.scale_of(step);
    let after = steps.scale_product(scale, factor)?;
    Ok(after)
}

/// A coefficient with the sign of an item of a sum.
pub(crate) fn scale_with_sign(steps: &mut Steps, minus: bool, scale: Scale) -> Result<Scale, Memory>
    requires { ScaleFits (length steps.old.steps) scale }
    ensures { IfOk result (λ after. Scales steps.old steps.new scale after (λ _. sign_factor minus)) }
{
    if minus {
        let after = steps.scale_product(scale, Scale::MinusOne)?;
        Ok(after)
    } else {
        Ok(scale)
    }
}
